//! Files of tables: faults, and readers that fail at each place or never end.

use super::devices::Reader;
use super::same;
use super::samples::{TABLE_B, TABLE_D};
use bufr_tables::{Column, TableFault};
use bufr_tool::{Input, ToolFault, load_tables};
use std::alloc::Global;
use std::process::Abort;

/// Loads two texts in `reads` reads from readers that then end or fail, and compares the result.
/// Returns the reads of each, and the most octets that a read asked for.
fn assert_loaded(
    rt: &impl Abort,
    alloc: Global,
    (reads, most): (u32, usize),
    b: (&[u8], bool),
    d: (&[u8], bool),
    wanted: Option<ToolFault>,
) -> [(u64, usize); 2] {
    let mut b = Reader::new(b.0, 0, most, b.1);
    let mut d = Reader::new(d.0, 0, most, d.1);
    let fault = load_tables(alloc, u64::from(reads), &mut b, &mut d).err();
    same(rt, fault, wanted);
    [(b.reads, b.asked), (d.reads, d.asked)]
}

#[test]
fn tables_loaded(rt: HostRuntime) {
    let (b, d) = ((TABLE_B, false), (TABLE_D, false));
    let [(_, b_asked), (_, d_asked)] = assert_loaded(&rt, rt.alloc(), MANY, b, d, None);
    same(&rt, (b_asked, d_asked), (65_536, 65_536));
}

/// Texts of Table B and Table D, and their fault.
const LOADED: [(&[u8], &[u8], Option<ToolFault>); 2] = [
    (
        TABLE_B,
        b"FXY1,FXY2\n301001,x\n",
        Some(ToolFault::Table(Input::TableD, TableFault::BadRow(2))),
    ),
    (
        b"FXY\n\"a\",b\n",
        b"",
        Some(ToolFault::Table(Input::TableB, TableFault::NoColumn(Column::Unit))),
    ),
];

/// The faults of readers that fail or never end.
const B_FAILED: Option<ToolFault> = Some(ToolFault::ReadFailed(Input::TableB));

const D_FAILED: Option<ToolFault> = Some(ToolFault::ReadFailed(Input::TableD));

const B_ENDLESS: Option<ToolFault> = Some(ToolFault::EndlessInput(Input::TableB));

const D_ENDLESS: Option<ToolFault> = Some(ToolFault::EndlessInput(Input::TableD));

/// Ten thousand reads of five octets.
const MANY: (u32, usize) = (10_000, 5);

/// A reader of a table fails at each place, whatever it gave before; that of Table D only after
/// Table B.
#[test]
fn faults_of_tables(rt: HostRuntime) {
    let alloc = rt.alloc();
    for (b, d, wanted) in LOADED {
        let _ = assert_loaded(&rt, alloc, MANY, (b, false), (d, false), wanted);
    }
    for length in 0..=TABLE_B.len() {
        let front = TABLE_B.get(..length).expect(&rt, "a front");
        for d_breaks in [false, true] {
            let _ = assert_loaded(
                &rt,
                alloc,
                MANY,
                (front, true),
                (TABLE_D, d_breaks),
                B_FAILED,
            );
        }
    }
    for length in 0..=TABLE_D.len() {
        let front = TABLE_D.get(..length).expect(&rt, "a front");
        let _ = assert_loaded(&rt, alloc, MANY, (TABLE_B, false), (front, true), D_FAILED);
    }
}

/// The first endless table is the fault after exactly the reads allowed. If that is Table B, the engine
/// does not read Table D.
#[test]
fn endless_tables(rt: HostRuntime) {
    let lines = [b'\n'; 2000];
    let lines = (lines.as_slice(), false);
    for reads in [0u32, 1, 4, 1000] {
        let found = assert_loaded(&rt, rt.alloc(), (reads, 1), lines, lines, B_ENDLESS);
        let [(b_reads, _), (d_reads, _)] = found;
        same(&rt, (b_reads, d_reads), (u64::from(reads), 0));
    }
    // one read takes all of Table B, and the next one its end
    let found = assert_loaded(
        &rt,
        rt.alloc(),
        (2, 1000),
        (TABLE_B, false),
        lines,
        D_ENDLESS,
    );
    let [(b_reads, _), (d_reads, _)] = found;
    same(&rt, (b_reads, d_reads), (2, 2));
}
