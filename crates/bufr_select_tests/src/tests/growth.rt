//! Every growth refused in turn to the engine. Run as they are, no growth is refused;
//! `tests/refuse-each-growth` runs each test of this file once for each of its growths, which then fails.

use crate::tests::devices::{Reader, Writer};
use crate::tests::same;
use crate::tests::samples::{COMPRESSED, EDITION_5, SOUNDING, TABLE_B, TABLE_D};
use crate::tests::turns::TWICE;
use bufr_io::{Tally, ToolFault, load_tables};
use bufr_select_engine::{Column, Outputs, VersionTables, columns_of, run_select};
use bufr_tables::{Fxy, Tables};
use std::alloc::Global;
use std::process::Abort;

/// More octets than are written.
const ROOM: usize = 4096;

/// All rows.
const ROWS: &[u8] = b"input,message,001001,007004,011001,012101\n\
1,2,10,100000,180,\n1,2,10,85000,,\n1,2,10,70000,270,273.15\n\
2,1,10,100000,180,\n2,1,10,85000,,\n2,1,10,70000,270,273.15\n";

/// The columns of the rows.
const COLUMNS: &str = "input,message,001001,007004,011001,012101";

/// All refusals.
const LINES: &[u8] = b"bufr-select: input 1 at 0: M2 Edition 5\n";

/// Calls again what gave nothing for want of memory.
fn list_with_room(rt: &impl Abort, alloc: Global) -> Vec<u8> {
    match Vec::with_capacity(alloc, ROOM) {
        Ok(taken) => taken,
        Err(_) => Vec::with_capacity(alloc, ROOM).expect(rt, "what no longer is refused"),
    }
}

fn load(alloc: Global) -> Result<Tables, ToolFault> {
    let mut b = Reader::new(TABLE_B, 4096, false);
    let mut d = Reader::new(TABLE_D, 4096, false);
    load_tables(alloc, 100, &mut b, &mut d)
}

fn tables(rt: &impl Abort, alloc: Global) -> Tables {
    match load(alloc) {
        Ok(tables) => tables,
        Err(_) => load(alloc).ok().expect(rt, "what no longer is refused"),
    }
}

fn columns(rt: &impl Abort, alloc: Global, text: &str) -> Vec<Column> {
    match columns_of(alloc, text) {
        Ok(columns) => columns,
        Err(_) => columns_of(alloc, text)
            .ok()
            .expect(rt, "what no longer is refused"),
    }
}

fn pairs<'t>(
    rt: &impl Abort,
    alloc: Global,
    tables: &'t Tables,
    list: &'t [u16],
) -> Vec<VersionTables<'t>> {
    let mut pairs = match Vec::with_capacity(alloc, 1) {
        Ok(pairs) => pairs,
        Err(_) => Vec::with_capacity(alloc, 1).expect(rt, "what no longer is refused"),
    };
    pairs
        .push(VersionTables::for_elements(alloc, None, tables, list))
        .ok()
        .expect(rt, "room for one");
    pairs
}

/// Makes the first input: a frame of an edition that is not read, and a sounding.
fn refused_and_sounding(rt: &impl Abort, alloc: Global) -> Vec<u8> {
    let mut octets = list_with_room(rt, alloc);
    octets.extend_from_slice(EDITION_5).expect(rt, "room");
    octets.extend_from_slice(SOUNDING).expect(rt, "room");
    octets
}

/// Returns whether an answer is the tally of these frames; it stops the test at another answer than want of memory.
fn is_tally(
    rt: &impl Abort,
    answer: Result<Tally, ToolFault>,
    frames: u128,
    refused: u128,
) -> bool {
    let tally = Tally {
        frames,
        refused,
        skipped: 0,
        reports: 0,
    };
    let is_all = answer.is_ok();
    let wanted = if is_all {
        Ok(tally)
    } else {
        Err(ToolFault::OutOfMemory)
    };
    same(rt, answer, wanted, 0);
    is_all
}

/// Selects from two inputs, which are read in pieces of 20 octets, and returns the rows, the refusals,
/// and whether that is all; it stops the test at another answer than the tally or want of memory.
fn select(rt: &impl Abort, alloc: Global) -> (Vec<u8>, Vec<u8>, bool) {
    let tables = tables(rt, alloc);
    let columns = columns(rt, alloc, COLUMNS);
    let pairs = pairs(rt, alloc, &tables, &[]);
    let first = refused_and_sounding(rt, alloc);
    let mut inputs = [
        Reader::new(&first, 20, false),
        Reader::new(SOUNDING, 20, false),
    ];
    let mut out = Outputs {
        rows: Writer::over(list_with_room(rt, alloc), ROOM),
        refusals: Writer::over(list_with_room(rt, alloc), ROOM),
    };
    let each = Fxy::from_text(b"007004");
    let answer = run_select(alloc, 1000, pairs, &columns, each, &mut inputs, &mut out);
    drop(columns);
    drop(tables);
    let is_all = is_tally(rt, answer, 3, 1);
    (out.rows.taken, out.refusals.taken, is_all)
}

/// Stops the test unless octets are the first of a text, and end with a line.
fn assert_front(rt: &impl Abort, written: &[u8], text: &[u8]) {
    same(rt, text.starts_with(written), true, written.len());
    let ends = written.is_empty() || written.ends_with(b"\n");
    same(rt, ends, true, written.len());
}

/// All lines; after a refusal the first lines, each of them whole.
#[test]
fn rows_with_each_growth_refused(rt: HostRuntime) {
    let alloc = rt.alloc();
    let (rows, lines, is_all) = select(&rt, alloc);
    assert_front(&rt, &rows, ROWS);
    assert_front(&rt, &lines, LINES);
    let (again, lines_again, is_all_again) = select(&rt, alloc);
    assert_front(&rt, &again, ROWS);
    assert_front(&rt, &lines_again, LINES);
    same(&rt, is_all || is_all_again, true, 0);
    same(&rt, rows.len() == ROWS.len(), is_all, rows.len());
    same(&rt, again.len() == ROWS.len(), is_all_again, again.len());
}

/// The rows of two compressed messages.
const ROWS_OF_COLUMNS: &[u8] = b"message,subset,001002,012101\n\
1,1,384,273.15\n1,2,384,\n2,1,384,273.15\n2,2,384,\n";

/// The rows of two messages with eight levels.
const ROWS_OF_TURNS: &[u8] =
    b"message,007004,012101#2\n1,1000,200.00\n1,1010,200.01\n1,1020,200.02\n\
1,1030,\n1,1040,200.04\n1,1050,200.05\n1,1060,200.06\n1,1070,200.07\n2,1000,200.00\n2,1010,200.01\n\
2,1020,200.02\n2,1030,\n2,1040,200.04\n2,1050,200.05\n2,1060,200.06\n2,1070,200.07\n";

/// A selection from a message that comes twice.
#[derive(Clone, Copy)]
struct Selection<'a> {
    columns: &'a str,
    each: &'a str,
    list: &'a [u16],
    message: &'a [u8],
}

/// Selects, and returns the rows and whether that is all.
fn select_twice(rt: &impl Abort, alloc: Global, run: Selection<'_>) -> (Vec<u8>, bool) {
    let tables = tables(rt, alloc);
    let columns = columns(rt, alloc, run.columns);
    let pairs = pairs(rt, alloc, &tables, run.list);
    let mut octets = list_with_room(rt, alloc);
    for _ in 0..2u32 {
        octets.extend_from_slice(run.message).expect(rt, "room");
    }
    let mut inputs = [Reader::new(&octets, 20, false)];
    let mut out = Outputs {
        rows: Writer::over(list_with_room(rt, alloc), ROOM),
        refusals: Writer::over(list_with_room(rt, alloc), ROOM),
    };
    let each = Fxy::from_text(run.each.as_bytes());
    let answer = run_select(alloc, 1000, pairs, &columns, each, &mut inputs, &mut out);
    drop(columns);
    drop(tables);
    let is_all = is_tally(rt, answer, 2, 0);
    same(rt, out.refusals.taken.as_slice(), b"", 0);
    (out.rows.taken, is_all)
}

/// Stops the test unless a selection has these rows; after a refusal the first of them.
fn assert_twice(rt: &impl Abort, alloc: Global, run: Selection<'_>, wanted: &[u8]) {
    let (rows, is_all) = select_twice(rt, alloc, run);
    assert_front(rt, &rows, wanted);
    let (again, is_all_again) = select_twice(rt, alloc, run);
    assert_front(rt, &again, wanted);
    same(rt, is_all || is_all_again, true, 0);
    same(rt, rows.len() == wanted.len(), is_all, rows.len());
    same(rt, again.len() == wanted.len(), is_all_again, again.len());
}

/// Rows straight from the columns of messages.
#[test]
fn rows_of_columns_with_each_growth_refused(rt: HostRuntime) {
    let alloc = rt.alloc();
    let run = Selection {
        columns: "message,subset,001002,012101",
        each: "",
        list: &[0x0102, 0x0C65],
        message: COMPRESSED,
    };
    assert_twice(&rt, alloc, run, ROWS_OF_COLUMNS);
}

/// Rows straight from the numbers of turns.
#[test]
fn rows_of_turns_with_each_growth_refused(rt: HostRuntime) {
    let alloc = rt.alloc();
    let run = Selection {
        columns: "message,007004,012101#2",
        each: "007004",
        list: &[],
        message: TWICE,
    };
    assert_twice(&rt, alloc, run, ROWS_OF_TURNS);
}
