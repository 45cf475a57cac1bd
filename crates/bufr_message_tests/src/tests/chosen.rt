//! Tests of the fields at known places of messages that take turns.

use super::same;
use super::samples::{octets, tables};
use bufr_message::{MessageReader, View};
use bufr_tables::{TableB, TableD, Tables};
use std::alloc::Global;
use std::process::Abort;

/// WMO block numbers, 0 01 001.
const BLOCKS: &[u16] = &[0x0101];

/// Elements of which the station number has 12 bits instead of ten.
const WIDER: &str = "\
FXY,ElementName_en,BUFR_Unit,BUFR_Scale,BUFR_ReferenceValue,BUFR_DataWidth_Bits
001001,block number,Numeric,0,0,7
001002,station number,Numeric,0,0,12
";

/// A message of one subset: its octets, its name, and its block number.
type Row<'a> = (&'a str, &'a str, u64);

/// Five lists of descriptors, each with the block number at another bit.
const ROWS: &[Row] = &[
    // 10 in seven bits, and 384 in ten
    (
        "42554652 000034 04 | S1 | 00000B 00 0001 80 0101 0102 | 000007 00 14C000 | END",
        "block and station",
        10,
    ),
    // 27315 in 16 bits, 11 in seven, and 5 in ten
    (
        "42554652 000038 04 | S1 | 00000D 00 0001 80 0C65 0101 0102 | 000009 00 6AB3160280 | END",
        "temperature, block and station",
        11,
    ),
    // 384 in ten bits, and 12 in seven
    (
        "42554652 000034 04 | S1 | 00000B 00 0001 80 0102 0101 | 000007 00 600600 | END",
        "station and block",
        12,
    ),
    // 1 in two bits, and 13 in seven
    (
        "42554652 000033 04 | S1 | 00000B 00 0001 80 0201 0101 | 000006 00 4680 | END",
        "type and block",
        13,
    ),
    // 2020 in 12 bits, and 14 in seven
    (
        "42554652 000034 04 | S1 | 00000B 00 0001 80 0401 0101 | 000007 00 7E41C0 | END",
        "year and block",
        14,
    ),
];

/// Compares the one block number of a view, if its place is known.
fn has_block(rt: &impl Abort, name: &str, view: &View<'_>, wanted: Option<u64>) {
    assert!(rt; view.count() == 1);
    let found = match view.chosen(BLOCKS, 0) {
        None => None,
        Some(mut fields) => {
            let number = fields.next_number().expect(rt, "a number");
            same(rt, name, fields.next_number(), None);
            Some(number.number)
        }
    };
    same(rt, name, found, wanted);
    same(rt, name, view.chosen(&[0x0102], 0).is_some(), false);
}

fn reads(
    rt: &impl Abort,
    alloc: Global,
    reader: &mut MessageReader<'_>,
    row: &Row<'_>,
    wanted: Option<u64>,
) {
    let all = octets(rt, alloc, row.0);
    let view = reader.read(alloc, &all).expect(rt, "a message");
    has_block(rt, row.1, &view, wanted);
    drop(view);
}

/// Messages by their place in `ROWS`, and whether the place of the block number is known by then.
const TURNS: &[(usize, bool)] = &[
    (0, false),
    (1, false),
    (2, false),
    (3, false),
    (0, true),
    (1, true),
    (2, true),
    (3, true),
    (0, true),
    (1, true),
    (2, true),
    (3, true),
    (4, false),
    (0, false),
    (4, true),
    (3, true),
];

/// The places of four lists in turn are kept; a fifth takes the place of the oldest.
#[test]
fn places_of_four_lists_in_turn(rt: HostRuntime) {
    let alloc = rt.alloc();
    let tables = tables(&rt, alloc);
    let mut reader = MessageReader::for_elements(alloc, &tables, BLOCKS);
    for (index, known) in TURNS {
        let row = ROWS.get(*index).expect(&rt, "a message");
        let wanted = if *known { Some(row.2) } else { None };
        reads(&rt, alloc, &mut reader, row, wanted);
    }
    drop(reader);
    drop(tables);
}

fn wider_tables(rt: &impl Abort, alloc: Global) -> Tables {
    let elements = TableB::parse(alloc, WIDER.as_bytes()).expect(rt, "a table");
    let sequences = TableD::parse(alloc, "FXY1,FXY2\n".as_bytes()).expect(rt, "a table");
    Tables::new(elements, sequences)
}

/// Reads the station and block by two readers in turn, under these tables.
fn read_in_turn(rt: &impl Abort, alloc: Global, usual: &Tables, wider: &Tables) {
    let mut narrow_reader = MessageReader::for_elements(alloc, usual, BLOCKS);
    let mut wide_reader = MessageReader::for_elements(alloc, wider, BLOCKS);
    let row = &ROWS[2];
    reads(rt, alloc, &mut narrow_reader, row, None);
    reads(rt, alloc, &mut wide_reader, row, None);
    for _ in 0..2 {
        reads(rt, alloc, &mut narrow_reader, row, Some(12));
        reads(rt, alloc, &mut wide_reader, row, Some(48));
    }
    drop(wide_reader);
    drop(narrow_reader);
}

/// Under other tables the same octets have their block number two bits further on: 1536 in 12 bits,
/// and 48 in seven.
#[test]
fn places_under_other_tables(rt: HostRuntime) {
    let alloc = rt.alloc();
    let usual = tables(&rt, alloc);
    let wider = wider_tables(&rt, alloc);
    read_in_turn(&rt, alloc, &usual, &wider);
    drop(wider);
    drop(usual);
}

/// A reader without a list knows no place.
#[test]
fn no_list_no_places(rt: HostRuntime) {
    let alloc = rt.alloc();
    let tables = tables(&rt, alloc);
    let mut reader = MessageReader::new(alloc, &tables);
    for _ in 0..3 {
        reads(&rt, alloc, &mut reader, &ROWS[0], None);
    }
    drop(reader);
    drop(tables);
}
