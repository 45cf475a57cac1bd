//! Columns that are refused: the reader stays where it is.

use super::same;
use super::samples::{Descriptors, template};
use bufr_base::Failure;
use bufr_bits::BitReader;
use bufr_data::{Columns, DataFault, read_compressed};
use std::alloc::Global;
use std::process::Abort;

/// Descriptors, the number of subsets, an octet and then the data, and the fault.
type Row<'a> = (Descriptors<'a>, u16, &'a [u8], &'a str);

const ROWS: &[Row] = &[
    // R0 2, two bits of increments, 2 and 0
    (
        &[(0, 2, 1)],
        2,
        &[0xEE, 0x82, 0x80],
        "V4 IncrementRange 1 1",
    ),
    // two octets for each text of one
    (
        &[(2, 8, 1), (0, 1, 11)],
        2,
        &[0xEE, 0x00, 0x08, 0x00, 0x00, 0x00, 0x00],
        "V5 CharIncrement 1",
    ),
    // 65,535 subsets of 1,025 fields, at the last of these
    (
        &[(1, 2, 5), (1, 1, 205), (0, 12, 101)],
        65_535,
        &[0; 2820],
        "V6 TooLarge",
    ),
];

fn assert_fault(rt: &impl Abort, alloc: Global, found: Option<Failure<DataFault>>, wanted: &str) {
    let failure = found.expect(rt, wanted);
    let text = format!(in alloc; "{failure}").expect(rt, "room");
    same(rt, text.as_str(), wanted);
}

fn assert_row(rt: &impl Abort, alloc: Global, row: &Row) {
    let (list, count, octets, fault) = *row;
    let template = template(rt, alloc, list);
    let mut reader = BitReader::new(octets);
    same(rt, reader.pass(8), true);
    let index = Columns::index(alloc, &template, &mut reader, count).err();
    assert_fault(rt, alloc, index, fault);
    same(rt, reader.place(), 8);
    let read = read_compressed(alloc, &template, &mut reader, count).err();
    assert_fault(rt, alloc, read, fault);
    same(rt, reader.place(), 8);
    drop(template);
}

#[test]
fn columns_refused(rt: HostRuntime) {
    for row in ROWS {
        assert_row(&rt, rt.alloc(), row);
    }
}
