//! Messages with their listings, read back and written.

use super::same;
use super::samples::*;
use bufr_message::listing::{read, text_of};
use bufr_message::{Message, decode, encode};
use bufr_tables::Tables;
use std::alloc::Global;
use std::process::Abort;

/// Octets, the lines of their listing after those of section 1, and the octets written.
type Row<'a> = (&'a str, &'a str, &'a str);

const ROWS: &[Row<'static>] = &[
    (
        OPERATORS,
        "flags observed
descriptors 201130 202129 012101 201000 202000 012101
subset
012101 250.000
012101 273.15
",
        OPERATORS,
    ),
    (
        REPLACED_WIDTH,
        "flags observed
descriptors 201130 201129 012101
subset
012101 273.15
",
        REPLACED_WIDTH,
    ),
    (
        RAISED_TOGETHER,
        "flags observed
descriptors 207001 012101
subset
012101 273.150
",
        RAISED_TOGETHER,
    ),
    (
        LOCAL_DESCRIPTOR,
        "flags observed
descriptors 206012 001250
subset
001250 5
",
        LOCAL_DESCRIPTOR,
    ),
    (
        VALUES,
        "flags observed
descriptors 005002 006002 007001 010004 010004
subset
005002 -0.01
006002 -180.00
007001 -400
010004 101320
010004 0
",
        VALUES,
    ),
    (
        TEXT_WIDTH_AND_ESCAPES,
        "flags observed
descriptors 208004 001011
subset
001011 \"A\\22\\5c\\0a\"
",
        TEXT_WIDTH_AND_ESCAPES,
    ),
    (
        COMPRESSED_TEXTS,
        "flags observed compressed
descriptors 208003 001011
subset
001011 \"AB \"
subset
001011 missing
",
        // the texts of three octets, whole
        "42554652 00003B 04 | S1 | 00000B 00 0002 C0 8803 010B |
00000E 00 0000000D050883FFFFFC | END",
    ),
    (
        COMPRESSED_NOT_A_FACTOR,
        "flags observed compressed
descriptors 031000
subset
031000 0
subset
031000 1
",
        COMPRESSED_NOT_A_FACTOR,
    ),
];

fn assert_written(
    rt: &impl Abort,
    alloc: Global,
    tables: &Tables,
    message: &Message,
    wanted: &str,
) {
    let written = encode(alloc, tables, message).expect(rt, wanted);
    let all = octets(rt, alloc, wanted);
    same(rt, wanted, written.as_slice(), all.as_slice());
}

/// A listing has one message, which is written so.
fn assert_read_back(rt: &impl Abort, alloc: Global, tables: &Tables, listing: &str, wanted: &str) {
    let messages = read(alloc, tables, listing.as_bytes()).expect(rt, listing);
    same(rt, listing, messages.len(), 1);
    for message in messages.iter() {
        assert_written(rt, alloc, tables, message, wanted);
    }
    drop(messages);
}

/// Returns the listing with these lines after those of section 1.
fn listing_of(rt: &impl Abort, alloc: Global, lines: &str) -> String {
    let front = "message\nsection1 98 0 0 0 2 0 37 0\ntime 2024 1 15 12 0 0\n";
    format!(in alloc; "{front}{lines}end\n").expect(rt, "room")
}

fn assert_row(rt: &impl Abort, alloc: Global, tables: &Tables, row: &Row<'_>) {
    let all = octets(rt, alloc, row.0);
    let found = decode(alloc, tables, all.as_slice()).expect(rt, row.0);
    let wanted = listing_of(rt, alloc, row.1);
    let listing = text_of(alloc, &found.message).expect(rt, "room");
    same(rt, row.0, listing.as_slice(), wanted.as_bytes());
    assert_written(rt, alloc, tables, &found.message, row.2);
    drop(found);
    assert_read_back(rt, alloc, tables, wanted.as_str(), row.2);
}

#[test]
fn listed_and_written(rt: HostRuntime) {
    let tables = tables(&rt, rt.alloc());
    for row in ROWS {
        assert_row(&rt, rt.alloc(), &tables, row);
    }
    drop(tables);
}
