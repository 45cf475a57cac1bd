//! Messages as read and viewed: slack, reports, canonical messages, and listings in parts.

use super::same;
use super::samples::*;
use bufr_listing::{end_text, push_heading, push_subset, subset_text};
use bufr_message::{Report, View, canonical, canonical_of_read, decode, reports, view};
use std::alloc::Global;
use std::process::Abort;

const DISTINCT_HEAD_ALONE: &str = "\
42554652 000031 04 | 000016 00 0102 0304 05 00 06 07 08 09 0A 0B0C 0D 0E 0F 10 11 |
000009 00 0001 80 0C65 | 000006 00 6AB3 | END";

/// `SEQUENCES` with a temperature of 27316.
const WARMER: &str = "\
42554652 00003E 04 | S1 | 00000F 00 0001 80 C101 C10B C10C 0C65 |
00000D 00 14C03F409EC01AAD00 | END";

const BIT_0: &str = "42554652 000030 04 | S1 | 000009 00 0001 80 1F00 | 000005 00 00 | END";

const BIT_1: &str = "42554652 000030 04 | S1 | 000009 00 0001 80 1F00 | 000005 00 80 | END";

const FIRST_TEXT: &str =
    "42554652 000034 04 | S1 | 00000B 00 0001 80 8803 010B | 000007 00 414220 | END";

const SECOND_TEXT: &str =
    "42554652 000034 04 | S1 | 00000B 00 0001 80 8803 010B | 000007 00 FFFFFF | END";

const EDITION_3_CANONICAL: &str = "\
42554652 00003E 04 | 000016 00 0062 0000 00 00 00 FF 02 0D 00 07E8 01 0F 0C 00 00 |
00000F 00 0001 80 C101 C10B C10C 0C65 | 00000D 00 14C03F409EC01AACC0 | END";

/// Octets, their slack, and the canonical messages of their reports.
type Row<'a> = (&'a str, u64, &'a [&'a str]);

/// Plain messages with other heads and counts.
const HEADS: &[Row<'static>] = &[
    (ELEMENTS_ONLY, 0, &[ELEMENTS_ONLY]),
    (IGNORED_ONES, 0, &[ELEMENTS_ONLY]),
    (LOCAL_OCTETS_AND_SLACK, 2, &[ELEMENTS_ONLY]),
    (SEQUENCES, 0, &[SEQUENCES]),
    (MISSING_TEMPERATURE, 0, &[MISSING_TEMPERATURE]),
    (UNOBSERVED, 0, &[UNOBSERVED]),
    (EMPTY_SECTION_2, 0, &[SEQUENCES]),
    (NO_SUBSETS, 0, &[]),
    (NO_SUBSETS_AND_SLACK, 9, &[]),
    (UNEQUAL_COUNTS, 0, &[DELAYED_COUNT_0, DELAYED_COUNT_1]),
    // a bit before or after a subset differs from its own
    (THREE_BITS, 0, &[BIT_0, BIT_1, BIT_0]),
    (DISTINCT_HEAD, 0, &[DISTINCT_HEAD_ALONE]),
];

/// Messages with operators, characters and edition 3; compressed ones.
const CONTENTS: &[Row<'static>] = &[
    (OPERATORS, 0, &[OPERATORS]),
    (TEXT_WIDTH_AND_ESCAPES, 0, &[TEXT_WIDTH_AND_ESCAPES]),
    (CHARACTERS, 0, &[CHARACTERS]),
    (LOCAL_DESCRIPTOR, 0, &[LOCAL_DESCRIPTOR]),
    (EDITION_3, 1, &[EDITION_3_CANONICAL]),
    (COMPRESSED_PAIR, 0, &[SEQUENCES, MISSING_TEMPERATURE]),
    (COMPRESSED_INCREMENTS, 0, &[SEQUENCES, WARMER]),
    (COMPRESSED_FACTOR, 0, &[DELAYED_COUNT_0, DELAYED_COUNT_0]),
    (COMPRESSED_NOT_A_FACTOR, 0, &[BIT_0, BIT_1]),
    (COMPRESSED_TEXTS, 0, &[FIRST_TEXT, SECOND_TEXT]),
    (NO_COMPRESSED_SUBSETS, 0, &[]),
    (NO_SUBSETS_UNOBSERVED, 0, &[]),
    (TEMPERATURE, 0, &[TEMPERATURE]),
];

fn assert_octets(rt: &impl Abort, alloc: Global, found: &[u8], wanted: &str) {
    let all = octets(rt, alloc, wanted);
    same(rt, wanted, found, all.as_slice());
}

pub(crate) fn canonical_of(rt: &impl Abort, alloc: Global, report: &Report) -> Vec<u8> {
    let tables = tables(rt, alloc);
    let octets = canonical(alloc, &tables, report);
    drop(tables);
    octets.expect(rt, "room")
}

fn assert_canonical(rt: &impl Abort, alloc: Global, reports: &[Report], wanted: &[&str]) {
    same(rt, "reports", reports.len(), wanted.len());
    for (report, text) in reports.iter().zip(wanted) {
        let found = canonical_of(rt, alloc, report);
        assert_octets(rt, alloc, found.as_slice(), text);
    }
}

fn assert_read(rt: &impl Abort, alloc: Global, all: &[u8], row: &Row<'_>) {
    let tables = tables(rt, alloc);
    let found = decode(alloc, &tables, all).expect(rt, "a message");
    drop(tables);
    same(rt, row.0, found.slack_octets, row.1);
    let reports = reports(alloc, found.message).expect(rt, "room");
    assert_canonical(rt, alloc, reports.as_slice(), row.2);
    drop(reports);
}

/// This report has this canonical message, and so has its subset, also after other octets.
fn assert_own(rt: &impl Abort, alloc: Global, found: &View<'_>, index: usize, wanted: &str) {
    assert!(rt; index < found.count());
    let report = found.report(alloc, index + 1).expect(rt, "room");
    let own = canonical_of_read(alloc, &report).expect(rt, "room");
    drop(report);
    let own = own.expect(rt, "octets");
    assert_octets(rt, alloc, own.as_slice(), wanted);
    let copied = found.canonical(alloc, index).expect(rt, "room");
    let copied = copied.expect(rt, "octets");
    assert_octets(rt, alloc, copied.as_slice(), wanted);
    assert_put(rt, alloc, found, index, wanted);
}

/// `put_canonical` adds this canonical message, and keeps two octets before it.
fn assert_put(rt: &impl Abort, alloc: Global, found: &View<'_>, index: usize, wanted: &str) {
    assert!(rt; index < found.count());
    let mut out = octets(rt, alloc, "1C1D");
    let there = found
        .put_canonical(alloc, index, &mut out)
        .expect(rt, "room");
    same(rt, wanted, there, true);
    let text = format!(in alloc; "1C1D {wanted}").expect(rt, "room");
    assert_octets(rt, alloc, out.as_slice(), text.as_str());
}

/// The reports have these canonical messages, from the last to the first and back.
fn assert_owns(rt: &impl Abort, alloc: Global, found: &View<'_>, wanted: &[&str]) {
    same(rt, "reports", found.count(), wanted.len());
    for turn in 0..wanted.len().saturating_mul(2) {
        let index = if turn < wanted.len() {
            wanted.len() - turn - 1
        } else {
            turn - wanted.len()
        };
        let text = wanted.get(index).expect(rt, "text");
        assert_own(rt, alloc, found, index, text);
    }
}

fn viewed<'a>(rt: &impl Abort, alloc: Global, all: &'a [u8]) -> View<'a> {
    let tables = tables(rt, alloc);
    let found = view(alloc, &tables, all);
    drop(tables);
    found.expect(rt, "a view")
}

fn assert_row(rt: &impl Abort, alloc: Global, row: &Row<'_>) {
    let all = octets(rt, alloc, row.0);
    assert_read(rt, alloc, all.as_slice(), row);
    let found = viewed(rt, alloc, all.as_slice());
    same(rt, row.0, found.slack(), row.1);
    assert_owns(rt, alloc, &found, row.2);
    drop(found);
}

fn assert_rows(rt: &impl Abort, alloc: Global, rows: &[Row<'_>]) {
    for row in rows {
        assert_row(rt, alloc, row);
    }
}

#[test]
fn read_and_viewed(rt: HostRuntime) {
    assert_rows(&rt, rt.alloc(), HEADS);
    assert_rows(&rt, rt.alloc(), CONTENTS);
}

/// The listing of `COMPRESSED_TEXTS`.
const TEXTS_LISTED: &str = "\
message
section1 98 0 0 0 2 0 37 0
time 2024 1 15 12 0 0
flags observed compressed
descriptors 208003 001011
subset
001011 \"AB \"
subset
001011 missing
end
";

/// Adds a subset to a listing, as it lists alone.
fn add_subset(
    rt: &impl Abort,
    alloc: Global,
    found: &View<'_>,
    index: usize,
    listing: &mut Vec<u8>,
) {
    assert!(rt; index < found.count());
    let subset = found.subset(alloc, index).expect(rt, "room");
    push_subset(listing, &subset).expect(rt, "room");
    let alone = subset_text(alloc, &subset).expect(rt, "room");
    same(rt, "a subset", listing.ends_with(alone.as_slice()), true);
    drop(subset);
}

fn listed_in_parts(rt: &impl Abort, alloc: Global, found: &View<'_>) -> Vec<u8> {
    let mut listing = Vec::new(alloc);
    push_heading(alloc, &mut listing, &found.sections()).expect(rt, "room");
    for index in 0..2 {
        add_subset(rt, alloc, found, index, &mut listing);
    }
    listing.extend_from_slice(end_text()).expect(rt, "room");
    listing
}

#[test]
fn listed_part_by_part(rt: HostRuntime) {
    let all = octets(&rt, rt.alloc(), COMPRESSED_TEXTS);
    let found = viewed(&rt, rt.alloc(), all.as_slice());
    let listing = listed_in_parts(&rt, rt.alloc(), &found);
    drop(found);
    same(
        &rt,
        TEXTS_LISTED,
        listing.as_slice(),
        TEXTS_LISTED.as_bytes(),
    );
}

/// Octets of one report, and its canonical message.
const ALONE: &[(&str, &str)] = &[
    (TEMPERATURE, TEMPERATURE),
    (UNOBSERVED, UNOBSERVED),
    (BIT_1, BIT_1),
    (
        "42554652 000031 04 | 000016 00 0062 0000 00 01 00 02 00 25 00 07E8 01 0F 0C 00 00 |
000009 00 0001 80 0C65 | 000006 00 6AB3 | END",
        TEMPERATURE,
    ),
    (
        "42554652 000031 04 | S1 | 000009 01 0001 80 0C65 | 000006 00 6AB3 | END",
        TEMPERATURE,
    ),
    (
        "42554652 000031 04 | S1 | 000009 00 0001 A0 0C65 | 000006 00 6AB3 | END",
        TEMPERATURE,
    ),
    (
        "42554652 000032 04 | S1 | 00000A 00 0001 80 0C65 00 | 000006 00 6AB3 | END",
        TEMPERATURE,
    ),
    (
        "42554652 000031 04 | S1 | 000009 00 0001 80 0C65 | 000006 80 6AB3 | END",
        TEMPERATURE,
    ),
    (
        "42554652 000032 04 | S1 | 000009 00 0001 80 0C65 | 000007 00 6AB300 | END",
        TEMPERATURE,
    ),
    (
        "42554652 000030 04 | S1 | 000009 00 0001 80 1F00 | 000005 00 81 | END",
        BIT_1,
    ),
    (
        "42554652 000032 04 | S1 | 000009 00 0001 C0 0C65 | 000007 00 6AB300 | END",
        TEMPERATURE,
    ),
    (DISTINCT_HEAD, DISTINCT_HEAD_ALONE),
    (EMPTY_SECTION_2, SEQUENCES),
    (EDITION_3, EDITION_3_CANONICAL),
];

/// The one report has this canonical message; the view lends the octets exactly if they are it.
fn assert_alone(rt: &impl Abort, alloc: Global, text: &str, wanted: &str) {
    let all = octets(rt, alloc, text);
    let found = viewed(rt, alloc, all.as_slice());
    assert_own(rt, alloc, &found, 0, wanted);
    let own = octets(rt, alloc, wanted);
    assert_lent(rt, text, &found, all.as_slice(), own.as_slice());
    drop(found);
}

/// Compares whether a view lends `own`: it does exactly if the octets are their canonical message.
fn assert_lent(rt: &impl Abort, text: &str, found: &View<'_>, all: &[u8], own: &[u8]) {
    let lent = found.own().is_some_and(|lent| lent == own);
    same(rt, text, lent, all == own);
}

#[test]
fn canonical_messages_lent(rt: HostRuntime) {
    for (text, wanted) in ALONE {
        assert_alone(&rt, rt.alloc(), text, wanted);
    }
}
