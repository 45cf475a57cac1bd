use crate::tests::refusals::{assert_refused, repeated};
use crate::tests::same;
use crate::tests::samples::{
    COMPRESSED_PAIR, COMPRESSED_TEXTS, COUNT_0, COUNT_1, LOCAL_OCTETS, MISSING_TEMPERATURE,
    SEQUENCES, TEXTS_LISTED, UNEQUAL_COUNTS, room, tables,
};
use bufr_bits::IntoWrite;
use bufr_message::listing::{ListingWriteFault, read, text_of, write};
use bufr_message::{
    Decoded, Message, Report, View, canonical, canonical_of_read, decode, encode, reports, view,
};
use bufr_tables::Tables;
use std::alloc::Global;
use std::process::Abort;

fn decoded(rt: &impl Abort, alloc: Global, tables: &Tables, octets: &[u8]) -> Decoded {
    repeated!(rt, decode(alloc, tables, octets))
}

fn assert_written(
    rt: &impl Abort,
    alloc: Global,
    tables: &Tables,
    message: &Message,
    octets: &[u8],
) {
    let written = repeated!(rt, encode(alloc, tables, message));
    same(rt, written.as_slice(), octets);
}

/// A message that is read encodes to its octets again.
fn comes_back(rt: &impl Abort, alloc: Global, tables: &Tables, octets: &[u8]) {
    let found = decoded(rt, alloc, tables, octets);
    same(rt, found.slack_octets, 0);
    assert_written(rt, alloc, tables, &found.message, octets);
    drop(found);
}

fn all_read(rt: &impl Abort, alloc: Global) {
    let tables = tables(rt, alloc);
    for octets in [SEQUENCES, COMPRESSED_PAIR, LOCAL_OCTETS] {
        comes_back(rt, alloc, &tables, octets);
    }
    drop(tables);
}

#[test]
fn messages_read_and_written(rt: HostRuntime) {
    all_read(&rt, rt.alloc());
}

/// Splits a message into its reports, and reads it again after a refusal.
fn reports_in(rt: &impl Abort, alloc: Global, tables: &Tables, octets: &[u8]) -> Vec<Report> {
    repeated!(
        rt,
        reports(alloc, decoded(rt, alloc, tables, octets).message)
    )
}

fn assert_canonical(rt: &impl Abort, alloc: Global, tables: &Tables, report: &Report, own: &[u8]) {
    let written = repeated!(rt, canonical(alloc, tables, report));
    same(rt, written.as_slice(), own);
}

fn parts_into(rt: &impl Abort, alloc: Global, tables: &Tables, octets: &[u8], wanted: &[&[u8]]) {
    let found = reports_in(rt, alloc, tables, octets);
    same(rt, found.len(), wanted.len());
    for (report, own) in found.iter().zip(wanted) {
        assert_canonical(rt, alloc, tables, report, *own);
    }
    drop(found);
}

/// Messages of plain and of compressed subsets, and the canonical messages of their reports.
const REPORTS: &[(&[u8], &[&[u8]])] = &[
    (UNEQUAL_COUNTS, &[COUNT_0, COUNT_1]),
    (COMPRESSED_PAIR, &[SEQUENCES, MISSING_TEMPERATURE]),
];

fn all_parted(rt: &impl Abort, alloc: Global) {
    let tables = tables(rt, alloc);
    for (octets, wanted) in REPORTS {
        parts_into(rt, alloc, &tables, *octets, *wanted);
    }
    drop(tables);
}

#[test]
fn reports_of_subsets(rt: HostRuntime) {
    all_parted(&rt, rt.alloc());
}

/// The report of this number of a view has this canonical message.
fn assert_taken_out(
    rt: &impl Abort,
    alloc: Global,
    tables: &Tables,
    found: &View<'_>,
    number: usize,
    own: &[u8],
) {
    assert!(rt; 1 <= number && number <= found.count());
    let report = repeated!(rt, found.report(alloc, number));
    assert_canonical(rt, alloc, tables, &report, own);
    let read = repeated!(rt, canonical_of_read(alloc, &report));
    drop(report);
    same(rt, read.expect(rt, "octets").as_slice(), own);
}

/// A view of a message has these reports, the last of which is taken out first.
fn view_of(rt: &impl Abort, alloc: Global, tables: &Tables, octets: &[u8], wanted: &[&[u8]]) {
    let found = repeated!(rt, view(alloc, tables, octets));
    same(rt, found.count(), wanted.len());
    for index in 0..wanted.len() {
        let number = wanted.len() - index;
        let own = wanted.get(number - 1).expect(rt, "a message");
        assert_taken_out(rt, alloc, tables, &found, number, own);
    }
    drop(found);
}

fn all_viewed(rt: &impl Abort, alloc: Global) {
    let tables = tables(rt, alloc);
    for (octets, wanted) in REPORTS {
        view_of(rt, alloc, &tables, *octets, *wanted);
    }
    drop(tables);
}

#[test]
fn messages_viewed(rt: HostRuntime) {
    all_viewed(&rt, rt.alloc());
}

fn listing_of_two(rt: &impl Abort, alloc: Global) -> Vec<u8> {
    let mut listing = room(rt, alloc, 1000);
    for _ in 0..2 {
        listing.extend_from_slice(TEXTS_LISTED).expect(rt, "room");
    }
    listing
}

/// A listing of two messages is read, and each encodes to its octets.
fn read_both(rt: &impl Abort, alloc: Global) {
    let tables = tables(rt, alloc);
    let listing = listing_of_two(rt, alloc);
    let found = repeated!(rt, read(alloc, &tables, &listing));
    same(rt, found.len(), 2);
    for message in found.iter() {
        assert_written(rt, alloc, &tables, message, COMPRESSED_TEXTS);
    }
    drop(found);
    drop(tables);
}

#[test]
fn listings_read(rt: HostRuntime) {
    read_both(&rt, rt.alloc());
}

/// Writes a message's listing to a fresh writer with room.
fn listed(
    rt: &impl Abort,
    alloc: Global,
    message: &Message,
) -> (Result<(), ListingWriteFault>, Vec<u8>) {
    let mut writer = IntoWrite::new(room(rt, alloc, 1000));
    let answer = write(alloc, message, &mut writer);
    (answer, writer.into_inner())
}

/// A message has this listing; a refused call writes nothing.
fn assert_listed(rt: &impl Abort, alloc: Global, message: &Message, wanted: &[u8]) {
    let (answer, written) = listed(rt, alloc, message);
    match answer {
        Ok(()) => same(rt, written.as_slice(), wanted),
        Err(fault) => {
            assert_refused(rt, fault);
            assert!(rt; written.is_empty());
            let (answer, written) = listed(rt, alloc, message);
            same(rt, answer, Ok(()));
            same(rt, written.as_slice(), wanted);
        }
    }
}

fn list_one(rt: &impl Abort, alloc: Global) {
    let tables = tables(rt, alloc);
    let found = decoded(rt, alloc, &tables, COMPRESSED_TEXTS);
    let listing = repeated!(rt, text_of(alloc, &found.message));
    same(rt, listing.as_slice(), TEXTS_LISTED);
    assert_listed(rt, alloc, &found.message, TEXTS_LISTED);
    drop(found);
    drop(tables);
}

#[test]
fn messages_listed(rt: HostRuntime) {
    list_one(&rt, rt.alloc());
}
