//! Long messages, read and written again, and their reports.

use super::same;
use super::samples::{octets, tables};
use super::shown::canonical_of;
use bufr_message::{Message, Report, decode, encode, reports};
use std::alloc::Global;
use std::process::Abort;

/// Numbers of two octets that count up: the first, and how many.
type Numbers = (u16, u16);

/// Returns octets, these numbers, and section 5.
fn with_numbers(rt: &impl Abort, alloc: Global, front: &str, numbers: Numbers) -> Vec<u8> {
    let mut all = octets(rt, alloc, front);
    for step in 0..numbers.1 {
        let number = numbers.0.wrapping_add(step);
        all.extend_from_slice(number.to_be_bytes().as_slice())
            .expect(rt, "room");
    }
    all.extend_from_slice(b"7777").expect(rt, "room");
    all
}

/// The start of a message of a thousand subsets of one temperature.
const THOUSAND_FRONT: &str = "42554652 0007FF 04 | S1 | 000009 00 03E8 80 0C65 | 0007D4 00";

/// The start of a message of one temperature.
const ONE_FRONT: &str = "42554652 000031 04 | S1 | 000009 00 0001 80 0C65 | 000006 00";

/// The start of a message of 255 times 150 temperatures.
const FIELDS_FRONT: &str = "42554652 012B07 04 | S1 | 00000D 00 0001 80 4296 41FF 0C65 | 012AD8 00";

/// The start of a message of a delayed replication of count 255.
const COUNT_255_FRONT: &str =
    "42554652 000232 04 | S1 | 00000D 00 0001 80 4100 1F01 0C65 | 000203 00 FF";

/// A message's start and numbers, its number of reports, and the start and numbers of their
/// canonical messages.
const LONG: &[(&str, Numbers, usize, &str, u16)] = &[
    (THOUSAND_FRONT, (20_000, 1000), 1000, ONE_FRONT, 1),
    (FIELDS_FRONT, (0, 38_250), 1, FIELDS_FRONT, 38_250),
    (COUNT_255_FRONT, (27_000, 255), 1, COUNT_255_FRONT, 255),
];

/// The reports have such canonical messages, each with a first number one greater.
fn assert_reports(rt: &impl Abort, alloc: Global, reports: &[Report], front: &str, first: Numbers) {
    let mut numbers = first;
    for report in reports {
        let wanted = with_numbers(rt, alloc, front, numbers);
        let found = canonical_of(rt, alloc, report);
        same(rt, front, found.as_slice(), wanted.as_slice());
        numbers.0 = numbers.0.wrapping_add(1);
    }
}

/// Reads octets, which have no slack, and writes the same octets again.
fn read_and_written(rt: &impl Abort, alloc: Global, all: &[u8]) -> Message {
    let tables = tables(rt, alloc);
    let found = decode(alloc, &tables, all).expect(rt, "a message");
    same(rt, "slack", found.slack_octets, 0);
    let written = encode(alloc, &tables, &found.message).expect(rt, "octets");
    same(rt, "octets", written.as_slice(), all);
    drop(tables);
    found.message
}

#[test]
fn long_messages_and_their_reports(rt: HostRuntime) {
    for (front, numbers, count, alone, fields) in LONG {
        let all = with_numbers(&rt, rt.alloc(), front, *numbers);
        let message = read_and_written(&rt, rt.alloc(), all.as_slice());
        let found = reports(rt.alloc(), message).expect(&rt, "room");
        same(&rt, front, found.len(), *count);
        assert_reports(
            &rt,
            rt.alloc(),
            found.as_slice(),
            alone,
            (numbers.0, *fields),
        );
        drop(found);
    }
}
