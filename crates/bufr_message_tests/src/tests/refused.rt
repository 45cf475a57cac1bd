//! Octets that are no message, and the order of faults of encoding.

use super::same;
use super::samples::{SEQUENCES, UNEQUAL_COUNTS, octets, tables};
use bufr_base::Items;
use bufr_data::Subset;
use bufr_message::{Message, decode, encode};
use bufr_tables::{Fxy, Tables};
use std::alloc::Global;
use std::process::Abort;

/// Each without a field.
const MOST_SUBSETS: &str = "42554652 00002F 04 | S1 | 000009 00 FFFF 80 8100 | 000004 00 | END";

/// Returns a message with one subset too many.
fn one_too_many(rt: &impl Abort, alloc: Global) -> Message {
    let (tables, all) = (tables(rt, alloc), octets(rt, alloc, MOST_SUBSETS));
    let decoded = decode(alloc, &tables, all.as_slice());
    drop(tables);
    let message = decoded.expect(rt, "a message").message;
    let mut whole = message.subsets.into_vec();
    let fields = Items::from_vec(Vec::new(alloc));
    whole.push(Subset { fields }).expect(rt, "room");
    let subsets = Items::from_vec(whole);
    Message { subsets, ..message }
}

fn list_of(rt: &impl Abort, alloc: Global, list: &[(u8, u8, u8)]) -> Items<Fxy> {
    let mut whole = Vec::new(alloc);
    for (f, x, y) in list {
        let fxy = Fxy::new(*f, *x, *y).expect(rt, "descriptor");
        whole.push(fxy).expect(rt, "room");
    }
    Items::from_vec(whole)
}

fn assert_not_written(rt: &impl Abort, alloc: Global, message: &Message, wanted: &str) {
    let tables = tables(rt, alloc);
    let failure = encode(alloc, &tables, message).err().expect(rt, wanted);
    drop(tables);
    let found = format!(in alloc; "{failure}").expect(rt, "room");
    same(rt, wanted, found.as_str(), wanted);
}

/// The descriptors of a message with one subset too many, and its fault: their number comes last.
const REFUSED: &[(&[(u8, u8, u8)], &str)] = &[
    (&[(2, 1, 0)], "E3 TooLarge"),
    (&[(0, 12, 101)], "E1 DoesNotFit 1 1"),
    // 127 bits more
    (&[(2, 1, 255), (0, 12, 101)], "E1 DoesNotFit 1 1"),
    (&[(0, 1, 250)], "X1 UnknownElement 001250"),
    (&[], "E4 NoDescriptors"),
];

#[test]
fn subset_limit(rt: HostRuntime) {
    let mut message = one_too_many(&rt, rt.alloc());
    for (list, wanted) in REFUSED {
        message.descriptors = list_of(&rt, rt.alloc(), list);
        assert_not_written(&rt, rt.alloc(), &message, wanted);
    }
    drop(message);
}

/// A message with one subset, without a field.
const NO_FIELD: &str = "42554652 00002F 04 | S1 | 000009 00 0001 80 8100 | 000004 00 | END";

/// An operator 255 times over, five times.
const TOO_MANY_ITEMS: &[(u8, u8, u8)] = &[
    (1, 5, 255),
    (1, 4, 255),
    (1, 3, 255),
    (1, 2, 255),
    (1, 1, 255),
    (2, 1, 0),
];

/// The limit on items of what is written, plain and compressed.
#[test]
fn item_limit(rt: HostRuntime) {
    let tables = tables(&rt, rt.alloc());
    let all = octets(&rt, rt.alloc(), NO_FIELD);
    let found = decode(rt.alloc(), &tables, all.as_slice());
    drop(tables);
    let mut message = found.expect(&rt, "a message").message;
    message.descriptors = list_of(&rt, rt.alloc(), TOO_MANY_ITEMS);
    for compressed in [false, true] {
        message.compressed = compressed;
        assert_not_written(&rt, rt.alloc(), &message, "E3 TooLarge");
    }
    drop(message);
}

fn assert_refused(rt: &impl Abort, alloc: Global, tables: &Tables, all: &[u8], wanted: &str) {
    let failure = decode(alloc, tables, all).err().expect(rt, wanted);
    let found = format!(in alloc; "{failure}").expect(rt, "room");
    same(rt, wanted, found.as_str(), wanted);
}

#[test]
fn cut_short(rt: HostRuntime) {
    let tables = tables(&rt, rt.alloc());
    let all = octets(&rt, rt.alloc(), SEQUENCES);
    for length in 0usize..62 {
        let front = all.get(..length).expect(&rt, "a front");
        let wanted = if length < 8 {
            "M1 NotBufr"
        } else {
            "M3 TotalLength"
        };
        assert_refused(&rt, rt.alloc(), &tables, front, wanted);
    }
    drop(tables);
}

/// The start of a message that is refused, zero octets of data, and why.
const REFUSED_OCTETS: &[(&str, usize, &str)] = &[
    // edition 5
    (
        "42554652 00003E 05 | S1 | 00000F 00 0001 80 C101 C10B C10C 0C65 |
00000D 00 14C03F409EC01AACC0",
        0,
        "M2 Edition 5",
    ),
    // a total of one octet too many
    (
        "42554652 00003F 04 | S1 | 00000F 00 0001 80 C101 C10B C10C 0C65 |
00000D 00 14C03F409EC01AACC0",
        0,
        "M3 TotalLength",
    ),
    (
        "42554652 00002E 04 | S1 | 000008 00 0001 80 00 | 000004 00",
        0,
        "M8 Section3Length",
    ),
    (
        "42554652 000030 04 | S1 | 000009 00 0001 80 01FA | 000005 00",
        1,
        "X1 UnknownElement 001250",
    ),
    (
        "42554652 000030 04 | S1 | 000009 00 0001 80 830C | 000005 00",
        1,
        "X3 UnsupportedOperator 203012",
    ),
    (
        "42554652 000030 04 | S1 | 000009 00 0001 80 9600 | 000005 00",
        1,
        "X3 UnsupportedOperator 222000",
    ),
    (
        "42554652 000034 04 | S1 | 00000D 00 0001 80 4100 1F0B 0C65 | 000005 00",
        1,
        "X5 BadFactor 031011",
    ),
    (
        "42554652 000030 04 | S1 | 000009 00 0001 80 C1FA | 000005 00",
        1,
        "X8 TooDeep",
    ),
    // one octet fewer than eight fields have
    (
        "42554652 000045 04 | S1 | 000017 00 0001 80 0101 0102 0401 0402 0403 0404 0405 0C65 |
00000C 00 14C03F409EC01AAC",
        0,
        "V2 DataEnds 1 8",
    ),
    // 201255
    (
        "42554652 000032 04 | S1 | 00000B 00 0001 80 81FF 0C65 | 000005 00",
        1,
        "V1 EffectiveRange 012101",
    ),
    // 255 times over, five times, with no data
    (
        "42554652 000039 04 | S1 | 000013 00 0001 80 45FF 44FF 43FF 42FF 41FF 8100 | 000004 00",
        0,
        "V6 TooLarge",
    ),
    // 255 times over, three times, of thirteen levels more of one turn each
    (
        "42554652 02004F 04 | S1 |
000029 00 0001 80 50FF 4FFF 4EFF 4D01 4C01 4B01 4A01 4901 4801 4701 4601 4501 4401 4301 4201 4101
1F00 | 020004 00",
        131_072,
        "V6 TooLarge",
    ),
    // 65,535 compressed subsets of 1,025 fields
    (
        "42554652 000B36 04 | S1 | 00000D 00 FFFF C0 4205 41CD 0C65 | 000B07 00",
        2819,
        "V6 TooLarge",
    ),
];

/// Returns octets, zero octets behind them, and section 5.
fn with_zeros(rt: &impl Abort, alloc: Global, front: &str, zeros: usize) -> Vec<u8> {
    let mut all = octets(rt, alloc, front);
    let size = all.len().saturating_add(zeros);
    all.resize(size, 0).expect(rt, "room");
    all.extend_from_slice(b"7777").expect(rt, "room");
    all
}

#[test]
fn refusals_of_octets(rt: HostRuntime) {
    let tables = tables(&rt, rt.alloc());
    for (front, zeros, wanted) in REFUSED_OCTETS {
        let all = with_zeros(&rt, rt.alloc(), front, *zeros);
        assert_refused(&rt, rt.alloc(), &tables, all.as_slice(), wanted);
    }
    drop(tables);
}

/// The start of a message of edition 3 with 12 descriptors and 16,777,215 octets, and of one with five
/// fewer.
const EDITION_3_TOO_LONG: &str = "\
42554652 FFFFFF 03 | 000011 00 00 62 00 00 00 02 0D 00 18 01 0F 0C 00 |
00001F 00 0001 80 42FF 41FF 85FF 41FF 85FF 41FF 85FF 41FF 85FF 85FF 85FF 85BF | FFFFC3 00";

const EDITION_3_LONGEST: &str = "\
42554652 FFFFFA 03 | 000011 00 00 62 00 00 00 02 0D 00 18 01 0F 0C 00 |
00001F 00 0001 80 42FF 41FF 85FF 41FF 85FF 41FF 85FF 41FF 85FF 85FF 85FF 85BA | FFFFBE 00";

/// Its canonical message would have 16,777,220 octets, since section 1 of edition 4 has five more.
#[test]
fn edition_3_too_long(rt: HostRuntime) {
    let tables = tables(&rt, rt.alloc());
    let all = with_zeros(&rt, rt.alloc(), EDITION_3_TOO_LONG, 16_777_151);
    same(&rt, "octets", all.len(), 16_777_215);
    assert_refused(&rt, rt.alloc(), &tables, all.as_slice(), "V6 TooLarge");
    let all = with_zeros(&rt, rt.alloc(), EDITION_3_LONGEST, 16_777_146);
    assert_longest(&rt, rt.alloc(), &tables, all.as_slice());
    drop(tables);
}

/// Reads octets without slack, and writes the most octets that a message has.
fn assert_longest(rt: &impl Abort, alloc: Global, tables: &Tables, all: &[u8]) {
    let found = decode(alloc, tables, all).expect(rt, "a message");
    same(rt, "slack", found.slack_octets, 0);
    let written = encode(alloc, tables, &found.message).expect(rt, "octets");
    drop(found);
    same(rt, "octets", written.len(), 16_777_215);
}

/// Two subsets of counts 0 and 1 cannot stand in columns.
#[test]
fn unequal_counts_in_columns(rt: HostRuntime) {
    let tables = tables(&rt, rt.alloc());
    let all = octets(&rt, rt.alloc(), UNEQUAL_COUNTS);
    let mut found = decode(rt.alloc(), &tables, all.as_slice()).expect(&rt, "a message");
    found.message.compressed = true;
    assert_not_written(&rt, rt.alloc(), &found.message, "E2 NotCompressible 1");
    drop(found);
    drop(tables);
}
