//! Tests of subsets by number, and of lent octets.

use super::same;
use super::samples::{DELAYED, Descriptors, TEMPERATURE, Wanted, octets_of, same_subset, template};
use bufr_bits::{BitReader, BitSink};
use bufr_data::{SUBSET_ROOM, SubsetIndex};
use std::alloc::Global;
use std::process::Abort;

const STATION: Descriptors = &[(3, 1, 1)];

const TWICE: Descriptors = &[(1, 1, 2), (0, 12, 101)];

/// 7 bits and 10 bits, three times: 94 and 578, 3 and 1000, 127 and 0; five bits are left.
const THREE_STATIONS: &[u8] = &[0xBD, 0x21, 0x03, 0xFA, 0x3F, 0x80, 0x1F];

/// Three subsets of two temperatures; an octet is left.
const TURNS: &[u8] = &[
    0x6A, 0xB3, 0x6A, 0xB4, 0x00, 0x01, 0x00, 0x02, 0xFF, 0xFF, 0x00, 0x00, 0x07,
];

/// Indexes octets and compares the place after them and the number of subsets.
pub(crate) fn indexed<'a>(
    rt: &impl Abort,
    alloc: Global,
    list: Descriptors,
    compressed: bool,
    count: u16,
    octets: &'a [u8],
    place: u128,
) -> SubsetIndex<'a> {
    let template = template(rt, alloc, list);
    let mut reader = BitReader::new(octets);
    let index = SubsetIndex::index(alloc, template, compressed, &mut reader, count).expect(
        rt, "an index",
    );
    same(rt, reader.place(), place);
    same(rt, index.count(), usize::from(count));
    index
}

fn has(rt: &impl Abort, alloc: Global, index: &SubsetIndex, at: usize, wanted: Wanted) {
    assert!(rt; at < index.count());
    let subset = index.subset(alloc, at).expect(rt, "room");
    same_subset(rt, &subset, wanted.0, wanted.1);
    drop(subset);
}

/// Descriptors, whether compressed, the number of subsets, their octets, the place after them, and
/// subsets by index in the order of the calls.
type Row<'a> = (
    Descriptors<'a>,
    bool,
    u16,
    &'a [u8],
    u128,
    &'a [(usize, Wanted<'a>)],
);

fn answers(rt: &impl Abort, alloc: Global, row: &Row) {
    let (list, compressed, count, octets, place, subsets) = *row;
    let index = indexed(rt, alloc, list, compressed, count, octets, place);
    for (at, wanted) in subsets {
        has(rt, alloc, &index, *at, *wanted);
    }
    drop(index);
}

const ROWS: &[Row] = &[
    // counts: each subset begins at the end of the one before
    (
        DELAYED,
        false,
        3,
        &[0x00, 0x02, 0x6A, 0xB3, 0x6A, 0xB4, 0x01, 0x00, 0x05, 0xFF],
        72,
        &[
            (2, (&[1, 5], &[])),
            (0, (&[0], &[])),
            (1, (&[2, 27315, 27316], &[])),
            (2, (&[1, 5], &[])),
        ],
    ),
    (
        TEMPERATURE,
        true,
        2,
        &[0x6A, 0xB3, 0x08, 0x40],
        26,
        &[
            (1, (&[27316], &[])),
            (0, (&[27315], &[])),
            (1, (&[27316], &[])),
        ],
    ),
    // two bits, and "A ", twice: 01 01000001 00100000 10 01000010 01000011
    (
        &[(0, 2, 1), (2, 8, 2), (0, 1, 11)],
        false,
        2,
        &[0x50, 0x48, 0x24, 0x24, 0x30],
        36,
        &[(0, (&[1, 0], b"A ")), (1, (&[2, 0], b"BC"))],
    ),
    // no subset
    (TEMPERATURE, false, 0, &[0xFF], 0, &[]),
    (TEMPERATURE, true, 0, &[0xFF], 0, &[]),
    // plain subsets without counts
    (
        STATION,
        false,
        3,
        THREE_STATIONS,
        51,
        &[
            (1, (&[3, 1000], &[])),
            (2, (&[127, 0], &[])),
            (0, (&[94, 578], &[])),
        ],
    ),
    (
        TWICE,
        false,
        3,
        TURNS,
        96,
        &[
            (0, (&[27315, 27316], &[])),
            (1, (&[1, 2], &[])),
            (2, (&[65535, 0], &[])),
        ],
    ),
];

#[test]
fn subsets_in_any_order(rt: HostRuntime) {
    for row in ROWS {
        answers(&rt, rt.alloc(), row);
    }
}

/// Octets, or none.
type Octets<'a> = Option<&'a [u8]>;

/// Descriptors, whether compressed, the octets, the place after the subsets, and of each subset the
/// lent octets and the filled ones.
type Lent<'a> = (
    Descriptors<'a>,
    bool,
    &'a [u8],
    u128,
    &'a [(Octets<'a>, Octets<'a>)],
);

const LENT: &[Lent] = &[
    // two subsets of two temperatures
    (
        TWICE,
        false,
        &[0x6A, 0xB3, 0x6A, 0xB4, 0x00, 0x05, 0xFF, 0xFE],
        64,
        &[
            (
                Some(&[0x6A, 0xB3, 0x6A, 0xB4]),
                Some(&[0x6A, 0xB3, 0x6A, 0xB4]),
            ),
            (
                Some(&[0x00, 0x05, 0xFF, 0xFE]),
                Some(&[0x00, 0x05, 0xFF, 0xFE]),
            ),
        ],
    ),
    // 0000110 1001011001, and then seven bits, all zero or not
    (
        STATION,
        false,
        &[0x0D, 0x2C, 0x80, 0xFF],
        17,
        &[(Some(&[0x0D, 0x2C, 0x80]), Some(&[0x0D, 0x2C, 0x80]))],
    ),
    (
        STATION,
        false,
        &[0x0D, 0x2C, 0x81, 0x00],
        17,
        &[(None, Some(&[0x0D, 0x2C, 0x80]))],
    ),
    // 0000110 1001011001 and 0000000 0000000000: the second begins inside an octet
    (
        STATION,
        false,
        &[0x0D, 0x2C, 0x80, 0x00, 0x00],
        34,
        &[
            (Some(&[0x0D, 0x2C, 0x80]), Some(&[0x0D, 0x2C, 0x80])),
            (None, Some(&[0x00, 0x00, 0x00])),
        ],
    ),
    // one temperature, twice, with no increments
    (
        TEMPERATURE,
        true,
        &[0x6A, 0xB3, 0x00],
        22,
        &[(None, None), (None, None)],
    ),
];

fn lends(rt: &impl Abort, alloc: Global, row: &Lent) {
    let (list, compressed, octets, place, subsets) = *row;
    let count = u16::try_from(subsets.len()).expect(rt, "a number");
    let index = indexed(rt, alloc, list, compressed, count, octets, place);
    for (at, wanted) in subsets.iter().enumerate() {
        assert!(rt; at < index.count());
        same(rt, index.lent(at), wanted.0);
        fills(rt, &index, at, wanted.1);
    }
    drop(index);
}

/// The subset has these octets, in a room without a zero bit at first.
fn fills(rt: &impl Abort, index: &SubsetIndex, at: usize, wanted: Octets) {
    assert!(rt; at < index.count());
    let mut room = [0xFF; SUBSET_ROOM];
    same(rt, index.filled_octets(at, &mut room), wanted);
}

#[test]
fn octets_that_are_lent(rt: HostRuntime) {
    for row in LENT {
        lends(&rt, rt.alloc(), row);
    }
}

/// Bits of a subset that begin with the fourth.
const OFF_AN_EDGE: &[u8] = &[
    0x57, 0x0C, 0x42, 0xBD, 0xA5, 0x6A, 0x7F, 0xF3, 0x67, 0xC6, 0x53, 0xCF, 0xAA, 0x0C, 0xBF,
];

/// Descriptors of a subset of 0, 1, 55, 56, 57, 112 and 113 bits, and the octets put.
const PUT: &[(Descriptors, &[u8])] = &[
    (&[], &[]),
    (&[(2, 1, 122), (0, 1, 1)], &[0x80]),
    (
        &[(2, 1, 176), (0, 1, 1)],
        &[0xB8, 0x62, 0x15, 0xED, 0x2B, 0x53, 0xFE],
    ),
    (
        &[(2, 1, 177), (0, 1, 1)],
        &[0xB8, 0x62, 0x15, 0xED, 0x2B, 0x53, 0xFF],
    ),
    (
        &[(2, 1, 178), (0, 1, 1)],
        &[0xB8, 0x62, 0x15, 0xED, 0x2B, 0x53, 0xFF, 0x80],
    ),
    (
        &[(2, 1, 177), (0, 1, 1), (0, 1, 1)],
        &[
            0xB8, 0x62, 0x15, 0xED, 0x2B, 0x53, 0xFF, 0x9B, 0x3E, 0x32, 0x9E, 0x7D, 0x50, 0x65,
        ],
    ),
    (
        &[(2, 1, 178), (0, 1, 1), (2, 1, 0), (2, 1, 177), (0, 1, 1)],
        &[
            0xB8, 0x62, 0x15, 0xED, 0x2B, 0x53, 0xFF, 0x9B, 0x3E, 0x32, 0x9E, 0x7D, 0x50, 0x65,
            0x80,
        ],
    ),
];

/// Puts the first subset, fills its octets, and compares both.
fn puts(rt: &impl Abort, alloc: Global, first: u128, list: Descriptors, wanted: &[u8]) {
    let mut reader = BitReader::new(OFF_AN_EDGE);
    same(rt, reader.pass(first), true);
    let template = template(rt, alloc, list);
    let index = SubsetIndex::index(alloc, template, false, &mut reader, 1).expect(rt, "an index");
    assert!(rt; 0 < index.count());
    let mut sink = BitSink::new(alloc);
    index.put(alloc, 0, &mut sink).expect(rt, "room");
    fills(rt, &index, 0, Some(wanted));
    drop(index);
    same(rt, octets_of(sink).as_slice(), wanted);
}

/// The first 57 of the bits after none to seven.
const FROM_EACH_BIT: [&[u8]; 8] = [
    &[0x57, 0x0C, 0x42, 0xBD, 0xA5, 0x6A, 0x7F, 0x80],
    &[0xAE, 0x18, 0x85, 0x7B, 0x4A, 0xD4, 0xFF, 0x80],
    &[0x5C, 0x31, 0x0A, 0xF6, 0x95, 0xA9, 0xFF, 0x80],
    &[0xB8, 0x62, 0x15, 0xED, 0x2B, 0x53, 0xFF, 0x80],
    &[0x70, 0xC4, 0x2B, 0xDA, 0x56, 0xA7, 0xFF, 0x00],
    &[0xE1, 0x88, 0x57, 0xB4, 0xAD, 0x4F, 0xFE, 0x00],
    &[0xC3, 0x10, 0xAF, 0x69, 0x5A, 0x9F, 0xFC, 0x80],
    &[0x86, 0x21, 0x5E, 0xD2, 0xB5, 0x3F, 0xF9, 0x80],
];

#[test]
fn bits_that_are_put(rt: HostRuntime) {
    for (list, wanted) in PUT {
        puts(&rt, rt.alloc(), 3, list, *wanted);
    }
    for (first, wanted) in FROM_EACH_BIT.iter().enumerate() {
        let list: Descriptors = &[(2, 1, 178), (0, 1, 1)];
        puts(&rt, rt.alloc(), first as u128, list, *wanted);
    }
}

/// The octets 1, 2, 3 to 65.
fn counted_up(rt: &impl Abort, alloc: Global) -> Vec<u8> {
    let mut octets = Vec::new(alloc);
    for octet in 1..66 {
        octets.push(octet).expect(rt, "room");
    }
    octets
}

/// The octets of a subset of one-octet counts, if they fit the room.
const COUNTS: &[(u8, bool)] = &[
    (1, true),
    (7, true),
    (8, true),
    (9, true),
    (63, true),
    (64, true),
    (65, false),
];

/// A subset of the first octets, after five bits, has them in the room if they fit.
fn counts_fill(rt: &impl Abort, alloc: Global, octets: &[u8], row: (u8, bool)) {
    let mut sink = BitSink::new(alloc);
    sink.put(5, 21).expect(rt, "room");
    sink.put_bytes(octets).expect(rt, "room");
    let all = octets_of(sink);
    let mut reader = BitReader::new(all.as_slice());
    same(rt, reader.pass(5), true);
    let template = template(rt, alloc, &[(1, 1, row.0), (0, 31, 1)]);
    let index = SubsetIndex::index(alloc, template, false, &mut reader, 1).expect(rt, "an index");
    assert!(rt; 0 < index.count());
    let wanted = octets.get(..usize::from(row.0));
    fills(rt, &index, 0, if row.1 { wanted } else { None });
    drop(index);
}

#[test]
fn octets_that_fit_a_room(rt: HostRuntime) {
    let octets = counted_up(&rt, rt.alloc());
    for row in COUNTS {
        counts_fill(&rt, rt.alloc(), octets.as_slice(), *row);
    }
}
