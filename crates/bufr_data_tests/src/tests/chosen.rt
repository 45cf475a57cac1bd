//! Tests of the fields of a list's descriptors: at their places in plain subsets, and in columns.

use super::same;
use super::samples::{
    BEFORE_A_COUNT, BEFORE_A_COUNT_OCTETS, BETWEEN, BETWEEN_OCTETS, DELAYED, Descriptors,
    EIGHT_BLOCKS, MIXED, MIXED_COLUMNS, MIXED_PLAIN, number_of, same_subset, template, text_of,
};
use bufr_bits::BitReader;
use bufr_data::{ChosenFields, DataTemplate, Field, SUBSET_ROOM, SubsetIndex};
use std::alloc::Global;
use std::process::Abort;

/// Block numbers, 0 01 001.
const BLOCKS: &[u16] = &[0x0101];

/// Temperatures, 0 12 101.
const TEMPERATURES: &[u16] = &[0x0C65];

/// Blocks, station numbers, names and temperatures.
const ALL: &[u16] = &[0x0101, 0x0102, 0x010B, 0x0C65];

/// Blocks and station numbers.
const STATIONS: &[u16] = &[0x0101, 0x0102];

/// Station numbers, names and temperatures: 0 01 002, 0 01 011 and 0 12 101.
const OTHERS: &[u16] = &[0x0C65, 0x010B, 0x0102];

/// Names, 0 01 011.
const NAMES: &[u16] = &[0x010B];

/// Two compressed subsets with a name each: the template, the octets, and the names.
type Named<'a> = (Descriptors<'a>, &'a [u8], &'a [u8], &'a [u8]);

const NAMED: &[Named] = &[
    // no minimum, three octets each, then "abc" and "xyz" from bit 30 on
    (
        &[(2, 8, 3), (0, 1, 11)],
        &[0, 0, 0, 0x0D, 0x85, 0x89, 0x8D, 0xE1, 0xE5, 0xE8],
        b"abc",
        b"xyz",
    ),
    // May in four bits without increments, and these from bit 40 on
    (
        &[(0, 4, 2), (2, 8, 3), (0, 1, 11)],
        &[0x50, 0, 0, 0, 3, 0x61, 0x62, 0x63, 0x78, 0x79, 0x7A],
        b"abc",
        b"xyz",
    ),
    // block 10 without increments, and "ab " for both
    (
        &[(0, 1, 1), (2, 8, 3), (0, 1, 11)],
        &[0x14, 0x03, 0x0B, 0x11, 0, 0],
        b"ab ",
        b"ab ",
    ),
    // four octets with two each: "AB", and ones
    (
        &[(2, 8, 4), (0, 1, 11)],
        &[0x20, 0x20, 0x20, 0x20, 0x09, 0x05, 0x0B, 0xFF, 0xFC],
        b"AB  ",
        b"\xFF\xFF\xFF\xFF",
    ),
    // nine octets with one each: "A" and "B"
    (
        &[(0, 1, 11)],
        &[
            0x20, 0x20, 0x20, 0x20, 0x20, 0x20, 0x20, 0x20, 0x20, 0x05, 0x05, 0x08,
        ],
        b"A        ",
        b"B        ",
    ),
];

/// Indexes a message of a template, with the places of some descriptors.
fn indexed<'a>(
    rt: &impl Abort,
    alloc: Global,
    kept: &mut DataTemplate,
    asked: &[u16],
    compressed: bool,
    octets: &'a [u8],
    count: u16,
) -> SubsetIndex<'a> {
    let mut reader = BitReader::new(octets);
    kept.index_for(alloc, asked, compressed, &mut reader, count)
        .expect(rt, "an index")
}

/// Compares the numbers of the fields, by both ways to hand them out, and sees the end.
fn are_numbers(
    rt: &impl Abort,
    alloc: Global,
    mut fields: ChosenFields<'_>,
    mut again: ChosenFields<'_>,
    wanted: &[u64],
) {
    for number in wanted {
        assert!(rt; !fields.is_empty());
        let found = fields.next_number().expect(rt, "a number");
        same(rt, found.number, *number);
        let field = again.next(alloc).expect(rt, "room").expect(rt, "a field");
        same(rt, number_of(&field), Some(*number));
        same(rt, field.fxy, found.fxy);
        drop(field);
    }
    assert!(rt; fields.is_empty());
    same(rt, fields.next_number(), None);
    same(rt, again.next(alloc).expect(rt, "room"), None);
    drop(again);
    drop(fields);
}

/// Compares the numbers of the chosen fields at an index; none are wanted if places are unknown.
fn has_numbers(
    rt: &impl Abort,
    alloc: Global,
    index: &SubsetIndex,
    asked: &[u16],
    at: usize,
    wanted: Option<&[u64]>,
) {
    assert!(rt; at < index.count());
    match (index.chosen(asked, at), index.chosen(asked, at), wanted) {
        (Some(fields), Some(again), Some(wanted)) => {
            are_numbers(rt, alloc, fields, again, wanted);
        }
        (None, None, None) => {}
        _ => panic!(rt; "places are known or not"),
    }
}

/// Places are known from a template's second message on, for one list of descriptors.
#[test]
fn blocks_at_their_places(rt: HostRuntime) {
    let alloc = rt.alloc();
    let mut kept = DataTemplate::new(template(&rt, alloc, BETWEEN));
    let first = indexed(&rt, alloc, &mut kept, BLOCKS, false, BETWEEN_OCTETS, 1);
    has_numbers(&rt, alloc, &first, BLOCKS, 0, None);
    for _ in 0..2 {
        let index = indexed(&rt, alloc, &mut kept, BLOCKS, false, BETWEEN_OCTETS, 1);
        has_numbers(&rt, alloc, &index, BLOCKS, 0, Some(&[10, 11, 12, 127]));
        has_numbers(&rt, alloc, &index, TEMPERATURES, 0, None);
        has_numbers(&rt, alloc, &index, &[], 0, None);
        drop(index);
    }
    places_of_blocks_stay(&rt, alloc, &mut kept);
    drop(first);
    drop(kept);
}

/// Compares the blocks of a message of a template, indexed for temperatures after them.
fn places_of_blocks_stay(rt: &impl Abort, alloc: Global, kept: &mut DataTemplate) {
    let other = indexed(rt, alloc, kept, TEMPERATURES, false, BETWEEN_OCTETS, 1);
    has_numbers(rt, alloc, &other, TEMPERATURES, 0, None);
    has_numbers(rt, alloc, &other, BLOCKS, 0, Some(&[10, 11, 12, 127]));
    drop(other);
}

/// A text is no number: it is left, and handed out as a field.
#[test]
fn texts_at_their_places(rt: HostRuntime) {
    let alloc = rt.alloc();
    let mut kept = DataTemplate::new(template(&rt, alloc, BETWEEN));
    let first = indexed(&rt, alloc, &mut kept, OTHERS, false, BETWEEN_OCTETS, 1);
    let index = indexed(&rt, alloc, &mut kept, OTHERS, false, BETWEEN_OCTETS, 1);
    assert!(&rt; 0 < index.count());
    let fields = index.chosen(OTHERS, 0).expect(&rt, "places");
    hands_out_others(&rt, alloc, fields);
    drop(index);
    drop(first);
    drop(kept);
}

fn has_number(rt: &impl Abort, fields: &mut ChosenFields<'_>, wanted: u64) {
    let found = fields.next_number().expect(rt, "a number");
    same(rt, found.number, wanted);
}

fn has_name(rt: &impl Abort, found: Option<Field>) {
    let name = found.expect(rt, "a text");
    same(rt, text_of(&name), b"SHIP1   ");
    drop(name);
}

/// Compares a wide number, a name and two numbers, which are all that is left.
fn hands_out_others(rt: &impl Abort, alloc: Global, mut fields: ChosenFields<'_>) {
    has_number(rt, &mut fields, 0x7FFF_FFFF_FFFF_FFFE);
    same(rt, fields.next_number(), None);
    has_name(rt, fields.next(alloc).expect(rt, "room"));
    for number in [384, 27315] {
        has_number(rt, &mut fields, number);
    }
    same(rt, fields.next_number(), None);
    same(rt, fields.next(alloc).expect(rt, "room"), None);
    drop(fields);
}

fn has_short(rt: &impl Abort, fields: &mut ChosenFields<'_>, element: u16, wanted: Option<u16>) {
    let found = fields.next_short().expect(rt, "a short number");
    same(rt, found.fxy.bits(), element);
    same(rt, found.number, wanted);
}

/// Compares a number that is not short.
fn has_other(rt: &impl Abort, fields: &mut ChosenFields<'_>, wanted: u64) {
    same(rt, fields.next_short(), None);
    has_number(rt, fields, wanted);
}

/// Short numbers come with their elements. Other fields are left: a wide number, a text, one with a
/// scale.
#[test]
fn short_numbers_at_their_places(rt: HostRuntime) {
    let alloc = rt.alloc();
    let mut kept = DataTemplate::new(template(&rt, alloc, BETWEEN));
    let first = indexed(&rt, alloc, &mut kept, ALL, false, BETWEEN_OCTETS, 1);
    let index = indexed(&rt, alloc, &mut kept, ALL, false, BETWEEN_OCTETS, 1);
    assert!(&rt; 0 < index.count());
    let fields = index.chosen(ALL, 0).expect(&rt, "places");
    hands_out_short(&rt, alloc, fields);
    drop(index);
    drop(first);
    drop(kept);
}

fn hands_out_short(rt: &impl Abort, alloc: Global, mut fields: ChosenFields<'_>) {
    has_short(rt, &mut fields, 0x0101, Some(10));
    has_other(rt, &mut fields, 0x7FFF_FFFF_FFFF_FFFE);
    same(rt, fields.next_short(), None);
    has_name(rt, fields.next(alloc).expect(rt, "room"));
    has_short(rt, &mut fields, 0x0101, Some(11));
    has_short(rt, &mut fields, 0x0101, Some(12));
    has_short(rt, &mut fields, 0x0102, Some(384));
    has_short(rt, &mut fields, 0x0101, None);
    has_other(rt, &mut fields, 27315);
    same(rt, fields.next_short(), None);
    same(rt, fields.next(alloc).expect(rt, "room"), None);
    drop(fields);
}

/// A number of 16 bits is short, one of 17 or with a reference value is not.
#[test]
fn bounds_of_short_numbers(rt: HostRuntime) {
    let alloc = rt.alloc();
    let list: Descriptors = &[
        (2, 1, 134),
        (0, 1, 2),
        (0, 1, 2),
        (2, 1, 135),
        (0, 1, 2),
        (2, 1, 0),
        (0, 7, 1),
        (0, 1, 2),
    ];
    // 65534 and 65535 in 16 bits, 5 in 17, 401 in 15, and 3 in ten
    let octets = [0xFF, 0xFE, 0xFF, 0xFF, 0x00, 0x02, 0x81, 0x91, 0x00, 0xC0];
    let asked = &[0x0102, 0x0701];
    let mut kept = DataTemplate::new(template(&rt, alloc, list));
    let first = indexed(&rt, alloc, &mut kept, asked, false, &octets, 1);
    let index = indexed(&rt, alloc, &mut kept, asked, false, &octets, 1);
    assert!(&rt; 0 < index.count());
    let mut fields = index.chosen(asked, 0).expect(&rt, "places");
    has_short(&rt, &mut fields, 0x0102, Some(65534));
    has_short(&rt, &mut fields, 0x0102, None);
    has_other(&rt, &mut fields, 5);
    has_other(&rt, &mut fields, 401);
    has_short(&rt, &mut fields, 0x0102, Some(3));
    same(&rt, fields.next_short(), None);
    drop(fields);
    drop(index);
    drop(first);
    drop(kept);
}

/// Each of eight subsets has its fields a width further on.
#[test]
fn each_subset_has_its_places(rt: HostRuntime) {
    let alloc = rt.alloc();
    let list: Descriptors = &[(0, 12, 101), (0, 1, 1)];
    let mut kept = DataTemplate::new(template(&rt, alloc, list));
    let index = indexed(&rt, alloc, &mut kept, BLOCKS, false, EIGHT_BLOCKS, 8);
    for at in 0..8 {
        let wanted = [10 * (at as u64 + 1)];
        has_numbers(&rt, alloc, &index, BLOCKS, at, Some(&wanted));
    }
    drop(index);
    drop(kept);
}

/// Fields before a count have places from the second message on, whatever the counts are. All fields
/// still come, those after the count too.
#[test]
fn places_before_a_count(rt: HostRuntime) {
    let alloc = rt.alloc();
    let octets = BEFORE_A_COUNT_OCTETS;
    let mut kept = DataTemplate::new(template(&rt, alloc, BEFORE_A_COUNT));
    let first = indexed(&rt, alloc, &mut kept, STATIONS, false, octets, 2);
    has_numbers(&rt, alloc, &first, STATIONS, 0, None);
    for _ in 0..2 {
        let index = indexed(&rt, alloc, &mut kept, STATIONS, false, octets, 2);
        has_numbers(&rt, alloc, &index, STATIONS, 0, Some(&[10, 384]));
        has_numbers(&rt, alloc, &index, STATIONS, 1, Some(&[11, 385]));
        has_numbers(&rt, alloc, &index, BLOCKS, 0, None);
        has_subset(&rt, alloc, &index, 0, &[10, 384, 2, 27315, 1]);
        has_subset(&rt, alloc, &index, 1, &[11, 385, 0]);
        drop(index);
    }
    drop(first);
    drop(kept);
}

fn has_subset(rt: &impl Abort, alloc: Global, index: &SubsetIndex, at: usize, numbers: &[u64]) {
    assert!(rt; at < index.count());
    let subset = index.subset(alloc, at).expect(rt, "room");
    same_subset(rt, &subset, numbers, &[]);
    drop(subset);
}

/// Fields have no places if one of their descriptors comes after a count, or is the count's.
#[test]
fn no_places_before_a_count(rt: HostRuntime) {
    let alloc = rt.alloc();
    let octets = BEFORE_A_COUNT_OCTETS;
    for asked in [ALL, &[0x0101, 0x1F01], &[0x1F01]] {
        let mut kept = DataTemplate::new(template(&rt, alloc, BEFORE_A_COUNT));
        let first = indexed(&rt, alloc, &mut kept, asked, false, octets, 2);
        let index = indexed(&rt, alloc, &mut kept, asked, false, octets, 2);
        has_numbers(&rt, alloc, &index, asked, 0, None);
        drop(index);
        drop(first);
        drop(kept);
    }
}

/// Without a list no field is chosen, and after a count no place is known.
#[test]
fn no_places(rt: HostRuntime) {
    let alloc = rt.alloc();
    let mut kept = DataTemplate::new(template(&rt, alloc, DELAYED));
    for _ in 0..3 {
        // a count of one, and 27315
        let octets = [1, 0x6A, 0xB3];
        let index = indexed(&rt, alloc, &mut kept, TEMPERATURES, false, &octets, 1);
        has_numbers(&rt, alloc, &index, TEMPERATURES, 0, None);
        drop(index);
    }
    drop(kept);
    places_of_no_list(&rt, alloc);
}

fn places_of_no_list(rt: &impl Abort, alloc: Global) {
    let mut kept = DataTemplate::new(template(rt, alloc, BETWEEN));
    let first = indexed(rt, alloc, &mut kept, &[], false, BETWEEN_OCTETS, 1);
    let index = indexed(rt, alloc, &mut kept, &[], false, BETWEEN_OCTETS, 1);
    has_numbers(rt, alloc, &index, &[], 0, Some(&[]));
    has_numbers(rt, alloc, &index, BLOCKS, 0, None);
    drop(index);
    drop(first);
    drop(kept);
}

/// Compares the short number of each of two subsets, after a temperature.
fn has_column(rt: &impl Abort, alloc: Global, index: &SubsetIndex, wanted: &[Option<u16>; 2]) {
    for (at, number) in wanted.iter().enumerate() {
        assert!(rt; at < index.count());
        let mut fields = index.chosen(ALL, at).expect(rt, "places");
        has_other(rt, &mut fields, 27315);
        has_short(rt, &mut fields, 0x0101, *number);
        same(rt, fields.next_short(), None);
        same(rt, fields.next(alloc).expect(rt, "room"), None);
        drop(fields);
    }
}

/// A column of blocks has 11 and a missing number.
#[test]
fn short_numbers_of_columns(rt: HostRuntime) {
    let alloc = rt.alloc();
    let list: Descriptors = &[(0, 12, 101), (0, 1, 1)];
    // 27315 and no increments; 10, increments of two bits, 1 and 3
    let octets = [0x6A, 0xB3, 0x00, 0x50, 0x4E];
    let mut kept = DataTemplate::new(template(&rt, alloc, list));
    let index = indexed(&rt, alloc, &mut kept, ALL, true, &octets, 2);
    has_column(&rt, alloc, &index, &[Some(11), None]);
    drop(index);
    drop(kept);
}

/// Compares the numbers that columns of temperatures have in the subset at an index.
fn lends_numbers(rt: &impl Abort, index: &SubsetIndex, at: usize, wanted: &[u64]) {
    assert!(rt; at < index.count());
    let columns = index.chosen_columns(TEMPERATURES).expect(rt, "columns");
    same(rt, columns.len(), wanted.len());
    for (column, number) in wanted.iter().enumerate() {
        let element = columns.fxy_at(column).expect(rt, "a column");
        same(rt, element.bits(), 0x0C65);
        let found = columns.number_at(column, at).expect(rt, "a number");
        same(rt, (found.fxy.bits(), found.number), (0x0C65, *number));
    }
    same(rt, columns.fxy_at(wanted.len()), None);
    same(rt, columns.number_at(wanted.len(), at), None);
    drop(columns);
}

/// Columns are lent for the list that they were found for.
fn lends_columns(rt: &impl Abort, index: &SubsetIndex) {
    lends_numbers(rt, index, 0, &[27315, 5, 7]);
    lends_numbers(rt, index, 1, &[27316, 5, 9]);
    assert!(rt; index.chosen_columns(BLOCKS).is_none());
}

#[test]
fn columns_of_temperatures(rt: HostRuntime) {
    let alloc = rt.alloc();
    let mut kept = DataTemplate::new(template(&rt, alloc, MIXED));
    let index = indexed(&rt, alloc, &mut kept, TEMPERATURES, true, MIXED_COLUMNS, 2);
    has_numbers(&rt, alloc, &index, TEMPERATURES, 0, Some(&[27315, 5, 7]));
    has_numbers(&rt, alloc, &index, TEMPERATURES, 1, Some(&[27316, 5, 9]));
    has_numbers(&rt, alloc, &index, BLOCKS, 0, None);
    lends_columns(&rt, &index);
    plain_after_columns(&rt, alloc, &mut kept);
    drop(index);
    drop(kept);
}

/// Compares the numbers of the first plain message of a template, and of its second.
fn plain_after_columns(rt: &impl Abort, alloc: Global, kept: &mut DataTemplate) {
    let first = indexed(rt, alloc, kept, TEMPERATURES, false, MIXED_PLAIN, 2);
    has_numbers(rt, alloc, &first, TEMPERATURES, 0, None);
    let plain = indexed(rt, alloc, kept, TEMPERATURES, false, MIXED_PLAIN, 2);
    let numbers = [27315, 5, 65535];
    has_numbers(rt, alloc, &plain, TEMPERATURES, 0, Some(&numbers));
    has_numbers(rt, alloc, &plain, TEMPERATURES, 1, Some(&[1, 2, 0]));
    assert!(rt; plain.chosen_columns(TEMPERATURES).is_none());
    drop(plain);
    drop(first);
}

/// Returns the octets of the next field, if it is a name that a room takes.
fn name_in<'r>(fields: &mut ChosenFields, room: &'r mut [u8; SUBSET_ROOM]) -> Option<&'r [u8]> {
    match fields.next_text(room) {
        Some(text) if text.fxy.bits() == 0x010B => Some(text.octets),
        _ => None,
    }
}

/// Compares the name at an index with the one that a room takes.
fn is_named(rt: &impl Abort, alloc: Global, index: &SubsetIndex, at: usize, wanted: &[u8]) {
    assert!(rt; at < index.count());
    let mut room = [7; SUBSET_ROOM];
    let mut fields = index.chosen(NAMES, at).expect(rt, "places");
    same(rt, name_in(&mut fields, &mut room), Some(wanted));
    same(rt, name_in(&mut fields, &mut room), None);
    same(rt, fields.next(alloc).expect(rt, "room"), None);
    drop(fields);
}

/// Compares the name that the first column has in the subset at an index, if a room takes it.
fn lends_name(rt: &impl Abort, index: &SubsetIndex, at: usize, wanted: Option<&[u8]>) {
    assert!(rt; at < index.count());
    let mut room = [7; SUBSET_ROOM];
    let columns = index.chosen_columns(NAMES).expect(rt, "columns");
    same(rt, columns.number_at(0, at), None);
    let found = match columns.text_at(0, at, &mut room) {
        Some(text) => {
            same(rt, text.fxy.bits(), 0x010B);
            Some(text.octets)
        }
        None => None,
    };
    same(rt, found, wanted);
    drop(columns);
}

#[test]
fn names_of_columns(rt: HostRuntime) {
    let alloc = rt.alloc();
    for (list, octets, first, second) in NAMED {
        let mut kept = DataTemplate::new(template(&rt, alloc, *list));
        let index = indexed(&rt, alloc, &mut kept, NAMES, true, *octets, 2);
        is_named(&rt, alloc, &index, 0, *first);
        is_named(&rt, alloc, &index, 1, *second);
        lends_name(&rt, &index, 0, Some(*first));
        lends_name(&rt, &index, 1, Some(*second));
        drop(index);
        drop(kept);
    }
}

/// A room takes 64 octets. A longer text is left, and handed out as a field.
#[test]
fn long_names_of_columns(rt: HostRuntime) {
    let alloc = rt.alloc();
    // the minimum is the text of both subsets
    let mut octets = [b'A'; 65];
    octets[64] = 0;
    let list: Descriptors = &[(2, 8, 64), (0, 1, 11)];
    let mut kept = DataTemplate::new(template(&rt, alloc, list));
    let index = indexed(&rt, alloc, &mut kept, NAMES, true, &octets, 2);
    is_named(&rt, alloc, &index, 1, &octets[..64]);
    longer_names_are_left(&rt, alloc);
    drop(index);
    drop(kept);
}

fn longer_names_are_left(rt: &impl Abort, alloc: Global) {
    let mut octets = [b'A'; 66];
    octets[65] = 0;
    let list: Descriptors = &[(2, 8, 65), (0, 1, 11)];
    let mut kept = DataTemplate::new(template(rt, alloc, list));
    let index = indexed(rt, alloc, &mut kept, NAMES, true, &octets, 2);
    is_left(rt, alloc, &index, &octets[..65]);
    lends_name(rt, &index, 1, None);
    drop(index);
    drop(kept);
}

/// Compares the name of the second subset with the one that is handed out as a field alone.
fn is_left(rt: &impl Abort, alloc: Global, index: &SubsetIndex, wanted: &[u8]) {
    assert!(rt; 1 < index.count());
    let mut room = [7; SUBSET_ROOM];
    let mut fields = index.chosen(NAMES, 1).expect(rt, "places");
    same(rt, name_in(&mut fields, &mut room), None);
    let name = fields.next(alloc).expect(rt, "room").expect(rt, "a text");
    same(rt, text_of(&name), wanted);
    drop(name);
    drop(fields);
}

/// A number is no text: it is left, and handed out before the text after it.
#[test]
fn numbers_before_names(rt: HostRuntime) {
    let alloc = rt.alloc();
    let (list, octets, name, _) = NAMED[2];
    let mut kept = DataTemplate::new(template(&rt, alloc, list));
    let index = indexed(&rt, alloc, &mut kept, ALL, true, octets, 2);
    assert!(&rt; 0 < index.count());
    let mut room = [7; SUBSET_ROOM];
    let mut fields = index.chosen(ALL, 0).expect(&rt, "places");
    same(&rt, name_in(&mut fields, &mut room), None);
    has_number(&rt, &mut fields, 10);
    same(&rt, name_in(&mut fields, &mut room), Some(name));
    drop(fields);
    drop(index);
    drop(kept);
}
