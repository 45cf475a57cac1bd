//! Tests of chosen fields: along a walk, by a layout and in columns.

ghost use Rattle.std.specs.Prelude.{◌==◌};

use super::same;
use super::samples::{
    BETWEEN, BETWEEN_OCTETS, Descriptors, EIGHT_BLOCKS, MIXED, MIXED_COLUMNS, MIXED_PLAIN,
    number_of, template, text_of,
};
use bufr_bits::BitReader;
use bufr_data::{Asks, DataTemplate, Field, Fields, LaidFields, SubsetIndex};
use bufr_tables::Fxy;
use std::alloc::Global;
use std::process::Abort;

/// The fields with one descriptor, as 16 bits.
struct Alone(u16);

impl Asks for Alone {
    ghost is_asked = { λ alone d. d == alone.0 };

    fn asks(&self, fxy: Fxy) -> bool {
        fxy.bits() == self.0
    }
}

/// Block numbers, 0 01 001.
const BLOCKS: Alone = Alone(0x0101);

/// Temperatures, 0 12 101.
const TEMPERATURES: Alone = Alone(0x0C65);

/// Names of stations, 0 01 011.
const NAMES: Alone = Alone(0x010B);

fn has_number(rt: &impl Abort, found: Option<Field>, number: u64) {
    let field = found.expect(rt, "a field");
    same(rt, number_of(&field), Some(number));
    drop(field);
}

/// Compares the numbers of the chosen fields, which are all that is left.
fn hands_out<A: Asks>(
    rt: &impl Abort,
    alloc: Global,
    asked: &A,
    mut fields: Fields<'_>,
    wanted: &[u64],
) {
    for number in wanted {
        let found = fields.next_asked(alloc, asked).expect(rt, "room");
        has_number(rt, found, *number);
    }
    same(rt, fields.next_asked(alloc, asked).expect(rt, "room"), None);
    same(rt, fields.next(alloc).expect(rt, "room"), None);
    drop(fields);
}

fn hands_out_laid<A: Asks>(
    rt: &impl Abort,
    alloc: Global,
    asked: &A,
    mut fields: LaidFields<'_>,
    wanted: &[u64],
) {
    for number in wanted {
        let found = fields.next_asked(alloc, asked).expect(rt, "room");
        has_number(rt, found, *number);
    }
    same(rt, fields.next_asked(alloc, asked).expect(rt, "room"), None);
    drop(fields);
}

/// Compares the chosen fields of a layout, handed out as numbers; only 127 is missing.
fn hands_out_numbers<A: Asks>(
    rt: &impl Abort,
    asked: &A,
    mut fields: LaidFields<'_>,
    wanted: &[u64],
) {
    for number in wanted {
        let found = fields.next_asked_number(asked).expect(rt, "a number");
        same(rt, found.number, *number);
        same(rt, found.is_missing(), *number == 127);
    }
    same(rt, fields.next_asked_number(asked), None);
    drop(fields);
}

/// Compares the numbers of the last subset of an index, with a layout or without.
fn has_asked<A: Asks>(
    rt: &impl Abort,
    alloc: Global,
    asked: &A,
    index: &SubsetIndex,
    laid: bool,
    wanted: &[u64],
) {
    assert!(rt; 0 < index.count());
    let last = index.count() - 1;
    hands_out(
        rt,
        alloc,
        asked,
        index.fields(alloc, last).expect(rt, "room"),
        wanted,
    );
    match index.fields(alloc, last).expect(rt, "room").laid() {
        Ok(fields) => {
            same(rt, laid, true);
            hands_out_laid(rt, alloc, asked, fields, wanted);
        }
        Err(fields) => {
            same(rt, laid, false);
            hands_out(rt, alloc, asked, fields, wanted);
        }
    }
    match index.fields(alloc, last).expect(rt, "room").laid() {
        Ok(fields) => hands_out_numbers(rt, asked, fields, wanted),
        Err(fields) => drop(fields),
    }
}

/// Compares the last subset of three messages in turn, with one template: plain fields have a
/// layout from the second message on.
fn serves<A: Asks>(
    rt: &impl Abort,
    alloc: Global,
    asked: &A,
    list: Descriptors,
    compressed: bool,
    count: u16,
    octets: &[u8],
    wanted: &[u64],
) {
    let mut template = DataTemplate::new(template(rt, alloc, list));
    for message in 0..3 {
        let mut reader = BitReader::new(octets);
        let index = template
            .index(alloc, compressed, &mut reader, count)
            .expect(rt, "an index");
        has_asked(rt, alloc, asked, &index, !compressed && message > 0, wanted);
        drop(index);
    }
    drop(template);
}

#[test]
fn blocks_between_wide_fields(rt: HostRuntime) {
    let alloc = rt.alloc();
    let wanted = [10, 11, 12, 127];
    serves(
        &rt,
        alloc,
        &BLOCKS,
        BETWEEN,
        false,
        1,
        BETWEEN_OCTETS,
        &wanted,
    );
    // none is chosen: 16 bits and ten, 27315 and 384; then each with six zero bits after it
    let list: Descriptors = &[(0, 12, 101), (0, 1, 2)];
    let plain = [0x6A, 0xB3, 0x60, 0x00];
    serves(&rt, alloc, &BLOCKS, list, false, 1, &plain, &[]);
    let columns = [0x6A, 0xB3, 0x01, 0x80, 0x00];
    serves(&rt, alloc, &BLOCKS, list, true, 1, &columns, &[]);
}

#[test]
fn temperatures_alone_are_asked_for(rt: HostRuntime) {
    let alloc = rt.alloc();
    serves(
        &rt,
        alloc,
        &TEMPERATURES,
        MIXED,
        false,
        2,
        MIXED_PLAIN,
        &[1, 2, 0],
    );
    serves(
        &rt,
        alloc,
        &TEMPERATURES,
        MIXED,
        true,
        2,
        MIXED_COLUMNS,
        &[27316, 5, 9],
    );
}

/// Compares the next temperature, and whether it comes as a number.
fn hands_out_next(
    rt: &impl Abort,
    alloc: Global,
    fields: &mut Fields<'_>,
    number: u64,
    alone: bool,
) {
    let found = fields.next_asked_number(&TEMPERATURES);
    same(rt, found.is_some(), alone);
    match found {
        Some(found) => same(rt, found.number, number),
        None => {
            let field = fields.next_asked(alloc, &TEMPERATURES).expect(rt, "room");
            has_number(rt, field, number);
        }
    }
}

/// Compares the chosen fields, and whether each comes as a number.
fn hands_out_both(
    rt: &impl Abort,
    alloc: Global,
    mut fields: Fields<'_>,
    wanted: [(u64, bool); 3],
) {
    for (number, alone) in wanted {
        hands_out_next(rt, alloc, &mut fields, number, alone);
    }
    same(rt, fields.next_asked_number(&TEMPERATURES), None);
    same(
        rt,
        fields.next_asked(alloc, &TEMPERATURES).expect(rt, "room"),
        None,
    );
    drop(fields);
}

/// Compares the second subset of the next message of a template.
fn serves_both(
    rt: &impl Abort,
    alloc: Global,
    template: &mut DataTemplate,
    compressed: bool,
    octets: &[u8],
    wanted: [(u64, bool); 3],
) {
    let mut reader = BitReader::new(octets);
    let index = template
        .index(alloc, compressed, &mut reader, 2)
        .expect(rt, "an index");
    assert!(rt; 1 < index.count());
    let fields = index.fields(alloc, 1).expect(rt, "room");
    hands_out_both(rt, alloc, fields, wanted);
    drop(index);
}

/// A walk stops at each text, columns and a layout only at those that are chosen.
#[test]
fn numbers_alone(rt: HostRuntime) {
    let alloc = rt.alloc();
    let mut of_plain = DataTemplate::new(template(&rt, alloc, MIXED));
    for message in 0..2 {
        let wanted = [(1, true), (2, message > 0), (0, true)];
        serves_both(&rt, alloc, &mut of_plain, false, MIXED_PLAIN, wanted);
    }
    drop(of_plain);
    let mut of_columns = DataTemplate::new(template(&rt, alloc, MIXED));
    let wanted = [(27316, true), (5, true), (9, true)];
    serves_both(&rt, alloc, &mut of_columns, true, MIXED_COLUMNS, wanted);
    drop(of_columns);
}

/// A text is no number: it is left, and handed out as a field.
#[test]
fn texts_are_no_numbers(rt: HostRuntime) {
    let alloc = rt.alloc();
    let mut template = DataTemplate::new(template(&rt, alloc, BETWEEN));
    for message in 0..2 {
        let mut reader = BitReader::new(BETWEEN_OCTETS);
        let index = template
            .index(alloc, false, &mut reader, 1)
            .expect(&rt, "an index");
        assert!(&rt; 0 < index.count());
        match index.fields(alloc, 0).expect(&rt, "room").laid() {
            Ok(fields) => {
                same(&rt, message, 1);
                hands_out_name(&rt, alloc, fields);
            }
            Err(fields) => drop(fields),
        }
        drop(index);
    }
    drop(template);
}

/// Compares the name, which does not come as a number.
fn hands_out_name(rt: &impl Abort, alloc: Global, mut fields: LaidFields<'_>) {
    same(rt, fields.next_asked_number(&NAMES), None);
    let found = fields.next_asked(alloc, &NAMES).expect(rt, "room");
    let name = found.expect(rt, "a field");
    same(rt, text_of(&name), b"SHIP1   ");
    drop(name);
    drop(fields);
}

/// Compares the last of `count` such subsets in a template's first message.
fn serves_first(rt: &impl Abort, alloc: Global, count: u16, laid: bool, wanted: [u64; 2]) {
    let mut template = DataTemplate::new(template(rt, alloc, &[(0, 12, 101), (0, 1, 1)]));
    let mut reader = BitReader::new(EIGHT_BLOCKS);
    let index = template
        .index(alloc, false, &mut reader, count)
        .expect(rt, "an index");
    has_asked(rt, alloc, &BLOCKS, &index, laid, &wanted[1..]);
    assert!(rt; 0 < index.count());
    let last = index.count() - 1;
    hands_out_first(
        rt,
        alloc,
        index.fields(alloc, last).expect(rt, "room"),
        wanted,
    );
    drop(index);
    drop(template);
}

/// Compares the numbers of the first fields.
fn hands_out_first(rt: &impl Abort, alloc: Global, mut fields: Fields<'_>, wanted: [u64; 2]) {
    for number in wanted {
        let found = fields.next(alloc).expect(rt, "room");
        has_number(rt, found, number);
    }
    drop(fields);
}

/// A first message of seven subsets is walked; one of eight has a layout.
#[test]
fn first_messages_of_many_subsets(rt: HostRuntime) {
    serves_first(&rt, rt.alloc(), 7, false, [27307, 70]);
    serves_first(&rt, rt.alloc(), 8, true, [27308, 80]);
}

/// A count of temperatures, and then a station number.
const COUNTED: Descriptors = &[(1, 1, 0), (0, 31, 1), (0, 12, 101), (0, 1, 2)];

/// A walk shows before each field whether a chosen one may be left, also inside a replication.
#[test]
fn none_left_along_a_walk(rt: HostRuntime) {
    let alloc = rt.alloc();
    // the count 2 in 8 bits, temperatures 1 and 2 in 16 bits, the number 3 in 10
    let octets = [0x02, 0x00, 0x01, 0x00, 0x02, 0x00, 0xC0];
    let mut template = DataTemplate::new(template(&rt, alloc, COUNTED));
    let mut reader = BitReader::new(&octets);
    let index = template
        .index(alloc, false, &mut reader, 1)
        .expect(&rt, "an index");
    assert!(&rt; 0 < index.count());
    let mut fields = index.fields(alloc, 0).expect(&rt, "room");
    for none in [false, false, false, false, true] {
        same(&rt, fields.has_no_more(&BLOCKS), true);
        same(&rt, fields.has_no_more(&TEMPERATURES), none);
        let found = fields.next(alloc).expect(&rt, "room");
        same(&rt, found.is_none(), none);
        drop(found);
    }
    drop(fields);
    drop(index);
    drop(template);
}
