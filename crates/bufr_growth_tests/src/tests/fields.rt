//! Fields handed out one at a time. After a refusal the field is still left.

ghost use Rattle.std.specs.Prelude.{◌==◌};

use crate::tests::refusals::repeated;
use crate::tests::same;
use crate::tests::samples::tables;
use bufr_bits::BitReader;
use bufr_data::{Asks, DataTemplate, Field, Fields, LaidFields, Raw, SubsetIndex};
use bufr_expand::Template;
use bufr_tables::Fxy;
use std::alloc::Global;
use std::process::Abort;

/// Two characters, a temperature, and three characters: 205002 012101 205003.
const DESCRIPTORS: [u16; 3] = [0x8502, 0x0C65, 0x8503];

/// One subset: `AB`, 273.15 K, and `CDE`.
const PLAIN: &[u8] = b"AB\x6A\xB3CDE";

/// Two subsets: `AB` and `FG`, 273.15 K and 273.16 K, `CDE` and `HIJ`.
const PACKED: &[u8] =
    b"\x00\x00\x09\x05\x09\x19\x1D\xAA\xCC\x21\x00\x00\x00\x0D\x0D\x11\x15\x21\x25\x28";

/// The three characters, 205003, as 16 bits.
const LAST: u16 = 0x8503;

/// Eight turns of a character and a temperature, and three characters: 102000 031001 205001 012101
/// 205003.
const TURNS: [u16; 5] = [0x4200, 0x1F01, 0x8501, 0x0C65, 0x8503];

/// Turns `A` and 1, to `H` and 8; `CDE`.
const TURNS_PLAIN: &[u8] =
    b"\x08A\x00\x01B\x00\x02C\x00\x03D\x00\x04E\x00\x05F\x00\x06G\x00\x07H\x00\x08CDE";

/// Eight turns of a block and a temperature, and three characters: 102000 031001 001001 012101 205003.
const NUMBERS: [u16; 5] = [0x4200, 0x1F01, 0x0101, 0x0C65, 0x8503];

/// Turns 20 and 16640, to 27 and 16647, in seven and 16 bits; `CDE`.
const NUMBERS_PLAIN: &[u8] =
    b"\x08\x28\x82\x00\x55\x04\x04\xB2\x08\x11\x74\x10\x33\x08\x20\x86\x50\x41\x4D\x20\x83\x1B\x41\x07CDE";

/// The temperature, 012101, as 16 bits.
const TEMPERATURE: u16 = 0x0C65;

struct LastText;

impl Asks for LastText {
    ghost is_asked = { λ _ d. d == 34051 };

    fn asks(&self, fxy: Fxy) -> bool {
        fxy.bits() == LAST
    }
}

fn text_of(field: &Field) -> &[u8] {
    match &field.raw {
        Raw::Number(_) => &[],
        Raw::Text(text) => text.as_slice(),
    }
}

fn has_text(rt: &impl Abort, found: Option<Field>, text: &[u8]) {
    same(rt, text_of(&found.expect(rt, "a field")), text);
}

fn has_number(rt: &impl Abort, found: Option<Field>, number: u64) {
    match found.expect(rt, "a field").raw {
        Raw::Number(raw) => same(rt, raw, number),
        Raw::Text(_) => panic!(rt; "a number"),
    }
}

fn all_come(rt: &impl Abort, alloc: Global, mut fields: Fields<'_>) {
    has_text(rt, repeated!(rt, fields.next(alloc)), b"AB");
    has_number(rt, repeated!(rt, fields.next(alloc)), 27315);
    has_text(rt, repeated!(rt, fields.next(alloc)), b"CDE");
    same(rt, repeated!(rt, fields.next(alloc)), None);
    drop(fields);
}

fn all_turns_come(rt: &impl Abort, alloc: Global, mut fields: Fields<'_>) {
    has_number(rt, repeated!(rt, fields.next(alloc)), 8);
    for turn in 0..8 {
        has_text(rt, repeated!(rt, fields.next(alloc)), &[b'A' + turn]);
        has_number(rt, repeated!(rt, fields.next(alloc)), u64::from(turn) + 1);
    }
    has_text(rt, repeated!(rt, fields.next(alloc)), b"CDE");
    same(rt, repeated!(rt, fields.next(alloc)), None);
    drop(fields);
}

/// Takes turns from the temperature on. The last temperature is left.
fn turns_are_taken(rt: &impl Abort, alloc: Global, mut fields: Fields<'_>) {
    has_number(rt, repeated!(rt, fields.next(alloc)), 8);
    let opener = Fxy::from_bits(TEMPERATURE);
    let taken = repeated!(rt, fields.take_turns(alloc, &LastText, opener));
    let mut turns = taken.expect(rt, "turns");
    for turn in 0..7 {
        let mut numbers = [0; 2];
        assert!(rt; turns.fields().len() == 2);
        same(rt, turns.next(&mut numbers), true);
        same(rt, numbers, [16640 + turn, 21 + turn]);
    }
    drop(turns);
    has_number(rt, repeated!(rt, fields.next(alloc)), 16647);
    has_text(rt, repeated!(rt, fields.next(alloc)), b"CDE");
    same(rt, repeated!(rt, fields.next(alloc)), None);
    drop(fields);
}

/// The last text comes, and no other field.
fn last_comes(rt: &impl Abort, alloc: Global, mut fields: Fields<'_>) {
    has_text(
        rt,
        repeated!(rt, fields.next_asked(alloc, &LastText)),
        b"CDE",
    );
    same(rt, repeated!(rt, fields.next_asked(alloc, &LastText)), None);
    drop(fields);
}

fn last_comes_laid(rt: &impl Abort, alloc: Global, mut fields: LaidFields<'_>) {
    has_text(
        rt,
        repeated!(rt, fields.next_asked(alloc, &LastText)),
        b"CDE",
    );
    same(rt, repeated!(rt, fields.next_asked(alloc, &LastText)), None);
    drop(fields);
}

fn first_fields<'a>(rt: &impl Abort, alloc: Global, index: &'a SubsetIndex<'_>) -> Fields<'a> {
    assert!(rt; 0 < index.count());
    repeated!(rt, index.fields(alloc, 0))
}

/// The first subset of an index hands out its fields, by a layout or not.
fn hands_out(rt: &impl Abort, alloc: Global, index: &SubsetIndex, laid: bool) {
    all_come(rt, alloc, first_fields(rt, alloc, index));
    match first_fields(rt, alloc, index).laid() {
        Ok(fields) => {
            same(rt, laid, true);
            last_comes_laid(rt, alloc, fields);
        }
        Err(fields) => {
            same(rt, laid, false);
            last_comes(rt, alloc, fields);
        }
    }
}

/// The last text comes at its known place, and no other field.
fn last_comes_chosen(rt: &impl Abort, alloc: Global, index: &SubsetIndex) {
    assert!(rt; 0 < index.count());
    let mut fields = index.chosen(&[LAST], 0).expect(rt, "known places");
    same(rt, fields.next_number(), None);
    has_text(rt, repeated!(rt, fields.next(alloc)), b"CDE");
    same(rt, repeated!(rt, fields.next(alloc)), None);
    drop(fields);
}

fn built(rt: &impl Abort, alloc: Global, list: &[Fxy]) -> Template {
    let tables = tables(rt, alloc);
    let built = repeated!(rt, Template::build(alloc, &tables, list));
    drop(tables);
    built
}

fn template(rt: &impl Abort, alloc: Global) -> Template {
    built(rt, alloc, &DESCRIPTORS.map(Fxy::from_bits))
}

/// Reads a message without a layout, plain or compressed.
fn come_unlaid(rt: &impl Abort, alloc: Global, compressed: bool, octets: &[u8], count: u16) {
    let mut reader = BitReader::new(octets);
    let index = repeated!(
        rt,
        SubsetIndex::index(alloc, template(rt, alloc), compressed, &mut reader, count),
        same(rt, reader.place(), 0)
    );
    hands_out(rt, alloc, &index, false);
    drop(index);
}

/// Indexes a message of a template, with the places of the last text.
fn indexed<'a>(
    rt: &impl Abort,
    alloc: Global,
    kept: &mut DataTemplate,
    compressed: bool,
    octets: &'a [u8],
    count: u16,
) -> SubsetIndex<'a> {
    let mut reader = BitReader::new(octets);
    repeated!(
        rt,
        kept.index_for(alloc, &[LAST], compressed, &mut reader, count),
        same(rt, reader.place(), 0)
    )
}

/// Reads the second message of a template, which has a layout.
fn come_laid(rt: &impl Abort, alloc: Global) {
    let mut kept = DataTemplate::new(template(rt, alloc));
    for message in 0..2 {
        let index = indexed(rt, alloc, &mut kept, false, PLAIN, 1);
        if message == 1 {
            hands_out(rt, alloc, &index, true);
            last_comes_chosen(rt, alloc, &index);
        }
        drop(index);
    }
    drop(kept);
}

/// Reads columns, of which the places of the last are asked for.
fn come_chosen(rt: &impl Abort, alloc: Global) {
    let mut kept = DataTemplate::new(template(rt, alloc));
    let index = indexed(rt, alloc, &mut kept, true, PACKED, 2);
    last_comes_chosen(rt, alloc, &index);
    drop(index);
    drop(kept);
}

fn with_turns<'a>(
    rt: &impl Abort,
    alloc: Global,
    list: &[u16; 5],
    octets: &'a [u8],
) -> SubsetIndex<'a> {
    let mut reader = BitReader::new(octets);
    repeated!(
        rt,
        SubsetIndex::index(
            alloc,
            built(rt, alloc, &list.map(Fxy::from_bits)),
            false,
            &mut reader,
            1
        ),
        same(rt, reader.place(), 0)
    )
}

/// Reads turns that a walk lays out.
fn come_in_turns(rt: &impl Abort, alloc: Global) {
    let index = with_turns(rt, alloc, &TURNS, TURNS_PLAIN);
    all_turns_come(rt, alloc, first_fields(rt, alloc, &index));
    last_comes(rt, alloc, first_fields(rt, alloc, &index));
    drop(index);
}

/// Takes turns as numbers.
fn come_as_numbers(rt: &impl Abort, alloc: Global) {
    let index = with_turns(rt, alloc, &NUMBERS, NUMBERS_PLAIN);
    turns_are_taken(rt, alloc, first_fields(rt, alloc, &index));
    drop(index);
}

#[test]
fn fields_handed_out(rt: HostRuntime) {
    come_unlaid(&rt, rt.alloc(), false, PLAIN, 1);
    come_unlaid(&rt, rt.alloc(), true, PACKED, 2);
    come_laid(&rt, rt.alloc());
    come_chosen(&rt, rt.alloc());
    come_in_turns(&rt, rt.alloc());
    come_as_numbers(&rt, rt.alloc());
}
