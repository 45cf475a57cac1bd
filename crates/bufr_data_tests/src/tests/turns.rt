//! Tests of turns along a walk: those of elements are laid out if there are eight or more.

ghost use Rattle.std.specs.Prelude.{◌==◌};

use super::index::indexed;
use super::same;
use super::samples::{Descriptors, number_of, text_of};
use bufr_data::{Asks, Field, Fields, SubsetIndex};
use bufr_tables::Fxy;
use std::alloc::Global;
use std::process::Abort;

/// The fields of a class, and of element 31 001.
struct Class(u8);

impl Asks for Class {
    ghost use Rattle.bufr_tables.specs.Descriptors.{x_of};

    ghost is_asked = { λ class d. x_of d == class.0 };

    fn asks(&self, fxy: Fxy) -> bool {
        fxy.x() == self.0
    }
}

/// Blocks, stations and names, classes 01 and so on.
const STATIONS: Class = Class(1);

const TEMPERATURES: Class = Class(12);

const COUNTS: Class = Class(31);

/// No field.
const NONE: Class = Class(0);

/// Turns of a temperature, a name of one octet and a block; turns of a station number; a block.
const TWO: Descriptors = &[
    (2, 8, 1),
    (1, 3, 0),
    (0, 31, 1),
    (0, 12, 101),
    (0, 1, 11),
    (0, 1, 1),
    (2, 8, 0),
    (1, 1, 0),
    (0, 31, 1),
    (0, 1, 2),
    (0, 1, 1),
];

/// Nine turns of 16, eight and seven bits: 27300, "A" and 10, to 27308, "I" and 18; eight of ten bits,
/// 100 to 107; 99 in seven bits. Each count has eight bits.
const TWO_OCTETS: &[u8] = &[
    0x09, 0x6A, 0xA4, 0x41, 0x14, 0xD5, 0x4A, 0x84, 0x2D, 0xAA, 0x99, 0x0C, 0x63, 0x55, 0x3A, 0x20,
    0xD6, 0xAA, 0x84, 0x51, 0xCD, 0x55, 0x28, 0xC3, 0xDA, 0xAA, 0x91, 0xC8, 0x35, 0x55, 0xA4, 0x11,
    0x6A, 0xAC, 0x49, 0x24, 0x10, 0x32, 0x0C, 0xA3, 0x30, 0xCE, 0x34, 0x0D, 0x23, 0x50, 0xD7, 0x8C,
];

/// Turns of a block and turns of a temperature; a station number.
const NESTED: Descriptors = &[
    (1, 4, 0),
    (0, 31, 1),
    (0, 1, 1),
    (1, 1, 0),
    (0, 31, 1),
    (0, 12, 101),
    (0, 1, 2),
];

/// Eight turns, blocks 20 to 27: the first has temperatures 1000 to 1007, the second 2000 and 2001, the
/// last 8000 to 8008. Then 700 in ten bits.
const NESTED_OCTETS: &[u8] = &[
    0x08, 0x28, 0x10, 0x07, 0xD0, 0x07, 0xD2, 0x07, 0xD4, 0x07, 0xD6, 0x07, 0xD8, 0x07, 0xDA, 0x07,
    0xDC, 0x07, 0xDE, 0x54, 0x08, 0x1F, 0x40, 0x1F, 0x44, 0xB0, 0x01, 0x70, 0x03, 0x00, 0x06, 0x40,
    0x0D, 0x00, 0x1B, 0x09, 0x1F, 0x40, 0x1F, 0x41, 0x1F, 0x42, 0x1F, 0x43, 0x1F, 0x44, 0x1F, 0x45,
    0x1F, 0x46, 0x1F, 0x47, 0x1F, 0x48, 0xAF, 0x00,
];

/// Turns with an operator, and a station number.
const WITH_OPERATORS: Descriptors = &[
    (1, 3, 0),
    (0, 31, 1),
    (2, 1, 129),
    (0, 1, 1),
    (2, 1, 0),
    (0, 1, 2),
];

/// Eight turns of eight bits, 200 to 207; 701 in ten bits.
const WITH_OPERATORS_OCTETS: &[u8] = &[
    0x08, 0xC8, 0xC9, 0xCA, 0xCB, 0xCC, 0xCD, 0xCE, 0xCF, 0xAF, 0x40,
];

/// An element 31 001 that repeats nothing, a block, and a station number.
const ALONE: Descriptors = &[(0, 31, 1), (0, 1, 1), (0, 1, 2)];

/// 8 in eight bits, 5 in seven, 702 in ten.
const ALONE_OCTETS: &[u8] = &[0x08, 0x0B, 0x5F, 0x00];

/// Turns of a temperature, and a station number.
const FEW: Descriptors = &[(1, 1, 0), (0, 31, 1), (0, 12, 101), (0, 1, 2)];

/// Seven turns, 300 to 306; 703 in ten bits.
const FEW_OCTETS: &[u8] = &[
    0x07, 0x01, 0x2C, 0x01, 0x2D, 0x01, 0x2E, 0x01, 0x2F, 0x01, 0x30, 0x01, 0x31, 0x01, 0x32, 0xAF,
    0xC0,
];

/// Descriptors, octets, the place after the subset, what is asked for, and the chosen numbers: of a
/// text its octet.
type Row<'a> = (Descriptors<'a>, &'a [u8], u128, &'a Class, &'a [u64]);

const ROWS: &[Row<'static>] = &[
    (
        TWO,
        TWO_OCTETS,
        382,
        &TEMPERATURES,
        &[
            27300, 27301, 27302, 27303, 27304, 27305, 27306, 27307, 27308,
        ],
    ),
    (
        TWO,
        TWO_OCTETS,
        382,
        &STATIONS,
        &[
            65, 10, 66, 11, 67, 12, 68, 13, 69, 14, 70, 15, 71, 16, 72, 17, 73, 18, 100, 101, 102,
            103, 104, 105, 106, 107, 99,
        ],
    ),
    (TWO, TWO_OCTETS, 382, &COUNTS, &[9, 8]),
    (TWO, TWO_OCTETS, 382, &NONE, &[]),
    (
        NESTED,
        NESTED_OCTETS,
        442,
        &TEMPERATURES,
        &[
            1000, 1001, 1002, 1003, 1004, 1005, 1006, 1007, 2000, 2001, 8000, 8001, 8002, 8003,
            8004, 8005, 8006, 8007, 8008,
        ],
    ),
    (
        NESTED,
        NESTED_OCTETS,
        442,
        &STATIONS,
        &[20, 21, 22, 23, 24, 25, 26, 27, 700],
    ),
    (
        NESTED,
        NESTED_OCTETS,
        442,
        &COUNTS,
        &[8, 8, 2, 0, 0, 0, 0, 0, 9],
    ),
    (
        WITH_OPERATORS,
        WITH_OPERATORS_OCTETS,
        82,
        &STATIONS,
        &[200, 201, 202, 203, 204, 205, 206, 207, 701],
    ),
    (ALONE, ALONE_OCTETS, 25, &STATIONS, &[5, 702]),
    (
        FEW,
        FEW_OCTETS,
        130,
        &TEMPERATURES,
        &[300, 301, 302, 303, 304, 305, 306],
    ),
    (FEW, FEW_OCTETS, 130, &STATIONS, &[703]),
];

/// Returns the number of a field, or the first octet of a text.
fn value_of(field: &Field) -> u64 {
    match number_of(field) {
        Some(number) => number,
        None => match text_of(field).first() {
            Some(octet) => u64::from(*octet),
            None => 0,
        },
    }
}

fn has_value(rt: &impl Abort, found: Option<Field>, value: u64) {
    let field = found.expect(rt, "a field");
    same(rt, value_of(&field), value);
    drop(field);
}

/// Compares the next chosen field, which may come as a number.
fn hands_out(
    rt: &impl Abort,
    alloc: Global,
    asked: &Class,
    fields: &mut Fields<'_>,
    numbers: bool,
    value: u64,
) {
    if numbers {
        if let Some(found) = fields.next_asked_number(asked) {
            same(rt, found.number, value);
            return;
        }
    }
    let found = fields.next_asked(alloc, asked).expect(rt, "room");
    has_value(rt, found, value);
}

/// Compares the chosen fields, which are all that is left.
fn hands_out_all(
    rt: &impl Abort,
    alloc: Global,
    asked: &Class,
    mut fields: Fields<'_>,
    numbers: bool,
    wanted: &[u64],
) {
    for value in wanted {
        hands_out(rt, alloc, asked, &mut fields, numbers, *value);
    }
    same(rt, fields.next_asked(alloc, asked).expect(rt, "room"), None);
    same(rt, fields.next(alloc).expect(rt, "room"), None);
    drop(fields);
}

/// Compares a field if it is chosen. Returns the values after it.
fn compared<'w>(rt: &impl Abort, asked: &Class, field: Field, rest: &'w [u64]) -> &'w [u64] {
    if !asked.asks(field.fxy) {
        drop(field);
        return rest;
    }
    let (value, others) = rest.split_first().expect(rt, "a value");
    same(rt, value_of(&field), *value);
    drop(field);
    others
}

/// Compares the chosen fields among the first hundred.
fn come_in_order(
    rt: &impl Abort,
    alloc: Global,
    asked: &Class,
    mut fields: Fields<'_>,
    wanted: &[u64],
) {
    let mut rest = wanted;
    for _ in 0..100 {
        if let Some(field) = fields.next(alloc).expect(rt, "room") {
            rest = compared(rt, asked, field, rest);
        }
    }
    same(rt, rest.len(), 0);
    drop(fields);
}

fn first_fields<'a>(rt: &impl Abort, alloc: Global, index: &'a SubsetIndex<'_>) -> Fields<'a> {
    assert!(rt; 0 < index.count());
    index.fields(alloc, 0).expect(rt, "room")
}

#[test]
fn turns_along_a_walk(rt: HostRuntime) {
    let alloc = rt.alloc();
    for &(list, octets, place, asked, wanted) in ROWS {
        let index = indexed(&rt, alloc, list, false, 1, octets, place);
        for numbers in [false, true] {
            let fields = first_fields(&rt, alloc, &index);
            hands_out_all(&rt, alloc, asked, fields, numbers, wanted);
        }
        let fields = first_fields(&rt, alloc, &index);
        come_in_order(&rt, alloc, asked, fields, wanted);
        drop(index);
    }
}
