//! Tests of turns taken as numbers.

ghost use Rattle.std.specs.Prelude.{◌==◌};

use super::index::indexed;
use super::same;
use super::samples::{Descriptors, number_of, text_of};
use bufr_data::{Asks, Field, Fields, NumberTurns, SubsetIndex};
use bufr_tables::Fxy;
use std::alloc::Global;
use std::process::Abort;

/// The fields of two classes.
struct Classes(u8, u8);

impl Asks for Classes {
    ghost use Rattle.std.specs.Prelude.{◌||◌};
    ghost use Rattle.bufr_tables.specs.Descriptors.{x_of};

    ghost is_asked = { λ classes d. x_of d == classes.0 || x_of d == classes.1 };

    fn asks(&self, fxy: Fxy) -> bool {
        fxy.x() == self.0 || fxy.x() == self.1
    }
}

const STATIONS: Classes = Classes(1, 1);

const TEMPERATURES: Classes = Classes(12, 12);

const BOTH: Classes = Classes(1, 12);

type Descriptor = (u8, u8, u8);

const BLOCK: Descriptor = (0, 1, 1);

const STATION: Descriptor = (0, 1, 2);

const TEMPERATURE: Descriptor = (0, 12, 101);

/// A block; turns of a temperature and a block; a station number.
const PAIRS: Descriptors = &[BLOCK, (1, 2, 0), (0, 31, 1), TEMPERATURE, BLOCK, STATION];

/// 3 in seven bits, and nine in eight; turns of 16 and seven bits: 27300 and 10, to 27308 and 18; 384 in
/// ten.
const PAIRS_OCTETS: &[u8] = &[
    0x06, 0x12, 0xD5, 0x48, 0x29, 0xAA, 0x94, 0x5B, 0x55, 0x30, 0xC6, 0xAA, 0x71, 0xAD, 0x55, 0x03,
    0x9A, 0xAA, 0x47, 0xB5, 0x55, 0x10, 0x6A, 0xAB, 0x22, 0xD5, 0x58, 0x49, 0x80,
];

const PAIRS_VALUES: &[u64] = &[
    3, 9, 27300, 10, 27301, 11, 27302, 12, 27303, 13, 27304, 14, 27305, 15, 27306, 16, 27307, 17,
    27308, 18, 384,
];

/// Turns of a temperature, a block and a temperature; a station number.
const TWICE: Descriptors = &[
    (1, 3, 0),
    (0, 31, 1),
    TEMPERATURE,
    BLOCK,
    TEMPERATURE,
    STATION,
];

/// Eight turns: 100, 20 and 200, to 107, 27 and 207; 385.
const TWICE_OCTETS: &[u8] = &[
    0x08, 0x00, 0x64, 0x28, 0x01, 0x90, 0x00, 0xCA, 0x54, 0x03, 0x24, 0x01, 0x98, 0xB0, 0x06, 0x50,
    0x03, 0x39, 0x70, 0x0C, 0xB0, 0x06, 0x83, 0x00, 0x19, 0x80, 0x0D, 0x26, 0x40, 0x33, 0x40, 0x1A,
    0x8D, 0x00, 0x67, 0x00, 0x35, 0x9B, 0x00, 0xCF, 0x60, 0x40,
];

/// Turns of a temperature and a name of one octet; a station number.
const NAMED: Descriptors = &[
    (2, 8, 1),
    (1, 2, 0),
    (0, 31, 1),
    TEMPERATURE,
    (0, 1, 11),
    (2, 8, 0),
    STATION,
];

/// Eight turns: 300 and "A", to 307 and "H"; 386.
const NAMED_OCTETS: &[u8] = &[
    0x08, 0x01, 0x2C, 0x41, 0x01, 0x2D, 0x42, 0x01, 0x2E, 0x43, 0x01, 0x2F, 0x44, 0x01, 0x30, 0x45,
    0x01, 0x31, 0x46, 0x01, 0x32, 0x47, 0x01, 0x33, 0x48, 0x60, 0x80,
];

/// Seven turns: 400 and 30, to 406 and 36; 387.
const FEW_OCTETS: &[u8] = &[
    0x07, 0x01, 0x90, 0x3C, 0x03, 0x22, 0x7C, 0x06, 0x49, 0x00, 0x0C, 0x9A, 0x10, 0x19, 0x44, 0x40,
    0x32, 0xA8, 0xC0, 0x65, 0x92, 0x30, 0x60,
];

/// Turns of a temperature; turns of a temperature and a station number; a block.
const TWO: Descriptors = &[
    (1, 1, 0),
    (0, 31, 1),
    TEMPERATURE,
    (1, 2, 0),
    (0, 31, 1),
    TEMPERATURE,
    STATION,
    BLOCK,
];

/// Eight turns, 500 to 507; nine, 600 and 700 to 608 and 708; 99 in seven bits.
const TWO_OCTETS: &[u8] = &[
    0x08, 0x01, 0xF4, 0x01, 0xF5, 0x01, 0xF6, 0x01, 0xF7, 0x01, 0xF8, 0x01, 0xF9, 0x01, 0xFA, 0x01,
    0xFB, 0x09, 0x02, 0x58, 0xAF, 0x00, 0x96, 0x6B, 0xD0, 0x25, 0xAA, 0xF8, 0x09, 0x6E, 0xBF, 0x02,
    0x5C, 0xB0, 0x00, 0x97, 0x6C, 0x10, 0x25, 0xEB, 0x08, 0x09, 0x7E, 0xC3, 0x02, 0x60, 0xB1, 0x31,
    0x80,
];

/// Turns of a temperature of 63 bits; a station number.
const WIDE: Descriptors = &[
    (2, 1, 175),
    (1, 1, 0),
    (0, 31, 1),
    TEMPERATURE,
    (2, 1, 0),
    STATION,
];

/// Eight turns: 2 to the 63rd less 2, and less 3, to less 9; 388.
const WIDE_OCTETS: &[u8] = &[
    0x08, 0xFF, 0xFF, 0xFF, 0xFF, 0xFF, 0xFF, 0xFF, 0xFD, 0xFF, 0xFF, 0xFF, 0xFF, 0xFF, 0xFF, 0xFF,
    0xF7, 0xFF, 0xFF, 0xFF, 0xFF, 0xFF, 0xFF, 0xFF, 0xE7, 0xFF, 0xFF, 0xFF, 0xFF, 0xFF, 0xFF, 0xFF,
    0xBF, 0xFF, 0xFF, 0xFF, 0xFF, 0xFF, 0xFF, 0xFF, 0x5F, 0xFF, 0xFF, 0xFF, 0xFF, 0xFF, 0xFF, 0xFE,
    0x7F, 0xFF, 0xFF, 0xFF, 0xFF, 0xFF, 0xFF, 0xFC, 0x7F, 0xFF, 0xFF, 0xFF, 0xFF, 0xFF, 0xFF, 0xF7,
    0x61, 0x00,
];

/// Turns of a temperature; a station number.
const COLUMNS: Descriptors = &[(1, 1, 0), (0, 31, 1), TEMPERATURE, STATION];

/// One subset in columns, each with an NBINC of 0: eight turns, 800 to 807; 389.
const COLUMNS_OCTETS: &[u8] = &[
    0x08, 0x00, 0x0C, 0x80, 0x00, 0x32, 0x10, 0x00, 0xC8, 0x80, 0x03, 0x23, 0x00, 0x0C, 0x90, 0x00,
    0x32, 0x50, 0x00, 0xC9, 0x80, 0x03, 0x27, 0x01, 0x85, 0x00,
];

/// Values that come first, the opener, and the fields and numbers of the turns that are taken then; no
/// fields if none are.
type Take<'a> = (&'a [u64], Descriptor, Descriptors<'a>, &'a [&'a [u64]]);

/// Descriptors, whether compressed, octets, the place after the subset, what is asked for, turns taken
/// one after another, and the values that are left: of a text its octet.
type Row<'a> = (
    Descriptors<'a>,
    bool,
    &'a [u8],
    u128,
    &'a Classes,
    &'a [Take<'a>],
    &'a [u64],
);

const ROWS: &[Row<'static>] = &[
    // The opener is the first field; then the last turn alone is left.
    (
        PAIRS,
        false,
        PAIRS_OCTETS,
        232,
        &TEMPERATURES,
        &[
            (
                &[3, 9],
                TEMPERATURE,
                &[TEMPERATURE, BLOCK],
                &[
                    &[27300, 10],
                    &[27301, 11],
                    &[27302, 12],
                    &[27303, 13],
                    &[27304, 14],
                    &[27305, 15],
                    &[27306, 16],
                    &[27307, 17],
                ],
            ),
            (&[], TEMPERATURE, &[], &[]),
        ],
        &[27308, 18, 384],
    ),
    // A field that is not asked for comes before it.
    (
        PAIRS,
        false,
        PAIRS_OCTETS,
        232,
        &STATIONS,
        &[(
            &[3, 9],
            BLOCK,
            &[BLOCK, TEMPERATURE],
            &[
                &[10, 27301],
                &[11, 27302],
                &[12, 27303],
                &[13, 27304],
                &[14, 27305],
                &[15, 27306],
                &[16, 27307],
                &[17, 27308],
            ],
        )],
        &[18, 384],
    ),
    // A field that is asked for comes before it.
    (
        PAIRS,
        false,
        PAIRS_OCTETS,
        232,
        &BOTH,
        &[(&[3, 9], BLOCK, &[], &[])],
        &[
            27300, 10, 27301, 11, 27302, 12, 27303, 13, 27304, 14, 27305, 15, 27306, 16, 27307, 17,
            27308, 18, 384,
        ],
    ),
    // No turn has it.
    (
        PAIRS,
        false,
        PAIRS_OCTETS,
        232,
        &STATIONS,
        &[(&[3, 9], STATION, &[], &[])],
        &[
            27300, 10, 27301, 11, 27302, 12, 27303, 13, 27304, 14, 27305, 15, 27306, 16, 27307, 17,
            27308, 18, 384,
        ],
    ),
    // Before the count, within a turn, and after a turn.
    (
        PAIRS,
        false,
        PAIRS_OCTETS,
        232,
        &TEMPERATURES,
        &[
            (&[], TEMPERATURE, &[], &[]),
            (&[3, 9, 27300], TEMPERATURE, &[], &[]),
        ],
        &[
            10, 27301, 11, 27302, 12, 27303, 13, 27304, 14, 27305, 15, 27306, 16, 27307, 17, 27308,
            18, 384,
        ],
    ),
    // At the end.
    (
        PAIRS,
        false,
        PAIRS_OCTETS,
        232,
        &TEMPERATURES,
        &[(PAIRS_VALUES, TEMPERATURE, &[], &[])],
        &[],
    ),
    // The opener comes twice in a turn.
    (
        TWICE,
        false,
        TWICE_OCTETS,
        330,
        &TEMPERATURES,
        &[(&[8], TEMPERATURE, &[], &[])],
        &[
            100, 20, 200, 101, 21, 201, 102, 22, 202, 103, 23, 203, 104, 24, 204, 105, 25, 205,
            106, 26, 206, 107, 27, 207, 385,
        ],
    ),
    (
        TWICE,
        false,
        TWICE_OCTETS,
        330,
        &STATIONS,
        &[(
            &[8],
            BLOCK,
            &[BLOCK, TEMPERATURE, TEMPERATURE],
            &[
                &[20, 200, 101],
                &[21, 201, 102],
                &[22, 202, 103],
                &[23, 203, 104],
                &[24, 204, 105],
                &[25, 205, 106],
                &[26, 206, 107],
            ],
        )],
        &[27, 207, 385],
    ),
    // A text in a turn.
    (
        NAMED,
        false,
        NAMED_OCTETS,
        210,
        &TEMPERATURES,
        &[(&[8], TEMPERATURE, &[], &[])],
        &[
            300, 65, 301, 66, 302, 67, 303, 68, 304, 69, 305, 70, 306, 71, 307, 72, 386,
        ],
    ),
    // Fewer than eight turns.
    (
        &[(1, 2, 0), (0, 31, 1), TEMPERATURE, BLOCK, STATION],
        false,
        FEW_OCTETS,
        179,
        &TEMPERATURES,
        &[(&[7], TEMPERATURE, &[], &[])],
        &[
            400, 30, 401, 31, 402, 32, 403, 33, 404, 34, 405, 35, 406, 36, 387,
        ],
    ),
    // Two replications.
    (
        TWO,
        false,
        TWO_OCTETS,
        385,
        &BOTH,
        &[
            (
                &[8],
                TEMPERATURE,
                &[TEMPERATURE],
                &[&[500], &[501], &[502], &[503], &[504], &[505], &[506]],
            ),
            (
                &[507, 9],
                TEMPERATURE,
                &[TEMPERATURE, STATION],
                &[
                    &[600, 700],
                    &[601, 701],
                    &[602, 702],
                    &[603, 703],
                    &[604, 704],
                    &[605, 705],
                    &[606, 706],
                    &[607, 707],
                ],
            ),
        ],
        &[608, 708, 99],
    ),
    // Numbers of 63 bits.
    (
        WIDE,
        false,
        WIDE_OCTETS,
        522,
        &TEMPERATURES,
        &[(
            &[8],
            TEMPERATURE,
            &[TEMPERATURE],
            &[
                &[9223372036854775806],
                &[9223372036854775805],
                &[9223372036854775804],
                &[9223372036854775803],
                &[9223372036854775802],
                &[9223372036854775801],
                &[9223372036854775800],
            ],
        )],
        &[9223372036854775799, 388],
    ),
    // Columns have no turns.
    (
        COLUMNS,
        true,
        COLUMNS_OCTETS,
        206,
        &TEMPERATURES,
        &[(&[8], TEMPERATURE, &[], &[])],
        &[800, 801, 802, 803, 804, 805, 806, 807, 389],
    ),
];

/// Returns the number of a field, or the first octet of a text.
fn value_of(field: &Field) -> u64 {
    match number_of(field) {
        Some(number) => number,
        None => match text_of(field).first() {
            Some(octet) => u64::from(*octet),
            None => 0,
        },
    }
}

fn come_next(rt: &impl Abort, alloc: Global, fields: &mut Fields<'_>, values: &[u64]) {
    for value in values {
        let field = fields.next(alloc).expect(rt, "room").expect(rt, "a field");
        same(rt, value_of(&field), *value);
        drop(field);
    }
}

fn descriptor(rt: &impl Abort, of: Descriptor) -> Fxy {
    let (f, x, y) = of;
    Fxy::new(f, x, y).expect(rt, "a descriptor")
}

/// Compares the numbers of the next turn.
fn next_is(rt: &impl Abort, turns: &mut NumberTurns<'_>, wanted: &[u64]) {
    let mut room = [7; 3];
    assert!(rt; turns.fields().len() <= 3);
    let numbers = &mut room[..turns.fields().len()];
    same(rt, turns.next(numbers), true);
    assert!(rt; *numbers == *wanted);
}

/// Compares the fields of turns, and the numbers of each.
fn turns_are(rt: &impl Abort, mut turns: NumberTurns<'_>, wanted: Descriptors, numbers: &[&[u64]]) {
    same(rt, turns.fields().len(), wanted.len());
    for (field, own) in turns.fields().iter().zip(wanted) {
        same(rt, field.fxy, descriptor(rt, *own));
    }
    for turn in numbers {
        next_is(rt, &mut turns, *turn);
    }
    let mut room = [7; 3];
    assert!(rt; turns.fields().len() <= 3);
    let none = &mut room[..turns.fields().len()];
    same(rt, turns.next(none), false);
    drop(turns);
}

/// Takes turns after some values, if there are any.
fn taken(rt: &impl Abort, alloc: Global, asked: &Classes, fields: &mut Fields<'_>, take: &Take) {
    let (before, opener, own, numbers) = *take;
    come_next(rt, alloc, fields, before);
    let opener = descriptor(rt, opener);
    match fields.take_turns(alloc, asked, opener).expect(rt, "room") {
        None => same(rt, own.len(), 0),
        Some(turns) => turns_are(rt, turns, own, numbers),
    }
}

fn first_fields<'a>(rt: &impl Abort, alloc: Global, index: &'a SubsetIndex<'_>) -> Fields<'a> {
    assert!(rt; 0 < index.count());
    index.fields(alloc, 0).expect(rt, "room")
}

#[test]
fn turns_of_numbers(rt: HostRuntime) {
    let alloc = rt.alloc();
    for &(list, compressed, octets, place, asked, takes, rest) in ROWS {
        let index = indexed(&rt, alloc, list, compressed, 1, octets, place);
        let mut fields = first_fields(&rt, alloc, &index);
        for take in takes {
            taken(&rt, alloc, asked, &mut fields, take);
        }
        come_next(&rt, alloc, &mut fields, rest);
        same(&rt, fields.next(alloc).expect(&rt, "room"), None);
        drop(fields);
        drop(index);
    }
}
