use super::same;
use bufr_base::Items;
use bufr_bits::{BitReader, BitSink};
use bufr_data::{Field, Raw, Subset, read_subsets};
use bufr_expand::Template;
use bufr_tables::{Fxy, TableB, TableD, Tables};
use std::alloc::Global;
use std::process::Abort;

/// Descriptors by F, X and Y.
pub(crate) type Descriptors<'a> = &'a [(u8, u8, u8)];

/// The raw numbers of a subset's fields, 0 for a text, and the text of its last field, empty for a
/// number.
pub(crate) type Wanted<'a> = (&'a [u64], &'a [u8]);

pub(crate) const TEMPERATURE: Descriptors = &[(0, 12, 101)];

pub(crate) const DELAYED: Descriptors = &[(1, 1, 0), (0, 31, 1), (0, 12, 101)];

/// A block, a temperature of 63 bits, a name of 64 bits, two blocks, a station number, a block, and
/// a temperature.
pub(crate) const BETWEEN: Descriptors = &[
    (0, 1, 1),
    (2, 1, 175),
    (0, 12, 101),
    (2, 1, 0),
    (2, 8, 8),
    (0, 1, 11),
    (2, 8, 0),
    (0, 1, 1),
    (0, 1, 1),
    (0, 1, 2),
    (0, 1, 1),
    (0, 12, 101),
];

/// One subset: 10 in seven bits, 2 to the 63rd less 2 in 63, "SHIP1   ", 11 and 12 in seven, 384 in
/// ten, 127 in seven, and 27315 in 16.
pub(crate) const BETWEEN_OCTETS: &[u8] = &[
    0x15, 0xFF, 0xFF, 0xFF, 0xFF, 0xFF, 0xFF, 0xFF, 0xF9, 0x4D, 0x21, 0x25, 0x40, 0xC4, 0x80, 0x80,
    0x80, 0x58, 0xC6, 0x03, 0xFB, 0x55, 0x98,
];

/// A block and a station number before a count of temperatures.
pub(crate) const BEFORE_A_COUNT: Descriptors = &[
    (0, 1, 1),
    (0, 1, 2),
    (1, 1, 0),
    (0, 31, 1),
    (0, 12, 101),
];

/// Two subsets: 10 in seven bits, 384 in ten, a count of two in eight, 27315 and 1 in 16; 11, 385,
/// and a count of none.
pub(crate) const BEFORE_A_COUNT_OCTETS: &[u8] = &[
    0x14, 0xC0, 0x01, 0x35, 0x59, 0x80, 0x00, 0x8B, 0x60, 0x40, 0x00,
];

pub(crate) const MIXED: Descriptors = &[
    (0, 2, 1),
    (0, 12, 101),
    (2, 8, 2),
    (0, 1, 11),
    (0, 12, 101),
    (0, 1, 1),
    (0, 12, 101),
];

/// Two subsets: two bits, 16, "A " or "BC", 16, seven and 16: 1, 27315, 5, 94 and 65535; 2, 1, 2, 3 and 0.
pub(crate) const MIXED_PLAIN: &[u8] = &[
    0x5A, 0xAC, 0xD0, 0x48, 0x00, 0x01, 0x6F, 0x7F, 0xFF, 0xC0, 0x00, 0x28, 0x48, 0x60, 0x00, 0x40,
    0xC0, 0x00, 0x00,
];

/// The same fields, each a minimum, NBINC, and both increments or texts if there are any.
pub(crate) const MIXED_COLUMNS: &[u8] = &[
    0x42, 0x16, 0xAB, 0x30, 0x84, 0x00, 0x00, 0x24, 0x12, 0x04, 0x24, 0x30, 0x00, 0x50, 0x2F, 0x00,
    0x00, 0x0E, 0x11, 0x00,
];

/// Eight subsets of 16 bits and seven: 27301 and 10, 27302 and 20, to 27308 and 80.
pub(crate) const EIGHT_BLOCKS: &[u8] = &[
    0x6A, 0xA5, 0x14, 0xD5, 0x4C, 0x51, 0xAA, 0x9C, 0xF3, 0x55, 0x42, 0x86, 0xAA, 0x96, 0x4D, 0x55,
    0x4F, 0x1A, 0xAA, 0xE3, 0x35, 0x56, 0x50,
];

/// Elements with their unit, scale, reference value and width.
const TABLE_B: &[u8] = b"FXY,BUFR_Unit,BUFR_Scale,BUFR_ReferenceValue,BUFR_DataWidth_Bits
001001,Numeric,0,0,7
001002,Numeric,0,0,10
001011,CCITT IA5,0,0,72
002001,Code table,0,0,2
004001,a,0,0,12
004002,mon,0,0,4
004003,d,0,0,6
004004,h,0,0,5
004005,min,0,0,6
007001,m,0,-400,15
012101,K,2,0,16
031000,Numeric,0,0,1
031001,Numeric,0,0,8
";

const TABLE_D: &[u8] = b"FXY1,FXY2
301001,001001
301001,001002
301011,004001
301011,004002
301011,004003
301012,004004
301012,004005
";

pub(crate) fn template(rt: &impl Abort, alloc: Global, list: Descriptors) -> Template {
    let elements = TableB::parse(alloc, TABLE_B).expect(rt, "a table");
    let sequences = TableD::parse(alloc, TABLE_D).expect(rt, "a table");
    let tables = Tables::new(elements, sequences);
    let mut descriptors = Vec::new(alloc);
    for (f, x, y) in list {
        let fxy = Fxy::new(*f, *x, *y).expect(rt, "a descriptor");
        descriptors.push(fxy).expect(rt, "room");
    }
    let built = Template::build(alloc, &tables, descriptors.as_slice());
    drop(tables);
    built.expect(rt, "a template")
}

pub(crate) fn octets_of(mut sink: BitSink) -> Vec<u8> {
    sink.fill_octet();
    sink.into_bytes()
}

pub(crate) fn number_of(field: &Field) -> Option<u64> {
    match &field.raw {
        Raw::Number(number) => Some(*number),
        Raw::Text(_) => None,
    }
}

pub(crate) fn text_of(field: &Field) -> &[u8] {
    match &field.raw {
        Raw::Number(_) => &[],
        Raw::Text(text) => text.as_slice(),
    }
}

pub(crate) fn same_subset(rt: &impl Abort, subset: &Subset, numbers: &[u64], text: &[u8]) {
    let fields = subset.fields.as_slice();
    same(rt, fields.len(), numbers.len());
    for (field, number) in fields.iter().zip(numbers) {
        same(rt, number_of(field).unwrap_or(0), *number);
    }
    if let Some(last) = fields.last() {
        same(rt, text_of(last), text);
    }
}

pub(crate) fn read(
    rt: &impl Abort,
    alloc: Global,
    list: Descriptors,
    compressed: bool,
    count: u16,
    octets: &[u8],
) -> Items<Subset> {
    let template = template(rt, alloc, list);
    let mut reader = BitReader::new(octets);
    let subsets = read_subsets(alloc, &template, compressed, count, &mut reader).expect(rt, "data");
    drop(template);
    same(rt, reader.left() < 8 || count == 0, true);
    same(rt, subsets.len(), usize::from(count));
    subsets
}
