ghost use Rattle.std.specs.Prelude.{◌≡◌, map, take};
ghost use Rattle.bufr_tables.specs.Rows.{kind_of, element_row, member_row};

use crate::element::{Element, Kind};
use crate::fields::cell;
use crate::fxy::Fxy;
use crate::numbers::{descriptor_of, signed_of, small_signed_of, small_unsigned_of};

/// The start of every common code table's unit.
const COMMON_CODE_TABLE: &[u8] = b"Common Code table";

fn first_octets(text: &[u8], n: usize) -> &[u8]
    ensures { result.now ≡ take n text.now }
{
    if text.len() <= n { text } else { &text[..n] }
}

fn kind_of(unit: &[u8]) -> Kind
    ensures { result ≡ kind_of unit.now }
{
    if unit.eq_ignore_ascii_case(b"CCITT IA5") {
        Kind::Text
    } else if unit.eq_ignore_ascii_case(b"Code table") {
        Kind::Code
    } else if unit.eq_ignore_ascii_case(b"Flag table") {
        Kind::Flag
    } else if first_octets(unit, COMMON_CODE_TABLE.len()).eq_ignore_ascii_case(COMMON_CODE_TABLE) {
        Kind::Code
    } else {
        Kind::Quantity
    }
}

/// Reads a row of Table B: a descriptor and its element.
#[tactic(auto, unfolding(crate::specs::Rows::element_row))]
pub(crate) fn element_row(cells: &[&[u8]]) -> Option<(Fxy, Element)>
    ensures { result ≡ element_row (map (λ s. s.now) cells.now) }
{
    let fxy = descriptor_of(0, cell(cells, 0))?;
    let scale = small_signed_of(cell(cells, 2))?;
    let reference = signed_of(cell(cells, 3))?;
    let width = small_unsigned_of(cell(cells, 4))?;
    let kind = kind_of(cell(cells, 1));
    Some((
        fxy,
        Element {
            kind,
            scale,
            reference,
            width,
        },
    ))
}

/// Reads a row of Table D: a sequence and one of its descriptors.
#[tactic(auto, unfolding(crate::specs::Rows::member_row))]
pub(crate) fn member_row(cells: &[&[u8]]) -> Option<(Fxy, Fxy)>
    ensures { result ≡ member_row (map (λ s. s.now) cells.now) }
{
    let sequence = descriptor_of(3, cell(cells, 0))?;
    let member = Fxy::from_text(cell(cells, 1))?;
    Some((sequence, member))
}
