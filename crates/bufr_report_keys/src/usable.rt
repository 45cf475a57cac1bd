//! The numbers and texts that keys use.
ghost use Rattle.std.specs.Prelude.{◌≡◌};
ghost use Rattle.bufr_fields.specs.Values.{as_field};
ghost use Rattle.bufr_report_keys.specs.Usable.{usable_number, is_blank, without_last_blanks, some_octets, usable_text};

use bufr_base::Items;
use bufr_data::{Field, NumberField, Raw};
use bufr_tables::Kind;

/// Returns the number of a field, if it is not missing and has scale 0.
#[inline(always)]
pub(crate) fn usable_number(field: NumberField) -> Option<i128>
    ensures { result ≡ usable_number (as_field field) }
{
    let NumberField { spec, number, .. } = field;
    if spec.scale != 0 || field.is_missing() {
        return None;
    }
    match spec.kind {
        Kind::Text => None,
        _ => Some(i128::from(number) + i128::from(spec.reference)),
    }
}

/// Returns the number of a field, if it is no text, not missing and has scale 0.
#[inline(always)]
pub(crate) fn number_of(field: &Field) -> Option<i128>
    ensures { result ≡ usable_number field.now }
{
    match field.raw {
        Raw::Number(number) => usable_number(NumberField {
            fxy: field.fxy,
            spec: field.spec,
            number,
        }),
        Raw::Text(_) => None,
    }
}

fn is_blank(octet: u8) -> bool
    ensures { result ≡ is_blank octet }
{
    octet == b' ' || octet == 0
}

fn without_last_blanks(text: &[u8]) -> &[u8]
    ensures { result.now ≡ without_last_blanks text.now }
{
    let mut rest = text;
    while let Some((last, front)) = rest.split_last() {
        if !is_blank(*last) {
            return rest;
        }
        rest = front;
    }
    rest
}

fn octets_left(octets: Items<u8>) -> Option<Items<u8>>
    ensures { result ≡ some_octets (without_last_blanks octets) }
{
    let mut octets = octets.into_vec();
    let left = without_last_blanks(octets.as_slice()).len();
    octets.truncate(left);
    if octets.is_empty() {
        None
    } else {
        Some(Items::from_vec(octets))
    }
}

/// Returns the text of a field of kind Text, if it is neither missing nor blank.
pub(crate) fn usable_text(field: Field) -> Option<Items<u8>>
    ensures { result ≡ usable_text field }
{
    let missing = field.is_missing();
    match (field.spec.kind, field.raw) {
        (Kind::Text, Raw::Text(octets)) if !missing => octets_left(octets),
        _ => None,
    }
}
