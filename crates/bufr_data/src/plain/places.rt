//! Places of the chosen fields of a layout.

ghost use Rattle.std.specs.Prelude.{◌≡◌, IfOk, IfSome};
ghost use Rattle.bufr_data.specs.Chosen as chosen;
ghost use Rattle.bufr_data.specs.Chosen.{placed_from};

use crate::chosen::is_listed;
use crate::short::greatest_short;
use bufr_base::OutOfMemory;
use bufr_expand::{CommonField, Spec};
use bufr_fields::MOST_RAW_BITS;
use bufr_tables::Kind;
use std::alloc::Global;

/// A chosen field of every subset, the bits between it and the chosen field before it, and its
/// greatest number if its numbers are short.
#[derive(Clone, Copy, PartialEq)]
pub(crate) struct ChosenPlace {
    pub(crate) gap: u64,
    pub(crate) field: CommonField,
    pub(crate) greatest: Option<u16>,
}

/// Finds the places of the fields of some descriptors, which are given by their 16 bits. `None` if
/// 64 bits cannot count the bits before a field.
pub(crate) fn place_fields(
    alloc: Global,
    asked: &[u16],
    fields: &[CommonField],
) -> Result<Option<Vec<ChosenPlace>>, OutOfMemory>
    ensures { IfOk result (λ found. IfSome found (λ places.
        places.items ≡ placed_from asked.now 0 fields.now)) }
{
    let mut places = Vec::new(alloc);
    let mut gap: u64 = 0;
    let mut left = fields;
    while let Some((field, others)) = left.split_first() {
        let field = *field;
        if is_listed(asked, field.fxy) {
            places.push(placed(gap, field))?;
            gap = 0;
        } else {
            match gap.checked_add(size_of_field(field.spec)) {
                None => return Ok(None),
                Some(more) => gap = more,
            }
        }
        left = others;
    }
    Ok(Some(places))
}

/// Makes the place of a field after `gap` bits.
fn placed(gap: u64, field: CommonField) -> ChosenPlace
    ensures { result ≡ chosen.placed gap field }
{
    ChosenPlace {
        gap,
        field,
        greatest: greatest_short(field.spec),
    }
}

/// Returns the bits of a field.
fn size_of_field(spec: Spec) -> u64
    ensures { result ≡ chosen.field_size spec }
{
    match spec.kind {
        Kind::Text => 8 * u64::from(spec.width / 8),
        _ if spec.width > MOST_RAW_BITS => 0,
        _ => u64::from(spec.width),
    }
}
