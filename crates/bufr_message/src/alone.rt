//! Subsets that fit a message of their own.

ghost use Rattle.std.specs.Prelude.{◌≡◌, ◌<◌, ◌^◌, Bool, List, true, length, nat_le, is_some};
ghost use Rattle.std.specs.Prelude.{IfOk, IfSome};
ghost use Rattle.bufr_fields.specs.declared.field.Subset.{Subset as ASubset};
ghost use Rattle.bufr_data.specs.Plain.{field_bits};
ghost use Rattle.bufr_sections.specs.Spelt.{longest};
ghost use Rattle.bufr_message.specs.Messages.{octets_alone, can_be_alone};
ghost use Rattle.bufr_message.specs.Views.{AreReadFrom};

use bufr_base::OutOfMemory;
use bufr_data::laws::data_hold_subsets;
use bufr_data::{Field, Raw, Subset, SubsetIndex};
use bufr_sections::LONGEST;
use bufr_tables::Fxy;
use std::alloc::Global;

/// Whether even a message with all these octets of data would be short enough.
#[inline(always)]
pub(crate) fn are_few(descriptors: &[Fxy], contents: &[u8]) -> bool
    ensures { (compressed : Bool) (subsets : List ASubset)
        → AreReadFrom contents.now compressed subsets → result ≡ true
        → can_be_alone descriptors.now subsets ≡ true }
{
    data_hold_subsets();
    45 + 2 * descriptors.len() as u128 + contents.len() as u128 <= LONGEST
}

/// Returns the index if each subset fits a message of its own.
// By value: an index that is lent would be kept in memory on every path of the caller.
#[inline(never)]
pub(crate) fn if_each_alone<'a>(
    alloc: Global,
    descriptors: &[Fxy],
    subsets: SubsetIndex<'a>,
) -> Result<Option<SubsetIndex<'a>>, OutOfMemory>
    ensures some { IfOk result (λ found. IfSome found (λ s. s ≡ subsets.entry)) }
    ensures is { IfOk result (λ found.
        is_some found ≡ can_be_alone descriptors.now subsets.entry) }
{
    if !can_be_alone(alloc, descriptors, &subsets)? {
        return Ok(None);
    }
    Ok(Some(subsets))
}

/// Whether each subset fits a message of its own. Builds each.
fn can_be_alone(
    alloc: Global,
    descriptors: &[Fxy],
    subsets: &SubsetIndex<'_>,
) -> Result<bool, OutOfMemory>
    ensures { IfOk result (λ b. b ≡ can_be_alone descriptors.now subsets.now) }
{
    for index in 0..subsets.count() {
        let subset = subsets.subset(alloc, index)?;
        if !is_short(descriptors, &subset) {
            return Ok(false);
        }
    }
    Ok(true)
}

/// Returns whether each of these subsets fits a message of its own.
pub(crate) fn are_short(descriptors: &[Fxy], subsets: &[Subset]) -> bool
    ensures { result ≡ can_be_alone descriptors.now subsets.now }
{
    for subset in subsets {
        if !is_short(descriptors, subset) {
            return false;
        }
    }
    true
}

/// Whether the message with this subset alone has at most 16,777,215 octets.
fn is_short(descriptors: &[Fxy], subset: &Subset) -> bool
    ensures { result ≡ nat_le (octets_alone descriptors.now subset.now) longest }
{
    let mut bits = 0u128;
    for field in subset.fields.as_slice() {
        bits += bits_of(field);
        if bits > 8 * LONGEST {
            return false;
        }
    }
    45 + 2 * descriptors.len() as u128 + (bits + 7) / 8 <= LONGEST
}

fn bits_of(field: &Field) -> u128
    ensures value { result ≡ length (field_bits field.now) }
    ensures small { result < 2 ^ 68 }
{
    match &field.raw {
        Raw::Number(_) => u128::from(field.spec.width),
        Raw::Text(octets) => 8 * octets.as_slice().len() as u128,
    }
}
