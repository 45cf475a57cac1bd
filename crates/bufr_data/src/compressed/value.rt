//! Reads one value of a column.

ghost use Rattle.std.specs.Prelude.{◌≡◌, ◌≤◌, ◌<◌, ◌*◌, ◌/◌, length, drop, option_map, get_or};
ghost use Rattle.std.specs.Prelude.{false, IfOk, IfSome, IfNone, Some, None};
ghost use Rattle.bufr_bits.specs.Bits.{bits, octets_at};
ghost use Rattle.bufr_bits.specs.Ends.{left};
ghost use Rattle.bufr_tables.specs.declared.element.Kind.TheVariants.{Text};
ghost use Rattle.bufr_tables.specs.Elements.{same_kind};
ghost use Rattle.bufr_fields.specs.declared.field.Raw.TheVariants as raws;
ghost use Rattle.bufr_data.specs.Compressed.Reading as reading;
ghost use Rattle.bufr_data.specs.Compressed.Indexed.{one_at};

use bufr_base::{Items, OutOfMemory};
use bufr_bits::BitReader;
use bufr_expand::Spec;
use bufr_fields::{MOST_RAW_BITS, Raw, are_ones, raised};
use bufr_tables::Kind;
use std::alloc::Global;

/// Reads the value at `index` of the column, or returns `None` if there is none.
pub(crate) fn column_value(
    alloc: Global,
    reader: &mut BitReader,
    spec: Spec,
    index: u16,
) -> Result<Option<Raw>, OutOfMemory>
    ensures { IfOk result (λ value. value ≡ one_at spec index (left reader.old)) }
{
    match spec.kind {
        Kind::Text => text_value(alloc, reader, spec, index),
        _ => Ok(number_value(reader, spec, index).map(|number| Raw::Number(number))),
    }
}

fn number_value(reader: &mut BitReader, spec: Spec, index: u16) -> Option<u64>
    requires { same_kind spec.kind Text ≡ false }
    ensures { option_map (λ n. raws.Number n) result ≡ one_at spec index (left reader.old) }
{
    if spec.width > MOST_RAW_BITS {
        return None;
    }
    let minimum = reader.take(spec.width)?;
    let k = reader.take(6)? as u32;
    if k == 0 {
        return Some(minimum);
    }
    if !reader.pass(u128::from(index) * u128::from(k)) {
        return None;
    }
    let increment = reader.take(k)?;
    raised(spec.width, minimum, k, increment)
}

fn text_value(
    alloc: Global,
    reader: &mut BitReader,
    spec: Spec,
    index: u16,
) -> Result<Option<Raw>, OutOfMemory>
    requires { spec.kind ≡ Text }
    ensures { IfOk result (λ value. value ≡ one_at spec index (left reader.old)) }
{
    let octets = u64::from(spec.width / 8);
    let Some(count) = find_text(reader, spec, index) else {
        return Ok(None);
    };
    match reader.take_bytes(alloc, count)? {
        None => Ok(None),
        Some(own) => Ok(Some(Raw::Text(filled(own, octets)?))),
    }
}

/// Moves the reader to the text at `index` of the column, and returns its number of octets: all, or
/// fewer that are to be filled.
#[inline(always)]
pub(crate) fn find_text(reader: &mut BitReader, spec: Spec, index: u16) -> Option<u64>
    requires { spec.kind ≡ Text }
    ensures found { IfSome result (λ count. one_at spec index (left reader.old) ≡ option_map
        (λ x. reading.filled (spec.width / 8) x.0) (octets_at count (left reader.new))) }
    ensures shorter { IfSome result (λ count. count ≤ spec.width / 8) }
    ensures none { IfNone result (one_at spec index (left reader.old) ≡ None) }
{
    let octets = u64::from(spec.width / 8);
    let start = reader.place();
    if !reader.pass(8 * u128::from(octets)) {
        return None;
    }
    let k = reader.take(6)?;
    if k == 0 {
        reader.return_to(start);
        return Some(octets);
    }
    if k > octets {
        return None;
    }
    if !reader.pass(u128::from(index) * (8 * u128::from(k))) {
        return None;
    }
    Some(k)
}

/// Fills a text with spaces, or with ones if it is all ones.
fn filled(mut own: Vec<u8>, octets: u64) -> Result<Items<u8>, OutOfMemory>
    requires { length own.items ≤ octets }
    ensures { IfOk result (λ text. raws.Text text ≡ reading.filled octets own.items) }
{
    let filler = if are_ones(own.as_slice()) { 255 } else { 32 };
    own.resize(octets as usize, filler)?;
    Ok(Items::from_vec(own))
}
