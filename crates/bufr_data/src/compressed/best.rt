//! Writes the best column of a field's values. For numbers no column is shorter.

ghost use Rattle.std.specs.Prelude.{◌≡◌, ◌+◌, ◌^◌, ◌<◌, ◌≤◌, ◌/◌, ◌∷◌, ◌++◌, ◌==◌, map, drop, true};
ghost use Rattle.std.specs.Prelude.{false, OnOk, IfOk, nat_lt};
ghost use Rattle.std.specs.List.{list_all, flat_map};
ghost use Rattle.bufr_bits.specs.Bits.{bin, bits};
ghost use Rattle.bufr_tables.specs.declared.element.Kind.TheVariants.{Text};
ghost use Rattle.bufr_tables.specs.Elements.{same_kind};
ghost use Rattle.bufr_data.specs.Compressed.Best as bests;
ghost use Rattle.bufr_data.specs.Compressed.Best.{first_raw, present, least, greatest, increment_of};
ghost use Rattle.bufr_data.specs.Compressed.Best.{octets_of, can_be_column};
ghost use Rattle.bufr_data.specs.Compressed.Reading as reading;
ghost use Rattle.bufr_data.specs.Compressed.Places.{rows_from, values_from, least_step, greatest_step};
ghost use Rattle.bufr_fields.specs.Forms.{has_form_by, number_of};
ghost use Rattle.bufr_data.specs.Subsets.{Extends, have_form};
ghost use Rattle.bufr_fields.specs.Limits.{most_increment_bits};

use crate::compressed::places::are_equal;
use crate::plain::write::put_raw;
use bufr_base::OutOfMemory;
use bufr_bits::BitSink;
use bufr_expand::Spec;
use bufr_fields::{Field, Raw, Subset, fewest_bits, is_greatest};
use bufr_tables::Kind;
use std::alloc::Global;

/// Appends the column of a field and of the other subsets' fields at its place.
pub(crate) fn put_best(
    alloc: Global,
    field: &Field,
    others: &[Subset],
    place: usize,
    sink: &mut BitSink,
) -> Result<(), OutOfMemory>
    requires can { can_be_column field.now.spec (values_from field.now (rows_from place others.now))
        ≡ true }
    requires forms { have_form field.now.spec (values_from field.now (rows_from place others.now))
        ≡ true }
    ensures put { OnOk result (sink.new ≡ sink.old ++ bests.best field.now.spec
        (values_from field.now (rows_from place others.now))) }
    ensures kept { Extends sink.old sink.new }
{
    if are_equal(&field.raw, others, place) {
        put_raw(field.spec, &field.raw, sink)?;
        return sink.put(6, 0);
    }
    match field.spec.kind {
        Kind::Text => put_texts(field, others, place, sink),
        _ => {
            let numbers = numbers_from(alloc, field, others, place)?;
            put_numbers(field.spec.width, numbers.as_slice(), sink)
        }
    }
}

/// The longest minimum of a column of texts.
const ZEROS: [u8; 63] = [0; 63];

/// Appends a column of texts that differ: a minimum of zeros, and then each text whole.
fn put_texts(
    field: &Field,
    others: &[Subset],
    place: usize,
    sink: &mut BitSink,
) -> Result<(), OutOfMemory>
    requires { field.now.spec.width / 8 ≤ most_increment_bits }
    ensures put { OnOk result (sink.new ≡ sink.old ++ bests.best_texts (field.now.spec.width / 8)
        (map octets_of (values_from field.now (rows_from place others.now)))) }
    ensures kept { Extends sink.old sink.new }
{
    let octets = field.spec.width / 8;
    sink.put_bytes(&ZEROS[..octets as usize])?;
    sink.put(6, u64::from(octets))?;
    put_text(&field.raw, sink)?;
    for other in others {
        put_text_at(other, place, sink)?;
    }
    Ok(())
}

fn put_text_at(subset: &Subset, place: usize, sink: &mut BitSink) -> Result<(), OutOfMemory>
    ensures put { OnOk result (sink.new ≡ sink.old ++ bits
        (octets_of (first_raw (drop place subset.now.fields)))) }
    ensures kept { Extends sink.old sink.new }
{
    match subset.fields.get(place) {
        None => Ok(()),
        Some(own) => {
            put_text(&own.raw, sink)?;
            Ok(())
        }
    }
}

fn put_text(raw: &Raw, sink: &mut BitSink) -> Result<(), OutOfMemory>
    ensures put { OnOk result (sink.new ≡ sink.old ++ bits (octets_of raw.now)) }
    ensures kept { Extends sink.old sink.new }
{
    match raw {
        Raw::Number(_) => Ok(()),
        Raw::Text(octets) => sink.put_bytes(octets.as_slice()),
    }
}

fn numbers_from(
    alloc: Global,
    field: &Field,
    others: &[Subset],
    place: usize,
) -> Result<Vec<u64>, OutOfMemory>
    ensures { IfOk result (λ numbers. numbers.items ≡ map number_of
        (values_from field.now (rows_from place others.now))) }
{
    let mut numbers = Vec::new(alloc);
    numbers.push(field.raw.number())?;
    for other in others {
        numbers.push(number_at(other, place))?;
    }
    Ok(numbers)
}

fn number_at(subset: &Subset, place: usize) -> u64
    ensures { result ≡ number_of (first_raw (drop place subset.now.fields)) }
{
    match subset.fields.get(place) {
        None => 0,
        Some(field) => field.raw.number(),
    }
}

fn put_numbers(width: u32, numbers: &[u64], sink: &mut BitSink) -> Result<(), OutOfMemory>
    requires narrow { width ≤ most_increment_bits }
    requires forms { list_all (λ n. nat_lt n (2 ^ width)) numbers.now ≡ true }
    ensures put { OnOk result (sink.new ≡ sink.old ++ bests.best_numbers width numbers.now) }
    ensures kept { Extends sink.old sink.new }
{
    let minimum = least_present(width, numbers);
    let k = fewest_bits(greatest_present(width, numbers).saturating_sub(minimum));
    sink.put(width, minimum)?;
    sink.put(6, u64::from(k))?;
    for number in numbers {
        sink.put(k, increment(width, minimum, k, *number))?;
    }
    Ok(())
}

/// Returns the increment of a number; all ones means missing.
fn increment(width: u32, minimum: u64, k: u32, number: u64) -> u64
    requires { k < 2 ^ 6 }
    ensures { result ≡ increment_of width minimum k number }
{
    if is_greatest(number, width) {
        (1 << k) - 1
    } else {
        number.saturating_sub(minimum)
    }
}

fn least_present(width: u32, numbers: &[u64]) -> u64
    ensures { result ≡ least (present width numbers.now) }
{
    let mut found = None;
    for number in numbers {
        found = lesser(width, found, *number);
    }
    found.unwrap_or(0)
}

fn lesser(width: u32, found: Option<u64>, number: u64) -> Option<u64>
    ensures { result ≡ least_step width found number }
{
    if is_greatest(number, width) {
        return found;
    }
    match found {
        None => Some(number),
        Some(least) => Some(least.min(number)),
    }
}

fn greatest_present(width: u32, numbers: &[u64]) -> u64
    ensures { result ≡ greatest (present width numbers.now) }
{
    let mut found = 0;
    for number in numbers {
        found = greater(width, found, *number);
    }
    found
}

fn greater(width: u32, found: u64, number: u64) -> u64
    ensures { result ≡ greatest_step width found number }
{
    if is_greatest(number, width) {
        found
    } else {
        found.max(number)
    }
}
