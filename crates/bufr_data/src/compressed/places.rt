//! Checks that subsets can share columns.

ghost use Rattle.std.specs.Prelude.{◌≡◌, ◌∷◌, ◌==◌, ◌&&◌, map, drop, Ok, Err, OnOk, IfErr};
ghost use Rattle.std.specs.List.{list_all};
ghost use Rattle.bufr_data.specs.Compressed.Best as best;
ghost use Rattle.bufr_data.specs.Compressed.Best.{begins_like, first_raw, is_empty, columns_of};
ghost use Rattle.bufr_data.specs.Compressed.Reading as reading;
ghost use Rattle.bufr_fields.specs.Forms.{same_spec};
ghost use Rattle.bufr_data.specs.Compressed.Places.{rows_from, values_from, columns_here};

use bufr_expand::Spec;
use bufr_fields::{Field, MOST_INCREMENT_BITS, MisfitFault, Raw, Subset, is_same};
use bufr_tables::Kind;

/// Checks that the other subsets have exactly the fields of the first, with values that can share a
/// column. Else returns E2 with the first field that fails, from 1.
pub(crate) fn check_places(fields: &[Field], others: &[Subset]) -> Result<(), MisfitFault>
    ensures ok { OnOk result (columns_of 1 fields.now (rows_from 0 others.now)
        ≡ Ok (columns_here fields.now (rows_from 0 others.now))) }
    ensures err { IfErr result (λ fault. columns_of 1 fields.now (rows_from 0 others.now)
        ≡ Err fault) }
{
    for (place, field) in fields.iter().enumerate() {
        if !is_one_place(field, others, place) {
            return Err(MisfitFault::NotCompressible(place as u64 + 1));
        }
    }
    if have_ended(others, fields.len()) {
        Ok(())
    } else {
        Err(MisfitFault::NotCompressible(fields.len() as u64 + 1))
    }
}

fn is_one_place(field: &Field, others: &[Subset], place: usize) -> bool
    ensures { result ≡ (list_all (begins_like field.now) (rows_from place others.now)
        && best.can_be_column field.now.spec (values_from field.now (rows_from place others.now))) }
{
    are_alike(field, others, place)
        && (are_equal(&field.raw, others, place) || can_differ(field.spec))
}

/// Returns whether the values of a field may differ: it is no factor, and has at most 63 bits, or
/// 63 octets if it is a text.
fn can_differ(spec: Spec) -> bool
    ensures { result ≡ best.can_differ spec }
{
    match spec.kind {
        Kind::Count => false,
        Kind::Text => spec.width / 8 <= MOST_INCREMENT_BITS,
        _ => spec.width <= MOST_INCREMENT_BITS,
    }
}

fn are_alike(field: &Field, others: &[Subset], place: usize) -> bool
    ensures { result ≡ list_all (begins_like field.now) (rows_from place others.now) }
{
    for other in others {
        if !is_alike(field, other, place) {
            return false;
        }
    }
    true
}

fn is_alike(field: &Field, other: &Subset, place: usize) -> bool
    ensures { result ≡ begins_like field.now (drop place other.now.fields) }
{
    match other.fields.get(place) {
        None => false,
        Some(own) => is_like(field, own),
    }
}

fn is_like(field: &Field, own: &Field) -> bool
    ensures { result ≡ (field.now.fxy == own.now.fxy && same_spec own.now.spec field.now.spec) }
{
    field.fxy == own.fxy && is_same(own.spec, field.spec)
}

pub(crate) fn are_equal(raw: &Raw, others: &[Subset], place: usize) -> bool
    ensures { result ≡ reading.all_equal (raw.now ∷ map first_raw (rows_from place others.now)) }
{
    for other in others {
        if !has_raw(raw, other, place) {
            return false;
        }
    }
    true
}

fn has_raw(raw: &Raw, other: &Subset, place: usize) -> bool
    ensures { result ≡ reading.same_raw (first_raw (drop place other.now.fields)) raw.now }
{
    match other.fields.get(place) {
        None => same_raw(&Raw::Number(0), raw),
        Some(own) => same_raw(&own.raw, raw),
    }
}

fn same_raw(a: &Raw, b: &Raw) -> bool
    ensures { result ≡ reading.same_raw a.now b.now }
{
    match (a, b) {
        (Raw::Number(a), Raw::Number(b)) => a == b,
        (Raw::Text(a), Raw::Text(b)) => a.as_slice() == b.as_slice(),
        (_, _) => false,
    }
}

fn have_ended(others: &[Subset], place: usize) -> bool
    ensures { result ≡ list_all is_empty (rows_from place others.now) }
{
    for other in others {
        if !has_ended(other, place) {
            return false;
        }
    }
    true
}

fn has_ended(other: &Subset, place: usize) -> bool
    ensures { result ≡ is_empty (drop place other.now.fields) }
{
    match other.fields.get(place) {
        None => true,
        Some(_) => false,
    }
}
