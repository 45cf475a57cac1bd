//! Checks numbers, octets and specs.

ghost use Rattle.std.specs.Prelude.{◌≡◌, ◌+◌, ◌/◌, ◌^◌, ◌==◌, ◌&&◌, length, nat_lt, nat_le};
ghost use Rattle.std.specs.List.{list_all};
ghost use Rattle.bufr_tables.specs.Elements as elements;
ghost use Rattle.bufr_fields.specs.Forms.{same_spec};
ghost use Rattle.bufr_fields.specs.Limits.{most_raw_bits};

use crate::limits::MOST_RAW_BITS;
use bufr_expand::Spec;
use bufr_tables::Kind;

/// Returns whether a number fits in `width` bits, at most 64.
pub fn is_below(number: u64, width: u32) -> bool
    ensures { result ≡ (nat_le width most_raw_bits && nat_lt number (2 ^ width)) }
{
    if width > MOST_RAW_BITS {
        return false;
    }
    width == MOST_RAW_BITS || number < 1 << width
}

/// Returns whether a number is the greatest of `width` bits.
pub fn is_greatest(number: u64, width: u32) -> bool
    ensures { result ≡ (number + 1 == 2 ^ width) }
{
    if width > MOST_RAW_BITS {
        return false;
    }
    if width == MOST_RAW_BITS {
        number == u64::MAX
    } else {
        number == (1 << width) - 1
    }
}

/// Returns whether there are `width` / 8 octets.
pub(crate) fn is_octets(octets: &[u8], width: u32) -> bool
    ensures { result ≡ (length octets.now == width / 8 && list_all (λ x. nat_lt x 256) octets.now) }
{
    octets.len() as u64 == u64::from(width / 8)
}

/// Returns whether all octets are 255.
pub fn are_ones(octets: &[u8]) -> bool
    ensures { result ≡ list_all (λ x. x == 255) octets.now }
{
    octets.iter().all(|octet| *octet == 255)
}

/// Returns whether two specs are equal.
pub fn is_same(a: Spec, b: Spec) -> bool
    ensures { result ≡ same_spec a b }
{
    same_kind(a.kind, b.kind)
        && same_integer(i64::from(a.scale), i64::from(b.scale))
        && same_integer(a.reference, b.reference)
        && a.width == b.width
}

fn same_kind(a: Kind, b: Kind) -> bool
    ensures { result ≡ elements.same_kind a b }
{
    match (a, b) {
        (Kind::Text, Kind::Text) => true,
        (Kind::Code, Kind::Code) => true,
        (Kind::Flag, Kind::Flag) => true,
        (Kind::Quantity, Kind::Quantity) => true,
        (Kind::Count, Kind::Count) => true,
        (_, _) => false,
    }
}

fn same_integer(a: i64, b: i64) -> bool
    ensures { result ≡ elements.same_integer a b }
{
    a == b
}
