//! Keeps the head of a column of numbers: its minimum and the width of its increments.

ghost use Rattle.std.specs.Prelude.{◌≡◌, ◌≤◌, ◌*◌, length, drop, option_map, IfSome};
ghost use Rattle.bufr_bits.specs.Bits.{bits};
ghost use Rattle.bufr_fields.specs.declared.field.Raw.TheVariants as raws;
ghost use Rattle.bufr_data.specs.Compressed.Indexed.{HasHead, one_at};

use bufr_bits::BitReader;
use bufr_expand::Spec;
use bufr_fields::{MOST_RAW_BITS, raised};
use bufr_tables::Kind;

/// A head of a column of numbers: R0, NBINC, and the first bit after them.
#[derive(Clone, Copy, PartialEq)]
pub(crate) struct ColumnHead {
    pub(crate) minimum: u64,
    pub(crate) increment_bits: u32,
    pub(crate) first: u128,
}

/// Reads the head of the column that begins at a bit. `None` for texts.
pub(crate) fn head_at(octets: &[u8], bit: u128, spec: Spec) -> Option<ColumnHead>
    requires { bit ≤ 8 * length octets.now }
    ensures { IfSome result (HasHead octets.now bit spec) }
{
    if let Kind::Text = spec.kind {
        return None;
    }
    if spec.width > MOST_RAW_BITS {
        return None;
    }
    let mut reader = BitReader::at(octets, bit);
    let minimum = reader.take(spec.width)?;
    let increment_bits = reader.take(6)? as u32;
    let _left = reader.left();
    let first = reader.place();
    Some(ColumnHead {
        minimum,
        increment_bits,
        first,
    })
}

/// Reads the number at `index` of the column that begins at `bit`, without a second look at its
/// head.
#[inline(always)]
pub(crate) fn number_under(
    octets: &[u8],
    bit: u128,
    spec: Spec,
    head: ColumnHead,
    index: u16,
) -> Option<u64>
    requires { HasHead octets.now bit spec head }
    ensures { option_map (λ n. raws.Number n) result ≡ one_at spec index (drop bit (bits octets.now)) }
{
    let k = head.increment_bits;
    if k == 0 {
        return Some(head.minimum);
    }
    let start = head.first + u128::from(index) * u128::from(k);
    if start + u128::from(k) > 8 * octets.len() as u128 {
        return None;
    }
    let mut reader = BitReader::at(octets, start);
    let increment = reader.take_left(k);
    raised(spec.width, head.minimum, k, increment)
}
