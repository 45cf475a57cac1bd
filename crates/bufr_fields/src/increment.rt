//! Increments of compressed data.

ghost use Rattle.std.specs.Prelude.{◌≡◌, ◌≤◌, ◌<◌, ◌+◌, ◌^◌, option_map, IfSome, nat_lt};
ghost use Rattle.bufr_fields.specs.declared.field.Raw.TheVariants.{Number};
ghost use Rattle.bufr_fields.specs.Increments as increments;
ghost use Rattle.bufr_fields.specs.Limits.{most_increment_bits, most_raw_bits};

use crate::form::is_greatest;
use crate::limits::MOST_RAW_BITS;

/// Adds an increment of `k` bits to a minimum of `width` bits; all ones stay all ones. `None` if
/// the sum does not fit.
pub fn raised(width: u32, minimum: u64, k: u32, increment: u64) -> Option<u64>
    requires narrow { width ≤ most_raw_bits }
    requires few { k < 2 ^ 6 }
    ensures value { option_map (λ n. Number n) result
        ≡ increments.raised width minimum k increment }
    ensures fits { IfSome result (λ n. n < 2 ^ width) }
{
    if is_greatest(increment, k) {
        return Some(greatest(width));
    }
    let most = greatest(width);
    if minimum > most || increment > most - minimum {
        return None;
    }
    Some(minimum + increment)
}

/// Returns the greatest number of `width` bits.
pub fn greatest(width: u32) -> u64
    requires { width ≤ most_raw_bits }
    ensures { result + 1 ≡ 2 ^ width }
{
    if width == MOST_RAW_BITS {
        u64::MAX
    } else {
        (1 << width) - 1
    }
}

/// Returns whether no increment of `k` bits is too large.
pub fn never_passes(width: u32, minimum: u64, k: u32) -> bool
    requires narrow { width ≤ most_raw_bits }
    requires few { k < 2 ^ 6 }
    ensures { result ≡ nat_lt (minimum + 2 ^ k) (2 ^ width + 2) }
{
    u128::from(minimum) + (1 << k) < (1u128 << width) + 2
}

/// Returns the fewest bits, at least 1, that hold a difference below all ones.
pub fn fewest_bits(difference: u64) -> u32
    ensures { result ≡ increments.fewest_bits most_increment_bits 1 difference }
{
    for k in 1..64 {
        if u128::from(difference) + 2 <= 1 << k {
            return k;
        }
    }
    64
}
