//! Short numbers: those of at most 16 bits without scale and reference value.

ghost use Rattle.std.specs.Prelude.{◌≡◌};
ghost use Rattle.bufr_data.specs.Short as short;

use bufr_expand::Spec;
use bufr_tables::{Fxy, Kind};

/// The most bits of a short number.
const MOST_SHORT_BITS: u32 = 16;

/// A field with a short number: its descriptor, and its value unless it is missing.
#[derive(Clone, Copy, Debug, PartialEq)]
pub struct ShortNumber {
    /// The descriptor of its element.
    pub fxy: Fxy,
    /// Its value.
    pub number: Option<u16>,
}

impl ShortNumber {
    /// Makes the short number of a raw number, in a field with this greatest number.
    #[inline(always)]
    pub(crate) fn of_raw(fxy: Fxy, raw: u16, greatest: u16) -> ShortNumber
        ensures { result ≡ short.short_of fxy raw greatest }
    {
        let number = if raw == greatest { None } else { Some(raw) };
        ShortNumber { fxy, number }
    }
}

/// Returns the greatest number of a field, if its numbers are short. A field of one bit has no
/// missing number, so it is not short.
#[inline(always)]
pub(crate) fn greatest_short(spec: Spec) -> Option<u16>
    ensures { result ≡ short.greatest_short spec }
{
    let is_whole = spec.scale == 0 && spec.reference == 0;
    match spec.kind {
        Kind::Text | Kind::Count => None,
        _ if is_whole && 2 <= spec.width && spec.width <= MOST_SHORT_BITS => {
            Some(((1u32 << spec.width) - 1) as u16)
        }
        _ => None,
    }
}
