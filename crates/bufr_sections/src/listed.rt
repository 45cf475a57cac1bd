//! The list of descriptors in section 3.

ghost use Rattle.std.specs.Prelude.{◌≡◌, ◌≢◌, IfOk};
ghost use Rattle.std.specs.Bool.{OnTrue, OnFalse};
ghost use Rattle.bufr_sections.specs.Sections.{two, descriptors_of};

use bufr_base::{Items, OutOfMemory};
use bufr_tables::Fxy;
use std::alloc::Global;

pub(crate) fn number_of_two(high: u8, low: u8) -> u16
    ensures { result ≡ two high low }
{
    256 * high as u16 + low as u16
}

/// Reads descriptors of two octets each, without an odd octet.
pub fn descriptors_of(alloc: Global, octets: &[u8]) -> Result<Items<Fxy>, OutOfMemory>
    ensures { IfOk result (λ list. list ≡ descriptors_of octets.now) }
{
    let mut list = Vec::with_capacity(alloc, octets.len() / 2)?;
    let mut rest = octets;
    while let [high, low, others @ ..] = rest {
        list.push(Fxy::from_bits(number_of_two(*high, *low)))?;
        rest = others;
    }
    Ok(Items::from_vec(list))
}

/// Whether octets list exactly these descriptors, an odd octet aside.
pub fn are_listed(octets: &[u8], descriptors: &[Fxy]) -> bool
    ensures same { OnTrue result (descriptors_of octets.now ≡ descriptors.now) }
    ensures others { OnFalse result (descriptors_of octets.now ≢ descriptors.now) }
{
    let mut rest = octets;
    for descriptor in descriptors {
        match rest {
            [high, low, others @ ..] if number_of_two(*high, *low) == descriptor.bits() => {
                rest = others;
            }
            _ => return false,
        }
    }
    rest.len() < 2
}
