//! Copies octets that begin at any bit of others.

ghost use Rattle.std.specs.Prelude.{◌≡◌, ◌+◌, ◌*◌, ◌<◌, ◌≤◌, length, drop, IfOk};
ghost use Rattle.bufr_bits.specs.Bits.{bits, numbers};

use bufr_base::OutOfMemory;
use std::alloc::Global;

/// Copies `n` octets from bit `place` on: a plain copy if `place` is a multiple of 8.
pub(crate) fn octets_from(
    alloc: Global,
    octets: &[u8],
    place: u128,
    n: usize,
) -> Result<Vec<u8>, OutOfMemory>
    requires { place + 8 * n ≤ 8 * length octets.now }
    ensures { IfOk result (λ v. v.items ≡ numbers n 8 (drop place (bits octets.now))) }
{
    let first = (place / 8) as usize;
    let shift = (place % 8) as u32;
    if shift == 0 {
        return Vec::from_slice(alloc, &octets[first..first + n]);
    }
    shifted(alloc, &octets[first..], shift, n)
}

/// Copies `n` octets that begin `shift` bits into the first.
fn shifted(alloc: Global, octets: &[u8], shift: u32, n: usize) -> Result<Vec<u8>, OutOfMemory>
    requires enough { n < length octets.now }
    requires off_edge { 0 < shift }
    requires inside { shift < 8 }
    ensures { IfOk result (λ v. v.items ≡ numbers n 8 (drop shift (bits octets.now))) }
{
    let spare = 8 - shift;
    let mut out = Vec::with_capacity(alloc, n)?;
    for i in 0..n {
        let pair = u16::from(octets[i]) * 256 + u16::from(octets[i + 1]);
        out.push(((pair >> spare) % 256) as u8)?;
    }
    Ok(out)
}
