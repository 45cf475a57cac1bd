//! Reads numbers from bits.

ghost use Rattle.std.specs.Prelude.{◌≡◌, ◌+◌, ◌-◌, ◌*◌, ◌^◌, ◌≤◌, length, take, drop};
ghost use Rattle.bufr_bits.specs.Bits.{bits, number};

fn spelt(octets: &[u8]) -> u128
    requires { length octets.now ≤ 16 }
    ensures { result ≡ number (bits octets.now) }
{
    let mut total = 0u128;
    for octet in octets {
        total = total * 256 + u128::from(*octet);
    }
    total
}

/// The widest field within eight octets, from any bit of the first.
const MOST_BITS_IN_A_WORD: u32 = 56;

fn word_at(octets: &[u8], first: usize) -> u64
    requires { first + 8 ≤ length octets.now }
    ensures { result ≡ number (bits (take 8 (drop first octets.now))) }
{
    u64::from_be_bytes([
        octets[first],
        octets[first + 1],
        octets[first + 2],
        octets[first + 3],
        octets[first + 4],
        octets[first + 5],
        octets[first + 6],
        octets[first + 7],
    ])
}

/// Reads `width` bits from bit `place` on, in at most nine octets.
fn field_by_octets(octets: &[u8], place: u128, width: u32) -> u64
    requires narrow { width ≤ 64 }
    requires within { place + width ≤ 8 * length octets.now }
    ensures { result ≡ number (take width (drop place (bits octets.now))) }
{
    let end_bit = place + u128::from(width);
    let end = end_bit.div_ceil(8);
    let spare = 8 * end - end_bit;
    let number = spelt(&octets[(place / 8) as usize..end as usize]);
    ((number >> spare) & ((1u128 << width) - 1)) as u64
}

/// Reads `width` bits from bit `place` on, eight octets at once if it can.
pub(crate) fn field(octets: &[u8], place: u128, width: u32) -> u64
    requires narrow { width ≤ 64 }
    requires within { place + width ≤ 8 * length octets.now }
    ensures { result ≡ number (take width (drop place (bits octets.now))) }
{
    if 1 <= width && width <= MOST_BITS_IN_A_WORD && octets.len() >= 8 {
        let whole = (place / 8) as usize;
        let first = whole.min(octets.len() - 8);
        let before = 8 * (whole - first) as u32 + (place % 8) as u32;
        return (word_at(octets, first) >> (64 - before - width)) & ((1u64 << width) - 1);
    }
    field_by_octets(octets, place, width)
}

fn half_word_at(octets: &[u8], first: usize) -> u32
    requires { first + 4 ≤ length octets.now }
    ensures { result ≡ number (bits (take 4 (drop first octets.now))) }
{
    u32::from_be_bytes([
        octets[first],
        octets[first + 1],
        octets[first + 2],
        octets[first + 3],
    ])
}

/// Reads at most 16 bits from bit `place` on, four octets at once if it can. The greatest number of
/// these bits is their mask.
#[inline(always)]
pub(crate) fn short_field(octets: &[u8], place: u128, width: u32, greatest: u16) -> u16
    requires narrow { width ≤ 16 }
    requires ones { greatest ≡ 2 ^ width - 1 }
    requires within { place + width ≤ 8 * length octets.now }
    ensures { result ≡ number (take width (drop place (bits octets.now))) }
{
    let first = (place / 8) as usize;
    if 1 <= width && octets.len() >= 4 && first <= octets.len() - 4 {
        let spare = 32 - (place % 8) as u32 - width;
        return ((half_word_at(octets, first) >> spare) & u32::from(greatest)) as u16;
    }
    field_by_octets(octets, place, width) as u16
}
