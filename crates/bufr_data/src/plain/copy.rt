//! Copies bits, or lends their octets.

ghost use Rattle.std.specs.Prelude.{◌≡◌, ◌-◌, ◌*◌, ◌^◌, ◌<◌, ◌≤◌, ◌++◌, drop, length, take, IfSome};
ghost use Rattle.std.specs.Prelude.{OnOk, OnErr};
ghost use Rattle.bufr_bits.specs.Bits.{bin, bits};
ghost use Rattle.bufr_data.specs.Subsets.{Extends, filled};

use bufr_base::OutOfMemory;
use bufr_bits::{BitReader, BitSink};

/// The octets of a room for a subset or a text: 64, and seven for the rest of the last word.
pub const SUBSET_ROOM: usize = 71;

/// The most bits that a room takes.
const MOST_FILLED_BITS: u128 = 512;

/// Seven octets, which always lie within eight.
const BITS_AT_ONCE: u32 = 56;

/// Appends the bits from `from` to `end`: whole octets at once if `from` is a multiple of 8, else
/// seven at a time. If memory runs out, a part may stay.
pub(crate) fn copy_bits(
    octets: &[u8],
    from: u128,
    end: u128,
    sink: &mut BitSink,
) -> Result<(), OutOfMemory>
    requires onward { from ≤ end }
    requires inside { end ≤ 8 * length octets.now }
    ensures put { OnOk result (sink.new ≡ sink.old ++ take (end - from) (drop from (bits octets.now))) }
    ensures kept { Extends sink.old sink.new }
{
    let _count = octets.len();
    if from % 8 != 0 {
        return copy_fields(octets, from, end, sink);
    }
    let first = (from / 8) as usize;
    let last = (end / 8) as usize;
    sink.put_bytes(&octets[first..last])?;
    copy_fields(octets, end - end % 8, end, sink)
}

/// Appends the bits seven octets at a time.
fn copy_fields(octets: &[u8], from: u128, end: u128, sink: &mut BitSink) -> Result<(), OutOfMemory>
    requires onward { from ≤ end }
    requires inside { end ≤ 8 * length octets.now }
    ensures put { OnOk result (sink.new ≡ sink.old ++ take (end - from) (drop from (bits octets.now))) }
    ensures kept { Extends sink.old sink.new }
{
    let mut reader = BitReader::at(octets, from);
    while reader.place() < end {
        let width = (end - reader.place()).min(u128::from(BITS_AT_ONCE)) as u32;
        let number = reader.take_left(width);
        put_field(width, number, sink)?;
    }
    Ok(())
}

/// Appends a number. Seven whole octets go in as octets, which is faster.
fn put_field(width: u32, number: u64, sink: &mut BitSink) -> Result<(), OutOfMemory>
    requires width { width ≤ 56 }
    requires fits { number < 2 ^ width }
    ensures ok { OnOk result (sink.new ≡ sink.old ++ bin width number) }
    ensures err { OnErr result (sink.new ≡ sink.old) }
{
    if width < BITS_AT_ONCE {
        return sink.put(width, number);
    }
    sink.put_bytes(&number.to_be_bytes()[1..])
}

/// Lends the octets of these bits, if `from` is a multiple of 8 and zero bits follow `end` in its
/// octet.
pub(crate) fn lent_octets(octets: &[u8], from: u128, end: u128) -> Option<&[u8]>
    requires onward { from ≤ end }
    requires inside { end ≤ 8 * length octets.now }
    ensures { IfSome result (λ lent. bits lent.now
        ≡ filled (take (end - from) (drop from (bits octets.now)))) }
{
    let _count = octets.len();
    if from % 8 != 0 {
        return None;
    }
    let free = (8 - end % 8) % 8;
    match BitReader::at(octets, end).take(free as u32) {
        Some(0) => {
            let first = (from / 8) as usize;
            let last = ((end + free) / 8) as usize;
            Some(&octets[first..last])
        }
        _ => None,
    }
}

/// Lends the octets of these bits as `lent_octets`, or puts them in `room`.
pub(crate) fn filled_octets<'a>(
    octets: &'a [u8],
    from: u128,
    end: u128,
    room: &'a mut [u8; SUBSET_ROOM],
) -> Option<&'a [u8]>
    requires onward { from ≤ end }
    requires inside { end ≤ 8 * length octets.now }
    ensures { IfSome result (λ lent. bits lent.now
        ≡ filled (take (end - from) (drop from (bits octets.now)))) }
{
    match lent_octets(octets, from, end) {
        Some(lent) => Some(lent),
        None => {
            let count = fill_room(octets, from, end, room)?;
            Some(&room[..count])
        }
    }
}

/// Puts bits at the start of `room`, seven octets at a time, and zero bits after them. Returns the
/// number of octets; `None` for more than 512 bits.
pub(crate) fn fill_room(
    octets: &[u8],
    from: u128,
    end: u128,
    room: &mut [u8; SUBSET_ROOM],
) -> Option<usize>
    requires onward { from ≤ end }
    requires inside { end ≤ 8 * length octets.now }
    ensures filled { IfSome result (λ count. bits (take count room.new)
        ≡ filled (take (end - from) (drop from (bits octets.now)))) }
    ensures within { IfSome result (λ count. count ≤ SUBSET_ROOM) }
{
    let bits = end - from;
    if bits > MOST_FILLED_BITS {
        return None;
    }
    let mut reader = BitReader::at(octets, from);
    let mut left = bits as u32;
    let mut at = 0;
    while left > 0 {
        let width = left.min(BITS_AT_ONCE);
        let word = reader.take_left(width) << (64 - width);
        room[at..at + 8].copy_from_slice(&word.to_be_bytes());
        left -= width;
        at += 7;
    }
    Some(bits.div_ceil(8) as usize)
}
