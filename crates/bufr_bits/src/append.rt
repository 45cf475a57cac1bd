//! Appends bits to octets; the bits after the `len` in use are zero.

ghost use Rattle.std.specs.Prelude.{◌≡◌, ◌+◌, ◌*◌, ◌^◌, ◌<◌, ◌≤◌, ◌%◌, ◌++◌, length, take};
ghost use Rattle.std.specs.Prelude.{slice_index, OnOk, OnErr};
ghost use Rattle.bufr_bits.specs.Bits.{bin, bits};
ghost use Rattle.bufr_bits.specs.Filled.{IsFilled, moved_up};

use bufr_base::OutOfMemory;

/// Puts a field of `width` bits after `len` bits.
pub(crate) fn append(
    octets: &mut Vec<u8>,
    len: u128,
    width: u32,
    number: u64,
) -> Result<(), OutOfMemory>
    requires width { width ≤ 64 }
    requires fits { number < 2 ^ width }
    requires filled { IsFilled len octets.old.items }
    ensures ok { OnOk result (take (len + width) (bits octets.new.items)
        ≡ take len (bits octets.old.items) ++ bin width number) }
    ensures filled { OnOk result (IsFilled (len + width) octets.new.items) }
    ensures err { OnErr result (octets.new.items ≡ octets.old.items) }
{
    let count = octets.len();
    let free = (8 * count as u128 - len) as u32;
    let grown = width.saturating_sub(free).div_ceil(8);
    let wide = u128::from(number) << (8 * grown + free - width);
    octets.extend_from_slice(&wide.to_be_bytes()[16 - grown as usize..])?;
    if free > 0 {
        octets[count - 1] += (wide >> (8 * grown)) as u8;
    }
    Ok(())
}

/// Drops all after `len` bits and clears the rest of the last octet.
pub(crate) fn cut_after(octets: &mut Vec<u8>, len: u128)
    requires { len ≤ 8 * length octets.old.items }
    ensures kept { take len (bits octets.new.items) ≡ take len (bits octets.old.items) }
    ensures filled { IsFilled len octets.new.items }
{
    let count = octets.len();
    let after = 8 * count as u128 - len;
    octets.truncate(count - (after / 8) as usize);
    let low = (after % 8) as u32;
    if low > 0 {
        let at = octets.len() - 1;
        let last = octets[at];
        octets[at] = last - last % (1u8 << low);
    }
}

/// Puts octets after `len` bits: copies them, and shifts the copy if needed.
pub(crate) fn append_octets(octets: &mut Vec<u8>, len: u128, more: &[u8]) -> Result<(), OutOfMemory>
    requires { IsFilled len octets.old.items }
    ensures ok { OnOk result (take (len + 8 * length more.now) (bits octets.new.items)
        ≡ take len (bits octets.old.items) ++ bits more.now) }
    ensures filled { OnOk result (IsFilled (len + 8 * length more.now) octets.new.items) }
    ensures err { OnErr result (octets.new.items ≡ octets.old.items) }
{
    let count = octets.len();
    let free = (8 * count as u128 - len) as u32;
    octets.extend_from_slice(more)?;
    if free > 0 {
        move_up(octets.as_mut_slice(), count - 1, free);
    }
    Ok(())
}

/// Shifts all octets after `from` up by `free` bits.
fn move_up(octets: &mut [u8], from: usize, free: u32)
    requires begun { from < length octets.old }
    requires some { 0 < free }
    requires few { free < 8 }
    requires clear { slice_index octets.old from % 2 ^ free ≡ 0 }
    ensures { bits octets.new ≡ moved_up (from + 1) free octets.old }
{
    for i in from..octets.len() - 1 {
        let next = octets[i + 1];
        octets[i] += next >> (8 - free);
        octets[i + 1] = next << free;
    }
}
