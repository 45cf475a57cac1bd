//! The octets of entries, written part by part.

ghost use Rattle.std.specs.Prelude.{◌≡◌, ◌+◌, ◌≤◌, ◌<◌, ◌^◌, ◌++◌, false, [], vec_len, length};
ghost use Rattle.std.specs.Vec.{vec_capacity};
ghost use Rattle.bufr_io.specs.Engines.{WritesAfter};
ghost use Rattle.bufr_engines.specs.Parts.{HandsOn, joined};

use bufr_bits::Sink;
use bufr_gather::MergedOctets;
use bufr_io::{ToolFault, write_after, write_out};

/// A part of the output: octets to write, and the number of octets before them.
#[derive(Drop)]
pub(crate) struct PendingOctets {
    pub(crate) octets: Vec<u8>,
    pub(crate) written: u128,
}

/// Adds octets to a part. If the part has no room for them, writes the part first; if it never has
/// room for them, writes them too.
pub(crate) fn hand_on<W: Sink>(
    writer: &mut W,
    pending: &mut PendingOctets,
    octets: &[u8],
) -> Result<(), ToolFault>
    requires works { (W.writing writer.old).failed ≡ false }
    requires fits { pending.old.written + length pending.old.octets.items + 2 ^ 64 ≤ 2 ^ 128 }
    ensures short { length octets.now < 2 ^ 64 }
    ensures hands { HandsOn (W.writing writer.old) (W.writing writer.new) pending.old.written
        pending.old.octets.items pending.new octets.now result }
{
    let room = pending.octets.capacity() as u128;
    let length = octets.len() as u128;
    if pending.octets.len() as u128 + length <= room {
        let _there_is_room = pending.octets.extend_from_slice(octets);
        return Ok(());
    }
    write_after(writer, pending.written, &pending.octets)?;
    pending.written += pending.octets.len() as u128;
    pending.octets.clear();
    if length <= room {
        let _there_is_room = pending.octets.extend_from_slice(octets);
        return Ok(());
    }
    write_after(writer, pending.written, octets)?;
    pending.written += length;
    Ok(())
}

/// Writes the entries of two texts merged, by way of an empty part, and flushes the writer.
pub(crate) fn write_merged<W: Sink>(
    left: &mut MergedOctets<'_>,
    pending: &mut PendingOctets,
    writer: &mut W,
) -> Result<(), ToolFault>
    requires works { (W.writing writer.old).failed ≡ false }
    requires begins { pending.old.written ≡ 0 }
    requires empty { pending.old.octets.items ≡ [] }
    requires few { length left.old < 2 ^ 64 }
    ensures { WritesAfter 0 (joined left.old) (W.writing writer.old) (W.writing writer.new) result }
{
    while let Some(octets) = left.next() {
        hand_on(writer, pending, octets)?;
    }
    write_out(writer, pending.written, &pending.octets)
}
