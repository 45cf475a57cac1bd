//! The streams of readers, added to an archive one after the other.

ghost use Rattle.std.specs.Prelude.{◌≡◌, ◌≤◌, ◌<◌, ◌*◌, ◌^◌, [], length, map};
ghost use Rattle.bufr_io.specs.declared.fault.ToolFault.TheVariants.{OutOfMemory as RanOut};
ghost use Rattle.bufr_io.specs.Limits.{most_reads, longest_piece};
ghost use Rattle.bufr_io.specs.Readers.{AreFresh, AreReadAtMost};
ghost use Rattle.bufr_io.specs.Taking.{frame_at};
ghost use Rattle.bufr_engines.specs.Adds.{AddsStreams, HasAdded, HasAddedSince};

use bufr_bits::Source;
use bufr_gather::{AddFault, ArchiveBuilder};
use bufr_io::{Input, TakesFrames, ToolFault, take_stream};
use std::alloc::Global;

/// A count of frames.
#[derive(Clone, Copy, Drop, PartialEq, Eq)]
pub(crate) struct FrameCounts {
    /// All frames.
    pub(crate) frames: u128,
    /// The refused frames.
    pub(crate) refused: u128,
}

/// The builder of an archive takes in the messages of frames, and counts the frames.
impl<'t> TakesFrames<FrameCounts> for ArchiveBuilder<'t> {
    ghost count = { λ builder counts. counts.frames };

    ghost HasTaken = { HasAddedSince };

    ghost HoldsNone = { λ builder counts. Unit {0} };

    ghost HasStopped = { λ first begin builder counts frames fault. fault ≡ RanOut };

    fn take_frame(
        &mut self,
        alloc: Global,
        place: u64,
        octets: &[u8],
        out: &mut FrameCounts,
    ) -> Result<(), ToolFault> {
        let refused = match self.add_message(octets) {
            Ok(()) => 0,
            Err(AddFault::Refused(_)) => 1,
            Err(AddFault::OutOfMemory { done: _ }) => return Err(ToolFault::OutOfMemory),
        };
        out.frames += 1;
        out.refused += refused;
        Ok(())
    }

    fn end_piece(&mut self, out: &mut FrameCounts) -> Result<(), ToolFault> {
        Ok(())
    }

    fn halt(&mut self, out: &mut FrameCounts) -> ToolFault {
        ToolFault::OutOfMemory
    }

    ghost counts_each = { λ first self begin out frames h. h.counted };
}

/// Adds the messages of all streams to a new builder.
pub(crate) fn add_streams<S: Source>(
    alloc: Global,
    reads: u64,
    readers: &mut [S],
    buffer: &mut [u8],
    builder: &mut ArchiveBuilder<'_>,
    counts: &mut FrameCounts,
) -> Result<(), ToolFault>
    requires few { reads ≤ most_reads }
    requires fresh { AreFresh (map S.reading readers.old) }
    requires some { 0 < length buffer.old }
    requires short { length buffer.old ≤ longest_piece }
    requires empty { HasAdded builder.old.tables builder.old counts.old [] }
    ensures bounded { AreReadAtMost reads (map S.reading readers.new) }
    ensures adds { AddsStreams builder.old.tables reads (map S.reading readers.old)
        (map S.reading readers.new) builder.new counts.new result }
{
    for (index, reader) in readers.iter_mut().enumerate() {
        let name = Input::Number(index as u128 + 1);
        take_stream(alloc, reads, name, reader, &mut *buffer, builder, counts)?;
    }
    Ok(())
}
