//! The frames of an input.

ghost use Rattle.std.specs.Prelude.{◌≡◌, ◌≤◌, ◌<◌, false, [], length};
ghost use Rattle.bufr_io.specs.Engines.{IsFresh};
ghost use Rattle.bufr_io.specs.Limits.{longest_piece, most_reads};
ghost use Rattle.bufr_ls_engine.specs.Listers.{HasListed, ListsInput, StopsListing};

use crate::lister::Lister;
use bufr_bits::{Sink, Source};
use bufr_io::{Input, TakesFrames, ToolFault, take_stream};
use std::alloc::Global;

/// Holds the row of each frame, and writes the rows of a piece after it, also if memory runs out.
impl<'c, W: Sink> TakesFrames<W> for Lister<'c> {
    ghost count = { λ lister writer. lister.frames };

    ghost HasTaken = { λ first begin lister writer frames.
        HasListed first (W.writing begin) lister (W.writing writer) frames };

    ghost HoldsNone = { λ lister writer. lister.rows.held.items ≡ [] };

    ghost HasStopped = { λ first begin lister writer frames fault.
        StopsListing first.columns.now first.input first.rows.written frames (W.writing begin)
        (W.writing writer) fault };

    #[inline(always)]
    fn take_frame(
        &mut self,
        alloc: Global,
        place: u64,
        octets: &[u8],
        out: &mut W,
    ) -> Result<(), ToolFault> {
        match self.hold_frame(alloc, place, octets) {
            Ok(()) => Ok(()),
            Err(_) => Err(self.stop(out)),
        }
    }

    fn end_piece(&mut self, out: &mut W) -> Result<(), ToolFault> {
        self.rows.write(out)
    }

    fn halt(&mut self, out: &mut W) -> ToolFault {
        self.stop(out)
    }

    ghost counts_each = { λ first self begin out frames h. h.counts };
}

/// Lists the frames of an input, each as soon as it is sure.
pub(crate) fn list_input<S: Source, W: Sink>(
    alloc: Global,
    reads: u64,
    reader: &mut S,
    buffer: &mut [u8],
    lister: &mut Lister<'_>,
    writer: &mut W,
) -> Result<(), ToolFault>
    requires few { reads ≤ most_reads }
    requires fresh { IsFresh (S.reading reader.old) }
    requires some { 0 < length buffer.old }
    requires short { length buffer.old ≤ longest_piece }
    requires works { (W.writing writer.old).failed ≡ false }
    requires frames { lister.old.frames ≡ 0 }
    requires refused { lister.old.refused ≡ 0 }
    requires none { lister.old.rows.held.items ≡ [] }
    ensures bounded { (S.reading reader.new).reads ≤ reads }
    ensures lists { ListsInput reads lister.old lister.new (S.reading reader.old)
        (S.reading reader.new) (W.writing writer.old) (W.writing writer.new) result }
{
    let name = Input::Number(lister.input);
    take_stream(alloc, reads, name, reader, buffer, lister, writer)?;
    lister.rows.write(writer)
}
