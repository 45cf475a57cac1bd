//! The frames of an input.

ghost use Rattle.std.specs.Prelude.{◌≡◌, ◌≤◌, ◌<◌, [], length};
ghost use Rattle.bufr_io.specs.Engines.{IsFresh};
ghost use Rattle.bufr_io.specs.Limits.{longest_piece, most_reads};
ghost use Rattle.bufr_select_engine.specs.Selectors.{AreHeard, HasSelected, IsReady, SelectsInput};
ghost use Rattle.bufr_select_engine.specs.Selectors.{StopsSelecting};

use crate::frame_selector::FrameSelector;
use crate::outputs::Outputs;
use bufr_bits::{Sink, Source};
use bufr_io::{Input, TakesFrames, ToolFault, take_stream};
use std::alloc::Global;

/// Writes the rows of a piece of the input after it, also if memory runs out.
impl<'t, 'c, W: Sink, E: Sink> TakesFrames<Outputs<W, E>> for FrameSelector<'t, 'c> {
    ghost count = { λ selector out. selector.frames };

    ghost HasTaken = { λ first begin selector out frames. HasSelected first
        (record { rows = W.writing begin.rows; refusals = E.writing begin.refusals }) selector
        (record { rows = W.writing out.rows; refusals = E.writing out.refusals }) frames };

    ghost HoldsNone = { λ selector out. selector.rows.held.items ≡ [] };

    ghost HasStopped = { λ first begin selector out frames fault. StopsSelecting first
        (record { rows = W.writing begin.rows; refusals = E.writing begin.refusals }) selector
        (record { rows = W.writing out.rows; refusals = E.writing out.refusals }) frames fault };

    fn take_frame(
        &mut self,
        alloc: Global,
        place: u64,
        octets: &[u8],
        out: &mut Outputs<W, E>,
    ) -> Result<(), ToolFault> {
        match self.take(alloc, place, octets, out) {
            Ok(()) => Ok(()),
            Err(fault) => Err(self.stop(fault, &mut out.rows)),
        }
    }

    fn end_piece(&mut self, out: &mut Outputs<W, E>) -> Result<(), ToolFault> {
        self.rows.write(&mut out.rows)
    }

    fn halt(&mut self, out: &mut Outputs<W, E>) -> ToolFault {
        self.stop(ToolFault::OutOfMemory, &mut out.rows)
    }

    ghost counts_each = { λ first self begin out frames h. h.counts };
}

/// Selects the rows of the frames of an input, each as soon as it is sure.
pub(crate) fn select_input<S: Source, W: Sink, E: Sink>(
    alloc: Global,
    reads: u64,
    reader: &mut S,
    buffer: &mut [u8],
    selector: &mut FrameSelector<'_, '_>,
    out: &mut Outputs<W, E>,
) -> Result<(), ToolFault>
    requires few { reads ≤ most_reads }
    requires fresh { IsFresh (S.reading reader.old) }
    requires some { 0 < length buffer.old }
    requires short { length buffer.old ≤ longest_piece }
    requires frames { selector.old.frames ≡ 0 }
    requires refused { selector.old.refused ≡ 0 }
    requires none { selector.old.rows.held.items ≡ [] }
    requires ready { IsReady selector.old }
    requires heard { AreHeard selector.old (record {
      rows = W.writing out.old.rows;
      refusals = E.writing out.old.refusals;
    }) }
    ensures bounded { (S.reading reader.new).reads ≤ reads }
    ensures selects { SelectsInput reads selector.old selector.new (S.reading reader.old)
        (S.reading reader.new) (record {
          rows = W.writing out.old.rows;
          refusals = E.writing out.old.refusals;
        }) (record {
          rows = W.writing out.new.rows;
          refusals = E.writing out.new.refusals;
        }) result }
{
    let name = Input::Number(selector.input);
    take_stream(alloc, reads, name, reader, buffer, selector, out)?;
    selector.rows.write(&mut out.rows)
}
