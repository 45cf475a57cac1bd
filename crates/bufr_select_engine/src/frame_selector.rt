//! The selector of rows from frames.

ghost use Rattle.std.specs.Prelude.{◌≡◌, ◌+◌, ◌<◌, ◌^◌, ℕ, List, false, [], IfOk, OnErr, OnOk, string_bytes};
ghost use Rattle.bufr_bits.specs.Devices.{Writing};
ghost use Rattle.bufr_io.specs.Engines.{WritesAfter};
ghost use Rattle.bufr_io.specs.Taking.{frame_at};
ghost use Rattle.bufr_select_rows.specs.Rows.{header};
ghost use Rattle.bufr_io.specs.HeldTexts.{IsStop, IsWorkingAfter, PutsOrStops, StopsPutting};
ghost use Rattle.bufr_io.specs.HeldTexts.{StopsWriting};
ghost use Rattle.bufr_select_engine.specs.Tells.{Tells};
ghost use Rattle.bufr_select_engine.specs.Selected.{message_rows, refusal_line};
ghost use Rattle.bufr_select_engine.specs.Selectors.{AreHeard, CountsFrame, IsReady, Keeps, TakesFrame};
ghost use Rattle.bufr_select_engine.specs.Selectors.{selection_of};

use crate::outputs::{Outputs, tell};
use bufr_base::{Failure, OutOfMemory};
use bufr_bits::Sink;
use bufr_io::{HeldRows, ToolFault, write_out};
use bufr_message::View;
use bufr_select_rows::{
    Column, Origin, Picker, Unread, VersionTables, push_header, put_message, view_under,
};
use bufr_tables::Fxy;
use std::alloc::Global;

/// Makes the line of a refused frame.
fn line_of(alloc: Global, input: u128, place: u64, why: &Unread) -> Result<String, OutOfMemory>
    ensures { IfOk result (λ line. string_bytes line ≡ refusal_line input place why.now) }
{
    Ok(format!(in alloc; "bufr-select: input {input} at {place}: {why}\n")?)
}

#[derive(Drop)]
pub(crate) struct FrameSelector<'t, 'c> {
    pub(crate) pairs: Vec<VersionTables<'t>>,
    pub(crate) columns: &'c [Column],
    pub(crate) picker: Picker,
    pub(crate) rows: HeldRows,
    /// Whether the writer of refusals failed.
    pub(crate) unheard: bool,
    /// The number of the input, from 1.
    pub(crate) input: u128,
    /// Its frames.
    pub(crate) frames: u128,
    /// Its refused frames.
    pub(crate) refused: u128,
}

impl<'t, 'c> FrameSelector<'t, 'c> {
    /// Makes a selector before the first input.
    pub(crate) fn new(
        alloc: Global,
        pairs: Vec<VersionTables<'t>>,
        columns: &'c [Column],
        each: Option<Fxy>,
    ) -> Result<FrameSelector<'t, 'c>, OutOfMemory>
        ensures selection { IfOk result (λ p. selection_of p
            ≡ record { pairs = pairs.entry.items; columns = columns.now; each = each }) }
        ensures ready { IfOk result IsReady }
        ensures held { IfOk result (λ p. p.rows.held.items ≡ []) }
        ensures written { IfOk result (λ p. p.rows.written ≡ 0) }
        ensures heard { IfOk result (λ p. p.unheard ≡ false) }
    {
        let picker = Picker::new(alloc, columns, each)?;
        Ok(FrameSelector {
            pairs,
            columns,
            picker,
            rows: HeldRows::new(alloc),
            unheard: false,
            input: 0,
            frames: 0,
            refused: 0,
        })
    }

    /// Begins an input.
    pub(crate) fn begin(&mut self, input: u128)
        ensures { self.new ≡ record self.old { input = input; frames = 0; refused = 0 } }
    {
        self.input = input;
        self.frames = 0;
        self.refused = 0;
    }

    /// Writes the header line.
    pub(crate) fn write_header<W: Sink>(
        &mut self,
        alloc: Global,
        writer: &mut W,
    ) -> Result<(), ToolFault>
        requires works { (W.writing writer.old).failed ≡ false }
        ensures puts { PutsOrStops (header self.old.columns.now) self.old.rows
            (W.writing writer.old) self.new.rows (W.writing writer.new) result }
        ensures works { OnOk result ((W.writing writer.new).failed ≡ false) }
        ensures held { OnOk result (self.new.rows.held.items ≡ []) }
        ensures same { self.new ≡ record self.old { rows = self.new.rows } }
    {
        let mut line = Vec::new(alloc);
        push_header(alloc, &mut line, self.columns)?;
        self.rows.put(&line, writer)?;
        self.rows.write(writer)
    }

    /// Puts the rows of a message.
    fn put_view<W: Sink>(
        &mut self,
        alloc: Global,
        place: u64,
        found: &View<'_>,
        writer: &mut W,
    ) -> Result<(), ToolFault>
        requires frames { self.old.frames + 1 < 2 ^ 128 }
        requires works { (W.writing writer.old).failed ≡ false }
        requires ready { IsReady self.old }
        ensures puts { PutsOrStops (message_rows (selection_of self.old) self.old.input
            (self.old.frames + 1) place found.now.message) self.old.rows (W.writing writer.old)
            self.new.rows (W.writing writer.new) result }
        ensures works { OnOk result ((W.writing writer.new).failed ≡ false) }
        ensures ready { OnOk result (IsReady self.new) }
        ensures keeps { Keeps self.old self.new }
        ensures frames { self.new.frames ≡ self.old.frames }
        ensures refused { self.new.refused ≡ self.old.refused }
        ensures unheard { self.new.unheard ≡ self.old.unheard }
    {
        let said = found.sections();
        let from = Origin {
            input: self.input,
            message: self.frames + 1,
            place,
            subset: 0,
            head: said.head,
            observed: said.observed,
            compressed: said.compressed,
        };
        put_message(
            alloc,
            &from,
            found,
            &mut self.picker,
            &mut self.rows,
            writer,
        )
    }

    /// Says why a frame has no rows. After a failed write it says no more.
    fn refuse<E: Sink>(
        &mut self,
        alloc: Global,
        place: u64,
        why: &Unread,
        writer: &mut E,
    ) -> Result<(), OutOfMemory>
        requires heard { (E.writing writer.old).failed ≡ self.old.unheard }
        ensures tells { OnOk result (Tells (refusal_line self.old.input place why.now)
            self.old.unheard (E.writing writer.old) self.new.unheard (E.writing writer.new)) }
        ensures heard { (E.writing writer.new).failed ≡ self.new.unheard }
        ensures err { OnErr result (E.writing writer.new ≡ E.writing writer.old) }
        ensures kept { OnErr result (self.new.unheard ≡ self.old.unheard) }
        ensures same { self.new ≡ record self.old { unheard = self.new.unheard } }
    {
        let line = line_of(alloc, self.input, place, why)?;
        self.unheard = tell(self.unheard, line.as_bytes(), writer);
        Ok(())
    }

    /// Puts the rows of a frame's message, or says why there is none. Returns whether it is refused.
    fn put_frame<W: Sink, E: Sink>(
        &mut self,
        alloc: Global,
        place: u64,
        octets: &[u8],
        out: &mut Outputs<W, E>,
    ) -> Result<bool, ToolFault>
        requires frames { self.old.frames + 1 < 2 ^ 128 }
        requires ready { IsReady self.old }
        requires heard { AreHeard self.old (record {
          rows = W.writing out.old.rows;
          refusals = E.writing out.old.refusals;
        }) }
        ensures takes { TakesFrame self.old (frame_at place octets.now) (record {
          rows = W.writing out.old.rows;
          refusals = E.writing out.old.refusals;
        }) self.new (record {
          rows = W.writing out.new.rows;
          refusals = E.writing out.new.refusals;
        }) result }
        ensures keeps { Keeps self.old self.new }
        ensures frames { self.new.frames ≡ self.old.frames }
        ensures refused { self.new.refused ≡ self.old.refused }
    {
        match view_under(alloc, &mut self.pairs, octets) {
            Ok(found) => {
                self.put_view(alloc, place, &found, &mut out.rows)?;
                Ok(false)
            }
            Err(Failure::Fault(why)) => {
                self.refuse(alloc, place, &why, &mut out.refusals)?;
                Ok(true)
            }
            Err(Failure::OutOfMemory) => Err(ToolFault::OutOfMemory),
        }
    }

    /// Takes a frame and counts it.
    pub(crate) fn take<W: Sink, E: Sink>(
        &mut self,
        alloc: Global,
        place: u64,
        octets: &[u8],
        out: &mut Outputs<W, E>,
    ) -> Result<(), ToolFault>
        requires frames { self.old.frames + 1 < 2 ^ 128 }
        requires refused { self.old.refused + 1 < 2 ^ 128 }
        requires ready { IsReady self.old }
        requires heard { AreHeard self.old (record {
          rows = W.writing out.old.rows;
          refusals = E.writing out.old.refusals;
        }) }
        ensures takes { CountsFrame self.old (frame_at place octets.now) (record {
          rows = W.writing out.old.rows;
          refusals = E.writing out.old.refusals;
        }) self.new (record {
          rows = W.writing out.new.rows;
          refusals = E.writing out.new.refusals;
        }) result }
        ensures keeps { Keeps self.old self.new }
    {
        let refused = self.put_frame(alloc, place, octets, out)?;
        self.frames += 1;
        self.refused += u128::from(refused);
        Ok(())
    }

    /// Writes the rows when memory ran out, and returns the fault, which may be the writer's.
    pub(crate) fn stop<W: Sink>(&mut self, fault: ToolFault, writer: &mut W) -> ToolFault
        requires works { IsWorkingAfter fault (W.writing writer.old) }
        ensures stops { (start : Writing) (text : List ℕ)
            → StopsPutting start text self.old.rows (W.writing writer.old) fault
            → StopsWriting start text (W.writing writer.new) result }
        ensures is_stop { IsStop result }
        ensures unheard { self.new.unheard ≡ self.old.unheard }
    {
        match fault {
            ToolFault::OutOfMemory => match self.rows.write(writer) {
                Ok(()) => fault,
                Err(failed) => failed,
            },
            _ => fault,
        }
    }

    /// Flushes the writer.
    pub(crate) fn hand_on<W: Sink>(&self, writer: &mut W) -> Result<(), ToolFault>
        requires works { (W.writing writer.old).failed ≡ false }
        ensures { WritesAfter self.now.rows.written [] (W.writing writer.old)
            (W.writing writer.new) result }
    {
        write_out(writer, self.rows.written, b"")
    }
}
