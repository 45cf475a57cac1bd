//! The frames of a stream, printed as they come.

ghost use Rattle.std.specs.Prelude.{◌≡◌, ◌≤◌, ◌<◌, ◌^◌, ℕ, List, false, []};
ghost use Rattle.bufr_bits.specs.Devices.{Writing};
ghost use Rattle.bufr_tables.specs.Entries.{Entries};
ghost use Rattle.bufr_io.specs.Engines.{IsFresh};
ghost use Rattle.bufr_io.specs.Limits.{most_reads};
ghost use Rattle.bufr_engines.specs.Output.{frames_text, skipped_by};
ghost use Rattle.bufr_engines.specs.declared.frame_lines.OutputForm.{OutputForm as PrintingKind};
ghost use Rattle.bufr_engines.specs.StreamEngines.{HasEnded, HasPrintedSince, Prints, PrintsEnd, Stops};

use crate::frame_lines::{OutputForm, hold_tally};
use crate::printer::Printer;
use bufr_bits::{Sink, Source};
use bufr_io::{Input, TakesFrames, Tally, ToolFault, read_buffer, take_stream, write_out};
use bufr_tables::Tables;
use std::alloc::Global;

/// A printer prints each frame. It writes the lines of a piece together, after the piece, or when
/// memory runs out; if the writer fails then, that is the fault.
impl<'t, W: Sink> TakesFrames<W> for Printer<'t> {
    ghost count = { λ printer writer. printer.frames };

    ghost HasTaken = { λ first begin printer writer frames.
        HasPrintedSince first (W.writing begin) printer (W.writing writer) frames };

    ghost HoldsNone = { λ printer writer. printer.held.items ≡ [] };

    ghost HasStopped = { λ first begin printer writer frames fault.
        Stops (frames_text first.printing first.message_reader frames) (W.writing begin)
        (W.writing writer) fault };

    fn take_frame(
        &mut self,
        alloc: Global,
        place: u64,
        octets: &[u8],
        out: &mut W,
    ) -> Result<(), ToolFault> {
        match self.print_frame(alloc, place, octets, out) {
            Ok(()) => Ok(()),
            Err(fault) => Err(self.stop(fault, out)),
        }
    }

    fn end_piece(&mut self, out: &mut W) -> Result<(), ToolFault> {
        self.write_held(out)
    }

    fn halt(&mut self, out: &mut W) -> ToolFault {
        self.stop(ToolFault::OutOfMemory, out)
    }

    ghost counts_each = { λ first self begin out frames h. h.counted };
}

/// Prints the last line after the frames of a stream of `fed` octets, and writes all lines.
fn print_tally<W: Sink>(
    fed: u64,
    printer: &mut Printer<'_>,
    writer: &mut W,
) -> Result<Tally, ToolFault>
    requires long { fed < 2 ^ 48 }
    requires ended { (printing : PrintingKind) × (tables : Entries) × (first : Writing)
        × (stream : List ℕ)
        × HasEnded printing tables first (W.writing writer.old) printer.old fed stream }
    ensures { (printing : PrintingKind) (tables : Entries) (first : Writing) (stream : List ℕ)
        → HasEnded printing tables first (W.writing writer.old) printer.old fed stream
        → PrintsEnd printing tables stream first (W.writing writer.new) result }
{
    let skipped = match printer.printing {
        OutputForm::Shown => 0,
        OutputForm::Checked => fed - printer.octets,
    };
    let tally = Tally {
        frames: printer.frames,
        refused: printer.refused,
        skipped: skipped as u128,
        reports: 0,
    };
    let Ok(()) = hold_tally(&mut printer.held, printer.printing, &tally) else {
        return Err(printer.stop(ToolFault::OutOfMemory, writer));
    };
    write_out(writer, printer.written, &printer.held)?;
    Ok(tally)
}

/// Prints the frames of a stream, each as soon as it is sure, and the last line.
pub(crate) fn print_stream<S: Source, W: Sink>(
    alloc: Global,
    printing: OutputForm,
    reads: u64,
    tables: &Tables,
    reader: &mut S,
    writer: &mut W,
) -> Result<Tally, ToolFault>
    requires few { reads ≤ most_reads }
    requires fresh { IsFresh (S.reading reader.old) }
    requires works { (W.writing writer.old).failed ≡ false }
    ensures bounded { (S.reading reader.new).reads ≤ reads }
    ensures prints { Prints printing tables.now reads (S.reading reader.old) (S.reading reader.new)
        (W.writing writer.old) (W.writing writer.new) result }
{
    let mut buffer = read_buffer(alloc)?;
    let mut printer = Printer::new(alloc, printing, tables);
    let name = Input::Number(1);
    let fed = take_stream(
        alloc,
        reads,
        name,
        reader,
        &mut buffer,
        &mut printer,
        writer,
    )?;
    print_tally(fed, &mut printer, writer)
}
