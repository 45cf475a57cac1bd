ghost use Rattle.std.specs.Prelude.{◌≡◌, ◌≤◌, false};
ghost use Rattle.bufr_io.specs.Engines.{IsFresh};
ghost use Rattle.bufr_io.specs.Limits.{most_reads};
ghost use Rattle.bufr_engines.specs.StreamEngines.{Prints};
ghost use Rattle.bufr_engines.specs.declared.frame_lines.OutputForm.TheVariants.{Checked};

use crate::frame_lines::OutputForm;
use crate::frames::print_stream;
use bufr_bits::{Sink, Source};
use bufr_io::{Tally, ToolFault};
use bufr_tables::Tables;
use std::alloc::Global;

/// Writes a line for each frame of a stream: its place, its length and whether it spells a message.
/// A last line counts the frames, the refused ones, and the octets outside frames. Before the next
/// read it writes the lines of all frames that are sure. If memory runs out, it still writes the
/// lines that it has. If the writer then fails, that is the fault.
pub fn run_check<S: Source, W: Sink>(
    alloc: Global,
    reads: u64,
    tables: &Tables,
    reader: &mut S,
    writer: &mut W,
) -> Result<Tally, ToolFault>
    requires few { reads ≤ most_reads }
    requires fresh { IsFresh (S.reading reader.old) }
    requires works { (W.writing writer.old).failed ≡ false }
    ensures bounded { (S.reading reader.new).reads ≤ reads }
    ensures checks { Prints Checked tables.now reads (S.reading reader.old) (S.reading reader.new)
        (W.writing writer.old) (W.writing writer.new) result }
{
    print_stream(alloc, OutputForm::Checked, reads, tables, reader, writer)
}
