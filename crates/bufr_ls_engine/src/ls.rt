//! The engine of `bufr-ls`.

ghost use Rattle.std.specs.Prelude.{◌≡◌, ◌≤◌, ◌<◌, false, [], length, map, IfErr};
ghost use Rattle.bufr_io.specs.Limits.{longest_piece, most_reads};
ghost use Rattle.bufr_ls_engine.specs.Lists.{Lists, WritesFront};
ghost use Rattle.bufr_ls_engine.specs.Listers.{ListsInputs};
ghost use Rattle.bufr_io.specs.Readers.{AreFresh, AreReadAtMost};

use crate::column::Column;
use crate::frames::list_input;
use crate::lister::Lister;
use bufr_bits::{Sink, Source};
use bufr_io::{Tally, ToolFault, read_buffer};
use std::alloc::Global;

/// Writes a header line, and then a row for each frame of the inputs, one input after the other. The row
/// of a frame goes out before the next read. The tally counts the frames and the refused ones.
pub fn run_ls<S: Source, W: Sink>(
    alloc: Global,
    reads: u64,
    columns: &[Column],
    inputs: &mut [S],
    writer: &mut W,
) -> Result<Tally, ToolFault>
    requires few { reads ≤ most_reads }
    requires fresh { AreFresh (map S.reading inputs.old) }
    requires works { (W.writing writer.old).failed ≡ false }
    ensures bounded { AreReadAtMost reads (map S.reading inputs.new) }
    ensures lists { Lists columns.now reads (map S.reading inputs.old) (map S.reading inputs.new)
        (W.writing writer.old) (W.writing writer.new) result }
    ensures front { IfErr result (WritesFront columns.now (map S.reading inputs.old)
        (W.writing writer.old) (W.writing writer.new)) }
{
    let mut buffer = read_buffer(alloc)?;
    let mut lister = Lister::new(alloc, columns);
    let tally = list_inputs(alloc, reads, inputs, &mut buffer, &mut lister, writer)?;
    lister.hand_on(writer)?;
    Ok(tally)
}

/// Writes a header line and the rows of all inputs.
fn list_inputs<S: Source, W: Sink>(
    alloc: Global,
    reads: u64,
    inputs: &mut [S],
    buffer: &mut [u8],
    lister: &mut Lister<'_>,
    writer: &mut W,
) -> Result<Tally, ToolFault>
    requires few { reads ≤ most_reads }
    requires fresh { AreFresh (map S.reading inputs.old) }
    requires some { 0 < length buffer.old }
    requires short { length buffer.old ≤ longest_piece }
    requires works { (W.writing writer.old).failed ≡ false }
    requires none { lister.old.rows.held.items ≡ [] }
    requires unwritten { lister.old.rows.written ≡ 0 }
    ensures bounded { AreReadAtMost reads (map S.reading inputs.new) }
    ensures lists { ListsInputs lister.old.columns.now reads (map S.reading inputs.old)
        (map S.reading inputs.new) (W.writing writer.old) (W.writing writer.new) lister.new result }
{
    lister.write_header(writer)?;
    let mut tally = Tally {
        frames: 0,
        refused: 0,
        skipped: 0,
        reports: 0,
    };
    for (index, reader) in inputs.iter_mut().enumerate() {
        lister.begin(index as u128 + 1);
        list_input(alloc, reads, reader, &mut *buffer, lister, writer)?;
        tally.frames += lister.frames;
        tally.refused += lister.refused;
    }
    Ok(tally)
}
