//! The engine of `bufr-select`.

ghost use Rattle.std.specs.Prelude.{◌≡◌, ◌≤◌, ◌<◌, ◌^◌, false, [], length, map, IfErr};
ghost use Rattle.bufr_io.specs.Limits.{longest_piece, most_reads};
ghost use Rattle.bufr_io.specs.Readers.{AreFresh, AreReadAtMost};
ghost use Rattle.bufr_select_engine.specs.Selects.{Selects, WritesFront};
ghost use Rattle.bufr_select_engine.specs.Selectors.{IsReady, SelectsInputs, selection_of};

use crate::frame_selector::FrameSelector;
use crate::frames::select_input;
use crate::outputs::Outputs;
use bufr_bits::{Sink, Source};
use bufr_io::{Tally, ToolFault, read_buffer};
use bufr_select_rows::{Column, VersionTables};
use bufr_tables::Fxy;
use std::alloc::Global;

/// Writes a header line and the rows of each message of the inputs, one input after the other; for a
/// refused frame a line of the other writer. The rows of a frame go out before the next read. The tally
/// counts the frames and the refused ones.
pub fn run_select<S: Source, W: Sink, E: Sink>(
    alloc: Global,
    reads: u64,
    pairs: Vec<VersionTables<'_>>,
    columns: &[Column],
    each: Option<Fxy>,
    inputs: &mut [S],
    out: &mut Outputs<W, E>,
) -> Result<Tally, ToolFault>
    requires few { reads ≤ most_reads }
    requires fresh { AreFresh (map S.reading inputs.old) }
    requires rows_work { (W.writing out.old.rows).failed ≡ false }
    requires refusals_work { (E.writing out.old.refusals).failed ≡ false }
    ensures bounded { AreReadAtMost reads (map S.reading inputs.new) }
    ensures selects { Selects
        (record { pairs = pairs.entry.items; columns = columns.now; each = each }) reads
        (map S.reading inputs.old) (map S.reading inputs.new) (record {
          rows = W.writing out.old.rows;
          refusals = E.writing out.old.refusals;
        }) (record {
          rows = W.writing out.new.rows;
          refusals = E.writing out.new.refusals;
        }) result }
    ensures front { IfErr result (WritesFront
        (record { pairs = pairs.entry.items; columns = columns.now; each = each })
        (map S.reading inputs.old) (W.writing out.old.rows) (W.writing out.new.rows)) }
{
    let mut buffer = read_buffer(alloc)?;
    let mut selector = FrameSelector::new(alloc, pairs, columns, each)?;
    let tally = select_inputs(alloc, reads, inputs, &mut buffer, &mut selector, out)?;
    selector.hand_on(&mut out.rows)?;
    Ok(tally)
}

/// Writes a header line and the rows of all inputs.
fn select_inputs<S: Source, W: Sink, E: Sink>(
    alloc: Global,
    reads: u64,
    inputs: &mut [S],
    buffer: &mut [u8],
    selector: &mut FrameSelector<'_, '_>,
    out: &mut Outputs<W, E>,
) -> Result<Tally, ToolFault>
    requires few { reads ≤ most_reads }
    requires fresh { AreFresh (map S.reading inputs.old) }
    requires some { 0 < length buffer.old }
    requires short { length buffer.old ≤ longest_piece }
    requires rows_work { (W.writing out.old.rows).failed ≡ false }
    requires refusals_work { (E.writing out.old.refusals).failed ≡ false }
    requires none { selector.old.rows.held.items ≡ [] }
    requires unwritten { selector.old.rows.written ≡ 0 }
    requires heard { selector.old.unheard ≡ false }
    requires ready { IsReady selector.old }
    ensures bounded { AreReadAtMost reads (map S.reading inputs.new) }
    ensures selects { SelectsInputs (selection_of selector.old) reads (map S.reading inputs.old)
        (map S.reading inputs.new) (record {
          rows = W.writing out.old.rows;
          refusals = E.writing out.old.refusals;
        }) (record {
          rows = W.writing out.new.rows;
          refusals = E.writing out.new.refusals;
        }) selector.new result }
{
    selector.write_header(alloc, &mut out.rows)?;
    let mut tally = Tally {
        frames: 0,
        refused: 0,
        skipped: 0,
        reports: 0,
    };
    for (index, reader) in inputs.iter_mut().enumerate() {
        selector.begin(index as u128 + 1);
        select_input(alloc, reads, reader, &mut *buffer, selector, out)?;
        tally.frames += selector.frames;
        tally.refused += selector.refused;
    }
    Ok(tally)
}
