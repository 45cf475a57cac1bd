ghost use Rattle.std.specs.Prelude.{◌≡◌, ◌≤◌, false, map};
ghost use Rattle.bufr_engines.specs.Collects.{Collects};
ghost use Rattle.bufr_io.specs.Readers.{AreFresh, AreReadAtMost};
ghost use Rattle.bufr_io.specs.Limits.{most_reads};

use crate::parts::{PendingOctets, hand_on};
use crate::streams::{FrameCounts, add_streams};
use bufr_bits::{Sink, Source};
use bufr_gather::ArchiveBuilder;
use bufr_io::{Tally, ToolFault, read_buffer, write_out};
use bufr_tables::Tables;
use std::alloc::Global;

/// Adds the messages of all streams to an archive, each stream by itself, and writes the text of the
/// archive once it has read all. A refused message adds nothing.
pub fn run_add<S: Source, W: Sink>(
    alloc: Global,
    reads: u64,
    tables: &Tables,
    readers: &mut [S],
    writer: &mut W,
) -> Result<Tally, ToolFault>
    requires few { reads ≤ most_reads }
    requires fresh { AreFresh (map S.reading readers.old) }
    requires works { (W.writing writer.old).failed ≡ false }
    ensures bounded { AreReadAtMost reads (map S.reading readers.new) }
    ensures adds { Collects tables.now reads (map S.reading readers.old)
        (map S.reading readers.new) (W.writing writer.old) (W.writing writer.new) result }
{
    let mut buffer = read_buffer(alloc)?;
    let mut builder = ArchiveBuilder::new(alloc, tables);
    let mut counts = FrameCounts {
        frames: 0,
        refused: 0,
    };
    add_streams(
        alloc,
        reads,
        readers,
        &mut buffer,
        &mut builder,
        &mut counts,
    )?;
    let kept = builder.into_octets()?;
    let reports = kept.len() as u128;
    buffer.clear();
    let mut pending = PendingOctets {
        octets: buffer,
        written: 0,
    };
    let mut left = kept.lent();
    while let Some(octets) = left.next() {
        hand_on(writer, &mut pending, octets)?;
    }
    write_out(writer, pending.written, &pending.octets)?;
    Ok(Tally {
        frames: counts.frames,
        refused: counts.refused,
        skipped: 0,
        reports,
    })
}
