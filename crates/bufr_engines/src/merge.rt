ghost use Rattle.std.specs.Prelude.{◌≡◌, ◌≤◌, false, map, IfOk};
ghost use Rattle.bufr_base.specs.Answers.{result_map};
ghost use Rattle.bufr_io.specs.Engines.{IsFresh};
ghost use Rattle.bufr_io.specs.Limits.{most_reads};
ghost use Rattle.bufr_gather.specs.Archives.{merged};
ghost use Rattle.bufr_engines.specs.Adds.{ReadsArchive, MergesReaders};
ghost use Rattle.bufr_engines.specs.Collects.{Merges};
ghost use Rattle.bufr_engines.specs.Parts.{WritesArchive};
ghost use Rattle.bufr_io.specs.Readers.{AreFresh, AreReadAtMost};
ghost use Rattle.bufr_engines.specs.Stacks.{together, AreUnderTables};

use crate::parts::{PendingOctets, write_merged};
use crate::text_stack::{merge_upper, settle};
use bufr_base::Failure;
use bufr_bits::{Sink, Source};
use bufr_gather::{ArchiveText, NotAnArchive};
use bufr_io::{Input, Tally, ToolFault, read_all, read_buffer};
use bufr_tables::Tables;
use std::alloc::Global;

fn read_archive<'t, S: Source>(
    alloc: Global,
    reads: u64,
    tables: &'t Tables,
    number: u128,
    reader: &mut S,
) -> Result<ArchiveText<'t>, ToolFault>
    requires few { reads ≤ most_reads }
    requires fresh { IsFresh (S.reading reader.old) }
    ensures bounded { (S.reading reader.new).reads ≤ reads }
    ensures reads { ReadsArchive tables.now number reads (S.reading reader.old)
        (S.reading reader.new) (result_map (λ archive. archive) result) }
{
    let octets = read_all(alloc, reads, Input::Number(number), reader)?;
    match ArchiveText::read(alloc, tables, octets) {
        Ok(archive) => Ok(archive),
        Err(Failure::Fault(NotAnArchive { place })) => Err(ToolFault::NotAnArchive {
            input: number,
            place,
        }),
        Err(Failure::OutOfMemory) => Err(ToolFault::OutOfMemory),
    }
}

/// Reads the archives of all readers, and merges those of like size.
fn merge_readers<'t, S: Source>(
    alloc: Global,
    reads: u64,
    tables: &'t Tables,
    readers: &mut [S],
) -> Result<Vec<ArchiveText<'t>>, ToolFault>
    requires few { reads ≤ most_reads }
    requires fresh { AreFresh (map S.reading readers.old) }
    ensures bounded { AreReadAtMost reads (map S.reading readers.new) }
    ensures under { IfOk result (λ texts. AreUnderTables tables.now texts.items) }
    ensures merges { MergesReaders tables.now reads (map S.reading readers.old)
        (map S.reading readers.new)
        (result_map (λ texts. together tables.now texts.items) result) }
{
    let mut texts = Vec::new(alloc);
    for (index, reader) in readers.iter_mut().enumerate() {
        let Ok(()) = settle(alloc, tables, &mut texts) else {
            return Err(ToolFault::OutOfMemory);
        };
        let number = index as u128 + 1;
        let archive = read_archive(alloc, reads, tables, number, reader)?;
        let Ok(()) = texts.push(archive) else {
            return Err(ToolFault::OutOfMemory);
        };
    }
    Ok(texts)
}

/// Writes the archive of two texts, and returns the number of its reports.
fn write_both<'t, W: Sink>(
    alloc: Global,
    lowest: &ArchiveText<'t>,
    upper: &ArchiveText<'t>,
    writer: &mut W,
) -> Result<u128, ToolFault>
    requires same { lowest.now.tables ≡ upper.now.tables }
    requires works { (W.writing writer.old).failed ≡ false }
    ensures { WritesArchive (merged lowest.now upper.now) (W.writing writer.old)
        (W.writing writer.new) result }
{
    let mut left = lowest.merged_with(alloc, upper)?;
    let reports = left.len() as u128;
    let mut buffer = read_buffer(alloc)?;
    buffer.clear();
    let mut pending = PendingOctets {
        octets: buffer,
        written: 0,
    };
    write_merged(&mut left, &mut pending, writer)?;
    Ok(reports)
}

/// Reads archives, and writes the archive of all their reports once it has read all. It checks each
/// archive before it reads the next. It holds only texts (`ArchiveText`).
pub fn run_merge<S: Source, W: Sink>(
    alloc: Global,
    reads: u64,
    tables: &Tables,
    readers: &mut [S],
    writer: &mut W,
) -> Result<Tally, ToolFault>
    requires few { reads ≤ most_reads }
    requires fresh { AreFresh (map S.reading readers.old) }
    requires works { (W.writing writer.old).failed ≡ false }
    ensures bounded { AreReadAtMost reads (map S.reading readers.new) }
    ensures merges { Merges tables.now reads (map S.reading readers.old)
        (map S.reading readers.new) (W.writing writer.old) (W.writing writer.new) result }
{
    let texts = merge_readers(alloc, reads, tables, readers)?;
    let (lowest, upper) = merge_upper(alloc, tables, texts)?;
    let reports = write_both(alloc, &lowest, &upper, writer)?;
    Ok(Tally {
        frames: readers.len() as u128,
        refused: 0,
        skipped: 0,
        reports,
    })
}
