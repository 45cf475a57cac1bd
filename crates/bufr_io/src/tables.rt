ghost use Rattle.std.specs.Prelude.{◌≤◌};
ghost use Rattle.bufr_base.specs.Answers.{result_map};
ghost use Rattle.bufr_io.specs.Engines.{IsFresh};
ghost use Rattle.bufr_io.specs.Limits.{most_reads};
ghost use Rattle.bufr_io.specs.declared.fault.Input.TheVariants.{TableB as FileB, TableD as FileD};
ghost use Rattle.bufr_tables.specs.TableFiles.{table_b, table_d};
ghost use Rattle.bufr_io.specs.Loads.{Loads, LoadsTable};

use crate::fault::{Input, ToolFault};
use crate::input::read_all;
use bufr_base::Failure;
use bufr_bits::Source;
use bufr_tables::{TableB, TableD, Tables};
use std::alloc::Global;

/// Loads the tables of two files. It reads and parses Table B before it reads Table D.
pub fn load_tables<B: Source, D: Source>(
    alloc: Global,
    reads: u64,
    b: &mut B,
    d: &mut D,
) -> Result<Tables, ToolFault>
    requires few { reads ≤ most_reads }
    requires fresh_b { IsFresh (B.reading b.old) }
    requires fresh_d { IsFresh (D.reading d.old) }
    ensures bounded_b { (B.reading b.new).reads ≤ reads }
    ensures bounded_d { (D.reading d.new).reads ≤ reads }
    ensures loads { Loads reads (B.reading b.old) (B.reading b.new) (D.reading d.old)
        (D.reading d.new) (result_map (λ tables. tables) result) }
{
    let elements = elements_of(alloc, reads, b)?;
    let sequences = sequences_of(alloc, reads, d)?;
    Ok(Tables::new(elements, sequences))
}

/// Loads Table B.
fn elements_of<S: Source>(alloc: Global, reads: u64, b: &mut S) -> Result<TableB, ToolFault>
    requires few { reads ≤ most_reads }
    requires fresh { IsFresh (S.reading b.old) }
    ensures bounded { (S.reading b.new).reads ≤ reads }
    ensures loads { LoadsTable table_b FileB reads (S.reading b.old) (S.reading b.new)
        (result_map (λ table. table) result) }
{
    let text = read_all(alloc, reads, Input::TableB, b)?;
    match TableB::parse(alloc, &text) {
        Ok(elements) => Ok(elements),
        Err(Failure::Fault(fault)) => Err(ToolFault::Table(Input::TableB, fault)),
        Err(Failure::OutOfMemory) => Err(ToolFault::OutOfMemory),
    }
}

/// Loads Table D.
fn sequences_of<S: Source>(alloc: Global, reads: u64, d: &mut S) -> Result<TableD, ToolFault>
    requires few { reads ≤ most_reads }
    requires fresh { IsFresh (S.reading d.old) }
    ensures bounded { (S.reading d.new).reads ≤ reads }
    ensures loads { LoadsTable table_d FileD reads (S.reading d.old) (S.reading d.new)
        (result_map (λ table. table) result) }
{
    let text = read_all(alloc, reads, Input::TableD, d)?;
    match TableD::parse(alloc, &text) {
        Ok(sequences) => Ok(sequences),
        Err(Failure::Fault(fault)) => Err(ToolFault::Table(Input::TableD, fault)),
        Err(Failure::OutOfMemory) => Err(ToolFault::OutOfMemory),
    }
}
