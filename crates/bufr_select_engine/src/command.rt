//! The program, over any files and writers.

ghost use Rattle.std.specs.Prelude.{◌≡◌, ◌≤◌, map};
ghost use Rattle.bufr_io.specs.Readers.{AreFresh};

use crate::command_line::{CommandLine, NAME, line};
use crate::line_faults::{LineFault, LineSelection, selection_of};
use crate::outputs::Outputs;
use crate::select::run_select;
use bufr_base::OutOfMemory;
use bufr_bits::{IntoWrite, Source};
use bufr_io::{MOST_READS, Tally, ToolFault, files_of, inputs_of, load_tables};
use bufr_program::{explain, say, say_unopened, status_of, tell, words_or_help};
use bufr_select_rows::{ColumnDescriptors, VersionTables};
use bufr_tables::Tables;
use std::alloc::Global;
use std::io::Write;
use std::rt::Files;

/// Carries out the command of words, without the program's name, and returns the exit status. The rows
/// go to `out`, refusals and a fault to `err`. No words ask for help.
pub fn run_command<R: Files, O: Write + Drop, E: Write + Drop>(
    rt: &R,
    alloc: Global,
    words: &[String],
    out: &mut O,
    err: &mut E,
) -> u8
    ensures { result ≤ 2 }
{
    let Ok(words) = words_or_help(alloc, words) else {
        return say(alloc, NAME, &ToolFault::OutOfMemory, err);
    };
    let line = match line(alloc, &words) {
        Ok(line) => line,
        Err(error) => return explain(alloc, NAME, &error, out, err),
    };
    match selection_of(alloc, &line) {
        Ok(selection) => open_files(rt, alloc, &line, &selection, out, err),
        Err(fault) => refuse_line(alloc, &fault, err),
    }
}

/// Writes a fault of the line to `err`, and returns the exit status.
fn refuse_line<E: Write + Drop>(alloc: Global, fault: &LineFault<'_>, err: &mut E) -> u8
    ensures { result ≡ 2 }
{
    tell(NAME, format!(in alloc; "{NAME}: {fault}\n"), err)
}

/// Opens the tables and the first file, selects the rows of all files, and returns the exit status.
fn open_files<'a, R: Files, O: Write + Drop, E: Write + Drop>(
    rt: &'a R,
    alloc: Global,
    line: &CommandLine<'a>,
    selection: &LineSelection,
    out: &mut O,
    err: &mut E,
) -> u8
    ensures { result ≤ 2 }
{
    let mut b = match files_of(rt, alloc, &line.b, line.b.len()) {
        Ok(files) => files,
        Err(why) => return say_unopened(alloc, NAME, &why, err),
    };
    let mut d = match files_of(rt, alloc, &line.d, line.d.len()) {
        Ok(files) => files,
        Err(why) => return say_unopened(alloc, NAME, &why, err),
    };
    let mut inputs = match inputs_of(rt, alloc, &line.files) {
        Ok(inputs) => inputs,
        Err(why) => return say_unopened(alloc, NAME, &why, err),
    };
    let ended = select_files(alloc, selection, &mut b, &mut d, &mut inputs, out, err);
    status_of(alloc, NAME, &ended, &inputs, err)
}

/// Loads the tables and selects the rows of files.
fn select_files<S: Source, O: Write + Drop, E: Write + Drop>(
    alloc: Global,
    selection: &LineSelection,
    b: &mut [S],
    d: &mut [S],
    inputs: &mut [S],
    out: &mut O,
    err: &mut E,
) -> Result<Tally, ToolFault>
    requires fresh_b { AreFresh (map S.reading b.old) }
    requires fresh_d { AreFresh (map S.reading d.old) }
    requires fresh_inputs { AreFresh (map S.reading inputs.old) }
{
    let tables = all_tables(alloc, b, d)?;
    let asked = ColumnDescriptors::of(alloc, &selection.columns, selection.each)?;
    let pairs = pairs_of(alloc, &selection.versions, &tables, asked.listed())?;
    let mut outputs = Outputs {
        rows: IntoWrite::new(&mut *out),
        refusals: IntoWrite::new(&mut *err),
    };
    run_select(
        alloc,
        MOST_READS,
        pairs,
        &selection.columns,
        selection.each,
        inputs,
        &mut outputs,
    )
}

/// Loads pairs of tables.
fn all_tables<S: Source>(alloc: Global, b: &mut [S], d: &mut [S]) -> Result<Vec<Tables>, ToolFault>
    requires fresh_b { AreFresh (map S.reading b.old) }
    requires fresh_d { AreFresh (map S.reading d.old) }
{
    let mut all = Vec::new(alloc);
    for index in 0..b.len() {
        if index >= d.len() {
            return Ok(all);
        }
        let tables = load_tables(alloc, MOST_READS, &mut b[index], &mut d[index])?;
        push_tables(&mut all, tables)?;
    }
    Ok(all)
}

fn push_tables(all: &mut Vec<Tables>, tables: Tables) -> Result<(), OutOfMemory> {
    all.push(tables)?;
    Ok(())
}

/// Makes pairs of tables, each up to its version.
fn pairs_of<'t>(
    alloc: Global,
    versions: &[Option<u8>],
    tables: &'t [Tables],
    asked: &'t [u16],
) -> Result<Vec<VersionTables<'t>>, OutOfMemory> {
    let mut pairs = Vec::new(alloc);
    for (greatest, here) in versions.iter().zip(tables.iter()) {
        pairs.push(VersionTables::for_elements(alloc, *greatest, here, asked))?;
    }
    Ok(pairs)
}
