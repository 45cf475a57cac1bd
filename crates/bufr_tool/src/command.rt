//! The commands of the program, over a runtime with files and any two writers.

ghost use Rattle.std.specs.Prelude.{◌≡◌, ◌≤◌, ◌++◌, false, map, string_bytes, OnOk};
ghost use Rattle.bufr_io.specs.Engines.{IsFresh};
ghost use Rattle.bufr_io.specs.Readers.{AreFresh};
ghost use Rattle.bufr_tool.specs.ArchiveLines.{added_line, merged_line};

use crate::command_line::{NAME, line};
use crate::lines::{Command, Line};
use bufr_base::OutOfMemory;
use bufr_bits::{IntoWrite, Sink, Source};
use bufr_engines::{run_add, run_check, run_encode, run_merge, run_show};
use bufr_io::{
    Input, LazyOutput, MOST_READS, Tally, ToolFault, file_of, inputs_of, load_tables, write_out,
};
use bufr_program::{cannot_open, explain, say, say_unopened, status_of, words_or_help};
use bufr_tables::Tables;
use std::alloc::Global;
use std::fmt;
use std::io::Write;
use std::rt::Files;

/// The most octets of the last line of a command that writes an archive.
const LONGEST_LINE: usize = 160;

/// Carries out the command that words ask for, without the program's name, and returns the exit
/// status: 0 if all is well, or for help or the version; 1 if a message is refused; 2 on a fault of
/// the line, a file, a table, a listing, an archive or memory. The output goes to `out`, a fault as
/// one line to `err`. No words ask for help.
pub fn run_command<R: Files, O: Write + Drop, E: Write + Drop>(
    rt: &R,
    alloc: Global,
    words: &[String],
    out: &mut O,
    err: &mut E,
) -> u8
    ensures { result ≤ 2 }
{
    let Ok(words) = words_or_help(alloc, words) else {
        return say(alloc, NAME, &ToolFault::OutOfMemory, err);
    };
    match line(alloc, &words) {
        Ok(line) => run_line(rt, alloc, &line, out, err),
        Err(error) => explain(alloc, NAME, &error, out, err),
    }
}

/// Opens the tables and the first input of a line, runs its command, and returns the exit status.
fn run_line<'a, R: Files, O: Write + Drop, E: Write + Drop>(
    rt: &'a R,
    alloc: Global,
    line: &Line<'a>,
    out: &mut O,
    err: &mut E,
) -> u8
    ensures { result ≤ 2 }
{
    let Some(mut b) = file_of(rt, line.b, true) else {
        return cannot_open(alloc, NAME, line.b, err);
    };
    let Some(mut d) = file_of(rt, line.d, true) else {
        return cannot_open(alloc, NAME, line.d, err);
    };
    let mut inputs = match inputs_of(rt, alloc, &line.inputs) {
        Ok(inputs) => inputs,
        Err(why) => return say_unopened(alloc, NAME, &why, err),
    };
    let ended = run_under(rt, alloc, line, &mut b, &mut d, &mut inputs, out);
    status_of(alloc, NAME, &ended, &inputs, err)
}

/// Loads the tables and runs the command of a line.
fn run_under<R: Files, S: Source, O: Write + Drop>(
    rt: &R,
    alloc: Global,
    line: &Line,
    b: &mut S,
    d: &mut S,
    inputs: &mut [S],
    out: &mut O,
) -> Result<Tally, ToolFault>
    requires fresh_b { IsFresh (S.reading b.old) }
    requires fresh_d { IsFresh (S.reading d.old) }
    requires fresh_inputs { AreFresh (map S.reading inputs.old) }
{
    let tables = &load_tables(alloc, MOST_READS, b, d)?;
    let writer = &mut IntoWrite::new(&mut *out);
    let Some(input) = inputs.first_mut() else {
        return Err(ToolFault::ReadFailed(Input::Number(1)));
    };
    match line.command {
        Command::Show => run_show(alloc, MOST_READS, tables, input, writer),
        Command::Check => run_check(alloc, MOST_READS, tables, input, writer),
        Command::Encode => { run_encode(alloc, MOST_READS, tables, line.compressed, input, writer) }
        Command::Add => add(rt, alloc, tables, line.out, inputs, writer),
        Command::Merge => merge(rt, alloc, tables, line.out, inputs, writer),
    }
}

/// Writes an archive of the reports of streams to a file, which it then closes, and prints the last
/// line.
fn add<R: Files, S: Source, W: Sink>(
    rt: &R,
    alloc: Global,
    tables: &Tables,
    path: &str,
    inputs: &mut [S],
    writer: &mut W,
) -> Result<Tally, ToolFault>
    requires fresh { AreFresh (map S.reading inputs.old) }
    requires works { (W.writing writer.old).failed ≡ false }
{
    // The line has its memory before the archive is written: after that only writing can fail.
    let mut text = String::with_capacity(alloc, LONGEST_LINE)?;
    let tally = run_add(
        alloc,
        MOST_READS,
        tables,
        inputs,
        &mut LazyOutput::new(rt, path),
    )?;
    push_added(&mut text, &tally)?;
    write_out(writer, 0, text.as_bytes())?;
    Ok(tally)
}

/// Writes an archive of the reports of archives to a file, which it then closes, and prints the last
/// line.
fn merge<R: Files, S: Source, W: Sink>(
    rt: &R,
    alloc: Global,
    tables: &Tables,
    path: &str,
    inputs: &mut [S],
    writer: &mut W,
) -> Result<Tally, ToolFault>
    requires fresh { AreFresh (map S.reading inputs.old) }
    requires works { (W.writing writer.old).failed ≡ false }
{
    let mut text = String::with_capacity(alloc, LONGEST_LINE)?;
    let tally = run_merge(
        alloc,
        MOST_READS,
        tables,
        inputs,
        &mut LazyOutput::new(rt, path),
    )?;
    push_merged(&mut text, &tally)?;
    write_out(writer, 0, text.as_bytes())?;
    Ok(tally)
}

/// Adds the last line of `add`.
fn push_added(text: &mut String, tally: &Tally) -> Result<(), OutOfMemory>
    ensures { OnOk result (string_bytes text.new ≡ string_bytes text.old ++ added_line tally.now) }
{
    let frames = tally.frames;
    let refused = tally.refused;
    let reports = tally.reports;
    write!(
        text,
        "frames {frames} refused {refused} reports {reports}\n"
    )
}

/// Adds the last line of `merge`.
fn push_merged(text: &mut String, tally: &Tally) -> Result<(), OutOfMemory>
    ensures { OnOk result (string_bytes text.new ≡ string_bytes text.old ++ merged_line tally.now) }
{
    let archives = tally.frames;
    let reports = tally.reports;
    write!(text, "archives {archives} reports {reports}\n")
}
