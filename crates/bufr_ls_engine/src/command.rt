//! The program over a runtime with files and any two writers.

ghost use Rattle.std.specs.Prelude.{◌≡◌, ◌≤◌, map, IfOk, IfSome, IfNone};
ghost use Rattle.bufr_ls_engine.specs.Columns.{all_columns, word, words_of};

use crate::column::Column;
use crate::columns::{ColumnsFault, columns_of};
use crate::command_line::{NAME, line};
use crate::ls::run_ls;
use bufr_bits::IntoWrite;
use bufr_io::{MOST_READS, ToolFault, Unopened, inputs_of};
use bufr_program::{cannot_open, explain, say, status_of, words_or_help};
use std::alloc::Global;
use std::io::Write;
use std::rt::Files;

/// The exit status after a fault of the line.
const FAULT: u8 = 2;

/// Carries out the command of words, without the program's name, and returns the exit status: 0 if all
/// is well, 1 if a frame has a refusal, 2 after a fault. The rows go to `out`, a fault to `err`.
/// No words ask for help.
pub fn run_command<R: Files, O: Write + Drop, E: Write + Drop>(
    rt: &R,
    alloc: Global,
    words: &[String],
    out: &mut O,
    err: &mut E,
) -> u8
    ensures { result ≤ 2 }
{
    let Ok(words) = words_or_help(alloc, words) else {
        return say(alloc, NAME, &ToolFault::OutOfMemory, err);
    };
    let line = match line(alloc, &words) {
        Ok(line) => line,
        Err(error) => return explain(alloc, NAME, &error, out, err),
    };
    match columns_asked(alloc, line.columns) {
        Ok(columns) => list_files(rt, alloc, &columns, &line.files, out, err),
        Err(fault) => refuse_columns(alloc, &fault, err),
    }
}

/// Returns the columns of a text, or all columns.
fn columns_asked(alloc: Global, text: Option<&str>) -> Result<Vec<Column>, ColumnsFault<'_>>
    ensures all { IfNone text.entry (IfOk result (λ columns. columns.items ≡ all_columns)) }
    ensures named { IfSome text.entry (λ text.
        IfOk result (λ columns. map word columns.items ≡ words_of text.now)) }
{
    match text {
        Some(text) => columns_of(alloc, text),
        None => match Vec::from_slice(alloc, Column::all()) {
            Ok(columns) => Ok(columns),
            Err(_) => Err(ColumnsFault::OutOfMemory),
        },
    }
}

/// Writes the fault of a text of columns to `err`, and returns the exit status.
fn refuse_columns<E: Write + Drop>(alloc: Global, fault: &ColumnsFault<'_>, err: &mut E) -> u8
    ensures { result ≡ 2 }
{
    match format!(in alloc; "{NAME}: {fault}\n") {
        Ok(line) => {
            let _ = err.write_all(line.as_bytes());
            FAULT
        }
        Err(_) => say(alloc, NAME, &ToolFault::OutOfMemory, err),
    }
}

/// Opens the first file, lists the heads of all files and returns the exit status. Each further
/// file opens after the one before was read.
fn list_files<R: Files, O: Write + Drop, E: Write + Drop>(
    rt: &R,
    alloc: Global,
    columns: &[Column],
    files: &[&str],
    out: &mut O,
    err: &mut E,
) -> u8
    ensures { result ≤ 2 }
{
    let mut inputs = match inputs_of(rt, alloc, files) {
        Ok(inputs) => inputs,
        Err(Unopened::Path(path)) => return cannot_open(alloc, NAME, path, err),
        Err(Unopened::OutOfMemory) => return say(alloc, NAME, &ToolFault::OutOfMemory, err),
    };
    let mut writer = IntoWrite::new(&mut *out);
    let ended = run_ls(alloc, MOST_READS, columns, &mut inputs, &mut writer);
    let status = status_of(alloc, NAME, &ended, &inputs, err);
    drop(inputs);
    status
}
