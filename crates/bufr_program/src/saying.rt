//! A program's words, its lines of faults, and its exit status.

ghost use Rattle.std.specs.Prelude.{◌≡◌, ◌≤◌, IfErr, IfOk, map, string_bytes};
ghost use Rattle.bufr_program.specs.Words.{or_help};

use bufr_base::OutOfMemory;
use bufr_bits::IntoWrite;
use bufr_io::{LazyInput, Tally, ToolFault, Unopened, unopened_path, write_out};
use clap::Error;
use clap::error::ErrorKind;
use std::alloc::Global;
use std::io::Write;
use std::rt::Files;
use std::{env, io};

/// The exit status if all is well.
const WELL: u8 = 0;

/// The exit status if the engine refused a message.
const REFUSED: u8 = 1;

/// The exit status of a fault.
const FAULT: u8 = 2;

/// Takes the words of the command, without the program's name. If a word is not UTF-8 or memory
/// runs out, writes that to `err` and returns the exit status.
pub fn words_of<E: Write + Drop>(
    rt: &HostRuntime,
    alloc: Global,
    program: &str,
    err: &mut E,
) -> Result<Vec<String>, u8>
    ensures { IfErr result (λ status. status ≤ 2) }
{
    let args = match env::args(rt) {
        Ok(args) => args,
        Err(error) if error.kind() == io::ErrorKind::InvalidData => {
            let line = format!(in alloc; "{program}: a word of the command is not UTF-8\n");
            return Err(tell(program, line, err));
        }
        Err(_) => return Err(say(alloc, program, &ToolFault::OutOfMemory, err)),
    };
    match args.skip(1).collect::<Vec<String>>(alloc) {
        Ok(words) => Ok(words),
        Err(_) => Err(say(alloc, program, &ToolFault::OutOfMemory, err)),
    }
}

/// Returns the words of a command, or `--help` if there are none.
pub fn words_or_help(alloc: Global, words: &[String]) -> Result<Vec<&str>, OutOfMemory>
    ensures { IfOk result (λ texts. map (λ text. text.now) texts.items
        ≡ or_help (map string_bytes words.now)) }
{
    if words.is_empty() {
        let mut texts = Vec::new(alloc);
        texts.push("--help")?;
        return Ok(texts);
    }
    words.iter().map(|word| word.as_str()).collect(alloc)
}

/// Writes help or the version to `out`, or a fault of the line to `err`, in the words of `clap`.
/// Returns the exit status.
pub fn explain<O: Write + Drop, E: Write + Drop>(
    alloc: Global,
    program: &str,
    error: &Error,
    out: &mut O,
    err: &mut E,
) -> u8
    ensures { result ≤ 2 }
{
    if error.kind() == ErrorKind::OutOfMemory {
        return say(alloc, program, &ToolFault::OutOfMemory, err);
    }
    let Ok(text) = format!(in alloc; "{error}") else {
        return say(alloc, program, &ToolFault::OutOfMemory, err);
    };
    if error.use_stderr() {
        let _ = err.write_all(text.as_bytes());
        return FAULT;
    }
    match write_out(&mut IntoWrite::new(&mut *out), 0, text.as_bytes()) {
        Ok(()) => WELL,
        Err(fault) => say(alloc, program, &fault, err),
    }
}

/// Writes the fault of an engine to `err`, or that an input cannot open, and returns the exit
/// status.
pub fn status_of<'a, R: Files, E: Write + Drop>(
    alloc: Global,
    program: &str,
    ended: &Result<Tally, ToolFault>,
    inputs: &[LazyInput<'a, R>],
    err: &mut E,
) -> u8
    ensures { result ≤ 2 }
{
    match ended {
        Ok(tally) if tally.refused == 0 => WELL,
        Ok(_) => REFUSED,
        Err(fault) => match unopened_path(inputs, fault) {
            Some(path) => cannot_open(alloc, program, path, err),
            None => say(alloc, program, fault, err),
        },
    }
}

/// Writes a fault to `err`, and returns the exit status.
pub fn say<E: Write + Drop>(alloc: Global, program: &str, fault: &ToolFault, err: &mut E) -> u8
    ensures { result ≡ 2 }
{
    tell(program, format!(in alloc; "{program}: {fault}\n"), err)
}

/// Writes to `err` why files are not there, and returns the exit status.
pub fn say_unopened<E: Write + Drop>(
    alloc: Global,
    program: &str,
    why: &Unopened<'_>,
    err: &mut E,
) -> u8
    ensures { result ≡ 2 }
{
    match why {
        Unopened::Path(path) => cannot_open(alloc, program, path, err),
        Unopened::OutOfMemory => say(alloc, program, &ToolFault::OutOfMemory, err),
    }
}

/// Writes to `err` that a file cannot open, and returns the exit status.
pub fn cannot_open<E: Write + Drop>(alloc: Global, program: &str, path: &str, err: &mut E) -> u8
    ensures { result ≡ 2 }
{
    tell(
        program,
        format!(in alloc; "{program}: cannot open {path}\n"),
        err,
    )
}

/// Writes the line of a fault to `err` at once, so that lines of several programs do not mix, and
/// returns the exit status. If memory ran out for the line, writes that in parts.
pub fn tell<E: Write + Drop>(program: &str, line: Result<String, OutOfMemory>, err: &mut E) -> u8
    ensures { result ≡ 2 }
{
    match &line {
        Ok(line) => {
            let _ = err.write_all(line.as_bytes());
        }
        Err(_) => {
            let _ = err.write_all(program.as_bytes());
            let _ = err.write_all(b": out of memory\n");
        }
    }
    FAULT
}
