//! Prints the descriptor and the value of each field of a message, one a line.
#![tactic(auto)]

use bufr_message::{
    Failure, Field, Message, OutOfMemory, Raw, Refused, TableFault, Tables, decode,
};
use bufr_tables::{TableB, TableD};
use std::process::ExitCode;
use std::{env, fs, io};
use thiserror::Error;

/// A reason not to print the fields of a file.
#[derive(Debug, Drop, Error)]
enum Problem {
    /// There are not three words.
    #[error("usage: print_fields TABLE_B TABLE_D FILE")]
    Usage,
    /// A file can't be read, or the output can't be written.
    #[error("{0}")]
    Device(io::Error),
    /// A table has a fault.
    #[error("a table: {0}")]
    Table(TableFault),
    /// The file has no message.
    #[error("refused: {0}")]
    Message(Refused),
    /// Memory ran out.
    #[error("out of memory")]
    OutOfMemory,
}

impl From<io::Error> for Problem {
    fn from(error: io::Error) -> Problem {
        Problem::Device(error)
    }
}

impl From<OutOfMemory> for Problem {
    fn from(_error: OutOfMemory) -> Problem {
        Problem::OutOfMemory
    }
}

impl From<Failure<TableFault>> for Problem {
    fn from(failure: Failure<TableFault>) -> Problem {
        match failure {
            Failure::Fault(fault) => Problem::Table(fault),
            Failure::OutOfMemory => Problem::OutOfMemory,
        }
    }
}

impl From<Failure<Refused>> for Problem {
    fn from(failure: Failure<Refused>) -> Problem {
        match failure {
            Failure::Fault(refused) => Problem::Message(refused),
            Failure::OutOfMemory => Problem::OutOfMemory,
        }
    }
}

/// Prints the descriptor of a field, and its value: a number, a text or missing.
fn print_field(rt: &HostRuntime, field: &Field) -> Result<(), Problem> {
    let descriptor = field.fxy;
    match (field.value(), &field.raw) {
        (Some(value), _) => println!(rt; "{descriptor} {value}")?,
        (None, Raw::Text(octets)) if !field.is_missing() => {
            let text = String::from_utf8_lossy(rt.alloc(), octets.as_slice())?;
            println!(rt; "{descriptor} {text}")?;
        }
        (None, _) => println!(rt; "{descriptor} missing")?,
    }
    Ok(())
}

/// Reads the tables of two files.
fn tables_of(rt: &HostRuntime, b: &str, d: &str) -> Result<Tables, Problem> {
    let text = fs::read(rt, b)?;
    let elements = TableB::parse(rt.alloc(), text.as_slice())?;
    let text = fs::read(rt, d)?;
    let sequences = TableD::parse(rt.alloc(), text.as_slice())?;
    Ok(Tables::new(elements, sequences))
}

/// Reads the message of a file.
fn message_of(rt: &HostRuntime, tables: &Tables, file: &str) -> Result<Message, Problem> {
    let octets = fs::read(rt, file)?;
    let decoded = decode(rt.alloc(), tables, octets.as_slice())?;
    Ok(decoded.message)
}

/// Prints the fields of a file's message.
fn print_message(rt: &HostRuntime, tables: &Tables, file: &str) -> Result<(), Problem> {
    let message = message_of(rt, tables, file)?;
    for subset in message.subsets.as_slice() {
        for field in subset.fields.as_slice() {
            print_field(rt, field)?;
        }
    }
    Ok(())
}

/// Reads the files that the words name, and prints the fields of the message.
fn run(rt: &HostRuntime) -> Result<(), Problem> {
    let words = env::args(rt)?.collect::<Vec<String>>(rt.alloc())?;
    let [_, b, d, file] = words.as_slice() else {
        return Err(Problem::Usage);
    };
    let tables = tables_of(rt, b.as_str(), d.as_str())?;
    print_message(rt, &tables, file.as_str())
}

fn main(rt: HostRuntime) -> ExitCode {
    match run(&rt) {
        Ok(()) => ExitCode::SUCCESS,
        Err(problem) => {
            let _ = eprintln!(rt; "print_fields: {problem}");
            ExitCode::from(2)
        }
    }
}
