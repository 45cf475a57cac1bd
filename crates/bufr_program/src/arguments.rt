//! The argument of files that programs share, and the values of arguments.

ghost use Rattle.std.specs.Prelude.{◌≡◌, false, map, IfOk};
ghost use Rattle.clap.specs.Words.{found_of, rows_of, rule_of};
ghost use Rattle.bufr_program.specs.Arguments.{files_argument, values_in};

use bufr_base::OutOfMemory;
use clap::{Arg, ArgAction, ArgMatches};
use std::alloc::Global;

/// Describes the argument of the files.
pub fn files_argument<'a>(alloc: Global) -> Arg<'a>
    ensures rule { rule_of result ≡ files_argument }
    ensures local { result.global ≡ false }
{
    Arg::new(alloc, "file")
        .value_name("FILE")
        .help("The files of the messages, or /dev/stdin")
        .required(true)
        .action(ArgAction::Append)
}

/// Returns the values of an argument, in order.
pub fn values<'a>(
    alloc: Global,
    matches: &ArgMatches<'a>,
    id: &str,
) -> Result<Vec<&'a str>, OutOfMemory>
    ensures { IfOk result (λ found. map (λ value. value.now) found.items
        ≡ values_in id.now (rows_of (found_of matches.now))) }
{
    match matches.get_strs(id) {
        Some(values) => Vec::from_slice(alloc, values),
        None => Ok(Vec::new(alloc)),
    }
}
