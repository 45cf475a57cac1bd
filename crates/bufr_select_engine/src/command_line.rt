//! The command line of `bufr-select`.

ghost use Rattle.std.specs.Prelude.{◌≡◌, ◌≢◌, ℕ, [], codes, decimal, false, map, option_map, true};
ghost use Rattle.std.specs.Prelude.{IfErr, IfOk, IfSome, unwrap_or};
ghost use Rattle.std.specs.Option.{IfNone};
ghost use Rattle.clap.specs.Words.{FailsBy, app_of, fault_of, found_of, kind_of, rows_of, rule_of, takes};
ghost use Rattle.clap.specs.declared.error.ErrorKind.TheVariants.{OutOfMemory as NoMemory};
ghost use Rattle.bufr_select_engine.specs.CommandLines as lines;
ghost use Rattle.bufr_program.specs.Arguments.{values_in};
ghost use Rattle.bufr_select_engine.specs.CommandLines.{IsVersion, option_of, value_in, value_of, values_of};

use bufr_base::OutOfMemory;
use bufr_fields::Decimal;
use bufr_program::{files_argument, values};
use clap::{Arg, ArgAction, ArgMatches, Command, Error};
use std::alloc::Global;
use std::convert::AsStr;

/// The name of the program.
pub(crate) const NAME: &str = "bufr-select";

/// The version of the program.
const VERSION: &str = "0.1.0";

/// An example at the end of the help.
const EXAMPLE: &str =
    "Example: bufr-select -b elements.csv -d sequences.csv -c 001001,001002,012101 06.bufr";

/// A command line.
#[derive(Drop)]
pub struct CommandLine<'a> {
    /// The paths of Tables B, in order.
    pub b: Vec<&'a str>,
    /// The paths of Tables D, in order.
    pub d: Vec<&'a str>,
    /// The greatest versions of the pairs, in order.
    pub versions: Vec<&'a str>,
    /// The text of the columns.
    pub columns: &'a str,
    /// The text of the descriptor whose fields open spans.
    pub each: Option<&'a str>,
    /// The paths of the files, in order.
    pub files: Vec<&'a str>,
}

/// Returns the command line of words, without the program's name, or the error of `clap`, which has
/// also the texts of help and version.
pub fn line<'a, S: AsStr>(alloc: Global, words: &'a [S]) -> Result<CommandLine<'a>, Error>
    // Each part has the values that `clap` defines for the words.
    ensures b { IfOk result (λ l. map (λ path. path.now) l.b.items
        ≡ values_of (codes "b") (map S.text words.now)) }
    ensures d { IfOk result (λ l. map (λ path. path.now) l.d.items
        ≡ values_of (codes "d") (map S.text words.now)) }
    ensures versions { IfOk result (λ l. map (λ text. text.now) l.versions.items
        ≡ values_of (codes "version-limit") (map S.text words.now)) }
    ensures columns { IfOk result (λ l. l.columns.now
        ≡ unwrap_or (value_of (codes "columns") (map S.text words.now)) []) }
    ensures each { IfOk result (λ l. option_map (λ text. text.now) l.each
        ≡ value_of (codes "each") (map S.text words.now)) }
    ensures files { IfOk result (λ l. map (λ path. path.now) l.files.items
        ≡ values_of (codes "file") (map S.text words.now)) }
    // `line` refuses words that `clap` takes for memory alone.
    ensures taken { IfErr result
        (λ e. takes lines.program (map S.text words.now) ≡ true → kind_of e ≡ NoMemory) }
    // It returns a line for no other words, and else one of the faults that `clap` defines for them.
    ensures faults { FailsBy (fault_of lines.program (map S.text words.now)) result }
{
    let matches = program(alloc)?.try_get_matches_from(words)?;
    Ok(line_of(alloc, &matches)?)
}

/// Makes the line of what `clap` read.
fn line_of<'a>(alloc: Global, matches: &ArgMatches<'a>) -> Result<CommandLine<'a>, OutOfMemory>
    ensures b { IfOk result (λ l. map (λ path. path.now) l.b.items
        ≡ values_in (codes "b") (rows_of (found_of matches.now))) }
    ensures d { IfOk result (λ l. map (λ path. path.now) l.d.items
        ≡ values_in (codes "d") (rows_of (found_of matches.now))) }
    ensures versions { IfOk result (λ l. map (λ text. text.now) l.versions.items
        ≡ values_in (codes "version-limit") (rows_of (found_of matches.now))) }
    ensures columns { IfOk result (λ l. l.columns.now
        ≡ unwrap_or (value_in (codes "columns") (rows_of (found_of matches.now))) []) }
    ensures each { IfOk result (λ l. option_map (λ text. text.now) l.each
        ≡ value_in (codes "each") (rows_of (found_of matches.now))) }
    ensures files { IfOk result (λ l. map (λ path. path.now) l.files.items
        ≡ values_in (codes "file") (rows_of (found_of matches.now))) }
{
    let b = values(alloc, matches, "b")?;
    let d = values(alloc, matches, "d")?;
    let versions = values(alloc, matches, "version-limit")?;
    let files = values(alloc, matches, "file")?;
    Ok(CommandLine {
        b,
        d,
        versions,
        columns: value(matches, "columns").unwrap_or(""),
        each: value(matches, "each"),
        files,
    })
}

fn value<'a>(matches: &ArgMatches<'a>, id: &str) -> Option<&'a str>
    ensures { option_map (λ text. text.now) result
        ≡ value_in id.now (rows_of (found_of matches.now)) }
{
    matches.get_str(id)
}

/// Describes the program.
fn program<'a>(alloc: Global) -> Result<Command<'a>, OutOfMemory>
    ensures { IfOk result (λ c. app_of c ≡ lines.program) }
{
    under_tables(alloc)?
        .arg(option(
            alloc,
            "columns",
            'c',
            [
                "COLUMNS",
                "The columns and their order, with commas between them",
            ],
            ArgAction::Set,
            true,
        ))?
        .arg(option(
            alloc,
            "each",
            'e',
            ["FXY", "The descriptor whose fields have a row each"],
            ArgAction::Set,
            false,
        ))?
        .arg(files_argument(alloc))
}

/// Describes it with the options of tables alone.
fn under_tables<'a>(alloc: Global) -> Result<Command<'a>, OutOfMemory>
    ensures { IfOk result (λ c. app_of c ≡ lines.under_tables) }
{
    bare_program(alloc)
        .arg(option(
            alloc,
            "version-limit",
            'v',
            [
                "N",
                "The greatest table version that the next pair of tables reads",
            ],
            ArgAction::Append,
            false,
        ))?
        .arg(option(
            alloc,
            "b",
            'b',
            [
                "TABLE_B",
                "The CSV file of Table B: the elements (the launcher finds it)",
            ],
            ArgAction::Append,
            true,
        ))?
        .arg(option(
            alloc,
            "d",
            'd',
            [
                "TABLE_D",
                "The CSV file of Table D: the sequences (the launcher finds it)",
            ],
            ArgAction::Append,
            true,
        ))
}

/// Describes it without arguments.
fn bare_program<'a>(alloc: Global) -> Command<'a>
    ensures { app_of result ≡ lines.bare_program }
{
    Command::new(alloc, NAME)
        .about("Prints chosen fields of the BUFR messages of files as CSV")
        .version(VERSION)
        .after_help(EXAMPLE)
        .no_binary_name(true)
}

/// Describes an option by its letter, and its value by name and help.
fn option<'a>(
    alloc: Global,
    id: &'a str,
    short: char,
    texts: [&'a str; 2],
    action: ArgAction,
    required: bool,
) -> Arg<'a>
    ensures rule { rule_of result ≡ option_of id.now short action required }
    ensures local { result.global ≡ false }
{
    let [name, help] = texts;
    Arg::new(alloc, id)
        .short(short)
        .value_name(name)
        .help(help)
        .required(required)
        .action(action)
}

/// Returns the version, 0 to 255, that a text spells.
pub(crate) fn read_version(text: &str) -> Option<u8>
    ensures can_be { IfSome result IsVersion }
    ensures spelt { IfSome result (λ n. decimal n ≡ text.now) }
    ensures none { IfNone result ((n : ℕ) → IsVersion n → decimal n ≢ text.now) }
{
    let number = Decimal::parse(text.as_bytes(), 0)?;
    if number.units < 0 || number.units > u8::MAX as i128 {
        return None;
    }
    Some(number.units as u8)
}
