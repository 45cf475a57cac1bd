//! The command line, read by `clap`.

ghost use Rattle.std.specs.Prelude.{◌≡◌, true, false, map, codes, IfOk, IfErr};
ghost use Rattle.clap.specs.Words.{App, Shape, app_of, kind_of, rule_of, shape_of};
ghost use Rattle.clap.specs.Words.{subcommand_rows_of, takes, with_subcommand};
ghost use Rattle.clap.specs.declared.error.ErrorKind.TheVariants.{OutOfMemory as NoMemory};
ghost use Rattle.bufr_tool.specs.CommandLines.{collecting_command, commands};
ghost use Rattle.bufr_tool.specs.CommandLines.{encoding_command, flag, flag_in};
ghost use Rattle.bufr_tool.specs.CommandLines.{flag_of, input_argument};
ghost use Rattle.bufr_tool.specs.CommandLines.{path_option, commands_without_archive, program, under_tables};
ghost use Rattle.bufr_tool.specs.CommandLines.{reading_command, command_in, command_of, value_in};
ghost use Rattle.bufr_tool.specs.CommandLines.{value_of, values_in, values_of};

use crate::lines::{self, Line};
use bufr_base::OutOfMemory;
use clap::{Arg, ArgAction, ArgMatches, Command, Error};
use std::alloc::Global;
use std::convert::AsStr;

/// The name of the program.
pub(crate) const NAME: &str = "bufr";

/// The version of the program.
const VERSION: &str = "0.1.0";

/// The example at the end of the help of `show`; then those of the others.
const SHOW: &str = "Example: bufr show -b elements.csv -d sequences.csv bulletins.bufr";

const CHECK: &str =
    "Example: zcat bulletins.bufr.gz | bufr check -b elements.csv -d sequences.csv /dev/stdin";

const ENCODE: &str = "Example: bufr encode -b elements.csv -d sequences.csv listing.txt > out.bufr";

const ADD: &str = "Example: bufr add -b elements.csv -d sequences.csv -o day.bufr 06.bufr 12.bufr";

const MERGE: &str =
    "Example: bufr merge -b elements.csv -d sequences.csv -o week.bufr mon.bufr tue.bufr";

/// Reads the words of a command line, without the program's name. If they are no line, or ask for help
/// or the version, returns the error of `clap`.
pub fn line<'a, S: AsStr>(alloc: Global, words: &'a [S]) -> Result<Line<'a>, Error>
    // The command, the paths and the flag are those that `clap` defines for the words.
    ensures command { IfOk result (λ l. l.command ≡ command_of (map S.text words.now)) }
    ensures b { IfOk result (λ l. l.b.now ≡ value_of (codes "b") (map S.text words.now)) }
    ensures d { IfOk result (λ l. l.d.now ≡ value_of (codes "d") (map S.text words.now)) }
    ensures compressed { IfOk result
        (λ l. l.compressed ≡ flag_of (codes "compressed") (map S.text words.now)) }
    ensures out { IfOk result (λ l. l.out.now ≡ value_of (codes "out") (map S.text words.now)) }
    ensures inputs { IfOk result (λ l. map (λ path. path.now) l.inputs.items
        ≡ values_of (codes "input") (map S.text words.now)) }
    // Words that `clap` takes are refused for want of memory alone.
    ensures taken { IfErr result
        (λ e. takes commands (map S.text words.now) ≡ true → kind_of e ≡ NoMemory) }
{
    let matches = bufr(alloc)?.try_get_matches_from(words)?;
    Ok(line_of(alloc, &matches)?)
}

/// Makes the line of what `clap` read.
fn line_of<'a>(alloc: Global, matches: &ArgMatches<'a>) -> Result<Line<'a>, OutOfMemory>
    ensures command { IfOk result (λ l. l.command ≡ command_in (subcommand_rows_of matches.now)) }
    ensures b { IfOk result
        (λ l. l.b.now ≡ value_in (codes "b") (subcommand_rows_of matches.now)) }
    ensures d { IfOk result
        (λ l. l.d.now ≡ value_in (codes "d") (subcommand_rows_of matches.now)) }
    ensures compressed { IfOk result
        (λ l. l.compressed ≡ flag_in (codes "compressed") (subcommand_rows_of matches.now)) }
    ensures out { IfOk result
        (λ l. l.out.now ≡ value_in (codes "out") (subcommand_rows_of matches.now)) }
    ensures inputs { IfOk result (λ l. map (λ path. path.now) l.inputs.items
        ≡ values_in (codes "input") (subcommand_rows_of matches.now)) }
{
    let inputs = values(alloc, matches, "input")?;
    Ok(Line {
        command: asked_command(matches),
        b: value(matches, "b"),
        d: value(matches, "d"),
        compressed: is_up(matches, "compressed"),
        out: value(matches, "out"),
        inputs,
    })
}

/// Returns the command of a line. `clap` has refused any other word, so the last arm is `show`. A
/// new command needs an arm here, and a law.
fn asked_command<'a>(matches: &ArgMatches<'a>) -> lines::Command
    ensures { result ≡ command_in (subcommand_rows_of matches.now) }
{
    match matches.subcommand_name().unwrap_or("") {
        "check" => lines::Command::Check,
        "encode" => lines::Command::Encode,
        "add" => lines::Command::Add,
        "merge" => lines::Command::Merge,
        _ => lines::Command::Show,
    }
}

/// Returns the value of an argument, or the empty text.
fn value<'a>(matches: &ArgMatches<'a>, id: &str) -> &'a str
    ensures { result.now ≡ value_in id.now (subcommand_rows_of matches.now) }
{
    match matches.subcommand() {
        Some((_, found)) => found.get_str(id).unwrap_or(""),
        None => "",
    }
}

fn values<'a>(
    alloc: Global,
    matches: &ArgMatches<'a>,
    id: &str,
) -> Result<Vec<&'a str>, OutOfMemory>
    ensures { IfOk result (λ found. map (λ value. value.now) found.items
        ≡ values_in id.now (subcommand_rows_of matches.now)) }
{
    match matches.subcommand() {
        Some((_, found)) => match found.get_strs(id) {
            Some(values) => Vec::from_slice(alloc, values),
            None => Ok(Vec::new(alloc)),
        },
        None => Ok(Vec::new(alloc)),
    }
}

/// Whether a flag is up.
fn is_up<'a>(matches: &ArgMatches<'a>, id: &str) -> bool
    ensures { result ≡ flag_in id.now (subcommand_rows_of matches.now) }
{
    value(matches, id) == "true"
}

fn bufr<'a>(alloc: Global) -> Result<Command<'a>, OutOfMemory>
    ensures { IfOk result (λ c. app_of c ≡ commands) }
{
    let add = "Makes an archive of files: one copy of each report";
    let merge = "Makes one archive of several";
    let adding = collecting(
        alloc,
        "add",
        [add, ADD],
        "FILE",
        "The files of the messages",
    );
    let merging = collecting(alloc, "merge", [merge, MERGE], "ARCHIVE", "The archives");
    with_command(with_command(without_archive(alloc), adding), merging)
}

/// Describes the program with the commands that write no archive.
fn without_archive<'a>(alloc: Global) -> Result<Command<'a>, OutOfMemory>
    ensures { IfOk result (λ c. app_of c ≡ commands_without_archive) }
{
    with_command(that_read(alloc), encoding(alloc))
}

fn that_read<'a>(alloc: Global) -> Result<Command<'a>, OutOfMemory>
    ensures { IfOk result (λ c. app_of c ≡ with_subcommand
        (with_subcommand program (reading_command (codes "show")))
        (reading_command (codes "check"))) }
{
    let show = "Shows the messages of a file as a listing";
    let check = "Says of each message of a file whether it can be read";
    let with_show = with_command(program(alloc), reading(alloc, "show", [show, SHOW]));
    with_command(with_show, reading(alloc, "check", [check, CHECK]))
}

/// Describes the program without a command.
fn program<'a>(alloc: Global) -> Result<Command<'a>, OutOfMemory>
    ensures { IfOk result (λ c. app_of c ≡ program) }
{
    Command::new(alloc, "bufr")
        .about("Reads, writes and collects BUFR messages of the world's weather services")
        .version(VERSION)
        .no_binary_name(true)
        .subcommand_required(true)
        .bin_name("bufr")
}

fn with_command<'a>(
    before: Result<Command<'a>, OutOfMemory>,
    command: Result<Command<'a>, OutOfMemory>,
) -> Result<Command<'a>, OutOfMemory>
    ensures { (app : App) (shape : Shape) → IfOk before.entry (λ p. app_of p ≡ app)
        → IfOk command.entry (λ c. shape_of c ≡ shape) → shape.is_plain ≡ true
        → IfOk result (λ c. app_of c ≡ with_subcommand app shape) }
{
    let command = command?;
    before?.subcommand(command)
}

/// Describes a command that reads messages, by what it does and an example.
fn reading<'a>(
    alloc: Global,
    name: &'a str,
    texts: [&'a str; 2],
) -> Result<Command<'a>, OutOfMemory>
    ensures { IfOk result (λ c. shape_of c ≡ reading_command name.now) }
{
    under_tables(alloc, name, texts)?.arg(input(
        alloc,
        "FILE",
        "The file of the messages, or /dev/stdin",
        ArgAction::Set,
    ))
}

/// Describes `encode`.
fn encoding<'a>(alloc: Global) -> Result<Command<'a>, OutOfMemory>
    ensures { IfOk result (λ c. shape_of c ≡ encoding_command) }
{
    under_tables(
        alloc,
        "encode",
        ["Writes the messages of a listing", ENCODE],
    )?
    .arg(switch(alloc, "compressed", "Compresses every message"))?
    .arg(input(
        alloc,
        "LISTING",
        "The file of the listing, or /dev/stdin",
        ArgAction::Set,
    ))
}

/// Describes a command that writes an archive, by what it does and an example.
fn collecting<'a>(
    alloc: Global,
    name: &'a str,
    texts: [&'a str; 2],
    files: &'a str,
    help: &'a str,
) -> Result<Command<'a>, OutOfMemory>
    ensures { IfOk result (λ c. shape_of c ≡ collecting_command name.now) }
{
    let out = "The archive that is written, once all was read";
    under_tables(alloc, name, texts)?
        .arg(path(alloc, "out", 'o', "OUT", out))?
        .arg(input(alloc, files, help, ArgAction::Append))
}

/// Describes the options of the tables, which each command has.
fn under_tables<'a>(
    alloc: Global,
    name: &'a str,
    texts: [&'a str; 2],
) -> Result<Command<'a>, OutOfMemory>
    ensures { IfOk result (λ c. app_of c ≡ under_tables name.now) }
{
    let b = "The CSV file of Table B: the elements (the launcher finds it)";
    let d = "The CSV file of Table D: the sequences (the launcher finds it)";
    let [about, example] = texts;
    Command::new(alloc, name)
        .about(about)
        .after_help(example)
        .arg(path(alloc, "b", 'b', "TABLE_B", b))?
        .arg(path(alloc, "d", 'd', "TABLE_D", d))
}

fn path<'a>(alloc: Global, id: &'a str, short: char, name: &'a str, help: &'a str) -> Arg<'a>
    ensures rule { rule_of result ≡ path_option id.now short }
    ensures local { result.global ≡ false }
{
    Arg::new(alloc, id)
        .short(short)
        .value_name(name)
        .help(help)
        .required(true)
        .action(ArgAction::Set)
}

fn switch<'a>(alloc: Global, id: &'a str, help: &'a str) -> Arg<'a>
    ensures rule { rule_of result ≡ flag id.now }
    ensures local { result.global ≡ false }
{
    Arg::new(alloc, id)
        .long(id)
        .help(help)
        .action(ArgAction::SetTrue)
}

fn input<'a>(alloc: Global, name: &'a str, help: &'a str, action: ArgAction) -> Arg<'a>
    ensures rule { rule_of result ≡ input_argument action }
    ensures local { result.global ≡ false }
{
    Arg::new(alloc, "input")
        .value_name(name)
        .help(help)
        .required(true)
        .action(action)
}
