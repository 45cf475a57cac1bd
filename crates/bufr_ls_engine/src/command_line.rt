//! The command line of `bufr-ls`.

ghost use Rattle.std.specs.Prelude.{◌≡◌, true, false, map, codes, option_map, IfOk, IfErr};
ghost use Rattle.clap.specs.Words.{app_of, kind_of, rule_of, takes};
ghost use Rattle.clap.specs.declared.error.ErrorKind.TheVariants.{OutOfMemory as NoMemory};
ghost use Rattle.bufr_ls_engine.specs.CommandLines.{bare_program, columns_option, program};
ghost use Rattle.bufr_ls_engine.specs.CommandLines.{value_of, values_of};

use bufr_base::OutOfMemory;
use bufr_program::{files_argument, values};
use clap::{Arg, ArgAction, Command, Error};
use std::alloc::Global;
use std::convert::AsStr;

/// The name of the program.
pub(crate) const NAME: &str = "bufr-ls";

/// The version of the program.
const VERSION: &str = "0.1.0";

/// An example at the end of the help.
const EXAMPLE: &str = "Example: bufr-ls -c centre,category day/*.bufr | sort | uniq -c";

/// A command line.
#[derive(Drop)]
pub struct CommandLine<'a> {
    /// The text of the columns.
    pub columns: Option<&'a str>,
    /// The paths of the files, in order.
    pub files: Vec<&'a str>,
}

/// Returns the command line of words, without the program's name. If they ask for help or the version,
/// the error of `clap` has the text and the exit status.
pub fn line<'a, S: AsStr>(alloc: Global, words: &'a [S]) -> Result<CommandLine<'a>, Error>
    // The columns and the files are the values that `clap` defines for the words.
    ensures columns { IfOk result (λ l. option_map (λ text. text.now) l.columns
        ≡ value_of (codes "columns") (map S.text words.now)) }
    ensures files { IfOk result (λ l. map (λ path. path.now) l.files.items
        ≡ values_of (codes "file") (map S.text words.now)) }
    // `line` refuses words that `clap` takes for memory alone.
    ensures taken { IfErr result
        (λ e. takes program (map S.text words.now) ≡ true → kind_of e ≡ NoMemory) }
{
    let matches = program(alloc)?.try_get_matches_from(words)?;
    let columns = matches.get_str("columns");
    let files = values(alloc, &matches, "file");
    drop(matches);
    Ok(CommandLine {
        columns,
        files: files?,
    })
}

fn program<'a>(alloc: Global) -> Result<Command<'a>, OutOfMemory>
    ensures { IfOk result (λ c. app_of c ≡ program) }
{
    bare_program(alloc)
        .arg(columns_option(alloc))?
        .arg(files_argument(alloc))
}

/// Describes the program without arguments.
fn bare_program<'a>(alloc: Global) -> Command<'a>
    ensures { app_of result ≡ bare_program }
{
    Command::new(alloc, NAME)
        .about("Prints a row for each BUFR message of files: where it is and what its head says")
        .version(VERSION)
        .after_help(EXAMPLE)
        .no_binary_name(true)
}

fn columns_option<'a>(alloc: Global) -> Arg<'a>
    ensures rule { rule_of result ≡ columns_option }
    ensures local { result.global ≡ false }
{
    Arg::new(alloc, "columns")
        .short('c')
        .value_name("COLUMNS")
        .help("The columns and their order, with commas between them; all if this is left out")
        .action(ArgAction::Set)
}
