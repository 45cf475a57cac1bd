//! The columns that a text names.

ghost use Rattle.std.specs.Prelude.{◌≡◌, map, IfErr, IfOk};
ghost use Rattle.std.specs.List.{IsDistinct, list_any};
ghost use Rattle.std.specs.Str.{bytes_eq};
ghost use Rattle.bufr_ls_engine.specs.Columns.{RefusesColumns, word, words_of};
ghost use Rattle.bufr_ls_engine.specs.ColumnSteps.{AddsColumn};

use crate::column::Column;
use std::alloc::Global;
use thiserror::Error;

/// A fault of a text of columns.
#[derive(Clone, Copy, Debug, Drop, PartialEq, Eq, Error)]
pub enum ColumnsFault<'a> {
    /// No column has this word.
    #[error("no column {0}")]
    NoColumn(&'a str),
    /// The text has this word twice.
    #[error("column {0} twice")]
    Twice(&'a str),
    /// Memory ran out.
    #[error("out of memory")]
    OutOfMemory,
}

/// Returns the columns of the words of a text, with commas between them.
pub fn columns_of(alloc: Global, text: &str) -> Result<Vec<Column>, ColumnsFault<'_>>
    ensures named { IfOk result (λ columns. map word columns.items ≡ words_of text.now) }
    ensures distinct { IfOk result (λ columns. IsDistinct bytes_eq (words_of text.now)) }
    ensures refused { IfErr result (RefusesColumns text.now) }
{
    let mut columns = Vec::new(alloc);
    let mut rest = text;
    'words: loop {
        match rest.split_once(',') {
            Some((here, after)) => {
                add_column(&mut columns, here)?;
                rest = after;
            }
            None => {
                add_column(&mut columns, rest)?;
                return Ok(columns);
            }
        }
    }
}

/// Adds the column of a word, unless the columns have it.
fn add_column<'a>(columns: &mut Vec<Column>, here: &'a str) -> Result<(), ColumnsFault<'a>>
    ensures { AddsColumn columns.old.items columns.new.items here.now result }
{
    let Some(column) = Column::from_word(here) else {
        return Err(ColumnsFault::NoColumn(here));
    };
    if has_word(columns, here) {
        return Err(ColumnsFault::Twice(here));
    }
    match columns.push(column) {
        Ok(()) => Ok(()),
        Err(_) => Err(ColumnsFault::OutOfMemory),
    }
}

/// Returns whether a column has this word.
fn has_word(columns: &[Column], here: &str) -> bool
    ensures { result ≡ list_any (λ column. bytes_eq (word column) here.now) columns.now }
{
    columns.iter().any(|column| column.word() == here)
}
