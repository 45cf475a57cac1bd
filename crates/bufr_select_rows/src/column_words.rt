//! The columns that a text names.

ghost use Rattle.std.specs.Prelude.{◌≡◌, map, IfErr, IfOk};
ghost use Rattle.std.specs.List.{AllByRecursion, IsDistinct, list_any};
ghost use Rattle.std.specs.Str.{bytes_eq};
ghost use Rattle.bufr_select_rows.specs.Columns.{IsColumn, RefusesColumns, word, words_of};
ghost use Rattle.bufr_select_rows.specs.ColumnSteps.{AddsColumn};

use crate::column::Column;
use bufr_base::OutOfMemory;
use std::alloc::Global;
use thiserror::Error;

/// A fault of a text of columns.
#[derive(Clone, Copy, Debug, Drop, PartialEq, Eq, Error)]
pub enum ColumnsFault<'a> {
    /// No column has this word.
    #[error("no column {0}")]
    NoColumn(&'a str),
    /// The text has this word twice.
    #[error("column {0} twice")]
    Twice(&'a str),
    /// Memory ran out.
    #[error("out of memory")]
    OutOfMemory,
}

/// Returns the columns of words with commas between them.
pub fn columns_of(alloc: Global, text: &str) -> Result<Vec<Column>, ColumnsFault<'_>>
    ensures can_be { IfOk result (λ columns. AllByRecursion IsColumn columns.items) }
    ensures named { IfOk result (λ columns. map word columns.items ≡ words_of text.now) }
    ensures distinct { IfOk result (λ columns. IsDistinct bytes_eq (words_of text.now)) }
    ensures refused { IfErr result (RefusesColumns text.now) }
{
    let mut columns = Vec::new(alloc);
    let mut rest = text;
    'words: loop {
        match rest.split_once(',') {
            Some((here, after)) => {
                add_column(alloc, &mut columns, here)?;
                rest = after;
            }
            None => {
                add_column(alloc, &mut columns, rest)?;
                return Ok(columns);
            }
        }
    }
}

/// Adds the column of a word, unless the columns have it.
fn add_column<'a>(
    alloc: Global,
    columns: &mut Vec<Column>,
    here: &'a str,
) -> Result<(), ColumnsFault<'a>>
    ensures { AddsColumn columns.old.items columns.new.items here.now result }
{
    let Some(column) = Column::from_word(here) else {
        return Err(ColumnsFault::NoColumn(here));
    };
    match has_word(alloc, columns, here) {
        Ok(false) => {}
        Ok(true) => return Err(ColumnsFault::Twice(here)),
        Err(_) => return Err(ColumnsFault::OutOfMemory),
    }
    match columns.push(column) {
        Ok(()) => Ok(()),
        Err(_) => Err(ColumnsFault::OutOfMemory),
    }
}

/// Returns whether one of the columns has this word.
fn has_word(alloc: Global, columns: &[Column], here: &str) -> Result<bool, OutOfMemory>
    ensures { IfOk result (λ there. there
        ≡ list_any (λ column. bytes_eq (word column) here.now) columns.now) }
{
    for column in columns {
        if is_word(alloc, *column, here)? {
            return Ok(true);
        }
    }
    Ok(false)
}

/// Returns whether the column has this word.
fn is_word(alloc: Global, column: Column, here: &str) -> Result<bool, OutOfMemory>
    ensures { IfOk result (λ is. is ≡ bytes_eq (word column) here.now) }
{
    let mut text = Vec::new(alloc);
    column.push_word(&mut text)?;
    Ok(text.as_slice() == here.as_bytes())
}
