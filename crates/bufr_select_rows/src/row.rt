//! Rows of comma-separated values.

ghost use Rattle.std.specs.Prelude.{◌≡◌, ◌++◌, ◌∷◌, [], map, OnOk};
ghost use Rattle.csv.specs.Writing.{default_writer, fields_text, row_text};
ghost use Rattle.bufr_select_rows.specs.Cells.{row_of, shown};
ghost use Rattle.bufr_select_rows.specs.Columns.{word};
ghost use Rattle.bufr_select_rows.specs.Rows.{header};

use crate::cell::Cell;
use crate::column::Column;
use crate::quotes::push_field;
use bufr_base::OutOfMemory;
use std::alloc::Global;

// If memory runs out, the functions below leave a part of what they add.

/// Adds the row of cells.
pub(crate) fn push_row(text: &mut Vec<u8>, cells: &[Cell]) -> Result<(), OutOfMemory>
    ensures { OnOk result (text.new.items ≡ text.old.items ++ row_of cells.now) }
{
    match cells {
        [] => push_blank(text),
        [first, others @ ..] => {
            if others.is_empty() {
                return push_only(text, first);
            }
            first.shown().push_to(text)?;
            push_others(text, others)?;
            push_end(text)
        }
    }
}

/// Adds the fields of cells, each after a comma.
#[tactic(auto, unfolding(csv::specs::Writing::fields_text))]
fn push_others(text: &mut Vec<u8>, cells: &[Cell]) -> Result<(), OutOfMemory>
    ensures { OnOk result (text.new.items
        ≡ text.old.items ++ fields_text default_writer (map shown cells.now)) }
{
    let mut left = cells;
    while let [cell, others @ ..] = left {
        text.push(b',')?;
        cell.shown().push_to(text)?;
        left = others;
    }
    Ok(())
}

/// Adds the row of one cell.
fn push_only(text: &mut Vec<u8>, cell: &Cell) -> Result<(), OutOfMemory>
    ensures { OnOk result (text.new.items
        ≡ text.old.items ++ row_text default_writer (shown cell.now ∷ [])) }
{
    let long = text.len();
    cell.shown().push_to(text)?;
    if text.len() == long {
        return push_blank(text);
    }
    push_end(text)
}

/// Adds the header line of columns.
pub fn push_header(alloc: Global, text: &mut Vec<u8>, columns: &[Column]) -> Result<(), OutOfMemory>
    ensures { OnOk result (text.new.items ≡ text.old.items ++ header columns.now) }
{
    let mut word = Vec::new(alloc);
    match columns {
        [] => push_blank(text),
        [first, others @ ..] => {
            first.push_word(&mut word)?;
            if others.is_empty() {
                return push_alone(text, word.as_slice());
            }
            push_field(text, word.as_slice())?;
            push_words(alloc, text, others)?;
            push_end(text)
        }
    }
}

/// Adds the words of columns, each after a comma.
#[tactic(auto, unfolding(csv::specs::Writing::fields_text))]
fn push_words(alloc: Global, text: &mut Vec<u8>, columns: &[Column]) -> Result<(), OutOfMemory>
    ensures { OnOk result (text.new.items
        ≡ text.old.items ++ fields_text default_writer (map word columns.now)) }
{
    let mut left = columns;
    while let [column, others @ ..] = left {
        let mut word = Vec::new(alloc);
        column.push_word(&mut word)?;
        text.push(b',')?;
        push_field(text, word.as_slice())?;
        left = others;
    }
    Ok(())
}

fn push_alone(text: &mut Vec<u8>, field: &[u8]) -> Result<(), OutOfMemory>
    ensures { OnOk result (text.new.items
        ≡ text.old.items ++ row_text default_writer (field.now ∷ [])) }
{
    if field.is_empty() {
        return push_blank(text);
    }
    push_field(text, field)?;
    push_end(text)
}

fn push_blank(text: &mut Vec<u8>) -> Result<(), OutOfMemory>
    ensures { OnOk result (text.new.items ≡ text.old.items ++ 34 ∷ 34 ∷ 10 ∷ []) }
{
    text.extend_from_slice(b"\"\"\n")
}

/// Adds the end of a row.
fn push_end(text: &mut Vec<u8>) -> Result<(), OutOfMemory>
    ensures { OnOk result (text.new.items ≡ text.old.items ++ 10 ∷ []) }
{
    text.push(b'\n')?;
    Ok(())
}
