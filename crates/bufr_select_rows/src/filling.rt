//! Fills the cells of a subset that has one row.

ghost use Rattle.std.specs.Prelude.{◌≡◌, ◌≤◌, ℕ, None, true, length, map, OnOk};
ghost use Rattle.bufr_select_rows.specs.Asks.{IsSetOf};
ghost use Rattle.bufr_select_rows.specs.Cells.{AreSettled, row_of, rows_left};

use crate::awaited::Awaited;
use crate::cell::Cell;
use crate::column_descriptors::ColumnDescriptors;
use crate::row_cells::{first_unsettled, note_field, note_number, note_short, note_text};
use crate::subset_fields::SubsetFields;
use bufr_base::OutOfMemory;
use bufr_data::SUBSET_ROOM;
use std::alloc::Global;

/// Notes the fields that are left of a subset, and stops once no cell waits for one of them.
pub(crate) fn fill_cells<'v, P: SubsetFields<'v>>(
    alloc: Global,
    asked: &ColumnDescriptors,
    fields: &mut P,
    cells: &mut [Cell],
) -> Result<(), OutOfMemory>
    requires { IsSetOf asked.now None (map (λ c. c.column) cells.old) }
    ensures row { OnOk result (rows_left None cells.old true (P.left fields.old)
        ≡ row_of cells.new) }
    ensures columns { OnOk result (map (λ c. c.column) cells.new ≡ map (λ c. c.column) cells.old) }
{
    // To settle all cells takes at least a field of each descriptor.
    let most = asked.listed().len();
    let mut due = fill_numbers(asked, fields, &mut *cells, most)?;
    let mut settled = 0;
    let mut noted = most;
    'fields: loop {
        settled = first_unsettled(cells, settled);
        if settled >= cells.len() {
            return Ok(());
        }
        // A look at the template costs as much as some fields.
        if noted >= most {
            if fields.has_no_more(&Awaited { cells: &*cells }) {
                return Ok(());
            }
            noted = 0;
        }
        noted += 1;
        if let Some(number) = fields.pick_number(asked) {
            note_number(&mut *cells, asked, number);
            continue 'fields;
        }
        let next = fields.pick(alloc, asked);
        match &next {
            Ok(Some(field)) => {
                note_field(&mut *cells, asked, true, field)?;
                due = fill_numbers(asked, fields, &mut *cells, due)?;
            }
            Ok(None) => return Ok(()),
            Err(_) => return Err(OutOfMemory),
        }
    }
}

/// Notes the next fields of a subset, at most `most`, as long as they are numbers or lent texts.
/// Returns how many of `most` are left.
fn fill_numbers<'v, P: SubsetFields<'v>>(
    asked: &ColumnDescriptors,
    fields: &mut P,
    cells: &mut [Cell],
    most: usize,
) -> Result<usize, OutOfMemory>
    requires { IsSetOf asked.now None (map (λ c. c.column) cells.old) }
    ensures row { OnOk result (rows_left None cells.old true (P.left fields.old)
        ≡ rows_left None cells.new true (P.left fields.new)) }
    ensures columns { OnOk result (map (λ c. c.column) cells.new ≡ map (λ c. c.column) cells.old) }
    ensures settled { OnOk result ((n : ℕ) → AreSettled n cells.old → AreSettled n cells.new) }
    ensures fewer { OnOk result (length (P.left fields.new) ≤ length (P.left fields.old)) }
{
    let mut due = most;
    'due: while due > 0 {
        due -= 1;
        if let Some(short) = fields.pick_short() {
            note_short(&mut *cells, asked, short);
            continue 'due;
        }
        match fields.pick_number(asked) {
            Some(number) => note_number(&mut *cells, asked, number),
            None => {
                if !fill_text(asked, fields, &mut *cells)? {
                    return Ok(due);
                }
            }
        }
    }
    Ok(due)
}

/// Notes the next field of a subset, if it is a lent text. Returns whether it is.
fn fill_text<'v, P: SubsetFields<'v>>(
    asked: &ColumnDescriptors,
    fields: &mut P,
    cells: &mut [Cell],
) -> Result<bool, OutOfMemory>
    requires { IsSetOf asked.now None (map (λ c. c.column) cells.old) }
    ensures row { OnOk result (rows_left None cells.old true (P.left fields.old)
        ≡ rows_left None cells.new true (P.left fields.new)) }
    ensures columns { OnOk result (map (λ c. c.column) cells.new ≡ map (λ c. c.column) cells.old) }
    ensures settled { OnOk result ((n : ℕ) → AreSettled n cells.old → AreSettled n cells.new) }
    ensures fewer { OnOk result (length (P.left fields.new) ≤ length (P.left fields.old)) }
{
    let mut room = [0; SUBSET_ROOM];
    match fields.pick_text(asked, &mut room) {
        None => Ok(false),
        Some(text) => {
            note_text(cells, asked, text.fxy, text.octets)?;
            Ok(true)
        }
    }
}
