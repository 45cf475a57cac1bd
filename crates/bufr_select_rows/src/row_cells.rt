//! All cells of a row.

ghost use Rattle.std.specs.Prelude.{◌≡◌, map, true, IfOk, OnOk};
ghost use Rattle.bufr_fields.specs.Values.{as_field};
ghost use Rattle.bufr_fields.specs.declared.field.NumberField.{NumberField as ANumberField};
ghost use Rattle.bufr_data.specs.Short.{HasShort};
ghost use Rattle.bufr_data.specs.LentTexts.{HasOctets};
ghost use Rattle.bufr_fields.specs.declared.field.Field.{Field as AField};
ghost use Rattle.bufr_select_rows.specs.Asks.{Finds};
ghost use Rattle.bufr_select_rows.specs.Cells.{AreSettled, begun, fresh, noted, opened};
ghost use Rattle.bufr_select_rows.specs.Rows.{origin};
ghost use Rattle.bufr_select_rows.specs.ShortCells.{noted_short};
ghost use Rattle.bufr_select_rows.specs.TextCells.{noted_text};

use crate::cell::Cell;
use crate::column::Column;
use crate::column_descriptors::ColumnDescriptors;
use crate::origin::Origin;
use bufr_base::OutOfMemory;
use bufr_data::ShortNumber;
use bufr_expand::Spec;
use bufr_fields::{Field, NumberField};
use bufr_tables::Fxy;
use std::alloc::Global;

pub(crate) fn cells_of(alloc: Global, columns: &[Column]) -> Result<Vec<Cell>, OutOfMemory>
    ensures { IfOk result (λ cells. cells.items ≡ map fresh columns.now) }
{
    let mut cells = Vec::with_capacity(alloc, columns.len())?;
    for column in columns {
        cells.push(Cell::new(alloc, *column))?;
    }
    Ok(cells)
}

pub(crate) fn begin_cells(cells: &mut [Cell], from: &Origin<'_>) -> Result<(), OutOfMemory>
    ensures { OnOk result (cells.new
        ≡ map (λ cell. begun (origin from.now) cell.column) cells.old) }
{
    for cell in cells.iter_mut() {
        cell.begin(from)?;
    }
    Ok(())
}

pub(crate) fn open_cells(cells: &mut [Cell])
    ensures { cells.new ≡ map opened cells.old }
{
    for cell in cells.iter_mut() {
        cell.open();
    }
}

/// Notes a field of a span, or one before all spans.
#[inline(always)]
pub(crate) fn note_field(
    cells: &mut [Cell],
    asked: &ColumnDescriptors,
    in_span: bool,
    field: &Field,
) -> Result<(), OutOfMemory>
    requires { Finds asked.now (map (λ c. c.column) cells.old) }
    ensures { OnOk result (cells.new ≡ map (noted in_span field.now) cells.old) }
{
    match asked.cell_of(field.fxy) {
        Some(index) if index < cells.len() => cells[index].note(in_span, field),
        _ => note_in_all(cells, in_span, field),
    }
}

/// Notes a field with a number of a span.
#[inline(always)]
pub(crate) fn note_number(cells: &mut [Cell], asked: &ColumnDescriptors, number: NumberField)
    requires { Finds asked.now (map (λ c. c.column) cells.old) }
    ensures { cells.new ≡ map (noted true (as_field number)) cells.old }
{
    let number = by_parts(number);
    match asked.cell_of(number.fxy) {
        Some(index) if index < cells.len() => cells[index].note_number(number),
        // The address of `number` itself would keep it in memory.
        _ => note_number_in_all(cells, &by_parts(number)),
    }
}

/// Notes a field with a number of a span in each cell.
fn note_number_in_all(cells: &mut [Cell], number: &NumberField)
    ensures { cells.new ≡ map (noted true (as_field number.now)) cells.old }
{
    for cell in cells.iter_mut() {
        cell.note_number(*number);
    }
}

/// Notes a field with a short number, in a span.
#[inline(always)]
pub(crate) fn note_short(cells: &mut [Cell], asked: &ColumnDescriptors, short: ShortNumber)
    requires { Finds asked.now (map (λ c. c.column) cells.old) }
    ensures { (f : ANumberField) → HasShort f short
        → cells.new ≡ map (noted true (as_field f)) cells.old }
{
    match asked.cell_of(short.fxy) {
        Some(index) if index < cells.len() => cells[index].note_short(short),
        _ => note_short_in_all(cells, &short),
    }
}

/// Notes a field with a short number in each cell.
fn note_short_in_all(cells: &mut [Cell], short: &ShortNumber)
    ensures { cells.new ≡ map (noted_short short.now) cells.old }
{
    for cell in cells.iter_mut() {
        cell.note_short(*short);
    }
}

/// Notes a field with the octets of a text, in a span.
pub(crate) fn note_text(
    cells: &mut [Cell],
    asked: &ColumnDescriptors,
    fxy: Fxy,
    octets: &[u8],
) -> Result<(), OutOfMemory>
    requires { Finds asked.now (map (λ c. c.column) cells.old) }
    ensures { OnOk result ((f : AField) → HasOctets f fxy octets.now
        → cells.new ≡ map (noted true f) cells.old) }
{
    match asked.cell_of(fxy) {
        Some(index) if index < cells.len() => cells[index].note_text(fxy, octets),
        _ => note_text_in_all(cells, fxy, octets),
    }
}

/// Notes a field with the octets of a text in each cell.
fn note_text_in_all(cells: &mut [Cell], fxy: Fxy, octets: &[u8]) -> Result<(), OutOfMemory>
    ensures { OnOk result (cells.new ≡ map (noted_text fxy octets.now) cells.old) }
{
    for cell in cells.iter_mut() {
        cell.note_text(fxy, octets)?;
    }
    Ok(())
}

/// Copies a field with a number part by part, since copies of its padding are slow.
#[inline(always)]
fn by_parts(field: NumberField) -> NumberField
    ensures { result ≡ field }
{
    let NumberField { fxy, spec, number } = field;
    let Spec {
        kind,
        scale,
        reference,
        width,
    } = spec;
    let spec = Spec {
        kind,
        scale,
        reference,
        width,
    };
    NumberField { fxy, spec, number }
}

/// Notes a field in each cell.
fn note_in_all(cells: &mut [Cell], in_span: bool, field: &Field) -> Result<(), OutOfMemory>
    ensures { OnOk result (cells.new ≡ map (noted in_span field.now) cells.old) }
{
    for cell in cells.iter_mut() {
        cell.note(in_span, field)?;
    }
    Ok(())
}

/// Returns the index of the first unsettled cell from `from` on, or the number of cells.
#[inline(always)]
pub(crate) fn first_unsettled(cells: &[Cell], from: usize) -> usize
    requires { AreSettled from cells.now }
    ensures { AreSettled result cells.now }
{
    let mut index = from;
    while index < cells.len() && cells[index].is_settled() {
        index += 1;
    }
    index
}
