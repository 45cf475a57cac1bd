//! The rows of turns of a replication, each written straight from the numbers of its turn.

ghost use Rattle.std.specs.Prelude.{◌≡◌, ◌≤◌, ◌++◌, drop, length, map, slice_get, Some, IfOk, IfSome};
ghost use Rattle.csv.specs.Writing.{default_writer, field_text, fields_text};
ghost use Rattle.bufr_fields.specs.Values.{as_field};
ghost use Rattle.bufr_data.specs.Turns.{numbered};
ghost use Rattle.bufr_select_rows.specs.Asks.{Finds};
ghost use Rattle.bufr_select_rows.specs.Turns.{HaveSources, after_turn, sourced, sourced_row};
ghost use Rattle.bufr_select_rows.specs.Turns.{turn_nth, turn_source, turn_text};

use crate::cell::Cell;
use crate::column::Column;
use crate::column_descriptors::ColumnDescriptors;
use crate::row_cells::{note_number, open_cells};
use crate::text::write_value;
use bufr_base::OutOfMemory;
use bufr_expand::{CommonField, Spec};
use bufr_fields::NumberField;
use bufr_tables::Fxy;
use std::alloc::Global;

/// A source of the cells of a column, for all turns of a replication.
#[derive(Clone, Copy, Drop)]
pub(crate) enum TurnSource {
    /// The text from before the turns.
    Before,
    /// The field at an index.
    Field(usize),
    Nothing,
}

/// A room for the numbers of a turn, with the sources of the cells.
#[derive(Drop)]
pub(crate) struct TurnRoom {
    pub(crate) sources: Vec<TurnSource>,
    pub(crate) numbers: Vec<u64>,
}

impl TurnRoom {
    pub(crate) fn new(
        alloc: Global,
        fields: &[CommonField],
        cells: &[Cell],
    ) -> Result<TurnRoom, OutOfMemory>
        ensures sources { IfOk result (λ room.
            HaveSources fields.now cells.now room.sources.items) }
        ensures even { IfOk result (λ room. length room.numbers.items ≡ length fields.now) }
    {
        let sources = find_sources(alloc, fields, cells)?;
        let mut numbers = Vec::new(alloc);
        numbers.resize(fields.len(), 0)?;
        Ok(TurnRoom { sources, numbers })
    }
}

/// Finds the source of each cell.
fn find_sources(
    alloc: Global,
    fields: &[CommonField],
    cells: &[Cell],
) -> Result<Vec<TurnSource>, OutOfMemory>
    ensures { IfOk result (λ sources. HaveSources fields.now cells.now sources.items) }
{
    let mut sources = Vec::with_capacity(alloc, cells.len())?;
    for cell in cells {
        sources.push(source_in_turn(fields, cell.column))?;
    }
    Ok(sources)
}

fn source_in_turn(fields: &[CommonField], column: Column) -> TurnSource
    ensures { result ≡ turn_source fields.now column }
{
    match column {
        Column::Fact(_) => TurnSource::Before,
        Column::First(fxy) => nth_in_turn(fields, fxy, 1),
        Column::Nth(fxy, number) => nth_in_turn(fields, fxy, number),
    }
}

/// Finds the n-th field with a descriptor.
fn nth_in_turn(fields: &[CommonField], fxy: Fxy, number: u64) -> TurnSource
    ensures { result ≡ turn_nth fxy number fields.now }
{
    if number == 0 {
        return TurnSource::Nothing;
    }
    let mut ahead = number - 1;
    let mut index = 0;
    'fields: while let Some(field) = fields.get(index) {
        if field.fxy != fxy {
            index += 1;
            continue 'fields;
        }
        if ahead == 0 {
            return TurnSource::Field(index);
        }
        ahead -= 1;
        index += 1;
    }
    TurnSource::Before
}

/// Writes the row of a turn, like `write_row`.
#[inline(always)]
pub(crate) fn write_turn(
    room: &mut [u8],
    sources: &[TurnSource],
    cells: &[Cell],
    fields: &[CommonField],
    numbers: &[u64],
) -> Option<usize>
    requires { HaveSources fields.now cells.now sources.now }
    ensures written { IfSome result (λ start. drop start room.new
        ≡ sourced_row fields.now numbers.now cells.now) }
    ensures within { IfSome result (λ start. start ≤ length room.new) }
{
    let Some((first, others)) = cells.split_first() else {
        return None;
    };
    let Some((source, other_sources)) = sources.split_first() else {
        return None;
    };
    if others.is_empty() || room.is_empty() {
        return None;
    }
    let last = room.len() - 1;
    room[last] = b'\n';
    let start = write_turn_cells(room, last, other_sources, others, fields, numbers)?;
    write_turn_cell(room, start, *source, first, fields, numbers)
}

/// Writes the cells of a turn, each after a comma.
#[inline(always)]
#[tactic(auto, unfolding(csv::specs::Writing::fields_text))]
fn write_turn_cells(
    room: &mut [u8],
    end: usize,
    sources: &[TurnSource],
    cells: &[Cell],
    fields: &[CommonField],
    numbers: &[u64],
) -> Option<usize>
    requires room { end ≤ length room.old }
    requires sources { HaveSources fields.now cells.now sources.now }
    ensures written { IfSome result (λ start. drop start room.new ≡ fields_text default_writer
        (map (sourced fields.now numbers.now) cells.now) ++ drop end room.old) }
    ensures within { IfSome result (λ start. start ≤ end) }
{
    let mut left = cells;
    let mut sources_left = sources;
    let mut start = end;
    while let Some((cell, others)) = left.split_last() {
        let Some((source, other_sources)) = sources_left.split_last() else {
            return None;
        };
        let field = write_turn_cell(room, start, *source, cell, fields, numbers)?;
        if field == 0 {
            return None;
        }
        room[field - 1] = b',';
        start = field - 1;
        left = others;
        sources_left = other_sources;
    }
    Some(start)
}

/// Writes the cell of a source, unless it has no short form.
#[inline(always)]
fn write_turn_cell(
    room: &mut [u8],
    end: usize,
    source: TurnSource,
    cell: &Cell,
    fields: &[CommonField],
    numbers: &[u64],
) -> Option<usize>
    requires { end ≤ length room.old }
    ensures written { IfSome result (λ start. drop start room.new ≡ field_text default_writer
        (turn_text (numbered fields.now numbers.now) cell.now source) ++ drop end room.old) }
    ensures within { IfSome result (λ start. start ≤ end) }
{
    match source {
        TurnSource::Nothing => Some(end),
        TurnSource::Before => cell.before.write_to(room, end),
        TurnSource::Field(index) => match number_at(fields, numbers, index) {
            Some(number) => write_value(room, end, number),
            None => None,
        },
    }
}

/// Returns the field at an index.
#[inline(always)]
fn number_at(fields: &[CommonField], numbers: &[u64], index: usize) -> Option<NumberField>
    ensures { IfSome result (λ number.
        slice_get (numbered fields.now numbers.now) index ≡ Some (as_field number)) }
{
    let Some(field) = fields.get(index) else {
        return None;
    };
    match numbers.get(index) {
        Some(number) => Some(field_with(field, *number)),
        None => None,
    }
}

/// Makes a field with a number, part by part, since copies of its padding are slow.
#[inline(always)]
fn field_with(field: &CommonField, number: u64) -> NumberField
    ensures { result ≡ record { fxy = field.now.fxy; spec = field.now.spec; number = number } }
{
    let spec = Spec {
        kind: field.spec.kind,
        scale: field.spec.scale,
        reference: field.spec.reference,
        width: field.spec.width,
    };
    NumberField {
        fxy: field.fxy,
        spec,
        number,
    }
}

/// Notes the fields of a turn in cells.
#[inline(never)]
pub(crate) fn note_turn(
    cells: &mut [Cell],
    asked: &ColumnDescriptors,
    fields: &[CommonField],
    numbers: &[u64],
)
    requires finds { Finds asked.now (map (λ c. c.column) cells.old) }
    requires even { length numbers.now ≡ length fields.now }
    ensures { cells.new ≡ after_turn fields.now numbers.now cells.old }
{
    open_cells(cells);
    for index in 0..fields.len() {
        note_number(
            &mut *cells,
            asked,
            field_with(&fields[index], numbers[index]),
        );
    }
}
