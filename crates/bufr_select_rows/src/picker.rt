//! The fields of subsets, picked for rows.

ghost use Rattle.std.specs.Prelude.{◌≡◌, ◌<◌, ◌≤◌, ◌||◌, ◌++◌, ℕ, List, Some, false, true, length, map};
ghost use Rattle.std.specs.Prelude.{slice_get, IfNone, IfOk, IfSome, OnErr, OnOk};
ghost use Rattle.std.specs.Bool.{OnFalse, OnTrue};
ghost use Rattle.bufr_data.specs.Compressed.Indexed.{Indexed};
ghost use Rattle.bufr_fields.specs.Values.{as_field};
ghost use Rattle.bufr_fields.specs.declared.field.Field.{Field as AField};
ghost use Rattle.bufr_data.specs.Chosen.{chosen};
ghost use Rattle.bufr_data.specs.Handed.{HandsOutAsked, PassesUnasked};
ghost use Rattle.bufr_select_rows.specs.Asks.{Finds, IsSetOf, ListsAll, flagged};
ghost use Rattle.bufr_data.specs.Turns.{OpensTurns};
ghost use Rattle.bufr_select_rows.specs.Cells.{after_field, due, ended, opened, opens, opens_at_once};
ghost use Rattle.bufr_select_rows.specs.Cells.{NotesUpTo, row_of, rows_left};
ghost use Rattle.bufr_select_rows.specs.Rows.{origin};
ghost use Rattle.bufr_select_rows.specs.Rows.{rows as subset_rows};
ghost use Rattle.bufr_io.specs.HeldTexts.{PutsOrStops};
ghost use Rattle.bufr_select_rows.specs.MessageRows.{subsets_rows};
ghost use Rattle.bufr_select_rows.specs.Sources.{HaveRows, source_row};
ghost use Rattle.bufr_select_rows.specs.Turns.{HaveSources, PutsFront, turn_row, turns_rows};

use crate::cell::Cell;
use crate::column::Column;
use crate::column_descriptors::ColumnDescriptors;
use crate::filling::fill_cells;
use crate::origin::Origin;
use crate::row_cells::{begin_cells, cells_of, note_field, note_number, open_cells};
use crate::row_line::RowLine;
use crate::source::{Source, find_sources};
use crate::subset_fields::SubsetFields;
use crate::text::field_of;
use crate::turn::{TurnRoom, TurnSource, note_turn};
use bufr_base::OutOfMemory;
use bufr_bits::Sink;
use bufr_data::{ChosenColumns, ChosenFields, NumberField, NumberTurns};
use bufr_expand::CommonField;
use bufr_io::{HeldRows, ToolFault};
use bufr_message::{Field, Fields, View};
use bufr_tables::Fxy;
use std::alloc::Global;

/// A picker of fields for the cells of rows.
#[derive(Drop)]
pub struct Picker {
    /// The descriptor of the fields that open spans.
    pub each: Option<Fxy>,
    /// The descriptors asked for.
    pub asked: ColumnDescriptors,
    /// The cells of a row.
    pub cells: Vec<Cell>,
    /// The sources of the cells in a compressed message.
    pub(crate) sources: Vec<Source>,
    /// The row that is being made.
    pub line: RowLine,
}

impl Picker {
    /// Makes a picker for columns.
    pub fn new(alloc: Global, columns: &[Column], each: Option<Fxy>) -> Result<Picker, OutOfMemory>
        ensures each { IfOk result (λ picker. picker.each ≡ each) }
        ensures cells { IfOk result (λ picker. map (λ c. c.column) picker.cells.items
            ≡ columns.now) }
        ensures covers { IfOk result (λ picker. IsSetOf picker.asked each columns.now) }
    {
        let asked = ColumnDescriptors::of(alloc, columns, copied(&each))?;
        let cells = cells_of(alloc, columns)?;
        Ok(Picker {
            each,
            asked,
            cells,
            sources: Vec::new(alloc),
            line: RowLine::new(alloc),
        })
    }
}

fn copied(each: &Option<Fxy>) -> Option<Fxy>
    ensures { result ≡ each.now }
{
    match each {
        Some(fxy) => Some(*fxy),
        None => None,
    }
}

#[inline(always)]
fn put_row<W: Sink>(
    line: &mut RowLine,
    cells: &[Cell],
    rows: &mut HeldRows,
    writer: &mut W,
) -> Result<(), ToolFault>
    requires works { (W.writing writer.old).failed ≡ false }
    ensures puts { PutsOrStops (row_of cells.now) rows.old (W.writing writer.old) rows.new
        (W.writing writer.new) result }
    ensures works { OnOk result ((W.writing writer.new).failed ≡ false) }
{
    if line.hold(cells, rows)? {
        return Ok(());
    }
    match line.row(cells) {
        Ok(row) => rows.put(row, writer),
        Err(_) => Err(ToolFault::OutOfMemory),
    }
}

/// Puts the row of cells if a span is open.
fn put_ended<W: Sink>(
    in_span: bool,
    line: &mut RowLine,
    cells: &[Cell],
    rows: &mut HeldRows,
    writer: &mut W,
) -> Result<(), ToolFault>
    requires works { (W.writing writer.old).failed ≡ false }
    ensures puts { PutsOrStops (ended in_span cells.now) rows.old (W.writing writer.old) rows.new
        (W.writing writer.new) result }
    ensures works { OnOk result ((W.writing writer.new).failed ≡ false) }
{
    if !in_span {
        return Ok(());
    }
    put_row(line, cells, rows, writer)
}

/// Returns whether a field opens a span.
fn opens(each: Option<Fxy>, field: &Field) -> bool
    ensures { result ≡ opens each field.now }
{
    match each {
        Some(each) => field.fxy == each,
        None => false,
    }
}

/// Returns whether a span is open after a field.
fn is_open_after(in_span: bool, each: Option<Fxy>, field: &Field) -> bool
    ensures { result ≡ (in_span || opens each field.now) }
{
    in_span || opens(each, field)
}

/// Returns whether a field with a number opens a span.
#[inline(always)]
fn number_opens(each: Option<Fxy>, number: &NumberField) -> bool
    ensures { result ≡ opens each (as_field number.now) }
{
    match each {
        Some(each) => number.fxy == each,
        None => false,
    }
}

/// Returns whether a span is open after a field with a number.
#[inline(always)]
fn is_open_after_number(in_span: bool, each: Option<Fxy>, number: &NumberField) -> bool
    ensures { result ≡ (in_span || opens each (as_field number.now)) }
{
    in_span || number_opens(each, number)
}

/// Takes a field with a number of a subset, and puts the row of the span that it ends.
#[inline(always)]
fn take_number<W: Sink>(
    each: Option<Fxy>,
    asked: &ColumnDescriptors,
    in_span: bool,
    number: &NumberField,
    line: &mut RowLine,
    cells: &mut [Cell],
    rows: &mut HeldRows,
    writer: &mut W,
) -> Result<(), ToolFault>
    requires works { (W.writing writer.old).failed ≡ false }
    requires finds { Finds asked.now (map (λ c. c.column) cells.old) }
    ensures puts { PutsOrStops (due each in_span cells.old (as_field number.now)) rows.old
        (W.writing writer.old) rows.new (W.writing writer.new) result }
    ensures cells { OnOk result (cells.new
        ≡ after_field each in_span cells.old (as_field number.now)) }
    ensures works { OnOk result ((W.writing writer.new).failed ≡ false) }
{
    if number_opens(each, number) {
        put_ended(in_span, line, cells, rows, writer)?;
        open_cells(cells);
        note_number(cells, asked, *number);
        return Ok(());
    }
    if !in_span {
        note_field(cells, asked, false, &field_of(*number))?;
        return Ok(());
    }
    note_number(cells, asked, *number);
    Ok(())
}

/// Takes a field of a subset, and puts the row of the span that it ends.
#[inline(always)]
fn take_field<W: Sink>(
    each: Option<Fxy>,
    asked: &ColumnDescriptors,
    in_span: bool,
    field: &Field,
    line: &mut RowLine,
    cells: &mut [Cell],
    rows: &mut HeldRows,
    writer: &mut W,
) -> Result<(), ToolFault>
    requires works { (W.writing writer.old).failed ≡ false }
    requires finds { Finds asked.now (map (λ c. c.column) cells.old) }
    ensures puts { PutsOrStops (due each in_span cells.old field.now) rows.old
        (W.writing writer.old) rows.new (W.writing writer.new) result }
    ensures cells { OnOk result (cells.new ≡ after_field each in_span cells.old field.now) }
    ensures works { OnOk result ((W.writing writer.new).failed ≡ false) }
{
    if !opens(each, field) {
        note_field(cells, asked, in_span, field)?;
        return Ok(());
    }
    put_ended(in_span, line, cells, rows, writer)?;
    open_cells(cells);
    note_field(cells, asked, true, field)?;
    Ok(())
}

/// Picks the next field if it is a number. In a span it notes the numbers before the one that opens
/// the next.
#[inline(always)]
fn pick_unnoted<'v, P: SubsetFields<'v>>(
    each: Option<Fxy>,
    asked: &ColumnDescriptors,
    in_span: bool,
    fields: &mut P,
    cells: &mut [Cell],
) -> Option<NumberField>
    requires { IsSetOf asked.now each (map (λ c. c.column) cells.old) }
    ensures found { IfSome result (λ number. (mid : List AField)
        × NotesUpTo each in_span cells.old (P.left fields.old) cells.new mid
        × HandsOutAsked (flagged asked.now) mid (Some (as_field number)) (P.left fields.new)) }
    ensures others { IfNone result ((mid : List AField)
        × NotesUpTo each in_span cells.old (P.left fields.old) cells.new mid
        × PassesUnasked (flagged asked.now) mid (P.left fields.new)) }
{
    match each {
        Some(opener) if in_span => fill_span(opener, asked, fields, cells),
        _ => fields.pick_number(asked),
    }
}

/// Notes the numbers that come next in a span. Returns the first that opens another.
#[inline(always)]
fn fill_span<'v, P: SubsetFields<'v>>(
    opener: Fxy,
    asked: &ColumnDescriptors,
    fields: &mut P,
    cells: &mut [Cell],
) -> Option<NumberField>
    requires { IsSetOf asked.now (Some opener) (map (λ c. c.column) cells.old) }
    ensures found { IfSome result (λ number. (mid : List AField)
        × NotesUpTo (Some opener) true cells.old (P.left fields.old) cells.new mid
        × HandsOutAsked (flagged asked.now) mid (Some (as_field number)) (P.left fields.new)) }
    ensures others { IfNone result ((mid : List AField)
        × NotesUpTo (Some opener) true cells.old (P.left fields.old) cells.new mid
        × PassesUnasked (flagged asked.now) mid (P.left fields.new)) }
{
    'numbers: while let Some(number) = fields.pick_number(asked) {
        if number.fxy == opener {
            return Some(number);
        }
        note_number(&mut *cells, asked, number);
    }
    None
}

/// Puts the rows of the turns that come next, but for the last, if each turn is a span of numbers.
#[inline(always)]
fn put_turns<'v, P: SubsetFields<'v>, W: Sink>(
    alloc: Global,
    each: Option<Fxy>,
    asked: &ColumnDescriptors,
    in_span: &mut bool,
    fields: &mut P,
    line: &mut RowLine,
    cells: &mut [Cell],
    rows: &mut HeldRows,
    writer: &mut W,
) -> Result<(), ToolFault>
    requires works { (W.writing writer.old).failed ≡ false }
    requires covers { IsSetOf asked.now each (map (λ c. c.column) cells.old) }
    ensures puts { PutsFront (rows_left each cells.old in_span.old (P.left fields.old))
        (rows_left each cells.new in_span.new (P.left fields.new)) rows.old (W.writing writer.old)
        rows.new (W.writing writer.new) result }
    ensures columns { OnOk result (map (λ c. c.column) cells.new ≡ map (λ c. c.column) cells.old) }
    ensures fewer { OnOk result (length (P.left fields.new) ≤ length (P.left fields.old)) }
    ensures works { OnOk result ((W.writing writer.new).failed ≡ false) }
{
    let Some(opener) = each else {
        return Ok(());
    };
    match fields.pick_turns(alloc, asked, opener) {
        Ok(Some(mut turns)) => {
            put_all_turns(
                alloc, asked, *in_span, &mut turns, line, cells, rows, writer,
            )?;
            *in_span = false;
            Ok(())
        }
        Ok(None) => Ok(()),
        Err(_) => Err(ToolFault::OutOfMemory),
    }
}

/// Puts the row of the span before turns, and the rows of the turns.
#[inline(never)]
fn put_all_turns<W: Sink>(
    alloc: Global,
    asked: &ColumnDescriptors,
    in_span: bool,
    turns: &mut NumberTurns<'_>,
    line: &mut RowLine,
    cells: &mut [Cell],
    rows: &mut HeldRows,
    writer: &mut W,
) -> Result<(), ToolFault>
    requires works { (W.writing writer.old).failed ≡ false }
    requires finds { Finds asked.now (map (λ c. c.column) cells.old) }
    ensures puts { (d : ℕ) → OpensTurns d turns.old.fields → PutsOrStops
        (ended in_span cells.old ++ turns_rows d cells.old turns.old) rows.old
        (W.writing writer.old) rows.new (W.writing writer.new) result }
    ensures opened { OnOk result (map opened cells.new ≡ map opened cells.old) }
    ensures works { OnOk result ((W.writing writer.new).failed ≡ false) }
{
    let mut room = TurnRoom::new(alloc, turns.fields(), cells)?;
    put_ended(in_span, line, cells, rows, writer)?;
    put_each_turn(
        asked,
        turns,
        &room.sources,
        &mut room.numbers,
        line,
        cells,
        rows,
        writer,
    )
}

/// Puts the rows of turns.
fn put_each_turn<W: Sink>(
    asked: &ColumnDescriptors,
    turns: &mut NumberTurns<'_>,
    sources: &[TurnSource],
    numbers: &mut [u64],
    line: &mut RowLine,
    cells: &mut [Cell],
    rows: &mut HeldRows,
    writer: &mut W,
) -> Result<(), ToolFault>
    requires works { (W.writing writer.old).failed ≡ false }
    requires finds { Finds asked.now (map (λ c. c.column) cells.old) }
    requires sources { HaveSources turns.old.fields cells.old sources.now }
    requires even { length numbers.old ≡ length turns.old.fields }
    ensures puts { (d : ℕ) → OpensTurns d turns.old.fields → PutsOrStops
        (turns_rows d cells.old turns.old) rows.old (W.writing writer.old) rows.new
        (W.writing writer.new) result }
    ensures opened { OnOk result (map opened cells.new ≡ map opened cells.old) }
    ensures works { OnOk result ((W.writing writer.new).failed ≡ false) }
{
    'turns: while turns.next(&mut *numbers) {
        put_turn(
            asked,
            turns.fields(),
            sources,
            &*numbers,
            line,
            &mut *cells,
            rows,
            writer,
        )?;
    }
    Ok(())
}

/// Puts the row of a turn.
#[inline(always)]
fn put_turn<W: Sink>(
    asked: &ColumnDescriptors,
    fields: &[CommonField],
    sources: &[TurnSource],
    numbers: &[u64],
    line: &mut RowLine,
    cells: &mut [Cell],
    rows: &mut HeldRows,
    writer: &mut W,
) -> Result<(), ToolFault>
    requires works { (W.writing writer.old).failed ≡ false }
    requires finds { Finds asked.now (map (λ c. c.column) cells.old) }
    requires sources { HaveSources fields.now cells.old sources.now }
    requires even { length numbers.now ≡ length fields.now }
    ensures puts { PutsOrStops (turn_row fields.now numbers.now cells.old) rows.old
        (W.writing writer.old) rows.new (W.writing writer.new) result }
    ensures opened { OnOk result (map opened cells.new ≡ map opened cells.old) }
    ensures works { OnOk result ((W.writing writer.new).failed ≡ false) }
{
    if line.hold_turn(sources, cells, fields, numbers, rows)? {
        return Ok(());
    }
    note_turn(&mut *cells, asked, fields, numbers);
    put_row(line, cells, rows, writer)
}

/// Puts the rows of the fields that are left of a subset.
fn put_fields<'v, P: SubsetFields<'v>, W: Sink>(
    alloc: Global,
    each: Option<Fxy>,
    asked: &ColumnDescriptors,
    fields: &mut P,
    line: &mut RowLine,
    cells: &mut [Cell],
    rows: &mut HeldRows,
    writer: &mut W,
) -> Result<(), ToolFault>
    requires works { (W.writing writer.old).failed ≡ false }
    requires covers { IsSetOf asked.now each (map (λ c. c.column) cells.old) }
    ensures puts { PutsOrStops (rows_left each cells.old (opens_at_once each) (P.left fields.old))
        rows.old (W.writing writer.old) rows.new (W.writing writer.new) result }
    ensures columns { OnOk result (map (λ c. c.column) cells.new ≡ map (λ c. c.column) cells.old) }
    ensures works { OnOk result ((W.writing writer.new).failed ≡ false) }
{
    let mut in_span = each.is_none();
    'fields: loop {
        if let Some(number) = pick_unnoted(each, asked, in_span, fields, &mut *cells) {
            take_number(
                each,
                asked,
                in_span,
                &number,
                line,
                &mut *cells,
                rows,
                writer,
            )?;
            in_span = is_open_after_number(in_span, each, &number);
            continue 'fields;
        }
        put_turns(
            alloc,
            each,
            asked,
            &mut in_span,
            fields,
            line,
            &mut *cells,
            rows,
            writer,
        )?;
        let next = fields.pick(alloc, asked);
        match &next {
            Ok(Some(field)) => {
                take_field(each, asked, in_span, field, line, &mut *cells, rows, writer)?;
                in_span = is_open_after(in_span, each, field);
            }
            Ok(None) => return put_ended(in_span, line, cells, rows, writer),
            Err(_) => return Err(ToolFault::OutOfMemory),
        }
    }
}

/// Puts the rows of the fields that are left of a subset. Without spans it takes no more fields
/// than the row needs.
fn put_rows<'v, P: SubsetFields<'v>, W: Sink>(
    alloc: Global,
    each: Option<Fxy>,
    asked: &ColumnDescriptors,
    fields: &mut P,
    line: &mut RowLine,
    cells: &mut [Cell],
    rows: &mut HeldRows,
    writer: &mut W,
) -> Result<(), ToolFault>
    requires works { (W.writing writer.old).failed ≡ false }
    requires covers { IsSetOf asked.now each (map (λ c. c.column) cells.old) }
    ensures puts { PutsOrStops (rows_left each cells.old (opens_at_once each) (P.left fields.old))
        rows.old (W.writing writer.old) rows.new (W.writing writer.new) result }
    ensures columns { OnOk result (map (λ c. c.column) cells.new ≡ map (λ c. c.column) cells.old) }
    ensures works { OnOk result ((W.writing writer.new).failed ≡ false) }
{
    match each {
        Some(_) => put_fields(alloc, each, asked, fields, line, cells, rows, writer),
        None => {
            fill_cells(alloc, asked, fields, &mut *cells)?;
            put_row(line, cells, rows, writer)
        }
    }
}

/// Puts the rows of a subset.
fn put_subset<W: Sink>(
    alloc: Global,
    each: Option<Fxy>,
    asked: &ColumnDescriptors,
    from: &Origin<'_>,
    fields: Fields<'_>,
    line: &mut RowLine,
    cells: &mut [Cell],
    rows: &mut HeldRows,
    writer: &mut W,
) -> Result<(), ToolFault>
    requires works { (W.writing writer.old).failed ≡ false }
    requires covers { IsSetOf asked.now each (map (λ c. c.column) cells.old) }
    ensures puts { PutsOrStops (subset_rows (map (λ c. c.column) cells.old) each (origin from.now)
        fields.entry) rows.old (W.writing writer.old) rows.new (W.writing writer.new) result }
    ensures columns { OnOk result (map (λ c. c.column) cells.new ≡ map (λ c. c.column) cells.old) }
    ensures works { OnOk result ((W.writing writer.new).failed ≡ false) }
{
    begin_cells(&mut *cells, from)?;
    match fields.laid() {
        Ok(mut laid) => put_rows(alloc, each, asked, &mut laid, line, cells, rows, writer),
        Err(mut left) => put_rows(alloc, each, asked, &mut left, line, cells, rows, writer),
    }
}

/// Puts the rows of the subset at an index by a walk over its template.
#[inline(never)]
fn put_walked<W: Sink>(
    alloc: Global,
    from: &Origin<'_>,
    found: &View<'_>,
    index: usize,
    picker: &mut Picker,
    rows: &mut HeldRows,
    writer: &mut W,
) -> Result<(), ToolFault>
    requires works { (W.writing writer.old).failed ≡ false }
    requires covers { IsSetOf picker.old.asked picker.old.each
        (map (λ c. c.column) picker.old.cells.items) }
    requires inside { index < length found.now.message.subsets }
    ensures puts { IfSome (slice_get found.now.message.subsets index) (λ s. PutsOrStops
        (subset_rows (map (λ c. c.column) picker.old.cells.items) picker.old.each (origin from.now)
        s.fields) rows.old (W.writing writer.old) rows.new (W.writing writer.new) result) }
    ensures columns { OnOk result (map (λ c. c.column) picker.new.cells.items
        ≡ map (λ c. c.column) picker.old.cells.items) }
    ensures each { picker.new.each ≡ picker.old.each }
    ensures asked { picker.new.asked ≡ picker.old.asked }
    ensures sources { picker.new.sources.items ≡ picker.old.sources.items }
    ensures works { OnOk result ((W.writing writer.new).failed ≡ false) }
{
    let fields = found.fields(alloc, index)?;
    put_subset(
        alloc,
        picker.each,
        &picker.asked,
        from,
        fields,
        &mut picker.line,
        &mut picker.cells,
        rows,
        writer,
    )
}

/// Puts the rows of a subset by its chosen fields.
#[inline(always)]
fn put_chosen<W: Sink>(
    alloc: Global,
    each: Option<Fxy>,
    asked: &ColumnDescriptors,
    from: &Origin<'_>,
    mut fields: ChosenFields<'_>,
    line: &mut RowLine,
    cells: &mut [Cell],
    rows: &mut HeldRows,
    writer: &mut W,
) -> Result<(), ToolFault>
    requires works { (W.writing writer.old).failed ≡ false }
    requires covers { IsSetOf asked.now each (map (λ c. c.column) cells.old) }
    ensures puts { (list : List ℕ) (all : List AField) → ListsAll asked.now list
        → fields.entry ≡ chosen list all
        → PutsOrStops (subset_rows (map (λ c. c.column) cells.old) each (origin from.now) all)
        rows.old (W.writing writer.old) rows.new (W.writing writer.new) result }
    ensures columns { OnOk result (map (λ c. c.column) cells.new ≡ map (λ c. c.column) cells.old) }
    ensures works { OnOk result ((W.writing writer.new).failed ≡ false) }
{
    begin_cells(&mut *cells, from)?;
    put_rows(alloc, each, asked, &mut fields, line, cells, rows, writer)
}

/// Finds the sources of the cells for the columns of a compressed message with several subsets,
/// unless spans have rows.
fn find_columns<'v>(
    each: Option<Fxy>,
    asked: &ColumnDescriptors,
    cells: &[Cell],
    found: &'v View<'_>,
    sources: &mut Vec<Source>,
) -> Result<Option<ChosenColumns<'v>>, OutOfMemory>
    requires covers { IsSetOf asked.now each (map (λ c. c.column) cells.now) }
    ensures { IfOk result (λ columns. IfSome columns (HaveRows each (map (λ c. c.column) cells.now)
        sources.new.items found.now.message.subsets)) }
{
    if each.is_some() || found.count() < 2 {
        return Ok(None);
    }
    match found.chosen_columns(asked.listed()) {
        Some(columns) => {
            find_sources(&columns, cells, sources)?;
            Ok(Some(columns))
        }
        None => Ok(None),
    }
}

/// Puts the rows of the subset at an index.
#[inline(always)]
fn put_subset_at<W: Sink>(
    alloc: Global,
    from: &Origin<'_>,
    found: &View<'_>,
    index: usize,
    picker: &mut Picker,
    rows: &mut HeldRows,
    writer: &mut W,
) -> Result<(), ToolFault>
    requires works { (W.writing writer.old).failed ≡ false }
    requires covers { IsSetOf picker.old.asked picker.old.each
        (map (λ c. c.column) picker.old.cells.items) }
    requires inside { index < length found.now.message.subsets }
    ensures puts { IfSome (slice_get found.now.message.subsets index) (λ s. PutsOrStops
        (subset_rows (map (λ c. c.column) picker.old.cells.items) picker.old.each (origin from.now)
        s.fields) rows.old (W.writing writer.old) rows.new (W.writing writer.new) result) }
    ensures columns { OnOk result (map (λ c. c.column) picker.new.cells.items
        ≡ map (λ c. c.column) picker.old.cells.items) }
    ensures each { picker.new.each ≡ picker.old.each }
    ensures asked { picker.new.asked ≡ picker.old.asked }
    ensures sources { picker.new.sources.items ≡ picker.old.sources.items }
    ensures works { OnOk result ((W.writing writer.new).failed ≡ false) }
{
    match found.chosen(picker.asked.listed(), index) {
        Some(fields) => put_chosen(
            alloc,
            picker.each,
            &picker.asked,
            from,
            fields,
            &mut picker.line,
            &mut picker.cells,
            rows,
            writer,
        ),
        None => put_walked(alloc, from, found, index, picker, rows, writer),
    }
}

/// Puts the rows of the subset at an index, straight from its columns if they are found and its row
/// is short.
#[inline(always)]
fn put_from_columns<W: Sink>(
    alloc: Global,
    from: &Origin<'_>,
    found: &View<'_>,
    columns: &Option<ChosenColumns<'_>>,
    index: usize,
    picker: &mut Picker,
    rows: &mut HeldRows,
    writer: &mut W,
) -> Result<(), ToolFault>
    requires works { (W.writing writer.old).failed ≡ false }
    requires covers { IsSetOf picker.old.asked picker.old.each
        (map (λ c. c.column) picker.old.cells.items) }
    requires have { IfSome columns.now (HaveRows picker.old.each
        (map (λ c. c.column) picker.old.cells.items) picker.old.sources.items
        found.now.message.subsets) }
    requires inside { index < length found.now.message.subsets }
    ensures puts { IfSome (slice_get found.now.message.subsets index) (λ s. PutsOrStops
        (subset_rows (map (λ c. c.column) picker.old.cells.items) picker.old.each (origin from.now)
        s.fields) rows.old (W.writing writer.old) rows.new (W.writing writer.new) result) }
    ensures columns { OnOk result (map (λ c. c.column) picker.new.cells.items
        ≡ map (λ c. c.column) picker.old.cells.items) }
    ensures each { picker.new.each ≡ picker.old.each }
    ensures asked { picker.new.asked ≡ picker.old.asked }
    ensures sources { picker.new.sources.items ≡ picker.old.sources.items }
    ensures works { OnOk result ((W.writing writer.new).failed ≡ false) }
{
    if let Some(columns) = columns {
        let line = &mut picker.line;
        if line.hold_subset(&picker.sources, columns, from, index, rows)? {
            return Ok(());
        }
    }
    put_subset_at(alloc, from, found, index, picker, rows, writer)
}

/// Puts the rows of a message.
pub fn put_message<W: Sink>(
    alloc: Global,
    from: &Origin<'_>,
    found: &View<'_>,
    picker: &mut Picker,
    rows: &mut HeldRows,
    writer: &mut W,
) -> Result<(), ToolFault>
    requires works { (W.writing writer.old).failed ≡ false }
    requires covers { IsSetOf picker.old.asked picker.old.each
        (map (λ c. c.column) picker.old.cells.items) }
    ensures puts { PutsOrStops (subsets_rows picker.old.each
        (map (λ c. c.column) picker.old.cells.items) (origin from.now) 1
        found.now.message.subsets) rows.old (W.writing writer.old) rows.new
        (W.writing writer.new) result }
    ensures columns { OnOk result (map (λ c. c.column) picker.new.cells.items
        ≡ map (λ c. c.column) picker.old.cells.items) }
    ensures each { picker.new.each ≡ picker.old.each }
    ensures asked { picker.new.asked ≡ picker.old.asked }
    ensures works { OnOk result ((W.writing writer.new).failed ≡ false) }
{
    let columns = find_columns(
        picker.each,
        &picker.asked,
        &picker.cells,
        found,
        &mut picker.sources,
    )?;
    // A copy for each subset would take as long as a field.
    let mut here = *from;
    for index in 0..found.count() {
        here.subset = index as u64 + 1;
        put_from_columns(
            alloc,
            &here,
            found,
            &columns,
            index,
            &mut *picker,
            rows,
            writer,
        )?;
    }
    Ok(())
}
