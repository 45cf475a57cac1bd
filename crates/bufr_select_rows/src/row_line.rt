//! A row, made in a room that is used again.

ghost use Rattle.std.specs.Prelude.{◌≡◌, ◌<◌, ◌≤◌, ◌++◌, drop, length, map, IfOk, IfSome, OnErr};
ghost use Rattle.std.specs.Bool.{OnFalse, OnTrue};
ghost use Rattle.csv.specs.Writing.{default_writer, fields_text};
ghost use Rattle.bufr_data.specs.Compressed.{subset_of};
ghost use Rattle.bufr_select_rows.specs.Cells.{row_of, shown};
ghost use Rattle.bufr_select_rows.specs.Rows.{origin};
ghost use Rattle.bufr_select_rows.specs.Sources.{source_row, source_text};
ghost use Rattle.bufr_select_rows.specs.Turns.{HaveSources, sourced_row};

use crate::cell::Cell;
use crate::origin::Origin;
use crate::row::push_row;
use crate::source::{Source, write_cell};
use crate::turn::{TurnSource, write_turn};
use bufr_base::OutOfMemory;
use bufr_data::ChosenColumns;
use bufr_expand::CommonField;
use bufr_io::HeldRows;
use std::alloc::Global;

/// The length of the room.
const ROOM: usize = 1024;

/// The length of held rows up to which `HeldRows::put` would not write a short row.
const MOST_HELD: usize = 64_512;

/// A row, made in a room that is used again.
#[derive(Debug, Drop)]
pub struct RowLine {
    /// The room; a short row is written at its end.
    room: [u8; ROOM],
    /// Another row.
    long: Vec<u8>,
}

impl RowLine {
    /// Makes the room.
    pub fn new(alloc: Global) -> RowLine {
        RowLine {
            room: [0; ROOM],
            long: Vec::new(alloc),
        }
    }

    /// Makes the row of cells.
    pub fn row(&mut self, cells: &[Cell]) -> Result<&[u8], OutOfMemory>
        ensures { IfOk result (λ row. row.now ≡ row_of cells.now) }
    {
        if let Some(start) = write_row(&mut self.room, cells) {
            let made = &*self;
            return Ok(&made.room[start..]);
        }
        self.long.clear();
        push_row(&mut self.long, cells)?;
        Ok(&self.long)
    }

    /// Adds the row of cells to the held rows, if it is short and they are few. Returns whether it
    /// did.
    #[inline(never)]
    pub(crate) fn hold(&mut self, cells: &[Cell], rows: &mut HeldRows) -> Result<bool, OutOfMemory>
        ensures held { IfOk result (λ held. OnTrue held (rows.new.held.items
            ≡ rows.old.held.items ++ row_of cells.now)) }
        ensures others { IfOk result (λ held. OnFalse held (rows.new ≡ rows.old)) }
        ensures err { OnErr result (rows.new.held.items ≡ rows.old.held.items) }
        ensures written { rows.new.written ≡ rows.old.written }
    {
        if rows.held.len() >= MOST_HELD {
            return Ok(false);
        }
        match write_row(&mut self.room, cells) {
            Some(start) => {
                rows.held.extend_from_slice(&self.room[start..])?;
                Ok(true)
            }
            None => Ok(false),
        }
    }

    /// Adds the row of sources for a subset to the held rows, like `hold`.
    #[inline(never)]
    pub(crate) fn hold_subset(
        &mut self,
        sources: &[Source],
        columns: &ChosenColumns<'_>,
        from: &Origin<'_>,
        subset: usize,
        rows: &mut HeldRows,
    ) -> Result<bool, OutOfMemory>
        requires { subset < columns.now.subsets }
        ensures held { IfOk result (λ held. OnTrue held (rows.new.held.items ≡ rows.old.held.items
            ++ source_row sources.now (origin from.now) columns.now.columns subset)) }
        ensures others { IfOk result (λ held. OnFalse held (rows.new ≡ rows.old)) }
        ensures err { OnErr result (rows.new.held.items ≡ rows.old.held.items) }
        ensures written { rows.new.written ≡ rows.old.written }
    {
        if rows.held.len() >= MOST_HELD {
            return Ok(false);
        }
        match write_sources(&mut self.room, sources, columns, from, subset) {
            Some(start) => {
                rows.held.extend_from_slice(&self.room[start..])?;
                Ok(true)
            }
            None => Ok(false),
        }
    }

    /// Adds the row of a turn to the held rows, like `hold`.
    #[inline(always)]
    pub(crate) fn hold_turn(
        &mut self,
        sources: &[TurnSource],
        cells: &[Cell],
        fields: &[CommonField],
        numbers: &[u64],
        rows: &mut HeldRows,
    ) -> Result<bool, OutOfMemory>
        requires { HaveSources fields.now cells.now sources.now }
        ensures held { IfOk result (λ held. OnTrue held (rows.new.held.items ≡ rows.old.held.items
            ++ sourced_row fields.now numbers.now cells.now)) }
        ensures others { IfOk result (λ held. OnFalse held (rows.new ≡ rows.old)) }
        ensures err { OnErr result (rows.new.held.items ≡ rows.old.held.items) }
        ensures written { rows.new.written ≡ rows.old.written }
    {
        if rows.held.len() >= MOST_HELD {
            return Ok(false);
        }
        match write_turn(&mut self.room, sources, cells, fields, numbers) {
            Some(start) => {
                rows.held.extend_from_slice(&self.room[start..])?;
                Ok(true)
            }
            None => Ok(false),
        }
    }
}

/// Writes the row of sources for a subset, like `write_row`.
#[inline(always)]
fn write_sources(
    room: &mut [u8],
    sources: &[Source],
    columns: &ChosenColumns<'_>,
    from: &Origin<'_>,
    subset: usize,
) -> Option<usize>
    requires { subset < columns.now.subsets }
    ensures written { IfSome result (λ start. drop start room.new
        ≡ source_row sources.now (origin from.now) columns.now.columns subset) }
    ensures within { IfSome result (λ start. start ≤ length room.new) }
{
    let Some((first, others)) = sources.split_first() else {
        return None;
    };
    if others.is_empty() || room.is_empty() {
        return None;
    }
    let last = room.len() - 1;
    room[last] = b'\n';
    let start = write_cells(room, last, others, columns, from, subset)?;
    write_cell(room, start, first, columns, from, subset)
}

/// Writes the cells of sources for a subset, each after a comma.
#[inline(always)]
#[tactic(auto, unfolding(csv::specs::Writing::fields_text))]
fn write_cells(
    room: &mut [u8],
    end: usize,
    sources: &[Source],
    columns: &ChosenColumns<'_>,
    from: &Origin<'_>,
    subset: usize,
) -> Option<usize>
    requires room { end ≤ length room.old }
    requires subset { subset < columns.now.subsets }
    ensures written { IfSome result (λ start. drop start room.new ≡ fields_text default_writer
        (map (source_text (origin from.now) (subset_of columns.now.columns subset).fields)
        sources.now) ++ drop end room.old) }
    ensures within { IfSome result (λ start. start ≤ end) }
{
    let mut left = sources;
    let mut start = end;
    while let Some((source, others)) = left.split_last() {
        let field = write_cell(room, start, source, columns, from, subset)?;
        if field == 0 {
            return None;
        }
        room[field - 1] = b',';
        start = field - 1;
        left = others;
    }
    Some(start)
}

/// Writes the row of cells at the end of a room, and returns where it begins. `None` for a row of
/// one cell, a long one, or one with a text that has no short form.
#[inline(always)]
fn write_row(room: &mut [u8], cells: &[Cell]) -> Option<usize>
    ensures written { IfSome result (λ start. drop start room.new ≡ row_of cells.now) }
    ensures within { IfSome result (λ start. start ≤ length room.new) }
{
    let [first, others @ ..] = cells else {
        return None;
    };
    if others.is_empty() || room.is_empty() {
        return None;
    }
    let end = room.len() - 1;
    room[end] = b'\n';
    let start = write_others(room, end, others)?;
    first.shown().write_to(room, start)
}

/// Writes the fields of cells, each after a comma.
#[tactic(auto, unfolding(csv::specs::Writing::fields_text))]
fn write_others(room: &mut [u8], end: usize, cells: &[Cell]) -> Option<usize>
    requires { end ≤ length room.old }
    ensures written { IfSome result (λ start. drop start room.new
        ≡ fields_text default_writer (map shown cells.now) ++ drop end room.old) }
    ensures within { IfSome result (λ start. start ≤ end) }
{
    let mut left = cells;
    let mut start = end;
    while let Some((cell, others)) = left.split_last() {
        let field = cell.shown().write_to(room, start)?;
        if field == 0 {
            return None;
        }
        room[field - 1] = b',';
        start = field - 1;
        left = others;
    }
    Some(start)
}
