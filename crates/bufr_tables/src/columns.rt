//! Finds the needed columns of a table file, and their cells in a record.

ghost use Rattle.std.specs.Prelude.{◌≡◌, ◌||◌, ◌==◌, length, map, bytes_eq, option_map, position};
ghost use Rattle.std.specs.Prelude.{IfOk};
ghost use Rattle.std.specs.List.{list_all};
ghost use Rattle.std.specs.Cmp.Lexicographic.{pointwise};
ghost use Rattle.csv.specs.Records.{fields_of};
ghost use Rattle.bufr_base.specs.Answers.{Gives};
ghost use Rattle.bufr_tables.specs.Fields.{used_fields};
ghost use Rattle.bufr_tables.specs.TableFiles.{column_at, columns_at, cells_at, row_cells};
ghost use Rattle.bufr_tables.specs.TableFiles.{TakesHeader};

use crate::csv_records::Records;
use crate::fields::{cell, same_fields, used_fields};
use crate::table_faults::{Column, TableFault};
use bufr_base::{Failure, OutOfMemory};
use csv::ByteRecord;
use std::alloc::Global;

fn place_of(names: &[&[u8]], wanted: &[u8]) -> Option<usize>
    ensures { result ≡ position (λ name. bytes_eq name.now wanted.now) names.now }
{
    names.iter().position(|name| *name == wanted)
}

fn column_at(names: &[&[u8]], column: Column) -> Result<usize, TableFault>
    ensures { result ≡ column_at (map (λ s. s.now) names.now) column }
{
    match place_of(names, column.title().as_bytes()) {
        Some(place) => Ok(place),
        None => Err(TableFault::NoColumn(column)),
    }
}

/// Finds the needed columns, or returns the first one missing.
pub(crate) fn columns_at(
    alloc: Global,
    names: &[&[u8]],
    needed: &[Column],
) -> Result<Vec<usize>, Failure<TableFault>>
    ensures { Gives (λ v. v.items) result
        (columns_at (map (λ s. s.now) names.now) needed.now) }
{
    let mut places = Vec::new(alloc);
    for column in needed {
        match column_at(names, *column) {
            Ok(place) => places.push(place)?,
            Err(fault) => return Err(Failure::Fault(fault)),
        }
    }
    Ok(places)
}

fn cells_at<'a>(
    alloc: Global,
    fields: &[&'a [u8]],
    places: &[usize],
) -> Result<Vec<&'a [u8]>, OutOfMemory>
    ensures { IfOk result (λ v. map (λ s. s.now) v.items
        ≡ cells_at (map (λ s. s.now) fields.now) places.now) }
{
    let mut cells = Vec::new(alloc);
    for place in places {
        cells.push(cell(fields, *place))?;
    }
    Ok(cells)
}

fn are_empty(cells: &[&[u8]]) -> bool
    ensures { result ≡ list_all (λ text. length text.now == 0) cells.now }
{
    cells.iter().all(|text| text.is_empty())
}

/// Returns the cells of a record, or `None` if they are empty or the record repeats the header.
pub(crate) fn row_cells<'a>(
    alloc: Global,
    names: &[&[u8]],
    places: &[usize],
    number: u64,
    row: &'a ByteRecord,
) -> Result<Option<Vec<&'a [u8]>>, Failure<TableFault>>
    ensures { Gives (option_map (λ v. map (λ s. s.now) v.items)) result
        (row_cells (map (λ s. s.now) names.now) places.now number (fields_of row.now)) }
{
    if row.len() != names.len() {
        return Err(Failure::Fault(TableFault::NotCsv(number)));
    }
    let fields = used_fields(alloc, row)?;
    let cells = cells_at(alloc, &fields, places)?;
    if same_fields(&fields, names) || are_empty(&cells) {
        return Ok(None);
    }
    Ok(Some(cells))
}

/// Reads the header, empty if the text has no records.
pub(crate) fn header(alloc: Global, records: &mut Records<'_>) -> Result<ByteRecord, OutOfMemory>
    ensures { IfOk result (λ row. TakesHeader records.old (fields_of row) records.new) }
{
    let mut row = ByteRecord::new(alloc);
    if !records.next(&mut row)? {
        row.clear();
    }
    Ok(row)
}
