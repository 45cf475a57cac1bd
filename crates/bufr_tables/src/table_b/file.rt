ghost use Rattle.std.specs.Prelude.{[], map};
ghost use Rattle.csv.specs.Records.{fields_of};
ghost use Rattle.bufr_base.specs.Answers.{Gives};
ghost use Rattle.bufr_tables.specs.ElementJoins.{with_element};
ghost use Rattle.bufr_tables.specs.Rows.{element_row};
ghost use Rattle.bufr_tables.specs.TableFiles.{after_record, after_records, table_b};

use crate::columns::{columns_at, header, row_cells};
use crate::csv_records::Records;
use crate::fields::used_fields;
use crate::rows::element_row;
use crate::table_b::TableB;
use crate::table_faults::{Column, TableFault};
use bufr_base::Failure;
use csv::ByteRecord;
use std::alloc::Global;

const COLUMNS: [Column; 5] = [
    Column::Fxy,
    Column::Unit,
    Column::Scale,
    Column::ReferenceValue,
    Column::DataWidth,
];

impl TableB {
    /// Reads the elements of a CSV file, or returns its first fault: `NoColumn`, `NotCsv` or `BadRow`
    /// with the record's number, or `Conflict` of two rows.
    pub fn parse(alloc: Global, text: &[u8]) -> Result<TableB, Failure<TableFault>>
        ensures { Gives (λ t. t) result (table_b text.now) }
    {
        let mut records = Records::open(alloc, text);
        let header = header(alloc, &mut records)?;
        let names = used_fields(alloc, &header)?;
        let places = columns_at(alloc, &names, &COLUMNS)?;
        of_records(alloc, &mut records, &names, &places)
    }
}

// Reads the records after the header.
fn of_records(
    alloc: Global,
    records: &mut Records<'_>,
    names: &[&[u8]],
    places: &[usize],
) -> Result<TableB, Failure<TableFault>>
    ensures { Gives (λ t. t) result (after_records element_row with_element
        (map (λ s. s.now) names.now) places.now 2 records.old []) }
{
    let mut table = TableB::new(alloc);
    let mut row = ByteRecord::new(alloc);
    for number in 2..u64::MAX {
        if !records.next(&mut row)? {
            return Ok(table);
        }
        add_record(alloc, names, places, number, &row, &mut table)?;
    }
    Err(Failure::OutOfMemory)
}

// Adds the row of a record; a skipped one adds nothing.
fn add_record(
    alloc: Global,
    names: &[&[u8]],
    places: &[usize],
    number: u64,
    row: &ByteRecord,
    table: &mut TableB,
) -> Result<(), Failure<TableFault>>
    ensures { Gives (λ _. table.new) result (after_record element_row with_element
        (map (λ s. s.now) names.now) places.now number (fields_of row.now) table.old) }
{
    let Some(cells) = row_cells(alloc, names, places, number, row)? else {
        return Ok(());
    };
    match element_row(&cells) {
        Some((fxy, element)) => table.add(fxy, element),
        None => Err(Failure::Fault(TableFault::BadRow(number))),
    }
}
