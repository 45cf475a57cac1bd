ghost use Rattle.std.specs.Prelude.{map};
ghost use Rattle.bufr_base.specs.Answers.{Gives, result_map};
ghost use Rattle.bufr_tables.specs.Rows.{member_row, with_member, no_sequences, all_sequences};
ghost use Rattle.bufr_tables.specs.TableFiles.{after_records, table_d};

use crate::columns::{columns_at, header};
use crate::csv_records::Records;
use crate::fields::used_fields;
use crate::sequence_rows::SequenceRows;
use crate::table_d::TableD;
use crate::table_faults::{Column, TableFault};
use bufr_base::Failure;
use csv::ByteRecord;
use std::alloc::Global;

const COLUMNS: [Column; 2] = [Column::Fxy1, Column::Fxy2];

impl TableD {
    /// Reads the sequences of a CSV file, or returns its first fault: `NoColumn`, `NotCsv` or `BadRow`
    /// with the record's number, or `SplitSequence`.
    pub fn parse(alloc: Global, text: &[u8]) -> Result<TableD, Failure<TableFault>>
        ensures { Gives (λ t. t) result (table_d text.now) }
    {
        let mut records = Records::open(alloc, text);
        let header = header(alloc, &mut records)?;
        let names = used_fields(alloc, &header)?;
        let places = columns_at(alloc, &names, &COLUMNS)?;
        of_records(alloc, &mut records, &names, &places)
    }
}

fn of_records(
    alloc: Global,
    records: &mut Records<'_>,
    names: &[&[u8]],
    places: &[usize],
) -> Result<TableD, Failure<TableFault>>
    ensures { Gives (λ t. t) result (result_map all_sequences (after_records member_row
        with_member (map (λ s. s.now) names.now) places.now 2 records.old no_sequences)) }
{
    let mut rows = SequenceRows::new(alloc);
    add_records(alloc, records, names, places, &mut rows)?;
    Ok(TableD::from_map(rows.finish()?))
}

// Adds the rows of the records after the header.
fn add_records(
    alloc: Global,
    records: &mut Records<'_>,
    names: &[&[u8]],
    places: &[usize],
    rows: &mut SequenceRows,
) -> Result<(), Failure<TableFault>>
    ensures { Gives (λ _. rows.new) result (after_records member_row with_member
        (map (λ s. s.now) names.now) places.now 2 records.old rows.old) }
{
    let mut row = ByteRecord::new(alloc);
    for number in 2..u64::MAX {
        if !records.next(&mut row)? {
            return Ok(());
        }
        rows.add_record(alloc, names, places, number, &row)?;
    }
    Err(Failure::OutOfMemory)
}
