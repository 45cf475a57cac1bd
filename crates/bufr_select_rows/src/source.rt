//! The cells of compressed data, each from one column of the message.

ghost use Rattle.std.specs.Prelude.{◌≡◌, ◌<◌, ◌≤◌, ◌++◌, decimal, drop, length, map, slice_get, IfSome, OnOk};
ghost use Rattle.csv.specs.Writing.{default_writer, field_text};
ghost use Rattle.bufr_data.specs.Compressed.{subset_of};
ghost use Rattle.bufr_select_rows.specs.Rows.{origin, told_number, value_if};
ghost use Rattle.bufr_select_rows.specs.Sources.{source_nth, source_of, source_text};

use crate::cell::Cell;
use crate::column::Column;
use crate::fact::Fact;
use crate::origin::Origin;
use crate::text::{write_text, write_value};
use crate::written::write_count;
use bufr_base::OutOfMemory;
use bufr_data::{ChosenColumns, SUBSET_ROOM};
use bufr_tables::Fxy;

/// A source of the cells of a column, for all subsets of a message.
#[derive(Clone, Copy, Drop)]
pub(crate) enum Source {
    Fact(Fact),
    /// The chosen column at an index.
    Field(usize),
    Nothing,
}

/// Finds the source of each cell.
pub(crate) fn find_sources(
    columns: &ChosenColumns<'_>,
    cells: &[Cell],
    sources: &mut Vec<Source>,
) -> Result<(), OutOfMemory>
    ensures { OnOk result (sources.new.items
        ≡ map (λ c. source_of columns.now.columns c.column) cells.now) }
{
    sources.clear();
    for cell in cells {
        sources.push(source_of(columns, cell.column))?;
    }
    Ok(())
}

fn source_of(columns: &ChosenColumns<'_>, column: Column) -> Source
    ensures { result ≡ source_of columns.now.columns column }
{
    match column {
        Column::Fact(fact) => Source::Fact(fact),
        Column::First(fxy) => source_nth(columns, fxy, 1),
        Column::Nth(fxy, number) => source_nth(columns, fxy, number),
    }
}

/// Finds the n-th column with a descriptor.
fn source_nth(columns: &ChosenColumns<'_>, fxy: Fxy, number: u64) -> Source
    ensures { result ≡ source_nth fxy number columns.now.columns }
{
    if number == 0 {
        return Source::Nothing;
    }
    let mut ahead = number - 1;
    let mut index = 0;
    'columns: while let Some(here) = columns.fxy_at(index) {
        let _len = columns.len();
        if here != fxy {
            index += 1;
            continue 'columns;
        }
        if ahead == 0 {
            return Source::Field(index);
        }
        ahead -= 1;
        index += 1;
    }
    Source::Nothing
}

/// Writes the cell of a source, unless it has no short form.
#[inline(always)]
pub(crate) fn write_cell(
    room: &mut [u8],
    end: usize,
    source: &Source,
    columns: &ChosenColumns<'_>,
    from: &Origin<'_>,
    subset: usize,
) -> Option<usize>
    requires room { end ≤ length room.old }
    requires subset { subset < columns.now.subsets }
    ensures written { IfSome result (λ start. drop start room.new ≡ field_text default_writer
        (source_text (origin from.now) (subset_of columns.now.columns subset).fields source.now)
        ++ drop end room.old) }
    ensures within { IfSome result (λ start. start ≤ end) }
{
    match *source {
        Source::Nothing => Some(end),
        Source::Fact(fact) => write_fact(room, end, from, fact),
        Source::Field(column) => match columns.number_at(column, subset) {
            Some(number) => write_value(room, end, number),
            None => write_lent(room, end, columns, column, subset),
        },
    }
}

/// Writes the number of a fact, unless it is large.
fn write_fact(room: &mut [u8], end: usize, from: &Origin<'_>, fact: Fact) -> Option<usize>
    requires { end ≤ length room.old }
    ensures written { IfSome result (λ start. drop start room.new ≡ field_text default_writer
        (decimal (told_number fact (origin from.now))) ++ drop end room.old) }
    ensures within { IfSome result (λ start. start ≤ end) }
{
    match u64::try_from(from.number(fact)) {
        Ok(count) => write_count(room, end, count),
        Err(_) => None,
    }
}

/// Writes the text in a column, unless it has no short form.
fn write_lent(
    room: &mut [u8],
    end: usize,
    columns: &ChosenColumns<'_>,
    column: usize,
    subset: usize,
) -> Option<usize>
    requires room { end ≤ length room.old }
    requires subset { subset < columns.now.subsets }
    ensures written { IfSome result (λ start. drop start room.new ≡ field_text default_writer
        (value_if (slice_get (subset_of columns.now.columns subset).fields column))
        ++ drop end room.old) }
    ensures within { IfSome result (λ start. start ≤ end) }
{
    let mut octets = [0; SUBSET_ROOM];
    match columns.text_at(column, subset, &mut octets) {
        Some(text) => write_text(room, end, text.octets),
        None => None,
    }
}
