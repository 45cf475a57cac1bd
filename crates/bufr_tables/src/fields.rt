//! Trims the fields of a record.

ghost use Rattle.std.specs.Prelude.{◌≡◌, ◌∷◌, [], get_or, map, reverse, IfOk, bytes_eq};
ghost use Rattle.std.specs.Cmp.Lexicographic.{pointwise};
ghost use Rattle.csv.specs.Records.{fields_of};
ghost use Rattle.csv.specs.Reading.{strip_bom};
ghost use Rattle.bufr_tables.specs.Fields.{skip_spaces, without_spaces, used_fields};
ghost use Rattle.bufr_tables.specs.Rows.{cell};

use bufr_base::OutOfMemory;
use csv::ByteRecord;
use std::alloc::Global;

const MARK: [u8; 3] = [0xEF, 0xBB, 0xBF];

fn without_first_spaces(text: &[u8]) -> &[u8]
    ensures { result.now ≡ skip_spaces text.now }
{
    let mut rest = text;
    while let Some((first, tail)) = rest.split_first() {
        if *first != b' ' {
            return rest;
        }
        rest = tail;
    }
    rest
}

fn without_last_spaces(text: &[u8]) -> &[u8]
    ensures { result.now ≡ reverse (skip_spaces (reverse text.now)) }
{
    let mut rest = text;
    while let Some((last, front)) = rest.split_last() {
        if *last != b' ' {
            return rest;
        }
        rest = front;
    }
    rest
}

fn without_mark(text: &[u8]) -> &[u8]
    ensures { result.now ≡ strip_bom text.now }
{
    match text.strip_prefix(&MARK) {
        Some(rest) => rest,
        None => text,
    }
}

// Returns field `i` of a record, or an empty one past the end.
fn raw_field(row: &ByteRecord, i: usize) -> &[u8]
    ensures { result.now ≡ get_or (fields_of row.now) i [] }
{
    match row.get(i) {
        Some(field) => field,
        None => &[],
    }
}

fn without_spaces(text: &[u8]) -> &[u8]
    ensures { result.now ≡ without_spaces text.now }
{
    without_last_spaces(without_first_spaces(text))
}

// Trims field `i`; the first also loses a byte order mark.
fn used_field(row: &ByteRecord, i: usize) -> &[u8]
    ensures { result.now ≡ get_or (used_fields (fields_of row.now)) i [] }
{
    let field = raw_field(row, i);
    if i == 0 {
        return without_spaces(without_mark(field));
    }
    without_spaces(field)
}

pub(crate) fn used_fields(alloc: Global, row: &ByteRecord) -> Result<Vec<&[u8]>, OutOfMemory>
    ensures { IfOk result (λ v. map (λ s. s.now) v.items ≡ used_fields (fields_of row.now)) }
{
    let mut fields = Vec::new(alloc);
    for i in 0..row.len() {
        fields.push(used_field(row, i))?;
    }
    Ok(fields)
}

/// Returns cell `i`, or an empty one past the end.
pub(crate) fn cell<'a>(cells: &[&'a [u8]], i: usize) -> &'a [u8]
    ensures { result.now ≡ cell (map (λ s. s.now) cells.now) i }
{
    match cells.get(i) {
        Some(text) => text,
        None => &[],
    }
}

pub(crate) fn same_fields(fields: &[&[u8]], others: &[&[u8]]) -> bool
    ensures { result
        ≡ pointwise bytes_eq (map (λ s. s.now) fields.now) (map (λ s. s.now) others.now) }
{
    fields == others
}
