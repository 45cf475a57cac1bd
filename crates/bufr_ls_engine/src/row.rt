//! The row of a frame.

ghost use Rattle.std.specs.Prelude.{◌≡◌, ◌++◌, ◌∷◌, ◌≤◌, ◌+◌, [], true, length, take, vec_len, Ok, Err};
ghost use Rattle.std.specs.Prelude.{ℕ, decimal, IfOk, IfSome, OnOk, OnErr};
ghost use Rattle.std.specs.Int.{from_bool};
ghost use Rattle.std.specs.List.{join_by};
ghost use Rattle.std.specs.Vec.{vec_capacity};
ghost use Rattle.bufr_tables.specs.Descriptors.{six_digits};
ghost use Rattle.bufr_sections.specs.Sections.{descriptors_of, two};
ghost use Rattle.bufr_io.specs.Taking.{frame_at};
ghost use Rattle.bufr_ls_engine.specs.Columns.{word};
ghost use Rattle.bufr_ls_engine.specs.RowSteps.{number_text};
ghost use Rattle.bufr_ls_engine.specs.Rows.{edition_of, field_as, fields_as, frame_refused, is_short};
ghost use Rattle.bufr_ls_engine.specs.Rows.{header, row, row_as};
ghost use Rattle.bufr_ls_engine.specs.declared.column.Column.TheVariants.{MasterVersion};

use crate::column::Column;
use crate::column_list::ColumnList;
use crate::last_fields::LastFields;
use crate::numbers::{
    LONGEST, Number, push_count, push_number, push_octet_line, push_octets, push_sized, push_wide,
};
use crate::whole_row::{Counts, hold_all};
use bufr_base::OutOfMemory;
use bufr_sections::{Refused, SectionsInPlace, find_sections};
use bufr_tables::Fxy;
use std::alloc::Global;

/// A frame with its numbers.
#[derive(Clone, Copy, Drop)]
pub(crate) struct Numbered<'a> {
    /// The number of its input, counted from 1.
    pub(crate) input: u128,
    /// Its number in its input, counted from 1.
    pub(crate) message: u128,
    /// Its place in its input.
    pub(crate) place: u64,
    /// Its octets.
    pub(crate) octets: &'a [u8],
}

/// Adds the row of a frame, and returns whether it has a refusal. If memory runs out, the text stays.
#[inline(always)]
pub(crate) fn hold_row(
    alloc: Global,
    text: &mut Vec<u8>,
    columns: &ColumnList<'_>,
    last: &mut LastFields,
    frame: &Numbered<'_>,
) -> Result<bool, OutOfMemory>
    ensures ok { OnOk result (text.new.items ≡ text.old.items ++ row columns.now.now frame.now.input
        frame.now.message (frame_at frame.now.place frame.now.octets.now)) }
    ensures told { IfOk result (λ refused. from_bool refused
        ≡ frame_refused (frame_at frame.now.place frame.now.octets.now)) }
    ensures err { OnErr result (text.new.items ≡ text.old.items) }
{
    // One column and all columns have short ways.
    if let [column] = columns.as_slice() {
        if column.is_short() {
            if let Ok(said) = find_sections(frame.octets) {
                push_line(text, *column, frame, &said)?;
                return Ok(false);
            }
        }
    }
    if columns.is_all() {
        if let Some(counts) = Counts::new(frame) {
            if last.set(frame.octets)? {
                hold_all(text, &counts, last.as_slice())?;
                return Ok(false);
            }
        }
    }
    hold_any_row(alloc, text, columns.as_slice(), *frame)
}

/// Does what `hold_row` does, for any columns.
// The frame comes as a copy, so that the short ways need none in memory.
#[inline(never)]
fn hold_any_row(
    alloc: Global,
    text: &mut Vec<u8>,
    columns: &[Column],
    frame: Numbered<'_>,
) -> Result<bool, OutOfMemory>
    ensures ok { OnOk result (text.new.items ≡ text.old.items ++ row columns.now frame.entry.input
        frame.entry.message (frame_at frame.entry.place frame.entry.octets.now)) }
    ensures told { IfOk result (λ refused. from_bool refused
        ≡ frame_refused (frame_at frame.entry.place frame.entry.octets.now)) }
    ensures err { OnErr result (text.new.items ≡ text.old.items) }
{
    let said = find_sections(frame.octets);
    let held = text.len();
    if push_row(alloc, text, columns, &frame, &said).is_err() {
        text.truncate(held);
        return Err(OutOfMemory);
    }
    Ok(said.is_err())
}

pub(crate) fn push_header(text: &mut Vec<u8>, columns: &[Column]) -> Result<(), OutOfMemory>
    ensures { OnOk result (text.new.items ≡ text.old.items ++ header columns.now) }
{
    push_words(text, columns)?;
    text.push(b'\n')?;
    Ok(())
}

// The next functions add only a part if memory runs out.

/// Adds the words of the columns, with commas between them.
fn push_words(text: &mut Vec<u8>, columns: &[Column]) -> Result<(), OutOfMemory>
    ensures { OnOk result
        (text.new.items ≡ text.old.items ++ join_by word (44 ∷ []) columns.now) }
{
    let [first, others @ ..] = columns else {
        return Ok(());
    };
    text.extend_from_slice(first.word().as_bytes())?;
    for column in others {
        text.push(b',')?;
        text.extend_from_slice(column.word().as_bytes())?;
    }
    Ok(())
}

/// Adds the row of a frame, given its sections.
fn push_row(
    alloc: Global,
    text: &mut Vec<u8>,
    columns: &[Column],
    frame: &Numbered<'_>,
    said: &Result<SectionsInPlace<'_>, Refused>,
) -> Result<(), OutOfMemory>
    ensures ok { OnOk result (text.new.items ≡ text.old.items
        ++ row_as columns.now frame.now.input frame.now.message
        (frame_at frame.now.place frame.now.octets.now) said.now) }
    ensures kept { OnErr result (take (length text.old.items) text.new.items ≡ text.old.items) }
{
    let [first, others @ ..] = columns else {
        text.push(b'\n')?;
        return Ok(());
    };
    let said = match said {
        Ok(said) => said,
        Err(why) => return push_refused(alloc, text, *first, others, frame, why),
    };
    push_said(text, *first, others, frame, said)
}

/// Adds the row of a frame with these sections, whose columns are a first one and others.
fn push_said(
    text: &mut Vec<u8>,
    first: Column,
    others: &[Column],
    frame: &Numbered<'_>,
    said: &SectionsInPlace<'_>,
) -> Result<(), OutOfMemory>
    ensures ok { OnOk result (text.new.items ≡ text.old.items
        ++ row_as (first ∷ others.now) frame.now.input frame.now.message
        (frame_at frame.now.place frame.now.octets.now) (Ok said.now)) }
    ensures kept { OnErr result (take (length text.old.items) text.new.items ≡ text.old.items) }
{
    let mut column = first;
    let mut rest = others;
    while let [next, left @ ..] = rest {
        push_field(text, column, frame, said, b',')?;
        column = *next;
        rest = left;
    }
    push_field(text, column, frame, said, b'\n')
}

/// Adds the row of a refused frame, whose columns are a first one and others.
fn push_refused(
    alloc: Global,
    text: &mut Vec<u8>,
    first: Column,
    others: &[Column],
    frame: &Numbered<'_>,
    why: &Refused,
) -> Result<(), OutOfMemory>
    ensures ok { OnOk result (text.new.items ≡ text.old.items
        ++ row_as (first ∷ others.now) frame.now.input frame.now.message
        (frame_at frame.now.place frame.now.octets.now) (Err why.now)) }
    ensures kept { OnErr result (take (length text.old.items) text.new.items ≡ text.old.items) }
{
    let mut column = first;
    let mut rest = others;
    while let [next, left @ ..] = rest {
        push_field_of_refused(alloc, text, column, frame, why, b',')?;
        column = *next;
        rest = left;
    }
    push_field_of_refused(alloc, text, column, frame, why, b'\n')
}

/// Adds the field of a column of sections, and the octet after it.
#[inline(always)]
fn push_field(
    text: &mut Vec<u8>,
    column: Column,
    frame: &Numbered<'_>,
    said: &SectionsInPlace<'_>,
    end: u8,
) -> Result<(), OutOfMemory>
    ensures ok { OnOk result (text.new.items ≡ text.old.items
        ++ field_as column frame.now.input frame.now.message
        (frame_at frame.now.place frame.now.octets.now) (Ok said.now) ++ end ∷ []) }
    ensures kept { OnErr result (take (length text.old.items) text.new.items ≡ text.old.items) }
{
    if column.is_short() {
        text.reserve(LONGEST)?;
        push_short(text, column, frame, said, end);
        return Ok(());
    }
    push_listed(text, said)?;
    text.push(end)?;
    Ok(())
}

pub(crate) fn edition_of(octets: &[u8]) -> u8
    ensures { result ≡ edition_of octets.now }
{
    match octets {
        [_, _, _, _, _, _, _, edition, ..] => *edition,
        _ => 0,
    }
}

/// Returns the number of a column of sections.
#[inline(always)]
#[tactic(auto, unfolding(crate::specs::Rows::field_as, crate::specs::Rows::said_in))]
fn number_of(column: Column, frame: &Numbered<'_>, said: &SectionsInPlace<'_>) -> Number
    requires { is_short column ≡ true }
    ensures { number_text result ≡ field_as column frame.now.input frame.now.message
        (frame_at frame.now.place frame.now.octets.now) (Ok said.now) }
{
    match column {
        Column::Input => Number::Wide(frame.input),
        Column::Message => Number::Wide(frame.message),
        Column::Place => Number::Long(frame.place),
        Column::Length => Number::Long(frame.octets.len() as u64),
        Column::Edition => Number::Octet(edition_of(frame.octets)),
        Column::Centre => Number::Count(said.centre()),
        Column::SubCentre => Number::Count(said.sub_centre()),
        Column::Update => Number::Octet(said.update()),
        Column::Category => Number::Octet(said.category()),
        Column::International => Number::Octet(said.international()),
        Column::LocalCategory => Number::Octet(said.local_category()),
        Column::MasterTable => Number::Octet(0),
        Column::MasterVersion => Number::Octet(said.master_version()),
        Column::LocalVersion => Number::Octet(said.local_version()),
        Column::Year => Number::Count(said.year()),
        Column::Month => Number::Octet(said.month()),
        Column::Day => Number::Octet(said.day()),
        Column::Hour => Number::Octet(said.hour()),
        Column::Minute => Number::Octet(said.minute()),
        Column::Second => Number::Octet(said.second()),
        Column::Subsets => Number::Count(said.count),
        Column::Observed => Number::Octet(u8::from(said.observed)),
        Column::Compressed => Number::Octet(u8::from(said.compressed)),
        Column::Descriptors | Column::Reason => Number::Empty,
    }
}

/// Adds the row of one short field of sections, or nothing if memory runs out.
#[inline(always)]
fn push_line(
    text: &mut Vec<u8>,
    column: Column,
    frame: &Numbered<'_>,
    said: &SectionsInPlace<'_>,
) -> Result<(), OutOfMemory>
    requires { is_short column ≡ true }
    ensures ok { OnOk result (text.new.items ≡ text.old.items
        ++ field_as column frame.now.input frame.now.message
        (frame_at frame.now.place frame.now.octets.now) (Ok said.now) ++ 10 ∷ []) }
    ensures err { OnErr result (text.new.items ≡ text.old.items) }
{
    match number_of(column, frame, said) {
        Number::Octet(number) => push_octet_line(text, number),
        number => {
            text.reserve(LONGEST)?;
            push_sized(text, number, b'\n');
            Ok(())
        }
    }
}

/// Adds a short field of sections, and the octet after it.
#[inline(always)]
pub(crate) fn push_short(
    text: &mut Vec<u8>,
    column: Column,
    frame: &Numbered<'_>,
    said: &SectionsInPlace<'_>,
    end: u8,
)
    requires short { is_short column ≡ true }
    requires room { vec_len text.old + 41 ≤ vec_capacity text.old }
    ensures items { text.new.items ≡ text.old.items
        ++ field_as column frame.now.input frame.now.message
        (frame_at frame.now.place frame.now.octets.now) (Ok said.now) ++ end ∷ [] }
{
    push_sized(text, number_of(column, frame, said), end);
}

/// Adds the field of a column of a refused frame, and the octet after it.
#[tactic(auto, unfolding(crate::specs::Rows::field_as, crate::specs::Rows::refused_in))]
fn push_field_of_refused(
    alloc: Global,
    text: &mut Vec<u8>,
    column: Column,
    frame: &Numbered<'_>,
    why: &Refused,
    end: u8,
) -> Result<(), OutOfMemory>
    ensures ok { OnOk result (text.new.items ≡ text.old.items
        ++ field_as column frame.now.input frame.now.message
        (frame_at frame.now.place frame.now.octets.now) (Err why.now) ++ end ∷ []) }
    ensures kept { OnErr result (take (length text.old.items) text.new.items ≡ text.old.items) }
{
    text.reserve(LONGEST)?;
    match (column, why) {
        (Column::Input, _) => push_wide(text, frame.input, end),
        (Column::Message, _) => push_wide(text, frame.message, end),
        (Column::Place, _) => push_number(text, frame.place, end),
        (Column::Length, _) => push_number(text, frame.octets.len() as u64, end),
        (Column::Edition, _) => push_count(text, u16::from(edition_of(frame.octets)), end),
        (Column::MasterTable, Refused::MasterTable(number)) => {
            push_count(text, u16::from(*number), end);
        }
        (Column::Reason, _) => {
            text.extend_from_slice(format!(in alloc; "{why}")?.as_bytes())?;
            text.push(end)?;
        }
        _ => push_octets(text, &[end]),
    }
    Ok(())
}

/// Adds the descriptors of sections, with spaces between them.
#[inline(always)]
pub(crate) fn push_listed(text: &mut Vec<u8>, said: &SectionsInPlace<'_>) -> Result<(), OutOfMemory>
    ensures ok { OnOk result (text.new.items ≡ text.old.items
        ++ join_by six_digits (32 ∷ []) said.now.descriptors) }
    ensures kept { OnErr result (take (length text.old.items) text.new.items ≡ text.old.items) }
{
    push_descriptors(text, said.listed)
}

/// Adds the descriptors of two octets each, with spaces between them.
#[tactic(auto, unfolding(bufr_sections::specs::Sections::descriptors_of))]
fn push_descriptors(text: &mut Vec<u8>, octets: &[u8]) -> Result<(), OutOfMemory>
    ensures ok { OnOk result (text.new.items ≡ text.old.items
        ++ join_by six_digits (32 ∷ []) (descriptors_of octets.now)) }
    ensures kept { OnErr result (take (length text.old.items) text.new.items ≡ text.old.items) }
{
    let [high, low, others @ ..] = octets else {
        return Ok(());
    };
    text.extend_from_slice(&digits_of(*high, *low))?;
    let mut rest = others;
    while let [high, low, others @ ..] = rest {
        let [f, x1, x2, y1, y2, y3] = digits_of(*high, *low);
        text.extend_from_slice(&[b' ', f, x1, x2, y1, y2, y3])?;
        rest = others;
    }
    Ok(())
}

/// Returns the six digits of the descriptor of two octets.
#[inline(always)]
fn digits_of(high: u8, low: u8) -> [u8; 6]
    ensures { result ≡ six_digits (two high low) }
{
    Fxy::from_bits(256 * u16::from(high) + u16::from(low)).digits()
}
