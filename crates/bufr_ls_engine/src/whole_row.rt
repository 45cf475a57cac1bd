//! The row of a message with all columns, which needs no choice for each column.

ghost use Rattle.std.specs.Prelude.{◌≡◌, ◌++◌, ◌∷◌, ◌≤◌, ◌+◌, true, [], length, take, drop, decimal, Ok};
ghost use Rattle.std.specs.Prelude.{IfSome, OnOk, OnErr};
ghost use Rattle.std.specs.Int.{from_bool};
ghost use Rattle.bufr_sections.specs.Sections.{Envelope, envelope_of};
ghost use Rattle.bufr_io.specs.Taking.{frame_at};
ghost use Rattle.bufr_ls_engine.specs.Places.{place_of};
ghost use Rattle.bufr_ls_engine.specs.Columns.{all_columns};
ghost use Rattle.bufr_ls_engine.specs.RowSteps.{fields_after_length, numbers_from, texts_before};
ghost use Rattle.bufr_ls_engine.specs.Rows.{edition_of, row};
ghost use Rattle.bufr_ls_engine.specs.declared.column.Column.TheVariants.{Input, Message, Place, Length};
ghost use Rattle.bufr_ls_engine.specs.declared.column.Column.TheVariants.{Edition, Centre, SubCentre};
ghost use Rattle.bufr_ls_engine.specs.declared.column.Column.TheVariants.{Update, Category, International};
ghost use Rattle.bufr_ls_engine.specs.declared.column.Column.TheVariants.{LocalCategory, MasterTable};
ghost use Rattle.bufr_ls_engine.specs.declared.column.Column.TheVariants.{MasterVersion, LocalVersion};
ghost use Rattle.bufr_ls_engine.specs.declared.column.Column.TheVariants.{Year, Month, Day, Hour, Minute};
ghost use Rattle.bufr_ls_engine.specs.declared.column.Column.TheVariants.{Second, Subsets, Observed};
ghost use Rattle.bufr_ls_engine.specs.declared.column.Column.TheVariants.{Compressed, Descriptors, Reason};

use crate::column::Column;
use crate::placed::{put_count, put_number, put_octet};
use crate::row::{Numbered, edition_of, push_listed};
use bufr_base::OutOfMemory;
use bufr_sections::SectionsInPlace;

/// The most octets that the fields before the edition take, with a comma after each, if no number has
/// more than 64 bits.
const PLACE_ROOM: usize = 84;

/// Room for the numbers from the edition on, with a comma after each.
const ROOM: usize = 104;

/// Returns whether columns are all, in their order.
#[inline(never)]
#[tactic(auto, unfolding(crate::specs::Columns::all_columns))]
pub(crate) fn are_all(columns: &[Column]) -> bool
    ensures { result ≡ true → columns.now ≡ all_columns }
{
    let Some(rest) = after_place(columns) else {
        return false;
    };
    let Some(rest) = after_origin(rest) else {
        return false;
    };
    let Some(rest) = after_tables(rest) else {
        return false;
    };
    let Some(rest) = after_time(rest) else {
        return false;
    };
    are_contents(rest)
}

/// Returns the columns after those of where a frame is, if these come first.
#[inline(always)]
fn after_place(columns: &[Column]) -> Option<&[Column]>
    ensures { IfSome result
        (λ rest. columns.now ≡ Input ∷ Message ∷ Place ∷ Length ∷ Edition ∷ rest.now) }
{
    match columns {
        [
            Column::Input,
            Column::Message,
            Column::Place,
            Column::Length,
            Column::Edition,
            rest @ ..,
        ] => Some(rest),
        _ => None,
    }
}

/// Returns the columns after those of who made a message and of what kind, if these come first.
#[inline(always)]
fn after_origin(columns: &[Column]) -> Option<&[Column]>
    ensures { IfSome result
        (λ rest. columns.now
        ≡ Centre ∷ SubCentre ∷ Update ∷ Category ∷ International ∷ LocalCategory ∷ rest.now) }
{
    match columns {
        [
            Column::Centre,
            Column::SubCentre,
            Column::Update,
            Column::Category,
            Column::International,
            Column::LocalCategory,
            rest @ ..,
        ] => Some(rest),
        _ => None,
    }
}

/// Returns the columns after those of the tables, if these come first.
#[inline(always)]
fn after_tables(columns: &[Column]) -> Option<&[Column]>
    ensures { IfSome result
        (λ rest. columns.now ≡ MasterTable ∷ MasterVersion ∷ LocalVersion ∷ rest.now) }
{
    match columns {
        [
            Column::MasterTable,
            Column::MasterVersion,
            Column::LocalVersion,
            rest @ ..,
        ] => Some(rest),
        _ => None,
    }
}

/// Returns the columns after those of the time, if these come first.
#[inline(always)]
fn after_time(columns: &[Column]) -> Option<&[Column]>
    ensures { IfSome result
        (λ rest. columns.now ≡ Year ∷ Month ∷ Day ∷ Hour ∷ Minute ∷ Second ∷ rest.now) }
{
    match columns {
        [
            Column::Year,
            Column::Month,
            Column::Day,
            Column::Hour,
            Column::Minute,
            Column::Second,
            rest @ ..,
        ] => Some(rest),
        _ => None,
    }
}

/// Returns whether columns are those of section 3, and the refusal.
#[inline(always)]
fn are_contents(columns: &[Column]) -> bool
    ensures { result ≡ true
        → columns.now ≡ Subsets ∷ Observed ∷ Compressed ∷ Descriptors ∷ Reason ∷ [] }
{
    matches!(
        columns,
        [
            Column::Subsets,
            Column::Observed,
            Column::Compressed,
            Column::Descriptors,
            Column::Reason,
        ]
    )
}

/// A frame with its numbers, none of more than 64 bits.
#[derive(Clone, Copy, Drop)]
pub(crate) struct Counts<'a> {
    input: u64,
    message: u64,
    place: u64,
    octets: &'a [u8],
}

impl<'a> Counts<'a> {
    /// Returns these numbers of a frame if they fit.
    #[inline(always)]
    pub(crate) fn new(frame: &Numbered<'a>) -> Option<Counts<'a>>
        ensures { IfSome result (λ c. (c.input ≡ frame.now.input) × (c.message ≡ frame.now.message)
            × (c.place ≡ frame.now.place) × (c.octets.now ≡ frame.now.octets.now)) }
    {
        let (Ok(input), Ok(message)) = (u64::try_from(frame.input), u64::try_from(frame.message))
        else {
            return None;
        };
        Some(Counts {
            input,
            message,
            place: frame.place,
            octets: frame.octets,
        })
    }
}

/// Adds the row of a frame with these fields after the length. If memory runs out, the text stays.
#[inline(always)]
pub(crate) fn hold_all(
    text: &mut Vec<u8>,
    frame: &Counts<'_>,
    fields: &[u8],
) -> Result<(), OutOfMemory>
    ensures ok { OnOk result ((e : Envelope) → envelope_of frame.now.octets.now ≡ Ok e
        → fields.now ≡ fields_after_length frame.now.octets.now e
        → text.new.items ≡ text.old.items ++ row all_columns frame.now.input frame.now.message
        (frame_at frame.now.place frame.now.octets.now)) }
    ensures err { OnErr result (text.new.items ≡ text.old.items) }
{
    hold_with(text, frame, fields)
}

/// Adds the fields of where a frame is, and then these. If memory runs out, the text stays.
#[inline(always)]
fn hold_with(text: &mut Vec<u8>, frame: &Counts<'_>, fields: &[u8]) -> Result<(), OutOfMemory>
    ensures ok { OnOk result (text.new.items ≡ text.old.items
        ++ texts_before (place_of frame.now) fields.now) }
    ensures err { OnErr result (text.new.items ≡ text.old.items) }
{
    let held = text.len();
    let mut row = [0; PLACE_ROOM];
    let first = put_place(&mut row, PLACE_ROOM, frame);
    text.extend_from_slice(&row[first..])?;
    if text.extend_from_slice(fields).is_err() {
        text.truncate(held);
        return Err(OutOfMemory);
    }
    Ok(())
}

/// Adds the fields of a message after the length, and the end of the line. If memory runs out, it
/// adds only a part. Fills the numbers from their end, and adds them at once.
#[inline(always)]
pub(crate) fn push_fields(
    text: &mut Vec<u8>,
    octets: &[u8],
    said: &SectionsInPlace<'_>,
) -> Result<(), OutOfMemory>
    ensures { OnOk result
        (text.new.items ≡ text.old.items ++ fields_after_length octets.now said.now) }
{
    let mut row = [0; ROOM];
    let first = put_numbers(&mut row, octets, said);
    text.extend_from_slice(&row[first..])?;
    push_listed(text, said)?;
    text.extend_from_slice(b",\n")?;
    Ok(())
}

/// Puts the numbers of a message from the edition on at the end of a row.
#[inline(always)]
fn put_numbers(row: &mut [u8], octets: &[u8], said: &SectionsInPlace<'_>) -> usize
    requires room { length row.old ≡ 104 }
    ensures put { drop result row.new ≡ texts_before (numbers_from (edition_of octets.now)
        said.now.head said.now.count said.now.observed said.now.compressed) [] }
    ensures within { result ≤ 104 }
    ensures long { length row.new ≡ 104 }
{
    let end = put_contents(row, ROOM, said);
    let end = put_time(row, end, said);
    let end = put_tables(row, end, said);
    let end = put_origin(row, end, said);
    put_octet(row, end, edition_of(octets))
}

// Each of the next functions puts some of these fields before the octet at `end`, and returns the index
// of the first.

#[inline(always)]
fn put_place(row: &mut [u8], end: usize, frame: &Counts<'_>) -> usize
    requires room { 84 ≤ end }
    requires within { end ≤ length row.old }
    ensures put { drop result row.new ≡ texts_before (place_of frame.now) (drop end row.old) }
    ensures before { result ≤ end }
    ensures long { length row.new ≡ length row.old }
{
    let end = put_number(row, end, frame.octets.len() as u64);
    let end = put_number(row, end, frame.place);
    let end = put_number(row, end, frame.message);
    put_number(row, end, frame.input)
}

#[inline(always)]
fn put_origin(row: &mut [u8], end: usize, said: &SectionsInPlace<'_>) -> usize
    requires room { 49 ≤ end }
    requires within { end ≤ length row.old }
    ensures put { drop result row.new ≡ texts_before (decimal said.now.head.centre ∷ decimal said.now.head.sub_centre ∷ decimal said.now.head.update ∷ decimal said.now.head.category ∷ decimal said.now.head.international ∷ decimal said.now.head.local_category ∷ []) (drop end row.old) }
    ensures near { end ≤ result + 28 }
    ensures before { result ≤ end }
    ensures long { length row.new ≡ length row.old }
{
    let end = put_octet(row, end, said.local_category());
    let end = put_octet(row, end, said.international());
    let end = put_octet(row, end, said.category());
    let end = put_octet(row, end, said.update());
    let end = put_count(row, end, said.sub_centre());
    put_count(row, end, said.centre())
}

#[inline(always)]
fn put_tables(row: &mut [u8], end: usize, said: &SectionsInPlace<'_>) -> usize
    requires room { 12 ≤ end }
    requires within { end ≤ length row.old }
    ensures put { drop result row.new ≡ texts_before (decimal 0 ∷ decimal said.now.head.master_version ∷ decimal said.now.head.local_version ∷ []) (drop end row.old) }
    ensures near { end ≤ result + 12 }
    ensures before { result ≤ end }
    ensures long { length row.new ≡ length row.old }
{
    let end = put_octet(row, end, said.local_version());
    let end = put_octet(row, end, said.master_version());
    put_octet(row, end, 0)
}

#[inline(always)]
fn put_time(row: &mut [u8], end: usize, said: &SectionsInPlace<'_>) -> usize
    requires room { 41 ≤ end }
    requires within { end ≤ length row.old }
    ensures put { drop result row.new ≡ texts_before (decimal said.now.head.year ∷ decimal said.now.head.month ∷ decimal said.now.head.day ∷ decimal said.now.head.hour ∷ decimal said.now.head.minute ∷ decimal said.now.head.second ∷ []) (drop end row.old) }
    ensures near { end ≤ result + 26 }
    ensures before { result ≤ end }
    ensures long { length row.new ≡ length row.old }
{
    let end = put_octet(row, end, said.second());
    let end = put_octet(row, end, said.minute());
    let end = put_octet(row, end, said.hour());
    let end = put_octet(row, end, said.day());
    let end = put_octet(row, end, said.month());
    put_count(row, end, said.year())
}

#[inline(always)]
fn put_contents(row: &mut [u8], end: usize, said: &SectionsInPlace<'_>) -> usize
    requires room { 29 ≤ end }
    requires within { end ≤ length row.old }
    ensures put { drop result row.new ≡ texts_before (decimal said.now.count ∷ decimal (from_bool said.now.observed) ∷ decimal (from_bool said.now.compressed) ∷ []) (drop end row.old) }
    ensures near { end ≤ result + 14 }
    ensures before { result ≤ end }
    ensures long { length row.new ≡ length row.old }
{
    let end = put_octet(row, end, u8::from(said.compressed));
    let end = put_octet(row, end, u8::from(said.observed));
    put_count(row, end, said.count)
}
