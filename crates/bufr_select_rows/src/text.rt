//! The text of a cell.

ghost use Rattle.std.specs.Prelude.{◌≡◌, ◌≤◌, ◌++◌, ◌+ℤ◌, ℕ, List, [], decimal, drop, length, pos, IfSome, OnOk};
ghost use Rattle.csv.specs.Writing.{default_writer, field_text};
ghost use Rattle.bufr_fields.specs.Values.{as_field, decimal_within, digits_by};
ghost use Rattle.bufr_listing.specs.Listings.{number_word};
ghost use Rattle.bufr_select_rows.specs.ShortCells.{short_text};
ghost use Rattle.bufr_select_rows.specs.TextCells.{is_plain, shown_octets};
ghost use Rattle.bufr_select_rows.specs.Texts.{sum_word, text_of};
ghost use Rattle.bufr_select_rows.specs.Values.{shown_text, shown_value};
ghost use Rattle.bufr_select_rows.specs.Values as values;

use crate::quotes::{needs_byte, push_field};
use crate::written::{write_count, write_number, write_octets, write_plain};
use bufr_base::OutOfMemory;
use bufr_data::ShortNumber;
use bufr_fields::{Decimal, Field, NumberField, Raw, are_ones};
use bufr_tables::Kind;
use itoa::{Buffer, write_digits};
use std::alloc::Global;
use std::marker::Model;

/// The length of a row of digits.
const ROW_END: usize = 31;

/// The most digits after a point that `push_digits` writes.
const MOST_PLACES: i32 = 20;

/// A form of a text.
#[derive(Clone, Copy)]
pub(crate) enum TextForm {
    /// Nothing.
    Empty,
    /// The octets of the text.
    Octets,
    /// A number, to be shown by a scale.
    Sum(Sum),
    /// The digits of a count.
    Count(u64),
}

/// A raw number with the reference value that is added to it, and the scale of the sum.
#[derive(Clone, Copy)]
pub(crate) struct Sum {
    pub(crate) number: u64,
    pub(crate) reference: i64,
    pub(crate) scale: i32,
}

/// A text of a cell. It keeps a number as it is, until a row shows its digits. The room of its
/// octets is used again. Contracts see the octets that it shows.
#[derive(Drop)]
pub struct Text {
    form: TextForm,
    octets: Vec<u8>,
}

impl Model for Text {
    ghost use Rattle.std.specs.Prelude.{List, ℕ};
    ghost use Rattle.bufr_select_rows.specs.Texts.{text_of};

    ghost Value = { List ℕ };

    ghost view = { λ t. text_of t.form t.octets.items };
}

impl Text {
    pub(crate) fn new(alloc: Global) -> Text
        ensures { result ≡ [] }
    {
        Text {
            form: TextForm::Empty,
            octets: Vec::new(alloc),
        }
    }

    /// Empties the text.
    #[inline(always)]
    pub(crate) fn clear(&mut self)
        ensures { self.new ≡ [] }
    {
        self.form = TextForm::Empty;
    }

    /// Replaces the text by the digits of a number.
    pub(crate) fn put_number(&mut self, number: u128) -> Result<(), OutOfMemory>
        ensures { OnOk result (self.new ≡ decimal number) }
    {
        match u64::try_from(number) {
            Ok(count) => {
                self.form = TextForm::Count(count);
                Ok(())
            }
            Err(_) => self.put_large(number),
        }
    }

    /// Replaces the text by the digits of a number.
    // Inlined, its loop makes others slower.
    #[inline(never)]
    fn put_large(&mut self, number: u128) -> Result<(), OutOfMemory>
        ensures { OnOk result (self.new ≡ decimal number) }
    {
        self.form = TextForm::Octets;
        self.octets.clear();
        self.octets
            .extend_from_slice(Buffer::new().format(number).as_bytes())
    }

    /// Puts the value of a field in place of the text.
    #[inline(always)]
    pub(crate) fn put_value(&mut self, field: &Field) -> Result<(), OutOfMemory>
        ensures { OnOk result (self.new ≡ shown_value field.now) }
    {
        match &field.raw {
            Raw::Number(number) => {
                self.keep(NumberField {
                    fxy: field.fxy,
                    spec: field.spec,
                    number: *number,
                });
                Ok(())
            }
            Raw::Text(_) => self.put_octets(field),
        }
    }

    /// Puts the value of a field with a number in place of the text.
    #[inline(always)]
    pub(crate) fn keep(&mut self, number: NumberField)
        ensures { self.new ≡ shown_value (as_field number) }
    {
        self.form = form_of(number);
    }

    /// Puts a short number in place of the text.
    #[inline(always)]
    pub(crate) fn keep_short(&mut self, short: ShortNumber)
        ensures { self.new ≡ short_text short }
    {
        self.form = match short.number {
            Some(number) => TextForm::Count(u64::from(number)),
            None => TextForm::Empty,
        };
    }

    /// Puts the octets of a field's value in place of the text, for rows that show it again and again.
    pub(crate) fn put_octets(&mut self, field: &Field) -> Result<(), OutOfMemory>
        ensures { OnOk result (self.new ≡ shown_value field.now) }
    {
        self.form = TextForm::Octets;
        self.octets.clear();
        push_value(&mut self.octets, field)
    }

    /// Puts the octets of a text, as they are shown, in place of the text.
    pub(crate) fn put_text(&mut self, octets: &[u8]) -> Result<(), OutOfMemory>
        ensures { OnOk result (self.new ≡ shown_octets octets.now) }
    {
        self.form = TextForm::Octets;
        self.octets.clear();
        if are_ones(octets) {
            return Ok(());
        }
        push_text(&mut self.octets, trimmed(octets))
    }

    /// Adds the text as a field of a row, or a part of it if memory runs out.
    pub(crate) fn push_to(&self, text: &mut Vec<u8>) -> Result<(), OutOfMemory>
        ensures { OnOk result (text.new.items
            ≡ text.old.items ++ field_text default_writer self.now) }
    {
        match self.form {
            TextForm::Empty => Ok(()),
            TextForm::Octets => push_field(text, &self.octets),
            TextForm::Sum(sum) => push_sum(text, sum),
            TextForm::Count(count) => push_digits(text, count, 0),
        }
    }

    /// Writes the text as a field of a row that goes on at `end`, and returns where it begins.
    /// `None` if the room is short, the number is large, or the octets need quotes.
    #[inline(always)]
    pub(crate) fn write_to(&self, room: &mut [u8], end: usize) -> Option<usize>
        requires { end ≤ length room.old }
        ensures written { IfSome result (λ start. drop start room.new
            ≡ field_text default_writer self.now ++ drop end room.old) }
        ensures within { IfSome result (λ start. start ≤ end) }
    {
        match self.form {
            TextForm::Empty => Some(end),
            TextForm::Octets => write_octets(room, end, &self.octets),
            TextForm::Sum(sum) => write_number(room, end, sum),
            TextForm::Count(count) => write_count(room, end, count),
        }
    }
}

/// Writes the value of a field with a number, as `Text::write_to` does.
#[inline(always)]
pub(crate) fn write_value(room: &mut [u8], end: usize, field: NumberField) -> Option<usize>
    requires { end ≤ length room.old }
    ensures written { IfSome result (λ start. drop start room.new
        ≡ field_text default_writer (shown_value (as_field field)) ++ drop end room.old) }
    ensures within { IfSome result (λ start. start ≤ end) }
{
    match form_of(field) {
        TextForm::Empty => Some(end),
        TextForm::Sum(sum) => write_number(room, end, sum),
        TextForm::Octets | TextForm::Count(_) => None,
    }
}

/// Writes the octets of a text, as `Text::write_to` does. `None` also if one is not plain.
pub(crate) fn write_text(room: &mut [u8], end: usize, octets: &[u8]) -> Option<usize>
    requires { end ≤ length room.old }
    ensures written { IfSome result (λ start. drop start room.new
        ≡ field_text default_writer (shown_octets octets.now) ++ drop end room.old) }
    ensures within { IfSome result (λ start. start ≤ end) }
{
    if are_ones(octets) {
        return Some(end);
    }
    let shown = trimmed(octets);
    if !shown.iter().all(|octet| is_plain(*octet)) {
        return None;
    }
    write_plain(room, end, shown)
}

/// Returns how a text shows the value of a field with a number.
#[inline(always)]
fn form_of(field: NumberField) -> TextForm
    ensures { (octets : List ℕ) → text_of result octets ≡ shown_value (as_field field) }
{
    let NumberField { fxy, spec, number } = field;
    if field.is_missing() {
        return TextForm::Empty;
    }
    match spec.kind {
        Kind::Text => TextForm::Empty,
        _ => TextForm::Sum(sum_of(NumberField { fxy, spec, number })),
    }
}

/// Returns the sum of a number and the reference value of its field.
#[inline(always)]
fn sum_of(field: NumberField) -> Sum
    ensures { sum_word result ≡ number_word
        (decimal_within (pos field.number +ℤ field.spec.reference) field.spec.scale) }
{
    Sum {
        number: field.number,
        reference: field.spec.reference,
        scale: field.spec.scale,
    }
}

/// Makes a field from a field with a number.
#[inline(always)]
pub(crate) fn field_of(number: NumberField) -> Field
    ensures { result ≡ as_field number }
{
    Field {
        fxy: number.fxy,
        spec: number.spec,
        raw: Raw::Number(number.number),
    }
}

// If memory runs out, the functions below leave a part of what they add.

fn push_value(text: &mut Vec<u8>, field: &Field) -> Result<(), OutOfMemory>
    ensures { OnOk result (text.new.items ≡ text.old.items ++ shown_value field.now) }
{
    match field.value() {
        Some(number) => push_number(text, number),
        None if field.is_missing() => Ok(()),
        None => match &field.raw {
            Raw::Number(_) => Ok(()),
            Raw::Text(octets) => push_text(text, trimmed(octets.as_slice())),
        },
    }
}

/// Adds the digits of a sum.
fn push_sum(text: &mut Vec<u8>, sum: Sum) -> Result<(), OutOfMemory>
    ensures { OnOk result (text.new.items ≡ text.old.items ++ sum_word sum) }
{
    match Decimal::new(
        i128::from(sum.number) + i128::from(sum.reference),
        sum.scale,
    ) {
        Some(number) => push_number(text, number),
        None => Ok(()),
    }
}

fn push_number(text: &mut Vec<u8>, number: Decimal) -> Result<(), OutOfMemory>
    ensures { OnOk result (text.new.items ≡ text.old.items ++ values.text_of number) }
{
    let size = number.units.unsigned_abs();
    if size > u64::MAX as u128 || number.scale < 0 || number.scale > MOST_PLACES {
        return number.push_text(text);
    }
    if number.units < 0 {
        text.push(b'-')?;
    }
    push_digits(text, size as u64, number.scale as usize)
}

/// Adds the digits of `size`, `places` of them after a point.
fn push_digits(text: &mut Vec<u8>, size: u64, places: usize) -> Result<(), OutOfMemory>
    requires { places ≤ 20 }
    ensures { OnOk result (text.new.items
        ≡ text.old.items ++ digits_by (pos places) size) }
{
    let mut row = [b'0'; ROW_END];
    let first = write_digits(size, &mut row, ROW_END);
    if places == 0 {
        return text.extend_from_slice(&row[first..]);
    }
    let point = ROW_END - places;
    let start = first.min(point - 1);
    text.extend_from_slice(&row[start..point])?;
    row[point - 1] = b'.';
    text.extend_from_slice(&row[point - 1..])
}

/// Returns a text without the spaces and NUL octets at its end.
fn trimmed(octets: &[u8]) -> &[u8]
    ensures { result.now ≡ values.trimmed octets.now }
{
    let mut left = octets;
    while let [front @ .., last] = left {
        if !is_padding(*last) {
            return left;
        }
        left = front;
    }
    left
}

fn is_padding(octet: u8) -> bool
    ensures { result ≡ values.is_padding octet }
{
    octet == b' ' || octet == 0
}

/// Adds the octets of a text as they are shown.
fn push_text(text: &mut Vec<u8>, octets: &[u8]) -> Result<(), OutOfMemory>
    ensures { OnOk result (text.new.items ≡ text.old.items ++ shown_text octets.now) }
{
    if octets.iter().all(|octet| is_shown_as_itself(*octet)) {
        return text.extend_from_slice(octets);
    }
    for octet in octets {
        push_octet(text, *octet)?;
    }
    Ok(())
}

fn is_shown_as_itself(octet: u8) -> bool
    ensures { result ≡ values.is_shown_as_itself octet }
{
    octet >= 32 && octet <= 126 && octet != b'\\'
}

/// Returns whether a text shows an octet as itself, and its field needs no quotes for it.
#[inline(always)]
fn is_plain(octet: u8) -> bool
    ensures { result ≡ is_plain octet }
{
    // Digits and capital letters come most often.
    if octet >= b'-' && octet <= b'[' {
        return true;
    }
    is_shown_as_itself(octet) && !needs_byte(octet)
}

/// Adds an octet of a text: itself, or a backslash and two digits.
fn push_octet(text: &mut Vec<u8>, octet: u8) -> Result<(), OutOfMemory>
    ensures { OnOk result (text.new.items ≡ text.old.items ++ values.shown_octet octet) }
{
    if is_shown_as_itself(octet) {
        text.push(octet)?;
        return Ok(());
    }
    let digits = b"0123456789abcdef";
    text.extend_from_slice(&[
        b'\\',
        digits[usize::from(octet / 16)],
        digits[usize::from(octet % 16)],
    ])
}
