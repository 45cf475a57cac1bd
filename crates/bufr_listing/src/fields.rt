//! Writes the lines of fields.

ghost use Rattle.std.specs.Prelude.{◌≡◌, ◌+◌, ◌≤◌, ◌∷◌, ◌++◌, [], length, take, drop, OnOk, OnErr, IfSome};
ghost use Rattle.bufr_tables.specs.Descriptors.{six_digits};
ghost use Rattle.bufr_fields.specs.Values.{as_field, text_of};
ghost use Rattle.bufr_listing.specs.Listings as listings;
ghost use Rattle.bufr_listing.specs.Listings.{line, joined, quoted_octet, quoted};
ghost use Rattle.bufr_listing.specs.Listings.{value_word, field_line, subset_line, subset_lines};

use crate::decimals::write_sum;
use crate::descriptor_texts::descriptor_and_space;
use bufr_base::OutOfMemory;
use bufr_fields::{Decimal, Field, NumberField, Raw, Subset};
use bufr_tables::{Fxy, Kind};

/// The index of the line's end in a row.
const ROW_END: usize = 63;

/// Adds the lines of a subset.
pub fn push_subset(text: &mut Vec<u8>, subset: &Subset) -> Result<(), OutOfMemory>
    ensures ok { OnOk result (text.new.items ≡ text.old.items ++ joined (subset_lines subset.now)) }
    ensures err { OnErr result (text.new.items ≡ text.old.items) }
{
    let held = text.len();
    push_subset_line(text)?;
    for field in subset.fields.as_slice() {
        let added = push_field(text, field);
        if added.is_err() {
            text.truncate(held);
            return added;
        }
    }
    Ok(())
}

/// Adds the first line of a subset. The lines of its fields follow.
pub fn push_subset_line(text: &mut Vec<u8>) -> Result<(), OutOfMemory>
    ensures ok { OnOk result (text.new.items ≡ text.old.items ++ line subset_line) }
    ensures err { OnErr result (text.new.items ≡ text.old.items) }
{
    text.extend_from_slice(b"subset\n")
}

/// Adds the line of a field.
pub fn push_field(text: &mut Vec<u8>, field: &Field) -> Result<(), OutOfMemory>
    ensures ok { OnOk result (text.new.items ≡ text.old.items ++ line (field_line field.now)) }
    ensures err { OnErr result (text.new.items ≡ text.old.items) }
{
    match &field.raw {
        Raw::Number(number) => {
            let (fxy, spec, number) = (field.fxy, field.spec, *number);
            push_number_field(text, NumberField { fxy, spec, number })
        }
        Raw::Text(_) => push_any_field(text, field),
    }
}

/// Adds the line of a field with a number.
// A call would move the number through memory.
#[inline(always)]
pub fn push_number_field(text: &mut Vec<u8>, field: NumberField) -> Result<(), OutOfMemory>
    ensures ok { OnOk result (text.new.items
        ≡ text.old.items ++ line (field_line (as_field field))) }
    ensures err { OnErr result (text.new.items ≡ text.old.items) }
{
    let NumberField { fxy, spec, number } = field;
    let mut row = [b'\n'; ROW_END + 1];
    match write_line(&mut row, NumberField { fxy, spec, number }) {
        Some(first) => text.extend_from_slice(&row[first..]),
        None => push_any_number(text, NumberField { fxy, spec, number }),
    }
}

/// Writes the line of a field with a number at the end of a row, unless it is large.
#[inline(always)]
fn write_line(row: &mut [u8], field: NumberField) -> Option<usize>
    requires long { length row.old ≡ ROW_END + 1 }
    requires end { drop ROW_END row.old ≡ 10 ∷ [] }
    ensures written { IfSome result (λ first.
        drop first row.new ≡ line (field_line (as_field field))) }
    ensures within { IfSome result (λ first. first ≤ ROW_END) }
    ensures same { length row.new ≡ ROW_END + 1 }
{
    let NumberField { fxy, spec, number } = field;
    let end = write_value(row, NumberField { fxy, spec, number })?;
    write_octets(row, end, &descriptor_and_space(fxy))
}

/// Writes the word for the value of a field with a number before the line's end.
#[inline(always)]
fn write_value(row: &mut [u8], field: NumberField) -> Option<usize>
    requires long { length row.old ≡ ROW_END + 1 }
    ensures written { IfSome result (λ first.
        drop first row.new ≡ value_word (as_field field) ++ drop ROW_END row.old) }
    ensures within { IfSome result (λ first. first ≤ ROW_END) }
    ensures same { length row.new ≡ ROW_END + 1 }
{
    let NumberField { fxy, spec, number } = field;
    if field.is_missing() {
        return write_octets(row, ROW_END, b"missing");
    }
    match spec.kind {
        Kind::Text => None,
        _ => write_sum(row, ROW_END, NumberField { fxy, spec, number }),
    }
}

/// Writes octets before `end`. Returns where they begin, or `None` if the room is short.
#[inline(always)]
fn write_octets(row: &mut [u8], end: usize, octets: &[u8]) -> Option<usize>
    requires { end ≤ length row.old }
    ensures written { IfSome result (λ first. drop first row.new ≡ octets.now ++ drop end row.old) }
    ensures within { IfSome result (λ first. first ≤ end) }
{
    if end < octets.len() {
        return None;
    }
    let first = end - octets.len();
    row[first..end].copy_from_slice(octets);
    Some(first)
}

/// Adds the line of a field with a number by `push_any_field`.
#[inline(never)]
fn push_any_number(text: &mut Vec<u8>, field: NumberField) -> Result<(), OutOfMemory>
    ensures ok { OnOk result (text.new.items
        ≡ text.old.items ++ line (field_line (as_field field))) }
    ensures err { OnErr result (text.new.items ≡ text.old.items) }
{
    let NumberField { fxy, spec, number } = field;
    let raw = Raw::Number(number);
    push_any_field(text, &Field { fxy, spec, raw })
}

/// Adds the line of a field, whatever its value.
fn push_any_field(text: &mut Vec<u8>, field: &Field) -> Result<(), OutOfMemory>
    ensures ok { OnOk result (text.new.items ≡ text.old.items ++ line (field_line field.now)) }
    ensures err { OnErr result (text.new.items ≡ text.old.items) }
{
    let held = text.len();
    text.extend_from_slice(&descriptor_and_space(field.fxy))?;
    let added = push_value(text, field);
    if added.is_err() {
        text.truncate(held);
    }
    added
}

// If memory runs out, the functions below leave a part of what they add.

fn push_value(text: &mut Vec<u8>, field: &Field) -> Result<(), OutOfMemory>
    ensures ok { OnOk result (text.new.items ≡ text.old.items ++ line (value_word field.now)) }
    ensures kept { OnErr result (take (length text.old.items) text.new.items ≡ text.old.items) }
{
    match field.value() {
        Some(number) => push_number(text, number),
        None if field.is_missing() => text.extend_from_slice(b"missing\n"),
        None => match &field.raw {
            Raw::Number(_) => text.extend_from_slice(b"\n"),
            Raw::Text(octets) => push_quoted(text, octets.as_slice()),
        },
    }
}

fn push_number(text: &mut Vec<u8>, number: Decimal) -> Result<(), OutOfMemory>
    ensures ok { OnOk result (text.new.items ≡ text.old.items ++ line (text_of number)) }
    ensures kept { OnErr result (take (length text.old.items) text.new.items ≡ text.old.items) }
{
    number.push_text(text)?;
    text.extend_from_slice(b"\n")
}

fn push_quoted(text: &mut Vec<u8>, octets: &[u8]) -> Result<(), OutOfMemory>
    ensures ok { OnOk result (text.new.items ≡ text.old.items ++ line (quoted octets.now)) }
    ensures kept { OnErr result (take (length text.old.items) text.new.items ≡ text.old.items) }
{
    text.push(b'"')?;
    if octets.iter().all(|octet| is_literal(*octet)) {
        text.extend_from_slice(octets)?;
        return text.extend_from_slice(b"\"\n");
    }
    for octet in octets {
        push_octet(text, *octet)?;
    }
    text.extend_from_slice(b"\"\n")
}

/// Whether an octet appears as itself between quotes.
pub fn is_literal(octet: u8) -> bool
    ensures { result ≡ listings.is_literal octet }
{
    octet >= 32 && octet <= 126 && octet != b'"' && octet != b'\\'
}

/// Adds an octet between quotes: itself, or a backslash and two lower hexadecimal digits.
fn push_octet(text: &mut Vec<u8>, octet: u8) -> Result<(), OutOfMemory>
    ensures ok { OnOk result (text.new.items ≡ text.old.items ++ quoted_octet octet) }
    ensures err { OnErr result (text.new.items ≡ text.old.items) }
{
    if is_literal(octet) {
        text.push(octet)?;
        return Ok(());
    }
    let digits = b"0123456789abcdef";
    text.extend_from_slice(&[
        b'\\',
        digits[usize::from(octet / 16)],
        digits[usize::from(octet % 16)],
    ])
}
