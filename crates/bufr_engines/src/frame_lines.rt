//! The lines of frames, and the last line.

ghost use Rattle.std.specs.Prelude.{◌≡◌, ◌+◌, ◌<◌, ◌≤◌, ◌∷◌, ◌++◌, length, take, drop, decimal, true};
ghost use Rattle.std.specs.Prelude.{Result, Err, IfOk, OnOk, OnErr};
ghost use Rattle.std.specs.Int.{from_bool};
ghost use Rattle.bufr_base.specs.Answers.{Gives, result_map};
ghost use Rattle.bufr_message.specs.declared.Decoded.{Decoded};
ghost use Rattle.bufr_message.specs.declared.Refused.{Refused};
ghost use Rattle.bufr_message.specs.Summary.{summary};
ghost use Rattle.bufr_engines.specs.Refusals.{refused_as};
ghost use Rattle.bufr_io.specs.Taking.{frame_at};
ghost use Rattle.bufr_engines.specs.Output.{checked_as, checked_line, last_text, printed_as};
ghost use Rattle.bufr_engines.specs.Output.{tally_line};
ghost use Rattle.bufr_engines.specs.StreamEngines.{HoldsField};

use bufr_base::{Failure, OutOfMemory};
use bufr_expand::Asks;
use bufr_io::Tally;
use bufr_listing::{push_field, push_number_field};
use bufr_message::{Fields, Refused, Summary};
use bufr_tables::Fxy;
use itoa::{Buffer, Integer, write_digits};
use std::alloc::Global;

/// The most digits of a number of 64 bits.
const MOST_DIGITS: usize = 20;

/// The index of the line's end in a row, after four numbers and the words between them.
const ROW_END: usize = 4 * MOST_DIGITS + 6;

/// A form in which a command prints a stream.
#[derive(Clone, Copy, Drop, PartialEq, Eq)]
pub enum OutputForm {
    /// The listing of each message.
    Shown,
    /// A line for each frame, and one that counts them.
    Checked,
}

/// A choice of all descriptors.
struct EachField;

impl Asks for EachField {
    ghost is_asked = { λ each d. true };

    #[inline(always)]
    fn asks(&self, _fxy: Fxy) -> bool {
        true
    }
}

/// Takes the next field and adds its line. Returns whether there was one. If memory runs out, adds
/// nothing.
#[inline(always)]
pub(crate) fn hold_field(
    alloc: Global,
    text: &mut Vec<u8>,
    fields: &mut Fields<'_>,
) -> Result<bool, OutOfMemory>
    ensures ok { IfOk result (λ more.
        HoldsField more fields.old fields.new text.old.items text.new.items) }
    ensures err { OnErr result (text.new.items ≡ text.old.items) }
{
    if let Some(number) = fields.next_asked_number(&EachField) {
        push_number_field(text, number)?;
        return Ok(true);
    }
    hold_next(alloc, text, fields)
}

/// Takes the next field, whatever it is, as `hold_field` does.
#[inline(never)]
fn hold_next(
    alloc: Global,
    text: &mut Vec<u8>,
    fields: &mut Fields<'_>,
) -> Result<bool, OutOfMemory>
    ensures ok { IfOk result (λ more.
        HoldsField more fields.old fields.new text.old.items text.new.items) }
    ensures err { OnErr result (text.new.items ≡ text.old.items) }
{
    match fields.next(alloc)? {
        None => Ok(false),
        Some(field) => {
            push_field(text, &field)?;
            Ok(true)
        }
    }
}

/// Adds the line of `check` of a message, or nothing if memory runs out. Fills a row from its end,
/// and adds it at once.
pub(crate) fn hold_checked(
    text: &mut Vec<u8>,
    place: u64,
    octets: &[u8],
    said: &Summary,
) -> Result<(), OutOfMemory>
    ensures ok { OnOk result (text.new.items
        ≡ text.old.items ++ checked_line (frame_at place octets.now) said.now) }
    ensures err { OnErr result (text.new.items ≡ text.old.items) }
{
    let mut row = [b'\n'; ROW_END + 1];
    let slack = put_spaced(&mut row, ROW_END, said.slack_octets);
    let subsets = put_spaced(&mut row, slack, said.subsets);
    row[subsets - 1] = b'k';
    row[subsets - 2] = b'o';
    row[subsets - 3] = b' ';
    let length = put_spaced(&mut row, subsets - 3, octets.len() as u64);
    let first = write_digits(place, &mut row, length);
    text.extend_from_slice(&row[first..])
}

/// Puts a number and a space before it into a row, just before the octet at `end`. Returns the index
/// of the space.
#[inline(always)]
fn put_spaced(row: &mut [u8], end: usize, number: u64) -> usize
    requires room { MOST_DIGITS + 1 ≤ end }
    requires within { end ≤ length row.old }
    ensures put { drop result row.new ≡ 32 ∷ decimal number ++ drop end row.old }
    ensures near { end ≤ result + MOST_DIGITS + 1 }
    ensures before { result < end }
    ensures long { length row.new ≡ length row.old }
{
    let first = write_digits(number, row, end) - 1;
    row[first] = b' ';
    first
}

/// Adds the line of a refused frame, or nothing if memory runs out.
pub(crate) fn hold_refused(
    alloc: Global,
    text: &mut Vec<u8>,
    printing: OutputForm,
    place: u64,
    octets: &[u8],
    why: &Refused,
) -> Result<(), OutOfMemory>
    ensures ok { OnOk result (text.new.items
        ≡ text.old.items ++ printed_as printing (frame_at place octets.now) (Err why.now)) }
    ensures err { OnErr result (text.new.items ≡ text.old.items) }
{
    let length = octets.len();
    let line = match printing {
        OutputForm::Shown => format!(in alloc; "# refused {place} {why}\n")?,
        OutputForm::Checked => format!(in alloc; "{place} {length} refused {why}\n")?,
    };
    text.extend_from_slice(line.as_bytes())?;
    Ok(())
}

/// Adds the last line, or nothing if memory runs out.
pub(crate) fn hold_tally(
    text: &mut Vec<u8>,
    printing: OutputForm,
    tally: &Tally,
) -> Result<(), OutOfMemory>
    ensures ok { OnOk result (text.new.items ≡ text.old.items ++ last_text printing tally.now) }
    ensures err { OnErr result (text.new.items ≡ text.old.items) }
{
    let OutputForm::Checked = printing else {
        return Ok(());
    };
    let held = text.len();
    let added = push_tally(text, tally);
    if added.is_err() {
        text.truncate(held);
    }
    added
}

// If memory runs out, these add a part of their line.

fn push_number<I: Integer>(text: &mut Vec<u8>, words: &[u8], number: I) -> Result<(), OutOfMemory>
    ensures ok { OnOk result (text.new.items ≡ text.old.items ++ words.now ++ I.text number) }
    ensures kept { OnErr result (take (length text.old.items) text.new.items ≡ text.old.items) }
{
    text.extend_from_slice(words)?;
    text.extend_from_slice(Buffer::new().format(number).as_bytes())?;
    Ok(())
}

/// Adds the last line of `check`.
fn push_tally(text: &mut Vec<u8>, tally: &Tally) -> Result<(), OutOfMemory>
    ensures ok { OnOk result (text.new.items ≡ text.old.items ++ tally_line tally.now) }
    ensures kept { OnErr result (take (length text.old.items) text.new.items ≡ text.old.items) }
{
    push_number(text, b"frames ", tally.frames)?;
    push_number(text, b" refused ", tally.refused)?;
    push_number(text, b" skipped ", tally.skipped)?;
    text.push(b'\n')?;
    Ok(())
}
