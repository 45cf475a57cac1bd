//! Writes the lines of a listing before its first subset.

ghost use Rattle.std.specs.Prelude.{◌≡◌, ◌≤◌, ◌∷◌, [], ◌++◌, List, OnOk, length, option_copied};
ghost use Rattle.bufr_fields.specs.declared.field.Subset.{Subset};
ghost use Rattle.bufr_sections.specs.SectionsRead.{message_lent};
ghost use Rattle.bufr_listing.specs.OctetLines.{octets_text};
ghost use Rattle.bufr_listing.specs.Listings.{words, line, joined, numbers_line};
ghost use Rattle.bufr_listing.specs.Listings.{section1_line, section1_numbers, time_line};
ghost use Rattle.bufr_listing.specs.Listings.{time_numbers, flags_line};
ghost use Rattle.bufr_listing.specs.Listings.{descriptors_line, heading_lines};

use bufr_base::{Items, OutOfMemory};
use bufr_sections::{Head, LentSections};
use bufr_tables::Fxy;
use itoa::write_digits;
use std::alloc::Global;

/// The most octets of a number of 16 bits with the space before it.
const MOST_OCTETS: usize = 6;

/// The index of the line's end in a row, after eight numbers.
const ROW_END: usize = 8 * MOST_OCTETS;

/// Adds the lines of a listing before its first subset, whatever the subsets. If memory runs out,
/// adds a part of them.
pub fn push_heading(
    alloc: Global,
    text: &mut Vec<u8>,
    sections: &LentSections<'_>,
) -> Result<(), OutOfMemory>
    ensures { (subsets : List Subset) → OnOk result (text.new.items
        ≡ text.old.items ++ joined (heading_lines (message_lent sections.now subsets))) }
{
    text.extend_from_slice(b"message\n")?;
    push_section1(text, sections.head)?;
    push_octets(alloc, text, b"local1", Some(&sections.head.local), b"")?;
    push_octets(
        alloc,
        text,
        b"section2",
        sections.section2.as_ref(),
        b"section2\n",
    )?;
    push_flags(text, sections.observed, sections.compressed)?;
    push_descriptors(text, sections.descriptors)
}

fn push_section1(text: &mut Vec<u8>, head: &Head) -> Result<(), OutOfMemory>
    ensures { OnOk result (text.new.items
        ≡ text.old.items ++ line (section1_line head.now) ++ line (time_line head.now)) }
{
    push_numbers(text, b"section1", &section1_numbers(head))?;
    push_numbers(text, b"time", &time_numbers(head))
}

/// Returns the numbers of section 1 before the time.
pub(crate) fn section1_numbers(head: &Head) -> [u16; 8]
    ensures { result ≡ section1_numbers head.now }
{
    [
        head.centre,
        head.sub_centre,
        u16::from(head.update),
        u16::from(head.category),
        u16::from(head.international),
        u16::from(head.local_category),
        u16::from(head.master_version),
        u16::from(head.local_version),
    ]
}

/// Returns the numbers of the time.
pub(crate) fn time_numbers(head: &Head) -> [u16; 6]
    ensures { result ≡ time_numbers head.now }
{
    [
        head.year,
        u16::from(head.month),
        u16::from(head.day),
        u16::from(head.hour),
        u16::from(head.minute),
        u16::from(head.second),
    ]
}

/// Adds a line of at most eight numbers. Fills a row from its end, and adds it at once.
pub(crate) fn push_numbers(
    text: &mut Vec<u8>,
    title: &[u8],
    numbers: &[u16],
) -> Result<(), OutOfMemory>
    requires { length numbers.now ≤ 8 }
    ensures { OnOk result (text.new.items
        ≡ text.old.items ++ line (numbers_line title.now numbers.now)) }
{
    let mut row = [b'\n'; ROW_END + 1];
    let mut first = ROW_END;
    let mut left = numbers.len();
    while left > 0 {
        left -= 1;
        first = write_digits(u64::from(numbers[left]), &mut row, first) - 1;
        row[first] = b' ';
    }
    text.extend_from_slice(title)?;
    text.extend_from_slice(&row[first..])
}

/// Adds a line of octets, `empty` for none, nothing for `None`.
fn push_octets(
    alloc: Global,
    text: &mut Vec<u8>,
    title: &[u8],
    octets: Option<&Items<u8>>,
    empty: &[u8],
) -> Result<(), OutOfMemory>
    ensures { OnOk result (text.new.items ≡ text.old.items
        ++ octets_text title.now empty.now (option_copied octets.entry)) }
{
    let Some(octets) = octets else {
        return Ok(());
    };
    if octets.as_slice().is_empty() {
        return text.extend_from_slice(empty);
    }
    let digits = hex::encode(alloc, octets.as_slice())?;
    push_word(text, title, digits.as_bytes())
}

fn push_word(text: &mut Vec<u8>, title: &[u8], word: &[u8]) -> Result<(), OutOfMemory>
    ensures { OnOk result (text.new.items
        ≡ text.old.items ++ line (words title.now (word.now ∷ []))) }
{
    text.extend_from_slice(title)?;
    text.push(b' ')?;
    text.extend_from_slice(word)?;
    text.extend_from_slice(b"\n")
}

pub(crate) fn push_flags(
    text: &mut Vec<u8>,
    observed: bool,
    compressed: bool,
) -> Result<(), OutOfMemory>
    ensures { OnOk result (text.new.items
        ≡ text.old.items ++ line (flags_line observed compressed)) }
{
    let words = match (observed, compressed) {
        (false, false) => "flags\n",
        (true, false) => "flags observed\n",
        (false, true) => "flags compressed\n",
        (true, true) => "flags observed compressed\n",
    };
    text.extend_from_slice(words.as_bytes())
}

pub(crate) fn push_descriptors(text: &mut Vec<u8>, descriptors: &[Fxy]) -> Result<(), OutOfMemory>
    ensures { OnOk result (text.new.items
        ≡ text.old.items ++ line (descriptors_line descriptors.now)) }
{
    text.extend_from_slice(b"descriptors")?;
    for fxy in descriptors {
        let digits = fxy.digits();
        text.extend_from_slice(&[
            b' ', digits[0], digits[1], digits[2], digits[3], digits[4], digits[5],
        ])?;
    }
    text.push(b'\n')?;
    Ok(())
}
