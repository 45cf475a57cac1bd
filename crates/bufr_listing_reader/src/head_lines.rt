//! Reads the lines of a message before its subsets.

ghost use Rattle.std.specs.Prelude.{◌≡◌, ◌∷◌, [], List, Option, ℕ, ◌≤◌, ◌==◌, length, codes};
ghost use Rattle.std.specs.Prelude.{option_map, true, false, if◌then◌else◌, IfOk, IfErr};
ghost use Rattle.std.specs.Str.{bytes_eq};
ghost use Rattle.std.specs.List.{AllByRecursion};
ghost use Rattle.hex.specs.declared.error.FromHexError.TheVariants.{OutOfMemory};
ghost use Rattle.bufr_base.specs.Answers.{Gives, Fails};
ghost use Rattle.bufr_tables.specs.Entries.{Entries};
ghost use Rattle.bufr_expand.specs.Templates.{template};
ghost use Rattle.bufr_listing_reader.specs.Limits.{two_octets};
ghost use Rattle.bufr_listing_reader.specs.Cursors.{left, past};
ghost use Rattle.bufr_listing_reader.specs.Lines.{Line, as_printed, first_word, words_of, has_octets};
ghost use Rattle.bufr_listing_reader.specs.Reading as reading;
ghost use Rattle.bufr_listing_reader.specs.Reading.{read_line, read_if, read_word, read_numbers};
ghost use Rattle.bufr_listing_reader.specs.Reading.{read_octets, read_local, read_section2, read_flags};
ghost use Rattle.bufr_listing_reader.specs.Reading.{read_descriptors, Described, described};

use crate::line_words::{Words, begins};
use crate::lines::{Lines, TextLine};
use bufr_base::{Failure, Items};
use bufr_data::TemplateCache;
use bufr_expand::Template;
use bufr_listing::{Cause, ListingFault};
use bufr_tables::Fxy;
use bufr_tables::laws::descriptor_texts;
use std::alloc::Global;

pub(crate) fn read_word(lines: &mut Lines, word: &[u8]) -> Result<(), Failure<ListingFault>>
    requires { has_octets word.now ≡ false }
    ensures read { Gives {Y = Unit {0} × List Line} (λ u. (u, left lines.new)) result
        (read_line (read_word word.now) (past lines.old) (left lines.old)) }
    ensures past { past lines.new ≡ past lines.old }
{
    let line = lines.take()?;
    if line.text == word {
        Ok(())
    } else {
        Err(bad_line(line))
    }
}

/// Reads a line of a first word and one number below each limit.
pub(crate) fn read_numbers(
    alloc: Global,
    lines: &mut Lines,
    title: &[u8],
    limits: &[u64],
) -> Result<Vec<u64>, Failure<ListingFault>>
    requires word { AllByRecursion (λ c. (c == 32) ≡ false) title.now }
    requires plain { has_octets title.now ≡ false }
    requires short { AllByRecursion (λ l. l ≤ two_octets) limits.now }
    ensures read { Gives {Y = List ℕ × List Line} (λ ns. (ns.items, left lines.new)) result
        (read_line (read_numbers title.now limits.now) (past lines.old) (left lines.old)) }
    ensures past { past lines.new ≡ past lines.old }
{
    let line = lines.take()?;
    if !begins(line.text, title) {
        return Err(bad_line(line));
    }
    let words = Words::after_first(line.text);
    let found = words.numbers(alloc, limits)?;
    match found {
        Some(numbers) => Ok(numbers),
        None if words.has_count(limits.len()) => Err(bad_value(line)),
        None => Err(bad_line(line)),
    }
}

/// Reads the line `local1`, if it is next.
pub(crate) fn read_local(
    alloc: Global,
    lines: &mut Lines,
) -> Result<Option<Vec<u8>>, Failure<ListingFault>>
    ensures read { Gives {Y = Option (List ℕ) × List Line}
        (λ o. (option_map (λ v. v.items) o, left lines.new)) result
        (read_if (codes "local1") read_local (left lines.old)) }
    ensures past { past lines.new ≡ past lines.old }
{
    match lines.peek() {
        Some(line) if begins(line.text, b"local1") => {
            lines.pass();
            Ok(Some(octets_of(alloc, line, b"local1")?))
        }
        _ => Ok(None),
    }
}

/// Reads the line `section2`, if it is next.
pub(crate) fn read_section2(
    alloc: Global,
    lines: &mut Lines,
) -> Result<Option<Items<u8>>, Failure<ListingFault>>
    ensures read { Gives {Y = Option (List ℕ) × List Line} (λ o. (o, left lines.new)) result
        (read_if (codes "section2") read_section2 (left lines.old)) }
    ensures past { past lines.new ≡ past lines.old }
{
    match lines.peek() {
        Some(line) if begins(line.text, b"section2") => {
            lines.pass();
            if line.text == b"section2".as_slice() {
                return Ok(Some(Items::from_vec(Vec::new(alloc))));
            }
            let octets = octets_of(alloc, line, b"section2")?;
            Ok(Some(Items::from_vec(octets)))
        }
        _ => Ok(None),
    }
}

/// Reads the octets of a line, at least one, after its first word.
fn octets_of(alloc: Global, line: TextLine, title: &[u8]) -> Result<Vec<u8>, Failure<ListingFault>>
    requires titled { first_word line.text.now ≡ title.now }
    requires octets { has_octets title.now ≡ true }
    ensures { let text = as_printed line.entry.text.now in Gives (λ v. v.items) result
        (read_octets title.now (length (words_of text) == 2) line.entry.number text) }
{
    let Some(digits) = Words::after_first(line.text).only() else {
        return Err(bad_line(line));
    };
    match hex::decode(alloc, digits) {
        Err(fault) => match fault {
            hex::FromHexError::OutOfMemory => Err(Failure::OutOfMemory),
            _ => Err(bad_value(line)),
        },
        Ok(octets) if octets.is_empty() => Err(bad_value(line)),
        Ok(octets) => Ok(octets),
    }
}

/// A line of flags.
#[derive(Clone, Copy, Drop)]
pub(crate) struct Flags {
    /// Whether the data are observed.
    pub(crate) observed: bool,
    /// Whether the data are compressed.
    pub(crate) compressed: bool,
}

pub(crate) fn read_flags(lines: &mut Lines) -> Result<Flags, Failure<ListingFault>>
    ensures read { Gives {Y = reading.Flags × List Line}
        (λ f. (record { observed = f.observed; compressed = f.compressed }, left lines.new)) result
        (read_line read_flags (past lines.old) (left lines.old)) }
    ensures past { past lines.new ≡ past lines.old }
{
    let line = lines.take()?;
    if line.text == b"flags".as_slice() {
        return Ok(Flags {
            observed: false,
            compressed: false,
        });
    }
    if line.text == b"flags observed".as_slice() {
        return Ok(Flags {
            observed: true,
            compressed: false,
        });
    }
    if line.text == b"flags compressed".as_slice() {
        return Ok(Flags {
            observed: false,
            compressed: true,
        });
    }
    if line.text == b"flags observed compressed".as_slice() {
        return Ok(Flags {
            observed: true,
            compressed: true,
        });
    }
    if begins(line.text, b"flags") && Words::of(line.text).has_at_most(3) {
        return Err(bad_value(line));
    }
    Err(bad_line(line))
}

/// Reads the line of the descriptors. Returns also their template.
pub(crate) fn read_descriptors(
    alloc: Global,
    templates: &mut TemplateCache<'_>,
    lines: &mut Lines,
) -> Result<(Vec<Fxy>, Template), Failure<ListingFault>>
    ensures read { Gives {Y = Described × List Line}
        (λ x. (record { descriptors = x.0.items; tree = x.1 }, left lines.new)) result
        (read_line (read_descriptors templates.old) (past lines.old) (left lines.old)) }
    ensures past { past lines.new ≡ past lines.old }
    ensures same { templates.new ≡ templates.old }
{
    let line = lines.take()?;
    let descriptors = descriptors_of(alloc, line)?;
    let template = template_of(alloc, templates, line, descriptors.as_slice())?;
    Ok((descriptors, template))
}

/// Reads the descriptors of a line, at least one. L1 for any other line.
fn descriptors_of(alloc: Global, line: TextLine) -> Result<Vec<Fxy>, Failure<ListingFault>>
    ensures ok { let n = line.entry.number in let text = as_printed line.entry.text.now in
        (tables : Entries) → IfOk result (λ ds. read_descriptors tables n text
        ≡ described n ds.items (template tables ds.items)) }
    ensures fault { let n = line.entry.number in let text = as_printed line.entry.text.now in
        (tables : Entries) → IfErr result (λ e. Fails e (read_descriptors tables n text)) }
{
    descriptor_texts();
    if !begins(line.text, b"descriptors") {
        return Err(bad_line(line));
    }
    match Words::after_first(line.text).descriptors(alloc)? {
        Some(descriptors) if !descriptors.is_empty() => Ok(descriptors),
        _ => Err(bad_line(line)),
    }
}

/// Builds the template of a line's descriptors. L3 at this line if they have none.
fn template_of(
    alloc: Global,
    templates: &mut TemplateCache<'_>,
    line: TextLine,
    descriptors: &[Fxy],
) -> Result<Template, Failure<ListingFault>>
    ensures exact { Gives (λ t. record { descriptors = descriptors.now; tree = t }) result
        (described line.entry.number descriptors.now (template templates.old descriptors.now)) }
    ensures same { templates.new ≡ templates.old }
{
    match templates.template_of(alloc, descriptors) {
        Ok(template) => Ok(template),
        Err(failure) => Err(failure.map(|fault| {
            ListingFault::Refused(u128::from(line.number), Cause::Template(fault))
        })),
    }
}

pub(crate) fn bad_line(line: TextLine) -> Failure<ListingFault>
    ensures { result ≡ Failure.Fault (ListingFault.BadLine line.entry.number) }
{
    Failure::Fault(ListingFault::BadLine(u128::from(line.number)))
}

pub(crate) fn bad_value(line: TextLine) -> Failure<ListingFault>
    ensures { result ≡ Failure.Fault (ListingFault.BadValue line.entry.number) }
{
    Failure::Fault(ListingFault::BadValue(u128::from(line.number)))
}
