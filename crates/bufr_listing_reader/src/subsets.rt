//! Reads the lines of subsets.

ghost use Rattle.std.specs.Prelude.{◌≡◌, ◌++◌, ◌∷◌, [], List, take, OnSome, IfOk, IfErr};
ghost use Rattle.std.specs.Str.{bytes_eq};
ghost use Rattle.bufr_tables.specs.Descriptors.{six_digits};
ghost use Rattle.bufr_base.specs.Answers.{Gives, Fails};
ghost use Rattle.bufr_expand.specs.Courses.{course};
ghost use Rattle.bufr_expand.specs.Walks as walks;
ghost use Rattle.bufr_fields.specs.Steady.{IsReady, WalkAdvances};
ghost use Rattle.bufr_listing_reader.specs.Cursors.{left, past, is_end};
ghost use Rattle.bufr_listing_reader.specs.Lines.{Line};
ghost use Rattle.bufr_listing_reader.specs.Reading.{read_line, fields_read, subsets_of, FieldsListed};
ghost use Rattle.bufr_listing_reader.specs.FieldLines.{read_field};
ghost use Rattle.bufr_listing_reader.specs.Steps.{Reads};

use crate::head_lines::{bad_line, bad_value, read_word};
use crate::lines::Lines;
use crate::raw_values::raw_of;
use bufr_base::{Failure, Items};
use bufr_expand::laws::courses_are_steady;
use bufr_expand::{Spec, Step, Template, Walk};
use bufr_fields::{Field, Subset};
use bufr_listing::{Cause, ListingFault, descriptor_and_space};
use bufr_tables::Fxy;
use std::alloc::Global;

/// Reads subsets up to the line `end`. Items count over all of them.
pub(crate) fn read_subsets(
    alloc: Global,
    template: &Template,
    lines: &mut Lines,
) -> Result<Vec<Subset>, Failure<ListingFault>>
    ensures read { Gives {Y = List Subset × List Line} (λ v. (v.items, left lines.new)) result
        (subsets_of (past lines.old) (course template.now) (left lines.old)) }
    ensures past { past lines.new ≡ past lines.old }
{
    let mut used = 0;
    let mut subsets = Vec::new(alloc);
    while !ends(lines) {
        read_word(lines, b"subset")?;
        let (fields, items) = read_fields(alloc, template, lines, used)?;
        used = items;
        subsets.push(Subset { fields })?;
    }
    lines.pass();
    Ok(subsets)
}

fn ends(lines: &Lines) -> bool
    ensures { result ≡ is_end (left lines.now) }
{
    match lines.peek() {
        None => false,
        Some(line) => line.text == b"end".as_slice(),
    }
}

/// Reads the fields of one subset. `used` counts the message's items before it. Returns also the
/// count after it.
fn read_fields(
    alloc: Global,
    template: &Template,
    lines: &mut Lines,
    used: u64,
) -> Result<(Items<Field>, u64), Failure<ListingFault>>
    ensures read { Gives {Y = FieldsListed}
        (λ x. record { fields = x.0; items = x.1; rest = left lines.new }) result
        (fields_read (past lines.old) (course template.now used) (left lines.old)) }
    ensures past { past lines.new ≡ past lines.old }
{
    courses_are_steady();
    let mut walk = Walk::start(alloc, template, used)?;
    let mut fields = Vec::new(alloc);
    while let Some(field) = read_field(alloc, &mut walk, lines)? {
        fields.push(field)?;
    }
    Ok((Items::from_vec(fields), walk.items()))
}

/// Reads the line of the field that a walk asks for, `None` at the subset's end. If the walk stops,
/// L3 at the next line, or L1 without one.
fn read_field(
    alloc: Global,
    walk: &mut Walk,
    lines: &mut Lines,
) -> Result<Option<Field>, Failure<ListingFault>>
    requires { IsReady walk.old }
    ensures ok { IfOk result (λ o. Reads (past lines.old) (walks.left walk.old) (left lines.old) o
        (walks.left walk.new) (walks.items_met walk.new) (left lines.new)) }
    ensures err { IfErr result (λ e.
        Fails e (fields_read (past lines.old) (walks.left walk.old) (left lines.old))) }
    ensures advances { IfOk result (λ o. OnSome o (WalkAdvances walk.old walk.new)) }
    ensures past { past lines.new ≡ past lines.old }
{
    let step = match walk.next() {
        Err(fault) => {
            let line = lines.take()?;
            let cause = Cause::Walk(fault);
            return Err(Failure::Fault(ListingFault::Refused(u128::from(line.number), cause)));
        }
        Ok(step) => step,
    };
    match step {
        Step::End => Ok(None),
        Step::Field(fxy, spec) => {
            let field = read_value(alloc, lines, fxy, spec)?;
            Ok(Some(field))
        }
        Step::Count(fxy, spec) => {
            let field = read_value(alloc, lines, fxy, spec)?;
            walk.count(field.raw.number());
            Ok(Some(field))
        }
    }
}

fn read_value(
    alloc: Global,
    lines: &mut Lines,
    fxy: Fxy,
    spec: Spec,
) -> Result<Field, Failure<ListingFault>>
    ensures read { Gives {Y = Field × List Line} (λ f. (f, left lines.new)) result
        (read_line (read_field fxy spec) (past lines.old) (left lines.old)) }
    ensures past { past lines.new ≡ past lines.old }
{
    let line = lines.take()?;
    if !begins_field(line.text, fxy) {
        return Err(bad_line(line));
    }
    match raw_of(alloc, spec, &line.text[7..])? {
        None => Err(bad_value(line)),
        Some(raw) => Ok(Field { fxy, spec, raw }),
    }
}

fn begins_field(text: &[u8], fxy: Fxy) -> bool
    ensures { result ≡ bytes_eq (take 7 text.now) (six_digits fxy ++ 32 ∷ []) }
{
    let front = descriptor_and_space(fxy);
    text.len() >= 7 && &text[..7] == front.as_slice()
}
