//! Reads one plain subset.

ghost use Rattle.std.specs.Prelude.{◌≡◌, ◌≤◌, ℕ, Bool, true, List, Ok, Err, OnErr, OnSome, IfOk, IfErr, IfSome, IfNone, IsOk};
ghost use Rattle.bufr_bits.specs.Ends.{left};
ghost use Rattle.bufr_base.specs.Answers.{Gives, Fails};
ghost use Rattle.bufr_expand.specs.Courses.{course};
ghost use Rattle.bufr_expand.specs.Walks as walks;
ghost use Rattle.bufr_tables.specs.declared.element.Kind.TheVariants as kinds;
ghost use Rattle.bufr_tables.specs.Elements.{same_kind};
ghost use Rattle.bufr_fields.specs.declared.field.Raw.TheVariants.{Number};
ghost use Rattle.bufr_data.specs.Compressed.Reading.{ColumnsFound};
ghost use Rattle.bufr_data.specs.Plain.{SubsetRead, raw_at, stopped, fields_at};
ghost use Rattle.bufr_data.specs.Plain.Reads.{raw_or_ends, Reads};
ghost use Rattle.bufr_fields.specs.Steady.{IsReady, WalkAdvances};

use bufr_base::{Failure, Items};
use bufr_bits::BitReader;
use bufr_expand::{Spec, Step, Template, Walk, WalkFault};
use bufr_fields::{DataFault, Field, MOST_RAW_BITS, Raw, Subset};
use bufr_tables::Kind;
use std::alloc::Global;

/// Reads a subset, moves the reader past it, and returns it with the items of the message up to its
/// end; `used` of them come before it. The fault is the first: V1 `EffectiveRange`, V2 `DataEnds`
/// with subset 1 and the field, or V6 `TooLarge`.
pub fn read_plain(
    alloc: Global,
    template: &Template,
    reader: &mut BitReader,
    used: u64,
) -> Result<(Subset, u64), Failure<DataFault>>
    ensures exact { Gives (λ x. record { fields = x.0.fields; items = x.1; rest = left reader.new })
        result (fields_at 1 1 (course template.now used) (left reader.old)) }
    ensures octets { reader.new.octets ≡ reader.old.octets }
    ensures err { OnErr result (reader.new ≡ reader.old) }
    ensures onward { reader.old.place ≤ reader.new.place }
{
    let place = reader.place();
    let answer = read_fields(alloc, template, reader, used);
    if answer.is_err() {
        reader.return_to(place);
    }
    answer
}

/// The most fields to reserve room for before reading.
pub(crate) const FIELDS_WITH_ROOM: usize = 64;

/// Reads a subset; after an error the reader may have moved.
fn read_fields(
    alloc: Global,
    template: &Template,
    reader: &mut BitReader,
    used: u64,
) -> Result<(Subset, u64), Failure<DataFault>>
    ensures exact { Gives (λ x. record { fields = x.0.fields; items = x.1; rest = left reader.new })
        result (fields_at 1 1 (course template.now used) (left reader.old)) }
    ensures octets { reader.new.octets ≡ reader.old.octets }
    ensures onward { reader.old.place ≤ reader.new.place }
{
    let mut walk = Walk::start(alloc, template, used)?;
    let room = template.nodes().min(FIELDS_WITH_ROOM);
    let mut fields = Vec::with_capacity(alloc, room)?;
    while let Some(field) = read_field(alloc, &mut walk, reader, fields.len() as u64 + 1)? {
        fields.push(field)?;
    }
    let fields = Items::from_vec(fields);
    Ok((Subset { fields }, walk.items()))
}

/// Reads field `i`, or returns `None` at the end of the subset.
pub(crate) fn read_field(
    alloc: Global,
    walk: &mut Walk,
    reader: &mut BitReader,
    i: u64,
) -> Result<Option<Field>, Failure<DataFault>>
    requires { IsReady walk.old }
    ensures ok { IfOk result (λ o. Reads 1 i (walks.left walk.old) (left reader.old) o
        (walks.left walk.new) (walks.items_met walk.new) (left reader.new)) }
    ensures err { IfErr result (λ e. Fails e
        (fields_at 1 i (walks.left walk.old) (left reader.old))) }
    ensures goes_on { IfOk result (λ o. OnSome o (WalkAdvances walk.old walk.new)) }
    ensures octets { reader.new.octets ≡ reader.old.octets }
    ensures onward { reader.old.place ≤ reader.new.place }
{
    let step = match walk.next() {
        Err(fault) => return Err(Failure::Fault(fault_of(fault))),
        Ok(step) => step,
    };
    match step {
        Step::End => Ok(None),
        Step::Field(fxy, spec) => {
            let raw = read_raw(alloc, spec, reader, i)?;
            Ok(Some(Field { fxy, spec, raw }))
        }
        Step::Count(fxy, spec) => {
            let raw = read_raw(alloc, spec, reader, i)?;
            walk.count(raw.number());
            Ok(Some(Field { fxy, spec, raw }))
        }
    }
}

pub(crate) fn fault_of(fault: WalkFault) -> DataFault
    ensures fields { stopped {A = SubsetRead} fault ≡ Err result }
    ensures columns { stopped {A = ColumnsFound} fault ≡ Err result }
{
    match fault {
        WalkFault::TooLarge => DataFault::TooLarge,
        WalkFault::EffectiveRange(fxy) => DataFault::EffectiveRange(fxy),
    }
}

// A call would move each value through memory.
#[inline(always)]
pub(crate) fn read_raw(
    alloc: Global,
    spec: Spec,
    reader: &mut BitReader,
    i: u64,
) -> Result<Raw, Failure<DataFault>>
    ensures exact { Gives {Y = Raw × List Bool} (λ raw. (raw, left reader.new)) result
        (raw_or_ends 1 i (raw_at spec (left reader.old))) }
    ensures octets { reader.new.octets ≡ reader.old.octets }
    ensures onward { reader.old.place ≤ reader.new.place }
    ensures err { OnErr result (reader.new ≡ reader.old) }
{
    let ends = Failure::Fault(DataFault::DataEnds(1, i));
    match spec.kind {
        Kind::Text => {
            let octets = reader.take_bytes(alloc, u64::from(spec.width / 8))?;
            match octets {
                None => Err(ends),
                Some(octets) => Ok(Raw::Text(Items::from_vec(octets))),
            }
        }
        _ if spec.width > MOST_RAW_BITS => Err(ends),
        _ => match reader.take(spec.width) {
            None => Err(ends),
            Some(number) => Ok(Raw::Number(number)),
        },
    }
}

/// Reads a number that is there; at a text returns `None` without moving.
#[inline(always)]
pub(crate) fn read_number(spec: Spec, reader: &mut BitReader) -> Option<u64>
    requires { IsOk (raw_or_ends 1 1 (raw_at spec (left reader.old))) }
    ensures found { IfSome result (λ number.
        raw_or_ends 1 1 (raw_at spec (left reader.old)) ≡ Ok (Number number, left reader.new)) }
    ensures unmoved { IfNone result (reader.new ≡ reader.old) }
{
    match spec.kind {
        Kind::Text => None,
        _ => Some(reader.take_left(spec.width)),
    }
}

/// Reads a count that is there.
#[inline(always)]
pub(crate) fn read_count(spec: Spec, reader: &mut BitReader) -> u64
    requires count { same_kind spec.kind kinds.Count ≡ true }
    requires there { IsOk (raw_or_ends 1 1 (raw_at spec (left reader.old))) }
    ensures { raw_or_ends 1 1 (raw_at spec (left reader.old)) ≡ Ok (Number result, left reader.new) }
{
    reader.take_left(spec.width)
}
