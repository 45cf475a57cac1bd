//! Passes plain subsets and reads only their counts. After a fault the reader may have moved.

ghost use Rattle.std.specs.Prelude.{◌≡◌, ◌+◌, ◌≤◌, true, Ok, Err, IfOk, IfErr, OnOk, IfSome};
ghost use Rattle.std.specs.Prelude.{Bool, List, drop, false, length, IfNone, IsOk, OnSome};
ghost use Rattle.bufr_bits.specs.Ends.{left};
ghost use Rattle.bufr_base.specs.Answers.{Fails};
ghost use Rattle.bufr_tables.specs.declared.element.Kind.TheVariants.{Count};
ghost use Rattle.bufr_tables.specs.Elements.{same_kind};
ghost use Rattle.bufr_expand.specs.Courses.{course};
ghost use Rattle.bufr_expand.specs.Runs.{PassesRun};
ghost use Rattle.bufr_expand.specs.Walks as walks;
ghost use Rattle.bufr_fields.specs.declared.field.Raw.TheVariants.{Number};
ghost use Rattle.bufr_data.specs.Handed.{moved_on};
ghost use Rattle.bufr_data.specs.Plain.Alike.{TakesBits, NoBitsHold};
ghost use Rattle.bufr_data.specs.Plain.{raw_at, fields_at};
ghost use Rattle.bufr_data.specs.Plain.Reads.{raw_or_ends};
ghost use Rattle.bufr_data.specs.Plain.Starts.{PassesRaw, PassesOn};
ghost use Rattle.bufr_data.specs.Plain.Starts.{PassesSubset};
ghost use Rattle.bufr_fields.specs.Steady.{IsReady, WalkAdvances};

use crate::plain::read::fault_of;
use bufr_base::Failure;
use bufr_bits::BitReader;
use bufr_expand::{Run, Spec, Step, Template, Walk};
use bufr_fields::{DataFault, MOST_RAW_BITS};
use bufr_tables::Kind;
use std::alloc::Global;

/// Passes a subset and returns the items of the message up to its end.
pub(crate) fn pass_subset(
    alloc: Global,
    template: &Template,
    reader: &mut BitReader,
    used: u64,
) -> Result<u64, Failure<DataFault>>
    ensures ok { IfOk result (λ items. PassesSubset
        (fields_at 1 1 (course template.now used) (left reader.old)) items (left reader.new)) }
    ensures err { IfErr result (λ e. Fails e
        (fields_at 1 1 (course template.now used) (left reader.old))) }
    ensures octets { reader.new.octets ≡ reader.old.octets }
    ensures onward { reader.old.place ≤ reader.new.place }
{
    let mut walk = Walk::start(alloc, template, used)?;
    let mut i = 1;
    loop {
        match pass_next(&mut walk, reader, i) {
            Err(fault) => return Err(Failure::Fault(fault)),
            Ok(None) => return Ok(walk.items()),
            Ok(Some(next)) => i = next,
        }
    }
}

/// Passes the elements that come next, all turns left of a replication if they have one size, or
/// else field `i`. Returns the number of the next field, or `None` at the end.
fn pass_next(walk: &mut Walk, reader: &mut BitReader, i: u64) -> Result<Option<u64>, DataFault>
    requires ready { IsReady walk.old }
    requires counted { i ≤ walks.items_met walk.old + 1 }
    ensures ok { IfOk result (λ next. PassesOn i (walks.left walk.old) (left reader.old) next
        (walks.left walk.new) (walks.items_met walk.new) (left reader.new)) }
    ensures advances { IfOk result (λ next. OnSome next (WalkAdvances walk.old walk.new)) }
    ensures counted { IfOk result (λ next. IfSome next (λ n.
        n ≤ walks.items_met walk.new + 1)) }
    ensures err { IfErr result (λ fault.
        fields_at 1 i (walks.left walk.old) (left reader.old) ≡ Err fault) }
    ensures octets { reader.new.octets ≡ reader.old.octets }
    ensures onward { reader.old.place ≤ reader.new.place }
{
    if let Some(run) = pass_run(walk, reader.left()) {
        reader.pass(run.bits);
        return Ok(Some(i + run.fields));
    }
    let step = match walk.next() {
        Err(fault) => return Err(fault_of(fault)),
        Ok(step) => step,
    };
    match step {
        Step::End => Ok(None),
        Step::Field(_, spec) => {
            pass_raw(spec, reader, i)?;
            Ok(Some(i + 1))
        }
        Step::Count(_, spec) => {
            let number = take_count(spec, reader, i)?;
            walk.count(number);
            Ok(Some(i + 1))
        }
    }
}

/// Passes elements or turns at once, if they come next and have at most `most` bits.
fn pass_run(walk: &mut Walk, most: u128) -> Option<Run>
    requires { walks.waits walk.old ≡ false }
    ensures passed { IfSome result (λ run. PassesRun walk.old run walk.new) }
    ensures answered { walks.waits walk.new ≡ false }
    ensures enough { IfSome result (λ run. run.bits ≤ most) }
    ensures unmoved { IfNone result (walk.new ≡ walk.old) }
{
    match walk.pass_elements(most) {
        Some(run) => Some(run),
        None => walk.pass_turns(most),
    }
}

fn pass_raw(spec: Spec, reader: &mut BitReader, i: u64) -> Result<(), DataFault>
    ensures ok { OnOk result (PassesRaw i spec (left reader.old) (left reader.new)) }
    ensures err { IfErr result (λ fault.
        raw_or_ends 1 i (raw_at spec (left reader.old)) ≡ Err fault) }
    ensures octets { reader.new.octets ≡ reader.old.octets }
    ensures onward { reader.old.place ≤ reader.new.place }
{
    match bits_of(spec) {
        Some(bits) if reader.pass(bits as u128) => Ok(()),
        _ => Err(DataFault::DataEnds(1, i)),
    }
}

pub(crate) fn bits_of(spec: Spec) -> Option<u64>
    ensures takes { IfSome result (TakesBits spec) }
    ensures never { IfNone result (NoBitsHold spec) }
{
    match spec.kind {
        Kind::Text => Some(8 * u64::from(spec.width / 8)),
        _ if spec.width > MOST_RAW_BITS => None,
        _ => Some(u64::from(spec.width)),
    }
}

fn take_count(spec: Spec, reader: &mut BitReader, i: u64) -> Result<u64, DataFault>
    requires { same_kind spec.kind Count ≡ true }
    ensures ok { IfOk result (λ number.
        raw_or_ends 1 i (raw_at spec (left reader.old)) ≡ Ok (Number number, left reader.new)) }
    ensures err { IfErr result (λ fault.
        raw_or_ends 1 i (raw_at spec (left reader.old)) ≡ Err fault) }
    ensures octets { reader.new.octets ≡ reader.old.octets }
    ensures onward { reader.old.place ≤ reader.new.place }
{
    if spec.width > MOST_RAW_BITS {
        return Err(DataFault::DataEnds(1, i));
    }
    match reader.take(spec.width) {
        None => Err(DataFault::DataEnds(1, i)),
        Some(number) => Ok(number),
    }
}

/// Returns the bits of a field that is there.
pub(crate) fn present_bits(spec: Spec) -> u64
    ensures { (front : List Bool) → IsOk (raw_or_ends 1 1 (raw_at spec front))
        → (result ≤ length front) × PassesRaw 1 spec front (drop result front) }
{
    match bits_of(spec) {
        Some(bits) => bits,
        None => 0,
    }
}

/// Skips `bits` bits.
pub(crate) fn pass_bits(reader: &mut BitReader, bits: u64)
    requires { bits ≤ length (left reader.old) }
    ensures { reader.new ≡ moved_on reader.old bits }
{
    if bits > 0 {
        let _enough = reader.pass(u128::from(bits));
    }
}
