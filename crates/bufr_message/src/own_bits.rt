//! Canonical messages of reports as read, from their own fields alone.

ghost use Rattle.std.specs.Prelude.{◌≡◌, ◌++◌, ℕ, Bool, List, true, Some, IfOk, OnOk, OnErr};
ghost use Rattle.std.specs.Prelude.{option_map};
ghost use Rattle.bufr_bits.specs.Bits.{bits};
ghost use Rattle.bufr_tables.specs.Entries.{Entries};
ghost use Rattle.bufr_fields.specs.declared.field.Subset.{Subset};
ghost use Rattle.bufr_data.specs.Plain.{raw_bits};
ghost use Rattle.bufr_data.specs.Subsets.{filled};
ghost use Rattle.bufr_message.specs.OwnBits.{has_room, own_bits, spelt_alone, spelt_with};
ghost use Rattle.bufr_message.specs.OwnBits.{IsPutBehind};
ghost use Rattle.bufr_message.specs.Reports.{with_parts, without_local, with_no_local, IsCanonical};

use crate::laws::canonical_messages_are_own;
use crate::report::{Report, ReportHead};
use bufr_base::{Failure, OutOfMemory};
use bufr_bits::BitSink;
use bufr_data::{Field, Raw};
use bufr_fields::is_below;
use bufr_sections::{Head, LentSections, append_spelling};
use bufr_tables::Fxy;
use std::alloc::Global;

/// Returns the canonical message of a report of a decoded message or a view, as `canonical` does,
/// but needs no tables. For any other report, what its fields spell, or `None` if a number does not
/// fit its bits or the message is too long.
pub fn canonical_of_read(alloc: Global, report: &Report) -> Result<Option<Vec<u8>>, OutOfMemory>
    ensures canonical { (tables : Entries) (octets : List ℕ)
        → IsCanonical tables report.now octets
        → IfOk result (λ found. option_map (λ v. v.items) found ≡ Some octets) }
    ensures exact { IfOk result (λ found.
        option_map (λ v. v.items) found ≡ spelt_alone report.now) }
{
    canonical_messages_are_own();
    spelt_alone(alloc, report)
}

/// Writes the report's own fields for `canonical_of_read`.
fn spelt_alone(alloc: Global, report: &Report) -> Result<Option<Vec<u8>>, OutOfMemory>
    ensures { IfOk result (λ found.
        option_map (λ v. v.items) found ≡ spelt_alone report.now) }
{
    let fields = report.subset.fields.as_slice();
    let Some(contents) = bits_of_fields(alloc, fields)? else {
        return Ok(None);
    };
    let head = report.head.with_no_local(alloc);
    let descriptors = report.descriptors.as_slice();
    let mut octets = Vec::new(alloc);
    if !put_with_head(&head, report.observed, descriptors, &contents, &mut octets)? {
        return Ok(None);
    }
    Ok(Some(octets))
}

/// Adds the message of one subset alone, without octets for local use. Returns false if it would be
/// too long.
pub(crate) fn put_alone(
    alloc: Global,
    head: &Head,
    observed: bool,
    descriptors: &[Fxy],
    contents: &[u8],
    out: &mut Vec<u8>,
) -> Result<bool, OutOfMemory>
    ensures put { (subset : Subset) (data_bits : List Bool)
        → bits contents.now ≡ filled data_bits
        → IfOk result (λ there. IsPutBehind out.old.items (spelt_with
        (with_parts head.now observed descriptors.now subset) (Some data_bits))
        there out.new.items) }
    ensures err { OnErr result (out.new.items ≡ out.old.items) }
{
    if head.local.is_empty() {
        return put_with_head(head, observed, descriptors, contents, out);
    }
    let head = ReportHead::of_head(head).with_no_local(alloc);
    put_with_head(&head, observed, descriptors, contents, out)
}

fn put_with_head(
    head: &Head,
    observed: bool,
    descriptors: &[Fxy],
    contents: &[u8],
    out: &mut Vec<u8>,
) -> Result<bool, OutOfMemory>
    requires { head.now ≡ with_no_local (without_local head.now) }
    ensures put { (subset : Subset) (data_bits : List Bool)
        → bits contents.now ≡ filled data_bits
        → IfOk result (λ there. IsPutBehind out.old.items (spelt_with
        (with_parts head.now observed descriptors.now subset) (Some data_bits))
        there out.new.items) }
    ensures err { OnErr result (out.new.items ≡ out.old.items) }
{
    let sections = LentSections {
        head,
        section2: &None,
        observed,
        compressed: false,
        descriptors,
    };
    match append_spelling(out, &sections, 1, contents) {
        Ok(()) => Ok(true),
        Err(Failure::Fault(_)) => Ok(false),
        Err(Failure::OutOfMemory) => Err(OutOfMemory),
    }
}

/// The first capacity for fields, of two octets each. Most subsets have fewer.
const FIELDS_WITH_ROOM: usize = 64;

/// Returns the bits of fields in whole octets; `None` if a number does not fit its bits.
fn bits_of_fields(alloc: Global, fields: &[Field]) -> Result<Option<Vec<u8>>, OutOfMemory>
    ensures { IfOk result (λ found.
        option_map (λ v. bits v.items) found ≡ option_map filled (own_bits fields.now)) }
{
    let room = 2 * fields.len().min(FIELDS_WITH_ROOM);
    let mut sink = BitSink::with_capacity(alloc, room)?;
    for field in fields {
        if !has_room(&field.raw, field.spec.width) {
            return Ok(None);
        }
        put_raw(&field.raw, field.spec.width, &mut sink)?;
    }
    sink.fill_octet();
    Ok(Some(sink.into_bytes()))
}

fn has_room(raw: &Raw, width: u32) -> bool
    ensures { result ≡ has_room width raw.now }
{
    match raw {
        Raw::Number(number) => is_below(*number, width),
        Raw::Text(_) => true,
    }
}

fn put_raw(raw: &Raw, width: u32, sink: &mut BitSink) -> Result<(), OutOfMemory>
    requires { has_room width raw.now ≡ true }
    ensures { OnOk result (sink.new ≡ sink.old ++ raw_bits width raw.now) }
{
    match raw {
        Raw::Number(number) => sink.put(width, *number),
        Raw::Text(octets) => sink.put_bytes(octets.as_slice()),
    }
}
