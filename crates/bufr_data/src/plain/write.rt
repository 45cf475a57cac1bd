//! Writes plain subsets.

ghost use Rattle.std.specs.Prelude.{◌≡◌, ◌++◌, true, false, Ok, OnOk, IfErr, OnErr};
ghost use Rattle.std.specs.List.{list_all};
ghost use Rattle.bufr_base.specs.Answers.{Fails};
ghost use Rattle.bufr_data.specs.Plain as plain;
ghost use Rattle.bufr_fields.specs.Forms.{has_form_by};
ghost use Rattle.bufr_data.specs.Plain.{raw_bits, plain_subsets};
ghost use Rattle.bufr_data.specs.Data.{written_bits};
ghost use Rattle.bufr_data.specs.Subsets.{Appends, Extends, has_own_form};

use bufr_base::{Failure, OutOfMemory};
use bufr_bits::BitSink;
use bufr_expand::{Spec, Template};
use bufr_fields::{Field, MisfitFault, Raw, Subset, fit_fields};
use std::alloc::Global;

/// Appends the bits of all subsets. The fault is the first, like `fit_fields`: E1 `DoesNotFit` with
/// the subset and the field, from 1, or E3 `TooLarge`.
pub fn write_plain(
    alloc: Global,
    template: &Template,
    subsets: &[Subset],
    sink: &mut BitSink,
) -> Result<(), Failure<MisfitFault>>
    ensures { Appends sink.old sink.new result (written_bits template.now false subsets.now) }
{
    let len = sink.len_bits();
    let answer = write_each(alloc, template, subsets, sink);
    if answer.is_err() {
        sink.cut(len);
    }
    answer
}

/// Appends the subsets; after an error some may stay.
fn write_each(
    alloc: Global,
    template: &Template,
    subsets: &[Subset],
    sink: &mut BitSink,
) -> Result<(), Failure<MisfitFault>>
    ensures ok { OnOk result (written_bits template.now false subsets.now
        ≡ Ok (plain_subsets subsets.now)) }
    ensures put { OnOk result (sink.new ≡ sink.old ++ plain_subsets subsets.now) }
    ensures err { IfErr result (λ e. Fails e (written_bits template.now false subsets.now)) }
    ensures kept { Extends sink.old sink.new }
{
    let mut used = 0;
    for (index, subset) in subsets.iter().enumerate() {
        let fields = subset.fields.as_slice();
        used = fit_fields(alloc, template, fields, index as u64 + 1, used)?;
        put_fields(fields, sink)?;
    }
    Ok(())
}

fn put_fields(fields: &[Field], sink: &mut BitSink) -> Result<(), OutOfMemory>
    requires { list_all has_own_form fields.now ≡ true }
    ensures put { OnOk result (sink.new ≡ sink.old ++ plain.plain fields.now) }
    ensures kept { Extends sink.old sink.new }
{
    for field in fields {
        put_raw(field.spec, &field.raw, sink)?;
    }
    Ok(())
}

pub(crate) fn put_raw(spec: Spec, raw: &Raw, sink: &mut BitSink) -> Result<(), OutOfMemory>
    requires { has_form_by spec.kind spec.width raw.now ≡ true }
    ensures put { OnOk result (sink.new ≡ sink.old ++ raw_bits spec.width raw.now) }
    ensures kept { OnErr result (sink.new ≡ sink.old) }
{
    match raw {
        Raw::Number(number) => sink.put(spec.width, *number),
        Raw::Text(octets) => sink.put_bytes(octets.as_slice()),
    }
}
