//! Checks fields against a template.

ghost use Rattle.std.specs.Prelude.{◌≡◌, ◌+◌, ◌∷◌, [], List, OnOk, IfErr};
ghost use Rattle.bufr_base.specs.Answers.{Gives, Fails};
ghost use Rattle.bufr_expand.specs.Courses.{course};
ghost use Rattle.bufr_expand.specs.Walks as walks;
ghost use Rattle.bufr_fields.specs.declared.field.Field.{Field};
ghost use Rattle.bufr_fields.specs.Forms as forms;
ghost use Rattle.bufr_fields.specs.Forms.{items_of, matches_spec, fits_or};
ghost use Rattle.bufr_fields.specs.Steady.{IsReady, WalkAdvances};

use crate::fault::MisfitFault;
use crate::field::Field;
use bufr_base::Failure;
use bufr_expand::{Spec, Step, Template, Walk, WalkFault};
use bufr_tables::Fxy;
use std::alloc::Global;

/// Checks the fields of subset `j`, with no operator in force at its start, and returns the items
/// of the message up to their end; `used` of them come before. The fault is the first: `DoesNotFit`
/// if the template asks for another field, more or none, or a raw value or spec is out of range;
/// `TooLarge` at item 16,777,217.
pub fn fit_fields(
    alloc: Global,
    template: &Template,
    fields: &[Field],
    j: u64,
    used: u64,
) -> Result<u64, Failure<MisfitFault>>
    ensures { Gives (λ n. n) result (items_of j 1 (course template.now used) fields.now) }
{
    let mut walk = Walk::start(alloc, template, used)?;
    for (index, field) in fields.iter().enumerate() {
        fit_field(&mut walk, field, j, index as u64 + 1)?;
    }
    end_fields(&mut walk, j, fields.len() as u64 + 1)
}

fn fit_field(walk: &mut Walk, field: &Field, j: u64, i: u64) -> Result<(), Failure<MisfitFault>>
    requires { IsReady walk.old }
    ensures ok { OnOk result ((rest : List Field)
        → items_of j i (walks.left walk.old) (field.now ∷ rest)
        ≡ items_of j (i + 1) (walks.left walk.new) rest) }
    ensures goes_on { OnOk result (WalkAdvances walk.old walk.new) }
    ensures err { IfErr result (λ e. (rest : List Field)
        → Fails e (items_of j i (walks.left walk.old) (field.now ∷ rest))) }
{
    let step = match walk.next() {
        Err(fault) => return Err(Failure::Fault(misfit(fault, j, i))),
        Ok(step) => step,
    };
    match step {
        Step::End => Err(Failure::Fault(MisfitFault::DoesNotFit(j, i))),
        Step::Field(fxy, spec) => {
            asked(field, fxy, spec, j, i)?;
            Ok(())
        }
        Step::Count(fxy, spec) => {
            asked(field, fxy, spec, j, i)?;
            walk.count(field.raw.number());
            Ok(())
        }
    }
}

fn end_fields(walk: &mut Walk, j: u64, i: u64) -> Result<u64, Failure<MisfitFault>>
    requires { IsReady walk.old }
    ensures { Gives (λ n. n) result (items_of j i (walks.left walk.old) []) }
{
    let step = match walk.next() {
        Err(fault) => return Err(Failure::Fault(misfit(fault, j, i))),
        Ok(step) => step,
    };
    match step {
        Step::End => Ok(walk.items()),
        Step::Field(_, _) => Err(Failure::Fault(MisfitFault::DoesNotFit(j, i))),
        Step::Count(_, _) => Err(Failure::Fault(MisfitFault::DoesNotFit(j, i))),
    }
}

fn misfit(fault: WalkFault, j: u64, i: u64) -> MisfitFault
    ensures { result ≡ forms.misfit j i fault }
{
    match fault {
        WalkFault::TooLarge => MisfitFault::TooLarge,
        WalkFault::EffectiveRange(_) => MisfitFault::DoesNotFit(j, i),
    }
}

fn asked(field: &Field, fxy: Fxy, spec: Spec, j: u64, i: u64) -> Result<(), Failure<MisfitFault>>
    ensures { Gives (λ u. u) result (fits_or j i (matches_spec fxy spec field.now)) }
{
    if field.matches_spec(fxy, spec) {
        Ok(())
    } else {
        Err(Failure::Fault(MisfitFault::DoesNotFit(j, i)))
    }
}
