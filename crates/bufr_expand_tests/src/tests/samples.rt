ghost use Rattle.std.specs.Prelude.{◌≡◌, ◌<◌, ◌^◌, false, Ok};
ghost use Rattle.bufr_expand.specs.Walks.{waits};
ghost use Rattle.bufr_expand_tests.specs.StepAnswers.{asked_width};

use super::same;
use bufr_expand::{Spec, Step, Template, Walk, WalkFault};
use bufr_tables::{Fxy, Kind, TableB, TableD, Tables};
use std::alloc::Global;
use std::process::Abort;

/// Elements with their unit, scale, reference value and width. A field of 012102 has more bits than
/// a number may have.
const TABLE_B: &[u8] = b"FXY,BUFR_Unit,BUFR_Scale,BUFR_ReferenceValue,BUFR_DataWidth_Bits\n\
001001,Numeric,0,0,7\n\
001002,Numeric,0,0,10\n\
001011,CCITT IA5,0,0,72\n\
002001,Code table,0,0,2\n\
004001,a,0,0,12\n\
004002,mon,0,0,4\n\
004003,d,0,0,6\n\
004004,h,0,0,5\n\
004005,min,0,0,6\n\
012101,K,2,0,16\n\
012102,K,2,0,64\n\
031001,Numeric,0,0,8\n";

const SEQUENCES: &[u8] = b"FXY1,FXY2\n\
301001,001001\n\
301001,001002\n\
301011,004001\n\
301011,004002\n\
301011,004003\n\
301012,004004\n\
301012,004005\n";

fn fxy(rt: &impl Abort, digits: u32) -> Fxy {
    let (f, x, y) = (digits / 100_000, digits / 1000 % 100, digits % 1000);
    assert!(rt; f < 4 && y < 256);
    Fxy::new(f as u8, x as u8, y as u8).expect(rt, "a descriptor")
}

pub(crate) fn tables_of(
    rt: &impl Abort,
    alloc: Global,
    elements: &[u8],
    sequences: &[u8],
) -> Tables {
    let b = TableB::parse(alloc, elements).expect(rt, "a table");
    let d = TableD::parse(alloc, sequences).expect(rt, "a table");
    Tables::new(b, d)
}

pub(crate) fn template_of(rt: &impl Abort, alloc: Global, digits: &[u32]) -> Template {
    let mut list = Vec::new(alloc);
    for number in digits {
        list.push(fxy(rt, *number)).expect(rt, "room");
    }
    let tables = tables_of(rt, alloc, TABLE_B, SEQUENCES);
    let built = Template::build(alloc, &tables, &list);
    drop(tables);
    built.expect(rt, "a template")
}

fn spec(kind: Kind, scale: i32, reference: i64, width: u32) -> Spec {
    Spec {
        kind,
        scale,
        reference,
        width,
    }
}

/// A field: its descriptor, kind, scale and bits. Its reference value is 0.
pub(crate) type Field = (u32, Kind, i32, u32);

/// Returns the step to a field, or to the end.
pub(crate) fn answer(rt: &impl Abort, field: Option<Field>) -> Step {
    match field {
        Some((digits, kind, scale, width)) => {
            step_to(fxy(rt, digits), spec(kind, scale, 0, width))
        }
        None => Step::End,
    }
}

fn step_to(fxy: Fxy, spec: Spec) -> Step {
    match spec.kind {
        Kind::Count => Step::Count(fxy, spec),
        _ => Step::Field(fxy, spec),
    }
}

/// Returns a number that a count of this width can have.
#[tactic(auto, using(std::proofs::lemmas::Nat::pow_pos))]
fn number(width: u32, told: u64) -> u64
    ensures { result < 2 ^ width }
{
    if width == 8 && told < 256 { told } else { 0 }
}

fn asked_by(step: &Step) -> Option<u32>
    ensures { result ≡ asked_width (Ok step.now) }
{
    match step {
        Step::Count(_, spec) => Some(spec.width),
        Step::Field(_, _) => None,
        Step::End => None,
    }
}

fn asked(answer: &Result<Step, WalkFault>) -> Option<u32>
    ensures { result ≡ asked_width answer.now }
{
    match answer {
        Ok(step) => asked_by(step),
        Err(_) => None,
    }
}

pub(crate) fn step(walk: &mut Walk<'_>, told: u64) -> Result<Step, WalkFault>
    requires { waits walk.old ≡ false }
    ensures { waits walk.new ≡ false }
{
    let answer = walk.next();
    match asked(&answer) {
        Some(width) => {
            walk.count(number(width, told));
            answer
        }
        None => answer,
    }
}

pub(crate) fn assert_steps(rt: &impl Abort, walk: &mut Walk<'_>, told: u64, wanted: &[Field])
    requires { waits walk.old ≡ false }
    ensures { waits walk.new ≡ false }
{
    for next in wanted {
        same(rt, step(walk, told), Ok(answer(rt, Some(*next))));
    }
}

/// Checks that a walk is at its end after `items` items.
pub(crate) fn assert_end(rt: &impl Abort, walk: &mut Walk<'_>, items: u64)
    requires { waits walk.old ≡ false }
{
    same(rt, walk.items(), items);
    for _ in 0..2 {
        same(rt, step(walk, 0), Ok(Step::End));
    }
}
