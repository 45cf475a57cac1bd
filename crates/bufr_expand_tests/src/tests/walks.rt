//! Tests of chosen fields ahead of a walk.

ghost use Rattle.std.specs.Prelude.{◌≡◌, ◌==◌, false};
ghost use Rattle.bufr_expand.specs.Walks.{waits};

use super::same;
use super::samples::{step, template_of};
use bufr_expand::{Asks, Walk};
use bufr_tables::Fxy;
use std::process::Abort;

/// Temperatures, 0 12 101.
struct Temperatures;

impl Asks for Temperatures {
    ghost is_asked = { λ _ d. d == 3173 };

    fn asks(&self, fxy: Fxy) -> bool {
        fxy.bits() == 3173
    }
}

/// Compares whether the walk shows, before each field, that no temperature is left: outside
/// replications, and also inside.
fn assert_tells(rt: &impl Abort, walk: &mut Walk<'_>, wanted: &[(bool, bool)])
    requires { waits walk.old ≡ false }
{
    for told in wanted {
        same(rt, walk.has_no_more(&Temperatures), told.0);
        same(rt, walk.has_no_more_inside(&Temperatures), told.1);
        let _step = step(walk, 1);
    }
}

const NEITHER: (bool, bool) = (false, false);

const INSIDE: (bool, bool) = (false, true);

const BOTH: (bool, bool) = (true, true);

/// Descriptors, and what the walk shows before the first four fields.
const TOLD: &[(&[u32], &[(bool, bool)])] = &[
    (&[12101, 1001, 1002, 2001], &[NEITHER, BOTH, BOTH, BOTH]),
    (&[1001, 12101, 1002, 2001], &[NEITHER, NEITHER, BOTH, BOTH]),
    (
        &[101000, 31001, 12101, 1001],
        &[NEITHER, NEITHER, NEITHER, BOTH],
    ),
    (&[101002, 1001, 1002, 2001], &[BOTH, INSIDE, INSIDE, BOTH]),
    (
        &[102002, 12101, 1001, 1002],
        &[NEITHER, NEITHER, NEITHER, NEITHER],
    ),
    (
        &[101002, 1001, 12101, 1002],
        &[NEITHER, NEITHER, NEITHER, BOTH],
    ),
    (
        &[103002, 101002, 1001, 12101],
        &[NEITHER, NEITHER, NEITHER, NEITHER],
    ),
    (
        &[103002, 1001, 101002, 1002],
        &[BOTH, INSIDE, INSIDE, INSIDE],
    ),
];

/// The walk shows it after the last temperature, and inside replications without one.
#[test]
fn no_more_that_are_asked_for(rt: HostRuntime) {
    for (digits, wanted) in TOLD {
        let template = template_of(&rt, rt.alloc(), digits);
        let mut walk = Walk::start(rt.alloc(), &template, 0).expect(&rt, "room");
        assert_tells(&rt, &mut walk, wanted);
        drop(walk);
        drop(template);
    }
}

/// Takes the widths of elements that the walk passes, and then passes none.
fn assert_passes_elements(rt: &impl Abort, walk: &mut Walk<'_>, widths: &[u32])
    requires { waits walk.old ≡ false }
{
    for width in widths {
        let (_, spec) = walk.pass_element().expect(rt, "an element");
        same(rt, spec.width, *width);
    }
    assert!(rt; walk.pass_element().is_none());
}

/// Descriptors, and the widths of the elements that are passed.
const ELEMENTS: &[(&[u32], &[u32])] = &[
    (&[1001, 12101, 1011], &[7, 16, 72]),
    (&[1001, 1011, 2001, 12101, 1002], &[7, 72, 2, 16, 10]),
    (&[1001, 31001, 1002], &[7, 8, 10]),
    (&[1001, 201130, 1002], &[7]),
    (&[1001, 12102, 1002], &[7]),
    (&[1001, 101000, 31001, 1002], &[7]),
    (&[101002, 1001], &[]),
];

/// The walk passes elements, also temperatures, up to an operator, a field with too many bits, a
/// replication or the end.
#[test]
fn elements_passed(rt: HostRuntime) {
    for (digits, widths) in ELEMENTS {
        let template = template_of(&rt, rt.alloc(), digits);
        let mut walk = Walk::start(rt.alloc(), &template, 0).expect(&rt, "room");
        assert_passes_elements(&rt, &mut walk, widths);
        drop(walk);
        drop(template);
    }
}
