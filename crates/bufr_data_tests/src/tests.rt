//! Tests of subsets in bits and back. Functions end with `drop` of an index, a template or fields: one
//! that drops such a value itself has a longer proof.

mod asked;
mod chosen;
mod decimals;
mod index;
mod many;
mod passed;
mod refused;
mod samples;
mod taken_turns;
mod turns;

use std::fmt::Debug;
use std::process::Abort;

/// Stops the test if the two differ. Written out in each test, it would double the proof.
fn same<T: PartialEq + Debug + Drop>(rt: &impl Abort, found: T, wanted: T) {
    assert_eq!(rt; found, wanted);
}
