//! Tests of templates, walks and tables.

mod limits;
mod runs;
mod samples;
mod tables;
mod templates;
mod walks;

use std::fmt::Debug;
use std::process::Abort;

/// Stops the test if the two differ. Written out in each test, it would double the proof.
fn same<T: PartialEq + Debug + Drop>(rt: &impl Abort, found: T, wanted: T) {
    assert_eq!(rt; found, wanted);
}
