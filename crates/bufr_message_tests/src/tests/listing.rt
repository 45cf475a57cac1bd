//! Reads listings and writes them whole, in parts and to devices.

mod parts;
mod samples;
mod writing;

use std::fmt::Debug;
use std::process::Abort;

/// Inline it would lengthen the proof.
fn same<T: PartialEq + Debug + Drop>(rt: &impl Abort, found: T, wanted: T) {
    assert_eq!(rt; found, wanted);
}
