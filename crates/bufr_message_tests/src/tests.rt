//! Reads, views and writes messages, their reports, sections and listings. Functions end with `drop`
//! of a view, a reader or a message: one that drops such a value itself has a longer proof.

mod chosen;
mod listed;
mod listing;
mod long;
mod refused;
mod samples;
mod sections;
mod shown;

use std::fmt::Debug;
use std::process::Abort;

/// Inline it would lengthen the proof.
fn same<T: PartialEq + Debug + Drop>(rt: &impl Abort, place: &str, found: T, wanted: T) {
    assert_eq!(rt; found, wanted, "at {place}");
}
