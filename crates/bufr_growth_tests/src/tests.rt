//! Refused growths of bits, messages and frames. After a refusal a test compares the state, repeats
//! the call and compares the result. Only `tests/refuse-each-growth` refuses growths: it runs each
//! test once for each growth. Octets, texts and counts are typed from the formats. Functions end with
//! `drop` of an index, a view or a message: one that drops such a value itself has a longer proof.

mod data;
mod fields;
mod frames;
mod headings;
mod messages;
mod refusals;
mod samples;

use std::fmt::Debug;
use std::process::Abort;

fn same<T: PartialEq + Debug + Drop>(rt: &impl Abort, found: T, wanted: T) {
    assert_eq!(rt; found, wanted);
}
