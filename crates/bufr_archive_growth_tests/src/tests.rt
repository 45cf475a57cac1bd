//! Refused growths of shelves, archives and depots. After a refusal a test compares the state,
//! repeats the call and compares the result. Only `tests/refuse-each-growth` refuses growths: it
//! runs each test once for each growth. Octets, texts and counts are typed from the formats.

mod archives;
mod depots;
mod gathered;
mod refusals;
mod samples;
mod texts;

use std::fmt::Debug;
use std::process::Abort;

fn same<T: PartialEq + Debug + Drop>(rt: &impl Abort, found: T, wanted: T) {
    assert_eq!(rt; found, wanted);
}
