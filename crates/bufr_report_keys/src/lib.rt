//! The key of a report: its station and its time, by the fields of its subset.
//!
//! Only the first field of an element counts. A number counts if it is not missing and has scale 0
//! by the operators in force, a text if it is neither missing nor blank. The station is a WMO
//! station, else a WIGOS identifier, else a ship or mobile land station. The time is a date of the
//! civil calendar in the years 1 to 9999 with an hour; minute and second are 0 if they are absent.
//! A report with both has a key.
#![tactic(auto)]

mod asked;
mod elements;
mod first_number;
mod first_short;
mod first_values;
mod keys;
pub mod laws;
mod moments;
mod short_values;
mod stations;
mod usable;
mod worked_values;

pub use elements::key_elements;
pub use keys::{key_in, key_of_fields, slot_in, slot_of_fields};
