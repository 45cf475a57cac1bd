//! Writes listings: messages as lines of words. A call that runs out of memory changes nothing, but
//! `push_heading` may leave a part.
#![tactic(auto)]

mod decimals;
mod descriptor_texts;
mod fault;
mod fields;
mod heading;
mod last_heading;
mod last_lines;
pub mod laws;
mod text;
mod worked_values;
mod writer;

pub use decimals::write_sum;
pub use descriptor_texts::descriptor_and_space;
pub use fault::{Cause, ListingFault};
pub use fields::{is_literal, push_field, push_number_field, push_subset, push_subset_line};
pub use heading::push_heading;
pub use last_heading::LastHeading;
pub use text::{end_text, subset_text, text_of};
pub use writer::{ListingWriteFault, write};
