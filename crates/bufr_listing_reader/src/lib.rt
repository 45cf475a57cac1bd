//! Reads listings: texts into the messages that they list.
#![tactic(auto)]

mod head_lines;
pub mod laws;
mod line_ends;
mod line_words;
mod lines;
mod messages;
mod raw_values;
mod subsets;
mod unread;
mod worked_values;

pub use bufr_listing::{Cause, ListingFault};
pub use messages::read;
pub use unread::Messages;
