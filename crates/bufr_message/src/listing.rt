//! Listings of messages: the text that says a message in lines of words, written and read back.

pub use bufr_listing::{Cause, ListingFault, ListingWriteFault, text_of, write};
pub use bufr_listing_reader::{Messages, read};
