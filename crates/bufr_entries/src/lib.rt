//! Keys of reports, and entries of archives, gathered in any order.
//!
//! An entry has a key or none, an update number and octets. Its slot is its key, or its octets if
//! it has no key; entries with a key come first. Of the entries of one slot an archive keeps the
//! one of greatest rank, by update number and then by octets.
#![tactic(auto)]

mod builder;
mod entry;
mod entry_octets;
mod giving_back;
mod kept_octets;
mod key;
mod key_start;
pub mod laws;
mod lent_entry;
mod packed_key;
mod packed_slot;
mod page;
mod pages_left;
mod settling;
mod tickets;
mod waiting;
mod worked_values;

pub use builder::ShelfBuilder;
pub use entry::Entry;
pub use entry_octets::EntryOctets;
pub use giving_back::take_last;
pub use kept_octets::{KeptOctets, LentOctets};
pub use key::{Key, Moment, Station};
pub use key_start::KeyHead;
pub use lent_entry::LentEntry;
pub use packed_slot::PackedSlot;
pub use pages_left::PagesLeft;
