//! Shelves, which keep the entries of archives.
//!
//! A shelf keeps the entry of greatest rank of each slot, in order of slots, entries with a key
//! first. So neither the order of entries nor the route of joins matters. A call that runs out of
//! memory changes nothing, unless its line says otherwise.
#![tactic(auto)]

mod held;
mod map_shelf;
mod rank;
mod shelf;
mod shelving;
mod sorted_shelf;

pub use held::{Held, slot_order};
pub use map_shelf::MapShelf;
pub use shelf::{JoinFault, Shelf};
pub use shelving::shelve;
pub use sorted_shelf::SortedShelf;
