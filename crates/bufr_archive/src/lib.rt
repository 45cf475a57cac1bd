//! Archives: one copy of each report, by any route.
//!
//! An [`Archive`] holds reports under some tables, on a [`Shelf`]. Its text is the canonical
//! messages in order of slots. A call that runs out of memory changes nothing, unless its line says
//! otherwise.
#![tactic(auto)]

mod adding;
mod archive;
mod counts;
mod depot;
mod headline;
mod intakes;
mod joins;
pub mod laws;
mod reading;
mod steps;
mod worked_values;

pub use adding::{Added, ReportList};
pub use archive::{Archive, WriteFault};
pub use bufr_base::{Failure, Items, OutOfMemory};
pub use bufr_entries::{
    Entry, KeptOctets, Key, LentOctets, Moment, ShelfBuilder, Station, laws as shelf_laws,
};
pub use bufr_gather::{
    AddFault, ArchiveBuilder, ArchiveText, MergedOctets, NotAnArchive, RanOut, entry_of, key_of,
};
pub use bufr_shelves::{Held, JoinFault, MapShelf, Shelf, SortedShelf, shelve, slot_order};
pub use depot::Depot;
pub use headline::{Plan, Ran, run_both};
pub use steps::{Answer, Step, StepFault};
