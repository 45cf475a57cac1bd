//! Archives as `add` and `merge` make them, without a shelf.
//!
//! Of the reports with one key an archive keeps the one with the greatest update sequence number,
//! and then the greatest octets; a report without key once. Its text is the canonical messages in
//! order. An [`ArchiveBuilder`] gathers the reports of messages; an [`ArchiveText`] is the text of
//! an archive with a mark for each entry.
#![tactic(auto)]

mod add_fault;
mod archive_text;
mod builder;
pub mod laws;
mod merged_marks;
mod merged_octets;
mod merging_texts;
mod reading;
mod report_entry;
mod worked_values;

pub use add_fault::{AddFault, RanOut};
pub use archive_text::ArchiveText;
pub use builder::ArchiveBuilder;
pub use merged_octets::MergedOctets;
pub use reading::{NotAnArchive, ReadEntry, right_entry};
pub use report_entry::{MessageReports, entry_of, key_of};
