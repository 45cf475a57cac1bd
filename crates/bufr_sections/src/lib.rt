//! Reads and writes the sections of BUFR messages, whatever the data bits mean. A refused call
//! changes nothing.
#![tactic(auto)]

mod bare;
mod envelope;
mod fault;
mod in_place;
pub mod laws;
mod layout;
mod lent_sections;
mod listed;
mod message;
mod section_octets;
mod sections;
mod spelling;
mod worked_values;

pub use bare::are_bare;
pub use envelope::Envelope;
pub use fault::{EncodeFault, Refused};
pub use in_place::SectionsInPlace;
pub use layout::Layout;
pub use lent_sections::LentSections;
pub use listed::{are_listed, descriptors_of};
pub use message::{Decoded, Head, Message};
pub use sections::{find_sections, read_sections};
pub use spelling::{LONGEST, MOST_SUBSETS, append_spelling, spell};
