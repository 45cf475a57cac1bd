//! Reads BUFR messages of editions 3 and 4, and writes edition 4. A refused call changes nothing;
//! `reports` has then used up its message.
#![tactic(auto)]

mod alone;
mod decoding;
mod encoding;
mod kept;
pub mod laws;
pub mod listing;
mod message_reader;
mod message_view;
mod own_bits;
mod ranges;
mod report;
mod summary;
mod viewing;
mod worked_reports;
mod worked_values;

pub use bufr_base::{Failure, Items, OutOfMemory};
pub use bufr_data::{
    ChosenColumns, ChosenFields, DataFault, Decimal, Field, Fields, LentText, MisfitFault,
    NumberField, NumberTurns, Raw, SUBSET_ROOM, ShortNumber, Subset, TemplateCache,
};
pub use bufr_expand::{Asks, Spec, TemplateFault};
pub use bufr_sections::{Decoded, EncodeFault, Head, LentSections, Message, Refused};
pub use bufr_tables::{Element, Fxy, Kind, TableB, TableD, TableFault, Tables};
pub use decoding::decode;
pub use encoding::{encode, keep_and_encode};
pub use message_reader::MessageReader;
pub use message_view::View;
pub use own_bits::canonical_of_read;
pub use report::{Report, ReportHead, canonical, reports};
pub use summary::Summary;
pub use viewing::view;
