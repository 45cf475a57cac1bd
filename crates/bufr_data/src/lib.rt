//! Reads and writes the data bits of subsets, plain and compressed. A refused call leaves readers
//! and sinks unchanged. Every call that allocates can return `OutOfMemory`; a reader of fields then
//! still has the field.
#![tactic(auto)]

mod chosen;
mod compressed;
mod data_template;
mod descriptor_list;
mod fields;
pub mod laws;
mod plain;
mod short;
mod subset_index;
mod subsets;
mod template_cache;
mod text;
mod worked_columns;
mod worked_missing;
mod worked_refusals;
mod worked_values;

pub use bufr_base::{Failure, Items, OutOfMemory};
pub use bufr_expand::Asks;
pub use bufr_fields::{
    DataFault, Decimal, Field, MOST_DECIMAL_SCALE, MOST_INCREMENT_BITS, MOST_RAW_BITS, MOST_VALUES,
    MisfitFault, NumberField, Raw, Subset,
};
pub use chosen::ChosenFields;
pub use compressed::chosen_columns::ChosenColumns;
pub use compressed::index::Columns;
pub use compressed::read::read_compressed;
pub use compressed::write::write_compressed;
pub use data_template::DataTemplate;
pub use descriptor_list::DescriptorList;
pub use fields::Fields;
pub use plain::copy::SUBSET_ROOM;
pub use plain::laid_fields::LaidFields;
pub use plain::number_turns::NumberTurns;
pub use plain::read::read_plain;
pub use plain::write::write_plain;
pub use short::ShortNumber;
pub use subset_index::SubsetIndex;
pub use subsets::{read_subsets, write_subsets};
pub use template_cache::{CachedTemplate, MOST_KEPT, TemplateCache, make_first};
pub use text::LentText;
