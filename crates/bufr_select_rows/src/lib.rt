//! The rows of messages: columns, pairs of tables, the values of fields as text, and lines of
//! comma-separated values.
#![tactic(auto)]

mod awaited;
mod cell;
mod column;
mod column_descriptors;
mod column_words;
mod fact;
mod filling;
pub mod laws;
mod origin;
mod pairs;
mod picker;
mod quotes;
mod row;
mod row_cells;
mod row_line;
mod source;
mod subset_fields;
mod text;
mod turn;
mod worked_values;
mod written;

pub use cell::Cell;
pub use column::Column;
pub use column_descriptors::ColumnDescriptors;
pub use column_words::{ColumnsFault, columns_of};
pub use fact::Fact;
pub use origin::Origin;
pub use pairs::{Unread, VersionTables, view_under};
pub use picker::{Picker, put_message};
pub use row::push_header;
pub use row_line::RowLine;
pub use text::Text;
