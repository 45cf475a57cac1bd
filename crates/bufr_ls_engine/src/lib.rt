//! The heads of the messages of streams, a row for each frame, over any readers and writers.
#![tactic(auto)]

mod column;
mod column_list;
mod columns;
mod command;
mod command_line;
mod frames;
mod last_fields;
mod last_head;
mod last_version;
pub mod laws;
mod lister;
mod ls;
mod numbers;
mod placed;
mod row;
mod texts;
mod whole_row;
mod worked_values;

pub use bufr_program::words_of;
pub use column::Column;
pub use columns::{ColumnsFault, columns_of};
pub use command::run_command;
pub use command_line::{CommandLine, line};
pub use ls::run_ls;
