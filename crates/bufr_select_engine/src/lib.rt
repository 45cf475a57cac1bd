//! Chosen fields of streams as rows of comma-separated values.
#![tactic(auto)]

mod command;
mod command_line;
mod frame_selector;
mod frames;
pub mod laws;
mod line_faults;
mod outputs;
mod select;
mod worked_frames;
mod worked_lines;

pub use bufr_program::words_of;
pub use bufr_select_rows::{Column, ColumnsFault, Fact, Unread, VersionTables, columns_of};
pub use command::run_command;
pub use command_line::{CommandLine, line};
pub use outputs::Outputs;
pub use select::run_select;
