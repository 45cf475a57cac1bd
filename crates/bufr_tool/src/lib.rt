//! The commands of `bufr`, and its engines over any readers and writers.
#![tactic(auto)]

mod command;
mod command_line;
pub mod laws;
mod lines;
mod worked_values;

pub use bufr_engines::{run_add, run_check, run_encode, run_merge, run_show};
pub use bufr_io::{Input, MOST_READS, Tally, ToolFault, load_tables};
pub use bufr_program::words_of;
pub use clap::Error;
pub use command::run_command;
pub use command_line::line;
pub use lines::{Command, Line};
