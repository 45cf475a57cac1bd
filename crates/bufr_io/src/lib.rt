//! Inputs and outputs of commands: files opened at their first use, the frames of streams, rows that
//! wait, the tables of two files, tallies and faults.
#![tactic(auto)]

mod fault;
mod files;
mod held_rows;
mod input;
mod lazy_input;
mod lazy_output;
mod output;
mod tables;
mod taking;

pub use fault::{Input, Tally, ToolFault};
pub use files::{Unopened, file_of, files_of, inputs_of, unopened_path};
pub use held_rows::HeldRows;
pub use input::{LONGEST_PIECE, MOST_READS, Pieces, read_all, read_buffer};
pub use lazy_input::LazyInput;
pub use lazy_output::LazyOutput;
pub use output::{write_after, write_out};
pub use tables::load_tables;
pub use taking::{TakesFrames, take_stream};
