//! The engines: the work of each command, over any readers and writers.
#![tactic(auto)]

mod add;
mod check;
mod encode;
mod frame_lines;
mod frames;
pub mod laws;
mod merge;
mod parts;
mod printer;
mod show;
mod streams;
mod text_stack;
mod worked_values;

pub use add::run_add;
pub use check::run_check;
pub use encode::run_encode;
pub use frame_lines::OutputForm;
pub use merge::run_merge;
pub use show::run_show;
