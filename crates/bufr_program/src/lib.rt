//! A program around its engine: its words, its faults, its exit statuses.
#![tactic(auto)]

mod arguments;
mod saying;

pub use arguments::{files_argument, values};
pub use saying::{
    cannot_open, explain, say, say_unopened, status_of, tell, words_of, words_or_help,
};
