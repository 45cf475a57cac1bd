//! Callers of the libraries of `bufr`, as patterns for programs: they count a message's reports,
//! rewrite a message, cut a stream into frames, and keep an archive in a file.
#![tactic(auto)]

mod counting;
mod framing;
mod keeping;
mod rewriting;
#[cfg(test)]
mod tests;

pub use counting::count;
pub use framing::{Frames, frames_of};
pub use keeping::{KeepFault, with_message};
pub use rewriting::{RewriteFault, rewritten};
