//! Lists, faults and want of memory, for every crate.
#![tactic(auto)]

mod failure;
mod items;

pub use failure::Failure;
pub use items::Items;
/// A growth was refused.
pub use std::alloc::AllocError as OutOfMemory;
