//! Plain data: one subset after another, bit by bit.

pub(crate) mod copy;
pub(crate) mod field_layout;
pub(crate) mod fields;
pub(crate) mod fixed_size;
pub(crate) mod index;
pub(crate) mod laid_fields;
pub(crate) mod laid_reader;
pub(crate) mod laid_turns;
pub(crate) mod layout;
pub(crate) mod number_turns;
pub(crate) mod pass;
pub(crate) mod placed_fields;
pub(crate) mod places;
pub(crate) mod read;
pub(crate) mod read_each;
pub(crate) mod starts;
pub(crate) mod write;
