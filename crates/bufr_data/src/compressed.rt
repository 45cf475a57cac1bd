//! Compressed data: one column for each field, with the values of all subsets (94.6.3).

pub(crate) mod best;
pub(crate) mod chosen_columns;
pub(crate) mod fields;
pub(crate) mod head;
pub(crate) mod index;
pub(crate) mod lent_text;
pub(crate) mod pass;
pub(crate) mod places;
pub(crate) mod read;
pub(crate) mod value;
pub(crate) mod write;
