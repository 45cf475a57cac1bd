//! The limits of templates, fields and messages, cited by the definitions.

/// The most items of a message: nodes met and turns begun.
pub const MOST_ITEMS: u64 = 16_777_216;

/// The most nodes of a template.
pub const MOST_NODES: usize = 65_536;

/// The most levels of sequences.
pub const MOST_SEQUENCE_LEVELS: u8 = 16;

/// The most levels of replications.
pub const MOST_REPLICATION_LEVELS: u8 = 16;

/// The most bits of a number.
pub const MOST_NUMBER_BITS: u32 = 63;

/// The most bits of a text: 8,191 octets.
pub const MOST_TEXT_BITS: u32 = 65_528;

/// The most bits of a delayed replication factor.
pub const MOST_FACTOR_BITS: u32 = 16;

/// The greatest scale in Table B, above or below 0.
pub const MOST_SCALE: u64 = 127;

/// The greatest reference value, above or below 0: 2 to the 62.
pub const MOST_REFERENCE: u64 = 4_611_686_018_427_387_904;
