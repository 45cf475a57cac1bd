//! The limits on compressed data, raw values and decimals, cited by the definitions.

/// The most values of compressed data: subsets times fields.
pub const MOST_VALUES: u64 = 67_108_864;

/// The most bits of an increment, or octets of a text's: the greatest NBINC.
pub const MOST_INCREMENT_BITS: u32 = 63;

/// The most bits of a raw number.
pub const MOST_RAW_BITS: u32 = 64;

/// The greatest scale of a decimal, above or below 0.
pub const MOST_DECIMAL_SCALE: i32 = 600;
