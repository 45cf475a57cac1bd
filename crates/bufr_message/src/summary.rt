//! What `MessageReader::check` returns.

/// A summary of a message, without its fields.
#[derive(Clone, Copy, Debug, Drop, PartialEq, Eq)]
pub struct Summary {
    /// The number of subsets.
    pub subsets: u64,
    /// The slack, as in `Decoded`.
    pub slack_octets: u64,
}
