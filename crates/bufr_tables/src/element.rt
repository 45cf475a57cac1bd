/// A kind of values.
#[derive(Clone, Copy, Debug, PartialEq, Eq)]
pub enum Kind {
    /// Characters.
    Text,
    /// A number of a code table.
    Code,
    /// Bits of a flag table.
    Flag,
    /// A number with a unit.
    Quantity,
    /// The factor of a replication; no table has it.
    Count,
}

/// An element: how to write its values.
#[derive(Clone, Copy, Debug, PartialEq, Eq)]
pub struct Element {
    /// The kind of its values.
    pub kind: Kind,
    /// The power of 10 that multiplies a value.
    pub scale: i32,
    /// The number then subtracted.
    pub reference: i64,
    /// The width in bits.
    pub width: u32,
}
