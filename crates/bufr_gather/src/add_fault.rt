use bufr_message::Refused;
use thiserror::Error;

/// A want of memory after the first `done` reports were joined, and no others.
#[derive(Clone, Copy, Debug, Drop, Error, PartialEq, Eq)]
#[error("out of memory, {done} reports joined")]
pub struct RanOut {
    /// The number of reports joined.
    pub done: u128,
}

/// A fault of a message that was not added, or not all of it.
#[derive(Debug, Drop, Error, PartialEq)]
pub enum AddFault {
    /// The octets spell no message, for this cause.
    #[error("{0}")]
    Refused(Refused),
    /// Memory ran out after the first `done` reports were joined, and no others.
    #[error("out of memory, {done} reports joined")]
    OutOfMemory { done: u128 },
}
