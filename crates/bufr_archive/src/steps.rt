use bufr_base::Items;
use thiserror::Error;

/// A step. Slots count from 0.
#[derive(Debug, Drop)]
pub enum Step {
    /// A slot's stream goes on by a piece.
    Feed { slot: usize, piece: Items<u8> },
    /// A slot's stream ends, and a new one begins.
    End { slot: usize },
    /// One archive is merged into another.
    Merge { from: usize, into: usize },
    /// One archive is written, read back and merged into another.
    Transfer { from: usize, into: usize },
    /// One archive is copied, and the copy merged into another.
    Copy { from: usize, into: usize },
}

/// An answer: what a step did.
#[derive(Clone, Copy, Debug, Drop, PartialEq, Eq)]
pub enum Answer {
    /// The counts of the frames that a piece made sure.
    Fed {
        /// The frames that spell a message.
        messages: u128,
        /// The frames that spell none.
        refused: u128,
        /// The reports that changed the archive.
        changed: u128,
    },
    /// The counts of the last frames of a stream.
    Ended {
        /// The frames that spell a message.
        messages: u128,
        /// The frames that spell none.
        refused: u128,
        /// The reports that changed the archive.
        changed: u128,
    },
    /// The join is done.
    Joined,
}

/// A fault of a step that was not done.
#[derive(Clone, Copy, Debug, Drop, Error, PartialEq, Eq)]
pub enum StepFault {
    /// The first slot of the step that is not there.
    #[error("P1 NoSlot {0}")]
    NoSlot(usize),
    /// The stream would pass 2^64 - 1 octets. Nothing changed.
    #[error("P2 StreamTooLong")]
    StreamTooLong,
    /// Memory ran out. The first `joined` reports of the step's messages are added, none of a join;
    /// the slot's stream is unchanged.
    #[error("out of memory, {joined} reports joined")]
    OutOfMemory { joined: u128 },
}
