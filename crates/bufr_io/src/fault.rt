ghost use Rattle.std.specs.Prelude.{◌≡◌, Some};
ghost use Rattle.bufr_io.specs.Faults.{input_text};
ghost use Rattle.bufr_io.specs.declared.fault.ToolFault.TheVariants.{OutOfMemory as NoMemory};

use bufr_base::OutOfMemory;
use bufr_listing::ListingFault;
use bufr_sections::EncodeFault;
use bufr_tables::TableFault;
use std::fmt;
use thiserror::Error;

/// A count of what an engine has read and written; 0 if a command does not count it.
#[derive(Clone, Copy, Debug, Drop, PartialEq, Eq)]
pub struct Tally {
    /// The frames of streams, the messages of a listing, or the archives.
    pub frames: u128,
    /// The refused frames.
    pub refused: u128,
    /// The octets outside frames.
    pub skipped: u128,
    /// The reports of the archive.
    pub reports: u128,
}

/// An input of a command.
#[derive(Clone, Copy, Debug, Drop, PartialEq, Eq)]
pub enum Input {
    /// The file of Table B.
    TableB,
    /// The file of Table D.
    TableD,
    /// An input of the engine, from 1.
    Number(u128),
}

impl fmt::Display for Input {
    ghost output = { λ input. Some (input_text input) };

    #[tactic(auto, unfolding(crate::specs::Faults::input_text))]
    fn fmt<W: fmt::Write>(&self, f: &mut fmt::Formatter<W>) -> fmt::Result {
        match self {
            Input::TableB => write!(f, "table B"),
            Input::TableD => write!(f, "table D"),
            Input::Number(n) => write!(f, "input {n}"),
        }
    }
}

/// A reason why an engine returns no tally.
#[derive(Clone, Copy, Debug, Drop, PartialEq, Eq, Error)]
pub enum ToolFault {
    /// A reader failed.
    #[error("read failed {0}")]
    ReadFailed(Input),
    /// Every allowed read returned octets.
    #[error("endless input {0}")]
    EndlessInput(Input),
    /// The writer failed.
    #[error("write failed after {written} octets")]
    WriteFailed { written: u128 },
    /// The file of a table has a fault.
    #[error("{0}: {1}")]
    Table(Input, TableFault),
    /// The listing has a fault.
    #[error("listing: {0}")]
    Listing(ListingFault),
    /// A message of the listing, from 1, has no encoding.
    #[error("message {0}: {1}")]
    Encode(u128, EncodeFault),
    /// An input, from 1, is no archive: its first wrong entry starts at `place`.
    #[error("not an archive input {input} at {place}")]
    NotAnArchive { input: u128, place: u64 },
    /// Memory ran out.
    #[error("out of memory")]
    OutOfMemory,
}

impl From<OutOfMemory> for ToolFault {
    ghost from_gives = { λ _ fault. fault ≡ NoMemory };

    fn from(_error: OutOfMemory) -> ToolFault {
        ToolFault::OutOfMemory
    }
}
