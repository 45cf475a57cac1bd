ghost use Rattle.std.specs.Prelude.{◌≡◌, IfOk};

use bufr_base::{Items, OutOfMemory};
use std::alloc::Global;

/// A frame and its place in the stream.
#[derive(Debug, PartialEq, Eq, Drop)]
pub struct Found {
    /// The number of octets of the stream before the frame.
    pub place: u64,
    /// The octets, from `BUFR` to `7777`.
    pub bytes: Items<u8>,
}

impl Found {
    pub(crate) fn copied(alloc: Global, place: u64, octets: &[u8]) -> Result<Found, OutOfMemory>
        ensures { IfOk result (λ found. found ≡ record { place = place; bytes = octets.now }) }
    {
        let bytes = Items::from_vec(Vec::from_slice(alloc, octets)?);
        Ok(Found { place, bytes })
    }
}
