ghost use Rattle.std.specs.Prelude.{◌≡◌};

use crate::frames::Found;
use bufr_base::Items;
use std::marker::Model;

/// A frame's octets, of a piece or its own.
#[derive(Drop)]
pub(crate) enum FrameOctets<'p> {
    Lent(&'p [u8]),
    Own(Items<u8>),
}

/// A frame lent from a piece, or with octets of its own. Contracts see a `Found`.
#[derive(Drop)]
pub struct LentFrame<'p> {
    pub(crate) place: u64,
    pub(crate) octets: FrameOctets<'p>,
}

impl<'p> Model for LentFrame<'p> {
    ghost use Rattle.bufr_frame.specs.declared.frames.Found.{Found};
    ghost use Rattle.bufr_frame.specs.FrameOctets.{octets_of};

    ghost Value = { Found };

    ghost view = { λ f. record { place = f.place; bytes = octets_of f.octets } };
}

impl<'p> LentFrame<'p> {
    pub(crate) fn own(frame: Found) -> LentFrame<'p>
        ensures { result ≡ frame }
    {
        let Found { place, bytes } = frame;
        LentFrame {
            place,
            octets: FrameOctets::Own(bytes),
        }
    }

    /// Returns the number of octets of the stream before the frame.
    pub fn place(&self) -> u64
        ensures { result ≡ self.now.place }
    {
        self.place
    }

    /// Returns the octets, from `BUFR` to `7777`.
    pub fn as_slice(&self) -> &[u8]
        ensures { result.now ≡ self.now.bytes }
    {
        match &self.octets {
            FrameOctets::Lent(octets) => octets,
            FrameOctets::Own(octets) => octets.as_slice(),
        }
    }
}
