ghost use Rattle.std.specs.Prelude.{◌≡◌, ◌<◌, ◌^◌, length, IfOk};
ghost use Rattle.std.specs.List.{flat_map};
ghost use Rattle.bufr_frame.specs.Streams.{cut};

use crate::framers::Framer;
use crate::frames::Found;
use bufr_base::OutOfMemory;
use std::alloc::Global;

/// Returns the frames of the stream in these pieces.
pub fn frames_of_pieces(alloc: Global, pieces: &[&[u8]]) -> Result<Vec<Found>, OutOfMemory>
    requires { length (flat_map (λ piece. piece.now) pieces.now) < 2 ^ 64 }
    ensures { IfOk result (λ found. found.items ≡ cut (flat_map (λ piece. piece.now) pieces.now)) }
{
    let mut framer = Framer::new(alloc);
    let mut frames = Vec::new(alloc);
    for piece in pieces {
        let mut found = framer.feed(*piece)?;
        frames.append(&mut found)?;
    }
    let mut last = framer.finish()?;
    frames.append(&mut last)?;
    Ok(frames)
}
