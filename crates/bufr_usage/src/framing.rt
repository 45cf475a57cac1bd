//! Cutting a stream into frames.
ghost use Rattle.std.specs.Prelude.{◌≡◌, ◌<◌, ◌^◌, length, drop, IfOk};
ghost use Rattle.bufr_frame.specs.Streams.{cut, sure};

use bufr_frame::{Found, Framer, OutOfMemory};
use std::alloc::Global;

/// A list of the frames of a stream.
#[derive(Drop)]
pub struct Frames {
    /// The frames that were sure before the end.
    pub sure: Vec<Found>,
    /// The frames that the end brought.
    pub last: Vec<Found>,
}

/// Cuts a whole stream into frames. The first ones were sure before its end: no later octets could
/// change them.
pub fn frames_of(alloc: Global, stream: &[u8]) -> Result<Frames, OutOfMemory>
    requires { length stream.now < 2 ^ 64 }
    ensures sure { IfOk result (λ frames. frames.sure.items ≡ sure stream.now) }
    ensures last { IfOk result (λ frames.
        frames.last.items ≡ drop (length (sure stream.now)) (cut stream.now)) }
{
    let mut framer = Framer::new(alloc);
    let sure = framer.feed(stream)?;
    let last = framer.finish()?;
    Ok(Frames { sure, last })
}
