//! The frames of a stream, handed on one after the other.

ghost use Rattle.std.specs.Prelude.{◌≡◌, ◌≤◌, ◌<◌, ◌+◌, ◌^◌, ◌++◌, ◌∷◌, [], ℕ, List, length};
ghost use Rattle.std.specs.Prelude.{OnOk, IfErr};
ghost use Rattle.bufr_frame.specs.declared.frames.Found.{Found as FoundFrame};
ghost use Rattle.bufr_io.specs.declared.fault.ToolFault.{ToolFault as ToolFaultKind};
ghost use Rattle.bufr_io.specs.Engines.{IsFresh};
ghost use Rattle.bufr_io.specs.Limits.{most_reads, longest_piece};
ghost use Rattle.bufr_io.specs.Taking.{frame_at, AreFew, HasSure, TakesPiece, TakesStream};

use crate::fault::{Input, ToolFault};
use crate::input::Pieces;
use bufr_bits::Source;
use bufr_frame::{Framer, NextFrame};
use std::alloc::Global;

/// A consumer of the frames of a stream, which may write to an output `O`.
pub trait TakesFrames<O> {
    /// Counts the frames.
    ghost count: { Self → O → ℕ };

    /// Says that it took in these frames between the two states.
    ghost HasTaken: { Self → O → Self → O → List FoundFrame → Type 0 };

    /// Says that it holds nothing back.
    ghost HoldsNone: { Self → O → Type 0 };

    /// Says that it stopped with a fault at these frames.
    ghost HasStopped: { Self → O → Self → O → List FoundFrame → ToolFaultKind → Type 0 };

    /// Takes in a frame.
    fn take_frame(
        &mut self,
        alloc: Global,
        place: u64,
        octets: &[u8],
        out: &mut O,
    ) -> Result<(), ToolFault>
        requires { (first : Self) × (begin : O) × (frames : List FoundFrame)
            × HasTaken first begin self.old out.old frames
            × AreFew (frames ++ frame_at place octets.now ∷ []) }
        ensures taken { OnOk result ((first : Self) (begin : O) (frames : List FoundFrame)
            → HasTaken first begin self.old out.old frames
            → HasTaken first begin self.new out.new (frames ++ frame_at place octets.now ∷ [])) }
        ensures stopped { IfErr result (λ fault. (first : Self) (begin : O)
            (frames : List FoundFrame) → HasTaken first begin self.old out.old frames
            → HasStopped first begin self.new out.new (frames ++ frame_at place octets.now ∷ [])
            fault) };

    /// Puts out what it holds back, after each piece of the stream.
    fn end_piece(&mut self, out: &mut O) -> Result<(), ToolFault>
        requires { (first : Self) × (begin : O) × (frames : List FoundFrame)
            × HasTaken first begin self.old out.old frames × AreFew frames }
        ensures taken { OnOk result ((first : Self) (begin : O) (frames : List FoundFrame)
            → HasTaken first begin self.old out.old frames
            → HasTaken first begin self.new out.new frames) }
        ensures none { OnOk result (HoldsNone self.new out.new) }
        ensures stopped { IfErr result (λ fault. (first : Self) (begin : O)
            (frames : List FoundFrame) → HasTaken first begin self.old out.old frames
            → HasStopped first begin self.new out.new frames fault) };

    /// Stops for want of memory, and returns the fault to report.
    fn halt(&mut self, out: &mut O) -> ToolFault
        requires { (first : Self) × (begin : O) × (frames : List FoundFrame)
            × HasTaken first begin self.old out.old frames × AreFew frames }
        ensures { (first : Self) (begin : O) (frames : List FoundFrame)
            → HasTaken first begin self.old out.old frames
            → HasStopped first begin self.new out.new frames result };

    /// Proves that `count` counts each frame.
    ghost counts_each: { (first self : Self) (begin out : O) (frames : List FoundFrame)
        → HasTaken first begin self out frames
        → count self out ≡ count first begin + length frames };
}

/// Hands on the frames that are sure with a piece of a stream. It copies no frame that lies whole in
/// the piece.
fn take_piece<O, T: TakesFrames<O>>(
    alloc: Global,
    piece: &[u8],
    framer: &mut Framer,
    taker: &mut T,
    out: &mut O,
) -> Result<(), ToolFault>
    requires so_far { (first : T) × (begin : O) × (stream : List ℕ)
        × HasSure (T.HasTaken first begin taker.old out.old) framer.old stream }
    requires room { framer.old.fed + length piece.now ≤ 2 ^ 48 }
    ensures { (first : T) (begin : O) (stream : List ℕ)
        → HasSure (T.HasTaken first begin taker.old out.old) framer.old stream
        → TakesPiece (T.HasTaken first begin taker.new out.new) (T.HoldsNone taker.new out.new)
        (T.HasStopped first begin taker.new out.new) framer.new (stream ++ piece.now) result }
{
    let mut rest = piece;
    loop {
        let Ok(NextFrame { found, rest: left }) = framer.next_frame(rest) else {
            return Err(taker.halt(out));
        };
        let Some(frame) = found else {
            return taker.end_piece(out);
        };
        taker.take_frame(alloc, frame.place(), frame.as_slice(), out)?;
        rest = left;
    }
}

/// Reads a stream to its end, and hands on each frame as soon as it is sure. Returns the length of the
/// stream.
pub fn take_stream<O, S: Source, T: TakesFrames<O>>(
    alloc: Global,
    reads: u64,
    name: Input,
    reader: &mut S,
    buffer: &mut [u8],
    taker: &mut T,
    out: &mut O,
) -> Result<u64, ToolFault>
    requires few { reads ≤ most_reads }
    requires fresh { IsFresh (S.reading reader.old) }
    requires some { 0 < length buffer.old }
    requires short { length buffer.old ≤ longest_piece }
    requires none_taken { T.HasTaken taker.old out.old taker.old out.old [] }
    requires none_held { T.HoldsNone taker.old out.old }
    ensures bounded { (S.reading reader.new).reads ≤ reads }
    ensures takes { TakesStream (T.HasTaken taker.old out.old taker.new out.new)
        (T.HoldsNone taker.new out.new) (T.HasStopped taker.old out.old taker.new out.new) name
        reads (S.reading reader.old) (S.reading reader.new) result }
{
    let mut framer = Framer::new(alloc);
    let mut pieces = Pieces {
        made: 0,
        most: reads,
        name,
    };
    let mut length = 0;
    while let Some(piece) = pieces.next(reader, &mut *buffer)? {
        length += piece.len() as u64;
        take_piece(alloc, piece, &mut framer, taker, out)?;
    }
    let Ok(frames) = framer.finish() else {
        return Err(taker.halt(out));
    };
    for frame in &frames {
        taker.take_frame(alloc, frame.place, frame.bytes.as_slice(), out)?;
    }
    Ok(length)
}
