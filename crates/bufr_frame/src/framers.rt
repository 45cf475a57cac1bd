ghost use Rattle.std.specs.Prelude.{◌≡◌, ◌≤◌, ◌+◌, ◌^◌, ◌<◌, ◌++◌, [], List, ℕ, length, drop};
ghost use Rattle.std.specs.Prelude.{None, IfOk, IfSome, OnOk, OnErr};
ghost use Rattle.bufr_frame.specs.declared.places.TheConstants.{LONGEST};
ghost use Rattle.bufr_frame.specs.Streams.{Stands};
ghost use Rattle.bufr_frame.specs.Looks.{new_framing};
ghost use Rattle.bufr_frame.specs.NextFrames.{taken_in, IsRestOf, IsNextFrame, IsNoFrame};
ghost use Rattle.bufr_frame.specs.NextFrames.{StandsAfter, AreSureNext, AreLast, StandsWithAll};

use crate::frames::Found;
use crate::held::append_and_scan;
use crate::lent_frame::{FrameOctets, LentFrame};
use crate::looks::Look;
use crate::next_frame::{NextFrame, Taken};
use crate::places::{Start, start_of};
use crate::reaching::{near_mark, reach_and_copy};
use crate::scans::frames_in;
use bufr_base::OutOfMemory;
use std::alloc::Global;
use std::marker::Model;

/// A framer: finds the frames of a stream that comes in pieces.
#[derive(Drop)]
pub struct Framer {
    // Holds the octets from `from` on.
    octets: Vec<u8>,
    from: usize,
    fed: u64,
}

impl Model for Framer {
    ghost use Rattle.std.specs.Prelude.{drop};
    ghost use Rattle.bufr_frame.specs.Framings.{Framing, AreKept};

    ghost Value = { Framing };

    ghost view = { λ f. record { fed = f.fed; held = drop f.from f.octets.items } };

    ghost invariant = { λ f. AreKept f.octets.items f.from f.fed };
}

impl Framer {
    /// Starts an empty stream.
    pub fn new(alloc: Global) -> Framer
        ensures starts { Stands result [] 0 }
        ensures empty { result ≡ new_framing }
    {
        Framer {
            octets: Vec::new(alloc),
            from: 0,
            fed: 0,
        }
    }

    /// Returns the number of octets taken in.
    pub fn fed(&self) -> u64
        ensures { result ≡ self.now.fed }
    {
        self.fed
    }

    /// Returns the number of octets held.
    pub fn pending(&self) -> usize
        ensures held { result ≡ length self.now.held }
        ensures bounded { result ≤ LONGEST }
    {
        self.octets.len() - self.from
    }

    /// Returns what `feed` would hand out for this piece.
    pub fn look(&self, piece: &[u8]) -> Result<Look, OutOfMemory>
        requires { self.now.fed + length piece.now < 2 ^ 64 }
        ensures found { IfOk result (λ look. AreSureNext self.now piece.now look.frames) }
        ensures next { IfOk result (λ look. StandsWithAll self.now look.next piece.now) }
        ensures fed { IfOk result (λ look. look.next.fed ≡ self.now.fed + length piece.now) }
    {
        let alloc = *self.octets.allocator();
        let mut next = Framer {
            octets: Vec::from_slice(alloc, &self.octets[self.from..])?,
            from: 0,
            fed: self.fed,
        };
        let frames = next.feed(piece)?;
        Ok(Look { frames, next })
    }

    /// Returns what `finish` would hand out.
    pub fn look_end(&self) -> Result<Look, OutOfMemory>
        ensures found { IfOk result (λ look. AreLast self.now look.frames) }
        ensures next { IfOk result (λ look. look.next ≡ new_framing) }
    {
        let alloc = *self.octets.allocator();
        let fed = self.fed;
        let held = &self.octets[self.from..];
        let frames = frames_in(alloc, true, fed - held.len() as u64, held)?.frames;
        Ok(Look {
            frames,
            next: Framer::new(alloc),
        })
    }

    /// Takes over the framer of a look, and hands out its frames.
    pub fn settle(&mut self, look: Look) -> Vec<Found>
        ensures frames { result.items ≡ look.frames }
        ensures next { self.new ≡ look.next }
    {
        let Look { frames, next } = look;
        *self = next;
        frames
    }

    /// Takes in a piece, and hands out the frames that are sure now.
    pub fn feed(&mut self, piece: &[u8]) -> Result<Vec<Found>, OutOfMemory>
        requires { self.old.fed + length piece.now < 2 ^ 64 }
        ensures found { IfOk result (λ found. AreSureNext self.old piece.now found.items) }
        ensures next { OnOk result (StandsWithAll self.old self.new piece.now) }
        ensures fed { OnOk result (self.new.fed ≡ self.old.fed + length piece.now) }
        ensures err { OnErr result (self.new ≡ self.old) }
    {
        let held = self.octets.len() - self.from;
        let scan = append_and_scan(&mut self.octets, self.from, self.fed - held as u64, piece)?;
        self.from = scan.rest;
        self.fed += piece.len() as u64;
        Ok(scan.frames)
    }

    /// Takes in the piece up to the next sure frame, and hands out a copy. Call it with the rest
    /// until it hands out none, even if the rest is empty.
    pub fn take_next<'p>(&mut self, piece: &'p [u8]) -> Result<Taken<'p>, OutOfMemory>
        requires { self.old.fed + length piece.now < 2 ^ 64 }
        ensures rest { IfOk result (λ taken. IsRestOf piece.now taken.rest.now) }
        ensures frame { IfOk result (λ taken. IfSome taken.found (λ frame.
            IsNextFrame self.old (taken_in piece.now taken.rest.now) frame)) }
        ensures next { IfOk result (λ taken. IfSome taken.found (λ frame.
            StandsAfter self.old self.new (taken_in piece.now taken.rest.now) 1)) }
        ensures all_taken { IfOk result (λ taken. taken.found ≡ None → taken.rest.now ≡ []) }
        ensures none { IfOk result (λ taken. taken.found ≡ None → IsNoFrame self.old piece.now) }
        ensures waits { IfOk result (λ taken. taken.found ≡ None
            → StandsAfter self.old self.new piece.now 0) }
        ensures fed { IfOk result (λ taken.
            self.new.fed ≡ self.old.fed + length (taken_in piece.now taken.rest.now)) }
        ensures err { OnErr result (self.new ≡ self.old) }
    {
        let kept = self.octets.len();
        let taking = match reach_and_copy(&mut self.octets, self.from, self.fed, piece) {
            Ok(taking) => taking,
            Err(refused) => {
                self.octets.truncate(kept);
                return Err(refused);
            }
        };
        self.from = taking.from;
        self.fed += taking.taken as u64;
        Ok(Taken {
            found: taking.found,
            rest: &piece[taking.taken..],
        })
    }

    /// Does what `take_next` does, but lends a frame that lies whole in the piece.
    pub fn next_frame<'p>(&mut self, piece: &'p [u8]) -> Result<NextFrame<'p>, OutOfMemory>
        requires { self.old.fed + length piece.now < 2 ^ 64 }
        ensures rest { IfOk result (λ next. IsRestOf piece.now next.rest.now) }
        ensures frame { IfOk result (λ next. IfSome next.found (λ frame.
            IsNextFrame self.old (taken_in piece.now next.rest.now) frame)) }
        ensures next { IfOk result (λ next. IfSome next.found (λ frame.
            StandsAfter self.old self.new (taken_in piece.now next.rest.now) 1)) }
        ensures all_taken { IfOk result (λ next. next.found ≡ None → next.rest.now ≡ []) }
        ensures none { IfOk result (λ next. next.found ≡ None → IsNoFrame self.old piece.now) }
        ensures waits { IfOk result (λ next. next.found ≡ None
            → StandsAfter self.old self.new piece.now 0) }
        ensures fed { IfOk result (λ next.
            self.new.fed ≡ self.old.fed + length (taken_in piece.now next.rest.now)) }
        ensures err { OnErr result (self.new ≡ self.old) }
    {
        if self.from == self.octets.len() {
            let skip = near_mark(piece);
            if let Start::Frame(length) = start_of(&piece[skip..]) {
                let end = skip + length;
                let frame = LentFrame {
                    place: self.fed + skip as u64,
                    octets: FrameOctets::Lent(&piece[skip..end]),
                };
                self.fed += end as u64;
                return Ok(NextFrame {
                    found: Some(frame),
                    rest: &piece[end..],
                });
            }
        }
        let Taken { found, rest } = self.take_next(piece)?;
        match found {
            None => Ok(NextFrame { found: None, rest }),
            Some(frame) => {
                let found = Some(LentFrame::own(frame));
                Ok(NextFrame { found, rest })
            }
        }
    }

    /// Ends the stream and hands out its last frames. The framer then starts anew.
    pub fn finish(&mut self) -> Result<Vec<Found>, OutOfMemory>
        ensures found { IfOk result (λ found. AreLast self.old found.items) }
        ensures next { OnOk result (self.new ≡ new_framing) }
        ensures err { OnErr result (self.new ≡ self.old) }
    {
        let alloc = *self.octets.allocator();
        let held = &self.octets[self.from..];
        let frames = frames_in(alloc, true, self.fed - held.len() as u64, held)?.frames;
        *self = Framer::new(alloc);
        Ok(frames)
    }
}
