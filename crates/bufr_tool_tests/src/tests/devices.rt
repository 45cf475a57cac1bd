//! A reader and a writer that give, take and fail as a test asks.

ghost use Rattle.std.specs.Prelude.{◌≡◌, Some, None, false};

use bufr_bits::{Failed, Sink, Source};
use std::alloc::Global;

/// A reader that gives at most `most` octets a read, first those before a place, then the others;
/// if it `breaks`, it fails at its end. It keeps the most that a read asked for.
#[derive(Drop)]
pub(super) struct Reader<'a> {
    octets: &'a [u8],
    cut: usize,
    most: usize,
    breaks: bool,
    pub(super) asked: usize,
    failed: bool,
    pub(super) reads: u64,
    met_end: bool,
}

impl<'a> Reader<'a> {
    pub(super) fn new(octets: &'a [u8], cut: usize, most: usize, breaks: bool) -> Self
        ensures works { result.failed ≡ false }
        ensures not_read { result.reads ≡ 0 }
        ensures not_ended { result.met_end ≡ false }
    {
        Reader {
            octets,
            cut,
            most,
            breaks,
            asked: 0,
            failed: false,
            reads: 0,
            met_end: false,
        }
    }
}

impl Source for Reader<'_> {
    ghost reading = { λ s. record
        { left = None; failed = s.failed; reads = s.reads; met_end = s.met_end } };

    fn read(&mut self, buffer: &mut [u8]) -> Result<usize, Failed> {
        self.reads += 1;
        self.asked = self.asked.max(buffer.len());
        let octets = self.octets;
        let front = if self.cut > 0 { self.cut } else { octets.len() };
        let given = front.min(octets.len()).min(self.most).min(buffer.len());
        if given == 0 {
            if self.breaks {
                self.failed = true;
                return Err(Failed);
            }
            self.met_end = true;
            return Ok(0);
        }
        buffer[..given].copy_from_slice(&octets[..given]);
        self.octets = &octets[given..];
        self.cut = self.cut.saturating_sub(given);
        Ok(given)
    }
}

/// A writer that takes some octets, a few at a time, and then fails, at the flush too. It counts
/// the pieces that it takes whole, and keeps the length of the longest.
#[derive(Drop)]
pub(super) struct Writer {
    pub(super) taken: Vec<u8>,
    room: usize,
    most: usize,
    pub(super) pieces: u32,
    pub(super) longest: usize,
    failed: bool,
}

impl Writer {
    pub(super) fn new(alloc: Global, room: usize, most: usize) -> Self
        ensures { result.failed ≡ false }
    {
        Writer::over(Vec::new(alloc), room, most)
    }

    /// Makes a writer that puts what it takes behind a list.
    pub(super) fn over(taken: Vec<u8>, room: usize, most: usize) -> Self
        ensures { result.failed ≡ false }
    {
        Writer {
            taken,
            room,
            most,
            pieces: 0,
            longest: 0,
            failed: false,
        }
    }
}

impl Sink for Writer {
    ghost writing = { λ s. record { taken = Some s.taken.items; failed = s.failed } };

    fn write(&mut self, piece: &[u8]) -> Result<usize, Failed> {
        let given = piece.len().min(self.room).min(self.most);
        let is_full = given == 0 && !piece.is_empty();
        if is_full || self.taken.extend_from_slice(&piece[..given]).is_err() {
            self.failed = true;
            return Err(Failed);
        }
        self.room -= given;
        if given > 0 && given == piece.len() {
            self.pieces = self.pieces.saturating_add(1);
            self.longest = self.longest.max(given);
        }
        Ok(given)
    }

    fn flush(&mut self) -> Result<(), Failed> {
        if self.room == 0 {
            self.failed = true;
            return Err(Failed);
        }
        Ok(())
    }
}
