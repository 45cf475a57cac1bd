//! A reader and a writer that give, take and fail as a test says.

ghost use Rattle.std.specs.Prelude.{◌≡◌, Some, None, false};

use bufr_bits::{Failed, Sink, Source};
use std::alloc::Global;

/// A reader that gives some octets a read, and then ends or fails.
#[derive(Drop)]
pub(super) struct Reader<'a> {
    octets: &'a [u8],
    most: usize,
    breaks: bool,
    failed: bool,
    reads: u64,
    met_end: bool,
}

impl<'a> Reader<'a> {
    /// Makes a reader of these octets, which gives at most this many of them a read.
    pub(super) fn new(octets: &'a [u8], most: usize, breaks: bool) -> Self
        ensures works { result.failed ≡ false }
        ensures not_read { result.reads ≡ 0 }
        ensures not_ended { result.met_end ≡ false }
    {
        Reader {
            octets,
            most,
            breaks,
            failed: false,
            reads: 0,
            met_end: false,
        }
    }
}

impl Source for Reader<'_> {
    ghost reading = { λ s. record
        { left = None; failed = s.failed; reads = s.reads; met_end = s.met_end } };

    fn read(&mut self, buffer: &mut [u8]) -> Result<usize, Failed> {
        self.reads += 1;
        let octets = self.octets;
        let given = octets.len().min(self.most).min(buffer.len());
        if given == 0 {
            if self.breaks {
                self.failed = true;
                return Err(Failed);
            }
            self.met_end = true;
            return Ok(0);
        }
        buffer[..given].copy_from_slice(&octets[..given]);
        self.octets = &octets[given..];
        Ok(given)
    }
}

/// A writer that takes this many octets and then fails, at the flush too.
#[derive(Drop)]
pub(super) struct Writer {
    pub(super) taken: Vec<u8>,
    room: usize,
    failed: bool,
}

impl Writer {
    /// Makes a writer with room for this many octets.
    pub(super) fn new(alloc: Global, room: usize) -> Self
        ensures { result.failed ≡ false }
    {
        Writer::over(Vec::new(alloc), room)
    }

    /// Makes a writer over a list, with room for this many octets.
    pub(super) fn over(taken: Vec<u8>, room: usize) -> Self
        ensures { result.failed ≡ false }
    {
        Writer {
            taken,
            room,
            failed: false,
        }
    }
}

impl Sink for Writer {
    ghost writing = { λ s. record { taken = Some s.taken.items; failed = s.failed } };

    fn write(&mut self, piece: &[u8]) -> Result<usize, Failed> {
        let given = piece.len().min(self.room);
        let is_full = given == 0 && !piece.is_empty();
        if is_full || self.taken.extend_from_slice(&piece[..given]).is_err() {
            self.failed = true;
            return Err(Failed);
        }
        self.room -= given;
        Ok(given)
    }

    fn flush(&mut self) -> Result<(), Failed> {
        if self.room == 0 {
            self.failed = true;
            return Err(Failed);
        }
        Ok(())
    }
}
