//! Tests of devices: they fail only with cause, pass on what they took, and serve large pieces.

ghost use Rattle.std.specs.Prelude.{◌≡◌, ◌<◌, false, length};

use super::same;
use super::sizes::octets_of_length;
use bufr_bits::device::{Failed, FromRead, IntoWrite, Sink, Source, Unwritten, write_all};
use std::alloc::Global;
use std::io;
use std::io::{ErrorKind, Read, Write};
use std::process::Abort;

/// A reader that gives an octet, fails, and gives another.
#[derive(Drop)]
struct FailsOnce {
    reads: u8,
}

impl Read for FailsOnce {
    fn read(&mut self, buf: &mut [u8]) -> io::Result<usize> {
        self.reads = self.reads.saturating_add(1);
        if self.reads == 2 || buf.is_empty() {
            return Err(io::Error::from(ErrorKind::Interrupted));
        }
        buf[0] = self.reads;
        Ok(1)
    }
}

/// A writer that takes one octet and then none.
#[derive(Drop)]
struct TakesOne {
    full: bool,
}

impl Write for TakesOne {
    fn write(&mut self, buf: &[u8]) -> io::Result<usize> {
        if self.full || buf.is_empty() {
            return Ok(0);
        }
        self.full = true;
        Ok(1)
    }

    fn flush(&mut self) -> io::Result<()> {
        Err(io::Error::from(ErrorKind::TimedOut))
    }
}

#[test]
fn a_source_fails_at_any_error(rt: HostRuntime) {
    let mut source = FromRead::new(FailsOnce { reads: 0 });
    let mut buffer = [0; 4];
    same(&rt, source.read(&mut buffer).expect(&rt, "an answer"), 1);
    same(&rt, source.read(&mut buffer), Err(Failed));
    same(&rt, source.into_inner().reads, 2);
}

/// A reader that ends and then gives an octet, as a terminal can.
#[derive(Debug, Drop)]
struct EndsOnce {
    ended: bool,
}

impl Read for EndsOnce {
    fn read(&mut self, buf: &mut [u8]) -> io::Result<usize> {
        if !self.ended || buf.is_empty() {
            self.ended = true;
            return Ok(0);
        }
        buf[0] = b'7';
        Ok(1)
    }
}

#[test]
fn a_source_counts_its_reads_and_remembers_its_end(rt: HostRuntime) {
    let mut source = FromRead::new(EndsOnce { ended: false });
    let mut buffer = [0; 4];
    same(&rt, source.read(&mut buffer).expect(&rt, "an answer"), 0);
    same(&rt, source.read(&mut buffer).expect(&rt, "an answer"), 1);
    let told = format!(in rt.alloc(); "{source:?}").expect(&rt, "room");
    let wanted =
        "FromRead { reader: EndsOnce { ended: true }, failed: false, reads: 2, met_end: true }";
    same(&rt, told.as_str(), wanted);
}

#[test]
fn a_sink_fails_where_nothing_is_taken(rt: HostRuntime) {
    let mut sink = IntoWrite::new(TakesOne { full: false });
    same(&rt, sink.write(&[]).expect(&rt, "an answer"), 0);
    same(&rt, sink.write(b"BUFR").expect(&rt, "an answer"), 1);
    same(&rt, sink.write(b"UFR"), Err(Failed));

    let mut again = IntoWrite::new(TakesOne { full: false });
    let unwritten = Err(Unwritten { written: 1 });
    same(&rt, write_all(&mut again, b"BUFR"), unwritten);
    let mut flushed = IntoWrite::new(TakesOne { full: false });
    same(&rt, flushed.flush(), Err(Failed));
}

/// A reader that gives at most `most` octets at a time.
#[derive(Drop)]
struct GivesFew<'a> {
    rest: &'a [u8],
    most: usize,
}

impl Read for GivesFew<'_> {
    fn read(&mut self, buf: &mut [u8]) -> io::Result<usize> {
        let n = self.most.min(buf.len()).min(self.rest.len());
        buf[..n].copy_from_slice(&self.rest[..n]);
        self.rest = &self.rest[n..];
        Ok(n)
    }
}

/// Reads a source to its end, in at most a hundred thousand reads.
fn all_of<S: Source>(rt: &impl Abort, alloc: Global, source: &mut S, room: &mut [u8]) -> Vec<u8>
    requires works { (S.reading source.old).failed ≡ false }
    requires unread { (S.reading source.old).reads ≡ 0 }
    requires some { 0 < length room.old }
{
    let mut octets = Vec::new(alloc);
    for _ in 0..100_000u64 {
        let n = source.read(room).expect(rt, "an answer");
        if n == 0 {
            return octets;
        }
        octets.extend_from_slice(&room[..n]).expect(rt, "room");
    }
    panic!(rt; "no end")
}

/// Reads all from a lent source over a reader that gives at most `most` octets at a time.
fn gives_all(rt: &impl Abort, alloc: Global, octets: &[u8], most: usize) {
    let mut room = vec![in alloc; 0u8; 70_000].expect(rt, "room");
    let mut source = FromRead::new(GivesFew { rest: octets, most });
    let mut lent = &mut source;
    let whole = all_of(rt, alloc, &mut lent, room.as_mut_slice());
    same(rt, whole.as_slice() == octets, true);
    same(rt, source.into_inner().rest.len(), 0);
}

/// In more than a thousand reads, and in reads of 70,000 octets.
#[test]
fn a_lent_source_gives_all(rt: HostRuntime) {
    let octets = octets_of_length(rt.alloc(), 1_000_003).expect(&rt, "an answer");
    gives_all(&rt, rt.alloc(), octets.as_slice(), 700);
    gives_all(&rt, rt.alloc(), octets.as_slice(), 70_000);
}

/// A writer that takes at most `most` octets at a time and counts its flushes.
#[derive(Drop)]
struct TakesFew {
    taken: Vec<u8>,
    most: usize,
    flushes: u8,
}

impl Write for TakesFew {
    fn write(&mut self, buf: &[u8]) -> io::Result<usize> {
        let n = self.most.min(buf.len());
        match self.taken.extend_from_slice(&buf[..n]) {
            Ok(()) => Ok(n),
            Err(_) => Err(io::Error::from(ErrorKind::OutOfMemory)),
        }
    }

    fn flush(&mut self) -> io::Result<()> {
        self.flushes = self.flushes.saturating_add(1);
        Ok(())
    }
}

/// Flushes a sink, by its own call if it is lent.
fn flushed<W: Sink>(sink: &mut W) -> Result<(), Failed>
    requires { (W.writing sink.old).failed ≡ false }
{
    sink.flush()
}

/// Writes all to a lent sink over a writer that takes at most `most` octets at a time, and flushes
/// it once.
fn takes_all(rt: &impl Abort, alloc: Global, octets: &[u8], most: usize) {
    let mut sink = IntoWrite::new(TakesFew {
        taken: Vec::new(alloc),
        most,
        flushes: 0,
    });
    let mut lent = &mut sink;
    write_all(&mut lent, octets).expect(rt, "an answer");
    flushed(&mut lent).expect(rt, "an answer");
    let writer = sink.into_inner();
    same(rt, writer.taken.as_slice() == octets, true);
    same(rt, writer.flushes, 1);
}

/// In more than a thousand writes, and in writes of 70,000 octets.
#[test]
fn a_lent_sink_takes_all_and_hands_it_on(rt: HostRuntime) {
    let octets = octets_of_length(rt.alloc(), 1_000_003).expect(&rt, "an answer");
    takes_all(&rt, rt.alloc(), octets.as_slice(), 700);
    takes_all(&rt, rt.alloc(), octets.as_slice(), 70_000);
}
