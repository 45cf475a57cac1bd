//! Sources and sinks: readers and writers of octets that remember failures.

ghost use Rattle.std.specs.Prelude.{◌≡◌, ◌≤◌, ◌<◌, ◌+◌, ◌^◌, true, false, length, take, IfOk};
ghost use Rattle.std.specs.Prelude.{IfErr, OnErr, OnOk};
ghost use Rattle.bufr_bits.specs.Devices.{Reading, Writing, Kept, Gave, FailedRead, Writes};
ghost use Rattle.bufr_bits.specs.Inner.{reader_of, writer_of};

use std::io::{Read, Write};

/// A failure of a device. Don't use that device again.
#[derive(Clone, Copy, Debug, PartialEq, Eq, Drop)]
pub struct Failed;

/// A device to read octets from.
pub trait Source {
    /// What contracts see of it.
    ghost reading: { Self → Reading };

    /// Reads octets into the start of the buffer, and returns their number: 0 only at the end. It
    /// never retries.
    fn read(&mut self, buffer: &mut [u8]) -> Result<usize, Failed>
        requires not_empty { 0 < length buffer.old }
        requires works { (reading self.old).failed ≡ false }
        requires countable { (reading self.old).reads + 1 < 2 ^ 64 }
        ensures within { IfOk result (λ n. n ≤ length buffer.new) }
        ensures gave { IfOk result
            (λ n. Gave (reading self.old) (reading self.new) (take n buffer.new)) }
        ensures failed { OnErr result (FailedRead (reading self.old) (reading self.new)) };
}

/// A device to write octets to.
pub trait Sink {
    /// What contracts see of it.
    ghost writing: { Self → Writing };

    /// Writes the start of the piece, and returns the number of octets taken: 0 only of an empty
    /// piece.
    fn write(&mut self, piece: &[u8]) -> Result<usize, Failed>
        requires { (writing self.old).failed ≡ false }
        ensures within { IfOk result (λ n. n ≤ length piece.now) }
        ensures some { IfOk result (λ n. 0 < length piece.now → 0 < n) }
        ensures took { IfOk result
            (λ n. Writes (writing self.old) (writing self.new) (take n piece.now)) }
        ensures works { OnOk result ((writing self.new).failed ≡ false) }
        ensures failed { OnErr result ((writing self.new).failed ≡ true) }
        ensures kept { OnErr result (Kept (writing self.old).taken (writing self.new).taken) };

    /// Passes on all octets taken.
    fn flush(&mut self) -> Result<(), Failed>
        requires { (writing self.old).failed ≡ false }
        ensures works { OnOk result ((writing self.new).failed ≡ false) }
        ensures failed { OnErr result ((writing self.new).failed ≡ true) }
        ensures kept { Kept (writing self.old).taken (writing self.new).taken };
}

/// A failure of a sink within a text.
#[derive(Clone, Copy, Debug, PartialEq, Eq, Drop)]
pub struct Unwritten {
    /// The number of octets taken.
    pub written: usize,
}

/// Writes a whole text, or its first octets if the sink fails.
pub fn write_all<W: Sink>(sink: &mut W, text: &[u8]) -> Result<(), Unwritten>
    requires { (W.writing sink.old).failed ≡ false }
    ensures ok { OnOk result (Writes (W.writing sink.old) (W.writing sink.new) text.now) }
    ensures works { OnOk result ((W.writing sink.new).failed ≡ false) }
    ensures written { IfErr result (λ f. f.written < length text.now) }
    ensures front { IfErr result
        (λ f. Writes (W.writing sink.old) (W.writing sink.new) (take f.written text.now)) }
    ensures failed { OnErr result ((W.writing sink.new).failed ≡ true) }
{
    let mut written = 0;
    while written < text.len() {
        match sink.write(&text[written..]) {
            Ok(n) => written += n,
            Err(Failed) => return Err(Unwritten { written }),
        }
    }
    Ok(())
}

/// A source over any reader. Any error is a failed read.
#[derive(Debug, Drop)]
pub struct FromRead<R> {
    reader: R,
    failed: bool,
    reads: u64,
    met_end: bool,
}

impl<R: Read> FromRead<R> {
    /// Makes a source over what the reader has left.
    pub fn new(reader: R) -> Self
        ensures { ⟦<FromRead<R> as Source>⟧.reading result
            ≡ record { left = R.remaining reader; failed = false; reads = 0; met_end = false } }
    {
        FromRead {
            reader,
            failed: false,
            reads: 0,
            met_end: false,
        }
    }
}

impl<R> FromRead<R> {
    /// Returns the reader.
    pub fn into_inner(self) -> R
        ensures { result ≡ reader_of self }
    {
        self.reader
    }
}

impl<R: Read> Source for FromRead<R> {
    ghost reading = { λ s. record {
      left = R.remaining s.reader;
      failed = s.failed;
      reads = s.reads;
      met_end = s.met_end;
    } };

    fn read(&mut self, buffer: &mut [u8]) -> Result<usize, Failed> {
        self.reads += 1;
        match self.reader.read(buffer) {
            Ok(n) => {
                self.met_end |= n == 0;
                Ok(n)
            }
            Err(_) => {
                self.failed = true;
                Err(Failed)
            }
        }
    }
}

/// A sink over any writer. It fails on an error, or if the writer takes nothing of a piece.
#[derive(Debug, Drop)]
pub struct IntoWrite<W> {
    writer: W,
    failed: bool,
}

impl<W: Write> IntoWrite<W> {
    /// Makes a sink that appends to what the writer holds.
    pub fn new(writer: W) -> Self
        ensures { ⟦<IntoWrite<W> as Sink>⟧.writing result
            ≡ record { taken = W.contents writer; failed = false } }
    {
        IntoWrite {
            writer,
            failed: false,
        }
    }
}

impl<W> IntoWrite<W> {
    /// Returns the writer.
    pub fn into_inner(self) -> W
        ensures { result ≡ writer_of self }
    {
        self.writer
    }
}

impl<W: Write> Sink for IntoWrite<W> {
    ghost writing = { λ s. record { taken = W.contents s.writer; failed = s.failed } };

    fn write(&mut self, piece: &[u8]) -> Result<usize, Failed> {
        match self.writer.write(piece) {
            Ok(n) if n > 0 || piece.is_empty() => Ok(n),
            _ => {
                self.failed = true;
                Err(Failed)
            }
        }
    }

    fn flush(&mut self) -> Result<(), Failed> {
        if self.writer.flush().is_err() {
            self.failed = true;
            return Err(Failed);
        }
        Ok(())
    }
}

impl<S: Source> Source for &mut S {
    ghost reading = { λ s. S.reading s.now };

    fn read(&mut self, buffer: &mut [u8]) -> Result<usize, Failed> {
        (**self).read(buffer)
    }
}

impl<S: Sink> Sink for &mut S {
    ghost writing = { λ s. S.writing s.now };

    fn write(&mut self, piece: &[u8]) -> Result<usize, Failed> {
        (**self).write(piece)
    }

    fn flush(&mut self) -> Result<(), Failed> {
        (**self).flush()
    }
}
