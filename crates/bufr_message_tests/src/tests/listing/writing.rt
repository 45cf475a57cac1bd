//! Writes listings to devices.

use super::same;
use super::samples::first_message;
use bufr_bits::device::IntoWrite;
use bufr_listing::{ListingWriteFault, write};
use bufr_sections::Message;
use std::alloc::Global;
use std::io;
use std::io::{ErrorKind, Write};
use std::process::Abort;

const SEQUENCES_LISTED: &str = "\
message
section1 98 0 0 0 2 0 37 0
time 2024 1 15 12 0 0
flags observed
descriptors 301001 301011 301012 012101
subset
001001 10
001002 384
004001 2024
004002 1
004003 15
004004 12
004005 0
012101 273.15
end
";

/// A writer of limited room that takes at most 50 octets at a time.
#[derive(Drop)]
struct Narrow {
    taken: Vec<u8>,
    room: usize,
}

impl Write for Narrow {
    fn write(&mut self, buf: &[u8]) -> io::Result<usize> {
        let taken = buf.len().min(self.room).min(50);
        if self.taken.extend_from_slice(&buf[..taken]).is_err() {
            return Err(io::Error::from(ErrorKind::OutOfMemory));
        }
        self.room -= taken;
        Ok(taken)
    }

    fn flush(&mut self) -> io::Result<()> {
        Ok(())
    }
}

/// Writes to a writer with `room` octets. Returns the result, and the octets that it took.
fn written(
    alloc: Global,
    message: &Message,
    room: usize,
) -> (Result<(), ListingWriteFault>, Vec<u8>) {
    let taken = Vec::new(alloc);
    let mut sink = IntoWrite::new(Narrow { taken, room });
    let answer = write(alloc, message, &mut sink);
    (answer, sink.into_inner().taken)
}

/// A writer with a million octets of room takes this listing.
pub(super) fn assert_taken(rt: &impl Abort, alloc: Global, message: &Message, wanted: &str) {
    let (found, taken) = written(alloc, message, 1_000_000);
    same(rt, found, Ok(()));
    same(rt, taken.as_slice(), wanted.as_bytes());
}

/// A writer takes the first `room` octets of the listing, and the call fails if `failed`.
fn assert_front(rt: &impl Abort, alloc: Global, message: &Message, room: usize, failed: bool) {
    let (found, taken) = written(alloc, message, room);
    let fault = ListingWriteFault::WriteFailed {
        written: room as u128,
    };
    same(rt, found, if failed { Err(fault) } else { Ok(()) });
    let front = SEQUENCES_LISTED.len().min(room);
    same(rt, taken.as_slice(), &SEQUENCES_LISTED.as_bytes()[..front]);
}

#[test]
fn written_to_narrow_writers(rt: HostRuntime) {
    let message = first_message(&rt, rt.alloc(), SEQUENCES_LISTED);
    for room in [0, 1, 50, 99, 100, 207] {
        assert_front(&rt, rt.alloc(), &message, room, true);
    }
    for room in [208, 1000] {
        assert_front(&rt, rt.alloc(), &message, room, false);
    }
    drop(message);
}

#[test]
fn faults_of_writing_are_printed(rt: HostRuntime) {
    let failed = ListingWriteFault::WriteFailed { written: 235 };
    for (fault, wanted) in [
        (failed, "write failed after 235 octets"),
        (ListingWriteFault::OutOfMemory, "out of memory"),
    ] {
        let text = fault.to_string(rt.alloc()).expect(&rt, "an answer");
        same(&rt, text.as_str(), wanted);
    }
}
