//! Tests of large texts and of a sink's room: want of memory meets every contract, so these compare
//! all octets.

use super::{expect_text, same};
use bufr_base::OutOfMemory;
use bufr_bits::{BitReader, BitSink};
use std::alloc::Global;
use std::process::Abort;

/// Returns `n` octets that cycle through 0 to 250.
pub(super) fn octets_of_length(alloc: Global, n: usize) -> Result<Vec<u8>, OutOfMemory> {
    let mut octets = Vec::with_capacity(alloc, n)?;
    for i in 0..n {
        octets.push((i % 251) as u8)?;
    }
    Ok(octets)
}

/// Puts a text, three bits and the text again.
fn text_twice(rt: &impl Abort, alloc: Global, text: &[u8]) -> Vec<u8> {
    let mut sink = BitSink::new(alloc);
    sink.put_bytes(text).expect(rt, "room");
    sink.put(3, 5).expect(rt, "room");
    sink.put_bytes(text).expect(rt, "room");
    same(rt, sink.len_bits(), 16_000_051);
    sink.fill_octet();
    sink.into_bytes()
}

/// At the end of a text inside an octet, fewer than eight bits are left.
#[test]
fn a_million_octets_on_and_off_the_edge(rt: HostRuntime) {
    let alloc = rt.alloc();
    let text = octets_of_length(alloc, 1_000_003).expect(&rt, "an answer");
    let octets = text_twice(&rt, alloc, text.as_slice());
    same(&rt, octets.len(), 2_000_007);
    let mut reader = BitReader::new(octets.as_slice());
    expect_text(&rt, alloc, &mut reader, 1_000_003, text.as_slice());
    same(&rt, reader.take(3), Some(5));
    expect_text(&rt, alloc, &mut reader, 1_000_003, text.as_slice());
    let none = reader.take_bytes(alloc, 1).expect(&rt, "an answer");
    same(&rt, none.is_none(), true);
    same(&rt, reader.left(), 5);
}

/// Fills a sink with room for `octets` octets, an odd number, and checks that it never grew:
/// growing doubles the room.
fn keeps_its_room(rt: &impl Abort, alloc: Global, octets: usize) {
    let mut sink = BitSink::with_capacity(alloc, octets).expect(rt, "room");
    for _ in 0..octets {
        sink.put(8, 165).expect(rt, "room");
    }
    sink.fill_octet();
    let full = sink.into_bytes();
    same(rt, full.len(), octets);
    same(rt, full.capacity(), octets);
}

#[test]
fn room_for_a_thousand_octets(rt: HostRuntime) {
    keeps_its_room(&rt, rt.alloc(), 1001);
}
