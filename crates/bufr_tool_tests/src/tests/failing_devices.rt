//! A read or a write that fails at each place in turn, for each engine.

use super::samples::{
    CHECKED, COMPRESSED_PAIR, COMPRESSED_PAIR_LISTING, ELEMENTS_ONLY, HEADING, LISTING,
    MANY_SUBSETS, PAIR_COMPRESSED, PAIR_LISTING, Part, SEQUENCES, SEQUENCES_LISTING, SUBSET,
    TWO_FRAMES, joined,
};
use super::{Engine, Run, Seen, assert_run, same};
use bufr_tool::{Input, ToolFault};
use std::alloc::Global;
use std::process::Abort;

/// A read fails within the stream of two frames: the engine has written exactly the lines of the
/// first message once it has read it.
fn assert_front(rt: &impl Abort, alloc: Global, octets: &[u8], engine: Engine, most: usize) {
    let place = octets.len();
    let text = match engine {
        _ if place < 80 => b"".as_slice(),
        Engine::Show => SEQUENCES_LISTING,
        _ => b"18 62 ok 1 0\n",
    };
    let mut run = Run::new("front", engine, octets);
    run.place = place;
    run.most = most;
    run.breaks = true;
    let failed = Err(ToolFault::ReadFailed(Input::Number(1)));
    let _ = assert_run(rt, alloc, run, failed, text);
}

/// A read fails after each number of octets. The first message is at 18 to 80, and its lines come
/// with its last octet. The second comes after a stray `BUFR`, so with the end alone.
#[test]
fn failing_reader_at_each_place(rt: HostRuntime) {
    let alloc = rt.alloc();
    let octets = joined(&rt, alloc, TWO_FRAMES);
    for length in 0usize..147 {
        let front = octets.get(..length).expect(&rt, "a front");
        for most in [1usize, 7, 1000] {
            assert_front(&rt, alloc, front, Engine::Show, most);
            assert_front(&rt, alloc, front, Engine::Check, most);
        }
    }
}

/// A read of a listing fails after each octet, and at its end: nothing is written.
#[test]
fn failing_listing_at_each_place(rt: HostRuntime) {
    for length in 0..=LISTING.len() {
        let front = LISTING.get(..length).expect(&rt, "a front");
        for most in [1usize, 7, 1000] {
            let mut run = Run::new("listing", Engine::Encode(most == 7), front);
            run.place = length;
            run.most = most;
            run.breaks = true;
            let failed = Err(ToolFault::ReadFailed(Input::Number(1)));
            let _ = assert_run(&rt, rt.alloc(), run, failed, b"");
        }
    }
}

/// A writer fails after `room` octets of a text, at the flush if it took all of them.
fn assert_room(rt: &impl Abort, alloc: Global, run: Run<'_>, text: &[u8]) -> Seen {
    let room = run.room;
    let front = text.get(..room).expect(rt, "a front");
    let failed = Err(ToolFault::WriteFailed {
        written: room as u128,
    });
    assert_run(rt, alloc, run, failed, front)
}

/// The writer fails after each number of octets, and works if it has room for one more than all.
fn assert_each_room(
    rt: &impl Abort,
    alloc: Global,
    run: Run<'_>,
    counts: (u128, u128, u128),
    text: &[u8],
) {
    let mut run = run;
    for room in 0..=text.len() {
        run.room = room;
        run.place = room;
        let _ = assert_room(rt, alloc, run, text);
    }
    run.room = text.len().saturating_add(1);
    let _ = assert_run(rt, alloc, run, Ok(counts), text);
}

/// An engine, its input, the octets of a read and of a write, the counts and the output.
type Row = (
    Engine,
    &'static [Part<'static>],
    usize,
    usize,
    (u128, u128, u128),
    &'static [Part<'static>],
);

/// A listing octet by octet, its lines in parts; the lines of `check` of a stream in pieces; two
/// messages to encode, and one that is compressed.
const ROWS: [Row; 7] = [
    (
        Engine::Show,
        &[(ELEMENTS_ONLY, 1)],
        1000,
        1,
        (1, 0, 0),
        &[(LISTING, 1)],
    ),
    (
        Engine::Show,
        &[(COMPRESSED_PAIR, 1)],
        1000,
        1,
        (1, 0, 0),
        &[(COMPRESSED_PAIR_LISTING, 1)],
    ),
    (
        Engine::Show,
        &[(COMPRESSED_PAIR, 1)],
        1000,
        40,
        (1, 0, 0),
        &[(COMPRESSED_PAIR_LISTING, 1)],
    ),
    (
        Engine::Show,
        &[(COMPRESSED_PAIR, 1)],
        1000,
        10_000,
        (1, 0, 0),
        &[(COMPRESSED_PAIR_LISTING, 1)],
    ),
    (
        Engine::Check,
        TWO_FRAMES,
        50,
        3,
        (2, 0, 22),
        &[(CHECKED, 1)],
    ),
    (
        Engine::Encode(false),
        &[(LISTING, 1), (SEQUENCES_LISTING, 1)],
        1000,
        1,
        (2, 0, 0),
        &[(ELEMENTS_ONLY, 1), (SEQUENCES, 1)],
    ),
    (
        Engine::Encode(true),
        &[(PAIR_LISTING, 1)],
        1000,
        1,
        (1, 0, 0),
        &[(PAIR_COMPRESSED, 1)],
    ),
];

#[test]
fn failing_writers(rt: HostRuntime) {
    for (engine, octets, most, width, counts, text) in ROWS {
        let octets = joined(&rt, rt.alloc(), octets);
        let text = joined(&rt, rt.alloc(), text);
        let mut run = Run::new("writer", engine, &octets);
        run.most = most;
        run.width = width;
        assert_each_room(&rt, rt.alloc(), run, counts, &text);
    }
}

/// The rooms of a writer that fails within the first part of the listing, between the parts, within
/// the second, or with the last octet; the pieces that it takes whole, and the longest.
const ROOMS: [(usize, u32, usize); 4] = [
    (1000, 0, 0),
    (65_552, 1, 65_552),
    (65_652, 1, 65_552),
    (68_105, 1, 65_552),
];

/// A long listing, of 102 + 17 * 4000 + 4 octets, goes out in two parts: the first ends with the
/// 3,850th subset, whose lines make it longer than 65,535 octets: 102 + 17 * 3850 are 65,552.
#[test]
fn long_listing_in_two_parts(rt: HostRuntime) {
    let alloc = rt.alloc();
    let text = joined(&rt, alloc, &[(HEADING, 1), (SUBSET, 4000), (b"end\n", 1)]);
    same(&rt, text.len(), 68_106);
    let mut run = Run::new("long listing", Engine::Show, MANY_SUBSETS);
    let seen = assert_run(&rt, alloc, run, Ok((1, 0, 0)), &text);
    same(&rt, (seen.pieces, seen.longest), (2, 65_552));
    for (room, pieces, longest) in ROOMS {
        run.room = room;
        let seen = assert_room(&rt, alloc, run, &text);
        same(&rt, (seen.pieces, seen.longest), (pieces, longest));
    }
}

#[test]
fn short_listing_at_once(rt: HostRuntime) {
    let run = Run::new("short listing", Engine::Show, ELEMENTS_ONLY);
    let seen = assert_run(&rt, rt.alloc(), run, Ok((1, 0, 0)), LISTING);
    same(&rt, (seen.pieces, seen.longest), (1, 236));
}
