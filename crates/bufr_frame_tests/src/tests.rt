//! Streams: their frames, and what a framer holds.

use bufr_frame::{Found, Framer, Taken, frames_of_pieces};
use std::alloc::Global;
use std::fmt::Debug;
use std::process::Abort;

/// A message of 62 octets: station, date and temperature by sequences.
const SEQUENCES: &[u8] = b"BUFR\x00\x00\x3E\x04\
\x00\x00\x16\x00\x00\x62\x00\x00\x00\x00\x00\x02\x00\x25\x00\x07\xE8\x01\x0F\x0C\x00\x00\
\x00\x00\x0F\x00\x00\x01\x80\xC1\x01\xC1\x0B\xC1\x0C\x0C\x65\
\x00\x00\x0D\x00\x14\xC0\x3F\x40\x9E\xC0\x1A\xAC\xC0\
7777";

/// A message of 52 octets: a delayed replication of count 0.
const DELAYED_COUNT: &[u8] = b"BUFR\x00\x00\x34\x04\
\x00\x00\x16\x00\x00\x62\x00\x00\x00\x00\x00\x02\x00\x25\x00\x07\xE8\x01\x0F\x0C\x00\x00\
\x00\x00\x0D\x00\x00\x01\x80\x41\x00\x1F\x01\x0C\x65\
\x00\x00\x05\x00\x00\
7777";

/// The octets before the text of a message of 99 octets.
const BEFORE_TEXT: &[u8] = b"BUFR\x00\x00\x63\x04\
\x00\x00\x16\x00\x00\x62\x00\x00\x00\x00\x00\x02\x00\x25\x00\x07\xE8\x01\x0F\x0C\x00\x00\
\x00\x00\x09\x00\x00\x01\x80\x85\x34\
\x00\x00\x38\x00";

/// `BEFORE_TEXT`, with `DELAYED_COUNT` as its text.
const WITH_TEXT: &[u8] = b"BUFR\x00\x00\x63\x04\
\x00\x00\x16\x00\x00\x62\x00\x00\x00\x00\x00\x02\x00\x25\x00\x07\xE8\x01\x0F\x0C\x00\x00\
\x00\x00\x09\x00\x00\x01\x80\x85\x34\
\x00\x00\x38\x00\
BUFR\x00\x00\x34\x04\
\x00\x00\x16\x00\x00\x62\x00\x00\x00\x00\x00\x02\x00\x25\x00\x07\xE8\x01\x0F\x0C\x00\x00\
\x00\x00\x0D\x00\x00\x01\x80\x41\x00\x1F\x01\x0C\x65\
\x00\x00\x05\x00\x00\
7777\
7777";

/// `SEQUENCES` with a total length of 63.
const TOTAL_63: &[u8] = b"BUFR\x00\x00\x3F\x04\
\x00\x00\x16\x00\x00\x62\x00\x00\x00\x00\x00\x02\x00\x25\x00\x07\xE8\x01\x0F\x0C\x00\x00\
\x00\x00\x0F\x00\x00\x01\x80\xC1\x01\xC1\x0B\xC1\x0C\x0C\x65\
\x00\x00\x0D\x00\x14\xC0\x3F\x40\x9E\xC0\x1A\xAC\xC0\
7777";

/// A frame of 12 octets inside one of 22 that octet 21 rules out.
const OUTER: &[u8] = b"BUFR\x00\x00\x16\x04BUFR\x00\x00\x0C\x047777";

const INNER: &[u8] = b"BUFR\x00\x00\x0C\x047777";

/// Stops the test if the two differ. Inline it would lengthen the proof.
fn same<T: PartialEq + Debug + Drop>(rt: &impl Abort, found: T, wanted: T) {
    assert_eq!(rt; found, wanted);
}

fn joined(rt: &impl Abort, alloc: Global, parts: &[&[u8]]) -> Vec<u8> {
    let mut all = Vec::new(alloc);
    for part in parts {
        all.extend_from_slice(*part).expect(rt, "room");
    }
    all
}

/// The place of a frame, and its octets.
type Frame<'a> = (u64, &'a [u8]);

fn assert_found(rt: &impl Abort, found: &[Found], wanted: &[Frame<'_>]) {
    same(rt, found.len(), wanted.len());
    for (frame, row) in found.iter().zip(wanted) {
        same(rt, (frame.place, frame.bytes.as_slice()), *row);
    }
}

fn assert_state(rt: &impl Abort, framer: &Framer, fed: usize, pending: usize) {
    same(rt, (framer.fed(), framer.pending()), (fed as u64, pending));
}

/// A call that takes in a piece.
#[derive(Clone, Copy, Debug)]
enum Way {
    Feed,
    TakeNext,
}

const WAYS: [Way; 2] = [Way::Feed, Way::TakeNext];

/// Takes in a piece up to its first frame, and checks the counts.
fn take<'p>(rt: &impl Abort, framer: &mut Framer, piece: &'p [u8]) -> Taken<'p> {
    let before = framer.fed();
    assert!(rt; before <= u64::MAX - piece.len() as u64);
    let taken = framer.take_next(piece).expect(rt, "room");
    let left = taken.rest.len() as u128;
    let all = before as u128 + piece.len() as u128;
    same(rt, framer.fed() as u128 + left, all);
    assert!(rt; framer.pending() <= 16_777_215);
    taken
}

fn take_all(rt: &impl Abort, alloc: Global, framer: &mut Framer, piece: &[u8]) -> Vec<Found> {
    let mut all = Vec::new(alloc);
    let mut rest = piece;
    for _ in 0..1_000_000 {
        let taken = take(rt, framer, rest);
        rest = taken.rest;
        match taken.found {
            Some(frame) => all.push(frame).expect(rt, "room"),
            None => {
                assert!(rt; rest.is_empty());
                return all;
            }
        }
    }
    panic!(rt; "no end of frames")
}

fn give(rt: &impl Abort, alloc: Global, way: Way, framer: &mut Framer, piece: &[u8]) -> Vec<Found> {
    assert!(rt; framer.fed() <= u64::MAX - piece.len() as u64);
    match way {
        Way::Feed => framer.feed(piece).expect(rt, "room"),
        Way::TakeNext => take_all(rt, alloc, framer, piece),
    }
}

/// The end of the stream hands out these frames, and leaves nothing.
fn assert_end(rt: &impl Abort, framer: &mut Framer, wanted: &[Frame<'_>]) {
    let last = framer.finish().expect(rt, "room");
    assert_found(rt, &last, wanted);
    assert_state(rt, framer, 0, 0);
}

/// After a step: the octets fed, the frames handed out, and the octets pending.
type Step = (usize, usize, usize);

/// The parts of a stream, its frames, and steps to its end.
type Row<'a> = (&'a [&'a [u8]], &'a [Frame<'a>], &'a [Step]);

const ROWS: &[Row<'static>] = &[
    // two frames and a stray: at once, in two pieces, and in more
    (
        &[b"ISMD01 EDZW 151200", SEQUENCES, b"BUFR", SEQUENCES],
        &[(18, SEQUENCES), (84, SEQUENCES)],
        &[(146, 1, 66)],
    ),
    (
        &[b"ISMD01 EDZW 151200", SEQUENCES, b"BUFR", SEQUENCES],
        &[(18, SEQUENCES), (84, SEQUENCES)],
        &[(30, 0, 12), (146, 1, 66)],
    ),
    (
        &[b"ISMD01 EDZW 151200", SEQUENCES, b"BUFR", SEQUENCES],
        &[(18, SEQUENCES), (84, SEQUENCES)],
        &[
            (20, 0, 2),
            (79, 0, 61),
            (80, 1, 0),
            (82, 1, 2),
            (145, 1, 65),
            (146, 1, 66),
        ],
    ),
    // a message in character data, whole and cut off
    (
        &[BEFORE_TEXT, DELAYED_COUNT, b"7777"],
        &[(0, WITH_TEXT)],
        &[(99, 1, 0)],
    ),
    (
        &[BEFORE_TEXT, DELAYED_COUNT, b"777"],
        &[(43, DELAYED_COUNT)],
        &[(98, 0, 98)],
    ),
    // octet 21 rules the outer frame out, and the inner one is there
    (&[OUTER, b"\x00"], &[(8, INNER)], &[(20, 0, 20), (21, 1, 0)]),
    // a total one too large, one below 12, and one of 12
    (&[TOTAL_63], &[], &[(62, 0, 62)]),
    (&[b"BUFR\x00\x00\x0B7777"], &[], &[(11, 0, 0)]),
    (&[INNER], &[(0, INNER)], &[(12, 1, 0)]),
    // another mark, and another end
    (&[b"bufr\x00\x00\x0C\x047777"], &[], &[(12, 0, 0)]),
    (&[b"BUFR\x00\x00\x0C\x047778"], &[], &[(12, 0, 0)]),
    // frames held after one that is ruled out
    (
        &[b"BUFR\x00\x00\x24\x04", INNER, INNER, b"8"],
        &[(8, INNER), (20, INNER)],
        &[(32, 0, 32), (33, 2, 0)],
    ),
    // a length that is too small after six octets, and a frame after a mark in two pieces
    (
        &[
            b"77BUFR\x00\x00",
            b"\x0B",
            b"7BUF",
            b"R\x00\x00\x0C\x047777B",
        ],
        &[(10, INNER)],
        &[(8, 0, 6), (9, 0, 0), (13, 0, 3), (23, 1, 1)],
    ),
];

fn part<'a, T>(rt: &impl Abort, list: &'a [T], from: usize, to: usize) -> &'a [T] {
    assert!(rt; from <= to && to <= list.len());
    &list[from..to]
}

/// A piece has these frames, and leaves the framer as in `step`.
fn assert_step(
    rt: &impl Abort,
    alloc: Global,
    way: Way,
    framer: &mut Framer,
    piece: &[u8],
    wanted: &[Frame<'_>],
    step: Step,
) {
    let found = give(rt, alloc, way, framer, piece);
    assert_found(rt, &found, wanted);
    assert_state(rt, framer, step.0, step.2);
}

/// The stream has these frames, and leaves the framer as in each step.
fn assert_steps(
    rt: &impl Abort,
    alloc: Global,
    way: Way,
    stream: &[u8],
    frames: &[Frame<'_>],
    steps: &[Step],
) {
    let mut framer = Framer::new(alloc);
    let mut before: Step = (0, 0, 0);
    for step in steps {
        let piece = part(rt, stream, before.0, step.0);
        let wanted = part(rt, frames, before.1, step.1);
        assert_step(rt, alloc, way, &mut framer, piece, wanted, *step);
        before = *step;
    }
    same(rt, before.0, stream.len());
    assert_end(rt, &mut framer, part(rt, frames, before.1, frames.len()));
}

#[test]
fn streams(rt: HostRuntime) {
    for (parts, frames, steps) in ROWS {
        let stream = joined(&rt, rt.alloc(), parts);
        for way in WAYS {
            assert_steps(&rt, rt.alloc(), way, &stream, frames, steps);
        }
    }
}

/// Two frames and a stray: the first is sure with octet 80, the second at the end alone.
const STRAY: &[&[u8]] = &[b"ISMD01 EDZW 151200", SEQUENCES, b"BUFR", SEQUENCES];

const FIRST: &[Frame<'static>] = &[(18, SEQUENCES)];

/// A piece of `STRAY` has the first frame exactly if its octet 80 is in it.
fn feed_stray(rt: &impl Abort, alloc: Global, framer: &mut Framer, piece: &[u8]) {
    let before = framer.fed();
    let found = give(rt, alloc, Way::Feed, framer, piece);
    let count = if before < 80 && framer.fed() >= 80 {
        1
    } else {
        0
    };
    assert_found(rt, &found, part(rt, FIRST, 0, count));
}

/// `STRAY` in two pieces, and in pieces of one octet.
#[test]
fn two_frames_and_a_stray_in_any_pieces(rt: HostRuntime) {
    let alloc = rt.alloc();
    let stream = joined(&rt, alloc, STRAY);
    for cut in 0usize..147 {
        let mut framer = Framer::new(alloc);
        feed_stray(&rt, alloc, &mut framer, part(&rt, &stream, 0, cut));
        feed_stray(&rt, alloc, &mut framer, part(&rt, &stream, cut, 146));
        assert_end(&rt, &mut framer, &[(84, SEQUENCES)]);
    }
    let mut framer = Framer::new(alloc);
    for octet in stream.chunks(1) {
        feed_stray(&rt, alloc, &mut framer, octet);
    }
    assert_end(&rt, &mut framer, &[(84, SEQUENCES)]);
}

/// 16,777,216 octets of `BUFR`, in pieces of 65,536. Each announces 4,347,206 octets, so it is ruled out
/// by the octet after 4,347,202 of its own: of those that are not, the first has 4,347,200 octets.
#[test]
fn bufr_without_end(rt: HostRuntime) {
    let alloc = rt.alloc();
    let mut piece = Vec::new(alloc);
    for _ in 0..16_384 {
        piece.extend_from_slice(b"BUFR").expect(&rt, "room");
    }
    let mut framer = Framer::new(alloc);
    for turn in 1usize..257 {
        let found = give(&rt, alloc, Way::Feed, &mut framer, &piece);
        assert_found(&rt, &found, &[]);
        let fed = 65_536 * turn;
        assert_state(&rt, &framer, fed, fed.min(4_347_200));
    }
    assert_end(&rt, &mut framer, &[]);
}

/// Returns 12,500 bulletins of one message each, and a frame inside one without an end.
fn many_bulletins(rt: &impl Abort, alloc: Global) -> Vec<u8> {
    let mut stream = Vec::new(alloc);
    for _ in 0..12_500 {
        stream
            .extend_from_slice(b"\r\r\nISMD01 EDZW 151200\r\r\n")
            .expect(rt, "room");
        stream.extend_from_slice(SEQUENCES).expect(rt, "room");
    }
    stream.extend_from_slice(OUTER).expect(rt, "room");
    same(rt, stream.len(), 1_075_020);
    stream
}

/// The frames are the next after `before` bulletins. Returns the new count.
fn count_bulletins(rt: &impl Abort, frames: &[Found], before: u64) -> u64 {
    let mut count = before;
    for frame in frames {
        assert!(rt; count < 12_500);
        same(
            rt,
            (frame.place, frame.bytes.as_slice()),
            (86 * count + 24, SEQUENCES),
        );
        count += 1;
    }
    count
}

fn assert_bulletins(rt: &impl Abort, alloc: Global, way: Way, stream: &[u8]) {
    let mut framer = Framer::new(alloc);
    let mut count = 0;
    for piece in stream.chunks(65_536) {
        let frames = give(rt, alloc, way, &mut framer, piece);
        count = count_bulletins(rt, &frames, count);
        let pending = (framer.fed() % 86).saturating_sub(24);
        assert!(rt; framer.fed() == 1_075_020 || framer.pending() as u64 == pending);
    }
    same(rt, (count, framer.pending()), (12_500, 20));
    assert_end(rt, &mut framer, &[(1_075_008, INNER)]);
}

fn assert_at_once(rt: &impl Abort, alloc: Global, stream: &[u8]) {
    assert!(rt; stream.len() == 1_075_020);
    let (front, back) = stream.split_at(500_000);
    let mut frames = frames_of_pieces(alloc, &[front, back]).expect(rt, "room");
    assert!(rt; frames.len() == 12_501);
    let last = frames.pop();
    same(rt, last.is_some(), true);
    same(rt, count_bulletins(rt, &frames, 0), 12_500);
}

#[test]
fn many_messages_in_large_pieces(rt: HostRuntime) {
    let stream = many_bulletins(&rt, rt.alloc());
    for way in WAYS {
        assert_bulletins(&rt, rt.alloc(), way, &stream);
    }
    assert_at_once(&rt, rt.alloc(), &stream);
}
