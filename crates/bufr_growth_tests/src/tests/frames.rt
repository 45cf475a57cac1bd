ghost use Rattle.std.specs.Prelude.{◌+◌, ◌<◌, ◌^◌, length};

use crate::tests::refusals::repeated;
use crate::tests::same;
use crate::tests::samples::SEQUENCES;
use bufr_frame::{Found, Framer};
use std::alloc::Global;
use std::process::Abort;

/// A stray `BUFR`, open until the end, and then a message, in three pieces.
const HEADING: &[u8] = b"heading BUFR";

type Frame<'a> = (u64, &'a [u8]);

fn assert_found(rt: &impl Abort, found: &[Found], places: &[u64]) {
    same(rt, found.len(), places.len());
    for (frame, place) in found.iter().zip(places) {
        let wanted: Frame<'_> = (*place, SEQUENCES);
        same(rt, (frame.place, frame.bytes.as_slice()), wanted);
    }
}

fn standing(framer: &Framer) -> (u64, usize) {
    (framer.fed(), framer.pending())
}

/// The framer's octets before a piece.
fn before(rt: &impl Abort, framer: &Framer, piece: &[u8]) -> (u64, usize)
    ensures { framer.now.fed + length piece.now < 2 ^ 64 }
{
    assert!(rt; framer.fed() <= 1_000_000);
    assert!(rt; piece.len() <= 1000);
    standing(framer)
}

/// A piece brings the message at these places; a refusal changes nothing.
fn feed(rt: &impl Abort, framer: &mut Framer, piece: &[u8], places: &[u64]) {
    let had = before(rt, framer, piece);
    let found = repeated!(rt, framer.feed(piece), same(rt, standing(framer), had));
    assert_found(rt, &found, places);
}

/// The stream's end brings the message at these places; a refusal changes nothing.
fn end(rt: &impl Abort, framer: &mut Framer, places: &[u64]) {
    let had = standing(framer);
    let found = repeated!(rt, framer.finish(), same(rt, standing(framer), had));
    same(rt, standing(framer), (0, 0));
    assert_found(rt, &found, places);
}

/// The message comes out at once. After the heading, in two pieces, it is open until the end.
fn take_in(rt: &impl Abort, alloc: Global) {
    let mut framer = Framer::new(alloc);
    feed(rt, &mut framer, SEQUENCES, &[0]);
    for piece in [HEADING, &SEQUENCES[..40], &SEQUENCES[40..]] {
        feed(rt, &mut framer, piece, &[]);
    }
    same(rt, framer.fed(), 136);
    end(rt, &mut framer, &[74]);
}

#[test]
fn pieces_taken_in(rt: HostRuntime) {
    take_in(&rt, rt.alloc());
}

fn parts_of(found: &Option<Found>) -> Option<Frame<'_>> {
    match found {
        Some(frame) => Some((frame.place, frame.bytes.as_slice())),
        None => None,
    }
}

/// The framer takes all of a piece, and hands out this frame or none; a refusal changes nothing.
fn take(rt: &impl Abort, framer: &mut Framer, piece: &[u8], wanted: Option<Frame<'_>>) {
    let had = before(rt, framer, piece);
    let taken = repeated!(rt, framer.take_next(piece), same(rt, standing(framer), had));
    same(rt, parts_of(&taken.found), wanted);
    same(rt, taken.rest.len(), 0);
}

fn take_one_by_one(rt: &impl Abort, alloc: Global) {
    let pieces = [
        (&SEQUENCES[..40], None),
        (&SEQUENCES[40..], Some((0, SEQUENCES))),
        (SEQUENCES, Some((62, SEQUENCES))),
        (HEADING, None),
        (SEQUENCES, None),
    ];
    let mut framer = Framer::new(alloc);
    for (piece, wanted) in pieces {
        take(rt, &mut framer, piece, wanted);
    }
    end(rt, &mut framer, &[136]);
}

#[test]
fn frames_taken_one_by_one(rt: HostRuntime) {
    take_one_by_one(&rt, rt.alloc());
}
