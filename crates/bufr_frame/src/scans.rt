//! Scans octets for frames.
ghost use Rattle.std.specs.Prelude.{◌≡◌, ℕ, ◌+◌, ◌<◌, ◌≤◌, ◌^◌};
ghost use Rattle.std.specs.Prelude.{None, false, true, length, drop, IfOk, IfSome};
ghost use Rattle.bufr_frame.specs.declared.places.TheConstants.{LONGEST};
ghost use Rattle.bufr_frame.specs.Starts.{agrees, bufr, start_of};
ghost use Rattle.bufr_frame.specs.Streams.{frames_from, rest_from};

use crate::frames::Found;
use crate::places::{MARK, Start, agrees, start_of};
use bufr_base::OutOfMemory;
use memchr::memmem::Finder;
use std::alloc::Global;

/// A result of a scan: the frames in order, and the index of the first octet to hold.
#[derive(Drop)]
pub(crate) struct Scan {
    pub(crate) frames: Vec<Found>,
    pub(crate) rest: usize,
}

/// A next start: a frame, or an open place without a length.
#[derive(Clone, Copy)]
pub(crate) struct NextStart {
    pub(crate) place: usize,
    pub(crate) length: Option<usize>,
}

/// Returns the first place from `from` on with a mark, whole or cut by the end; else the end.
pub(crate) fn next_mark(finder: &Finder<'_>, octets: &[u8], from: usize) -> usize
    requires mark { finder.now ≡ bufr }
    requires within { from ≤ length octets.now }
    ensures after { from ≤ result }
    ensures within { result ≤ length octets.now }
    ensures mark { result < length octets.now → agrees (drop result octets.now) bufr ≡ true }
    ensures others { (k : ℕ) → from ≤ k → k < result
        → agrees (drop k octets.now) bufr ≡ false }
{
    let rest = &octets[from..];
    if let Some(further) = finder.find(rest) {
        return from + further;
    }
    for place in octets.len() - rest.len().min(MARK.len() - 1)..octets.len() {
        if agrees(&octets[place..], MARK) {
            return place;
        }
    }
    octets.len()
}

/// Returns the first place from `from` on with a frame, or an open one before the stream's end;
/// else the end.
pub(crate) fn next_start(finder: &Finder<'_>, ended: bool, octets: &[u8], from: usize) -> NextStart
    requires mark { finder.now ≡ bufr }
    requires within { from ≤ length octets.now }
    ensures after { from ≤ result.place }
    ensures within { result.place ≤ length octets.now }
    ensures frames { (place : ℕ) → frames_from ended (place + from) 0 (drop from octets.now)
        ≡ frames_from ended (place + result.place) 0 (drop result.place octets.now) }
    ensures rest { ended ≡ false → (n : ℕ) → rest_from n 0 (drop from octets.now)
        ≡ rest_from n 0 (drop result.place octets.now) }
    ensures frame { IfSome result.length (λ l.
        start_of (drop result.place octets.now) ≡ Start.Frame l) }
    ensures open { result.length ≡ None → start_of (drop result.place octets.now) ≡ Start.Open }
    ensures short { result.length ≡ None
        → length (drop result.place octets.now) < LONGEST }
    ensures all { result.length ≡ None → ended ≡ true → result.place ≡ length octets.now }
{
    let mut here = from;
    while here < octets.len() {
        match start_of(&octets[here..]) {
            Start::Frame(length) => {
                return NextStart {
                    place: here,
                    length: Some(length),
                };
            }
            Start::Open => {
                if !ended {
                    break;
                }
                here += 1;
            }
            Start::Other => here = next_mark(finder, octets, here + 1),
        }
    }
    NextStart {
        place: here,
        length: None,
    }
}

/// Finds the frames of octets after `place` octets of the stream; if it goes on, up to the first
/// open place.
pub(crate) fn frames_in(
    alloc: Global,
    ended: bool,
    place: u64,
    octets: &[u8],
) -> Result<Scan, OutOfMemory>
    requires { place + length octets.now < 2 ^ 64 }
    ensures frames { IfOk result (λ scan.
        scan.frames.items ≡ frames_from ended place 0 octets.now) }
    ensures rest { ended ≡ false → IfOk result (λ scan.
        drop scan.rest octets.now ≡ rest_from (length scan.frames.items) 0 octets.now) }
    ensures within { IfOk result (λ scan. scan.rest ≤ length octets.now) }
    ensures short { ended ≡ false
        → IfOk result (λ scan. length (drop scan.rest octets.now) < LONGEST) }
{
    let finder = Finder::new(MARK);
    let mut frames = Vec::new(alloc);
    let mut next = next_start(&finder, ended, octets, 0);
    while let Some(length) = next.length {
        let end = next.place + length;
        let frame = &octets[next.place..end];
        frames.push(Found::copied(alloc, place + next.place as u64, frame)?)?;
        next = next_start(&finder, ended, octets, end);
    }
    Ok(Scan {
        frames,
        rest: next.place,
    })
}
