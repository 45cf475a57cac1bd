//! Takes in a piece up to the next sure frame.
ghost use Rattle.std.specs.Prelude.{◌≡◌, ℕ, ◌+◌, ◌-◌, ◌<◌, ◌≤◌, ◌^◌, [], length, drop, false, IfOk, OnErr};
ghost use Rattle.bufr_frame.specs.declared.places.TheConstants.{LONGEST};
ghost use Rattle.bufr_frame.specs.Starts.{agrees, bufr, start_of};
ghost use Rattle.bufr_frame.specs.Reaches.{Extends, KeepsMore, Reaches, HandsOver};

use crate::frames::Found;
use crate::held::let_go;
use crate::places::{HEAD, MARK, Start, agrees, missing, start_of};
use crate::scans::{next_mark, next_start};
use bufr_base::OutOfMemory;
use memchr::memmem::Finder;

/// A stop: where the next sure frame begins.
#[derive(Clone, Copy)]
pub(crate) enum Stop {
    /// At the start of the octets held, with this length.
    Held(usize),
    /// In the rest of the piece, after a number of octets and with a length. Nothing is held.
    Piece(usize, usize),
    /// Nowhere yet, and nothing is left of the piece.
    Nowhere,
}

/// A reach into a piece.
#[derive(Clone, Copy)]
pub(crate) struct Reached {
    /// The index of the first octet held.
    pub(crate) from: usize,
    /// The number of octets of the piece taken in.
    pub(crate) taken: usize,
    pub(crate) stop: Stop,
}

/// A frame handed out, or none, and how far the call came.
#[derive(Drop)]
pub(crate) struct Handed {
    pub(crate) found: Option<Found>,
    pub(crate) from: usize,
    pub(crate) taken: usize,
}

/// A step into the rest of a piece.
#[derive(Clone, Copy)]
enum More {
    /// Found a frame, after a number of octets and with a length.
    InRest(usize, usize),
    /// Took in a number of octets.
    Octets(usize),
}

/// Finds the frame at the next mark of `rest`, or keeps just enough to read its length.
fn begin(octets: &mut Vec<u8>, finder: &Finder<'_>, rest: &[u8]) -> Result<More, OutOfMemory>
    requires mark { finder.now ≡ bufr }
    requires some { 1 ≤ length rest.now }
    ensures same { OnErr result (octets.new.items ≡ octets.old.items) }
    ensures more { IfOk result (λ more.
        KeepsMore [] octets.old.items octets.new.items rest.now more) }
{
    let skip = next_mark(finder, rest, 0);
    let left = &rest[skip..];
    if let Start::Frame(length) = start_of(left) {
        return Ok(More::InRest(skip, length));
    }
    let more = left.len().min(HEAD);
    octets.extend_from_slice(&left[..more])?;
    Ok(More::Octets(skip + more))
}

/// Keeps just enough of `rest` to decide the open place at `from`.
fn go_on(octets: &mut Vec<u8>, from: usize, rest: &[u8]) -> Result<More, OutOfMemory>
    requires within { from ≤ length octets.old.items }
    requires waits { start_of (drop from octets.old.items) ≡ Start.Open }
    requires some { 1 ≤ length rest.now }
    ensures same { OnErr result (octets.new.items ≡ octets.old.items) }
    ensures more { IfOk result (λ more.
        KeepsMore (drop from octets.old.items) octets.old.items octets.new.items rest.now more) }
{
    let more = rest.len().min(missing(&octets[from..]));
    octets.extend_from_slice(&rest[..more])?;
    Ok(More::Octets(more))
}

/// Buffers just enough of `rest` to decide what starts at `from`.
fn keep_more(
    octets: &mut Vec<u8>,
    from: usize,
    finder: &Finder<'_>,
    rest: &[u8],
) -> Result<More, OutOfMemory>
    requires mark { finder.now ≡ bufr }
    requires within { from ≤ length octets.old.items }
    requires waits { start_of (drop from octets.old.items) ≡ Start.Open }
    requires some { 1 ≤ length rest.now }
    ensures same { OnErr result (octets.new.items ≡ octets.old.items) }
    ensures more { IfOk result (λ more.
        KeepsMore (drop from octets.old.items) octets.old.items octets.new.items rest.now more) }
{
    if from == octets.len() {
        begin(octets, finder, rest)
    } else {
        go_on(octets, from, rest)
    }
}

/// Takes in the piece until the next frame is sure or nothing is left.
fn reach(octets: &mut Vec<u8>, from: usize, piece: &[u8]) -> Result<Reached, OutOfMemory>
    requires within { from ≤ length octets.old.items }
    requires short { length (drop from octets.old.items) ≤ LONGEST }
    ensures kept { Extends octets.old.items octets.new.items }
    ensures reached { IfOk result (λ reached.
        Reaches (drop from octets.old.items) octets.new.items piece.now reached) }
{
    let finder = Finder::new(MARK);
    let mut start = from;
    let mut taken = 0;
    let stop = loop {
        match start_of(&octets[start..]) {
            Start::Frame(length) => break Stop::Held(length),
            Start::Other => start = next_mark(&finder, octets, start + 1),
            Start::Open => {
                let rest = &piece[taken..];
                if rest.is_empty() {
                    break Stop::Nowhere;
                }
                match keep_more(octets, start, &finder, rest)? {
                    More::InRest(skip, length) => break Stop::Piece(skip, length),
                    More::Octets(more) => taken += more,
                }
            }
        }
    };
    Ok(Reached {
        from: start,
        taken,
        stop,
    })
}

/// How far `near_mark` searches, in octets.
const NEAR: usize = 256;

/// Returns the place of the first mark if it is near, else a place with no mark before it.
pub(crate) fn near_mark(piece: &[u8]) -> usize
    ensures within { result ≤ length piece.now }
    ensures others { (k : ℕ) → k < result → agrees (drop k piece.now) bufr ≡ false }
{
    if agrees(piece, MARK) {
        return 0;
    }
    let near = &piece[..piece.len().min(NEAR)];
    next_mark(&Finder::new(MARK), near, 0)
}

/// Takes in the piece up to the next sure frame, and copies it out.
pub(crate) fn reach_and_copy(
    octets: &mut Vec<u8>,
    from: usize,
    fed: u64,
    piece: &[u8],
) -> Result<Handed, OutOfMemory>
    requires within { from ≤ length octets.old.items }
    requires short { length (drop from octets.old.items) ≤ LONGEST }
    requires taken { length (drop from octets.old.items) ≤ fed }
    requires room { fed + length piece.now < 2 ^ 64 }
    ensures kept { OnErr result (Extends octets.old.items octets.new.items) }
    ensures taken { IfOk result (λ taking.
        HandsOver fed (drop from octets.old.items) octets.new.items piece.now taking) }
{
    let alloc = *octets.allocator();
    let Reached { from, taken, stop } = reach(octets, from, piece)?;
    match stop {
        Stop::Held(length) => {
            let place = fed + taken as u64 - (octets.len() - from) as u64;
            let end = from + length;
            let found = Found::copied(alloc, place, &octets[from..end])?;
            let finder = Finder::new(MARK);
            let next = next_start(&finder, false, octets, end);
            let from = let_go(octets, next.place);
            let found = Some(found);
            Ok(Handed { found, from, taken })
        }
        Stop::Piece(skip, length) => {
            let begins = taken + skip;
            let taken = begins + length;
            let found = Found::copied(alloc, fed + begins as u64, &piece[begins..taken])?;
            let from = let_go(octets, from);
            let found = Some(found);
            Ok(Handed { found, from, taken })
        }
        Stop::Nowhere => {
            let from = let_go(octets, from);
            let found = None;
            Ok(Handed { found, from, taken })
        }
    }
}
