//! Streams of messages and listings, whole and in any pieces.

use super::samples::{
    CHECKED, ELEMENTS_ONLY, LISTING, PAIR_COMPRESSED, PAIR_LISTING, Part, TWO_FRAMES, joined,
};
use super::{Counted, Engine, Run, assert_run, same, same_in};
use bufr_listing::ListingFault;
use bufr_tool::{Input, ToolFault};
use std::alloc::Global;
use std::process::Abort;

/// The engine skips 16 MB of `BUFR`. Each read asks for 65,536 octets.
#[test]
fn bufr_without_end(rt: HostRuntime) {
    let alloc = rt.alloc();
    let octets = joined(&rt, alloc, &[(b"BUFR", 4_194_304)]);
    let mut run = Run::new("BUFR", Engine::Check, &octets);
    run.reads = 257;
    let text = b"frames 0 refused 0 skipped 16777216\n";
    let seen = assert_run(&rt, alloc, run, Ok((0, 0, 16_777_216)), text);
    same(&rt, (seen.asked, seen.reads), (65_536, 257));
}

/// Whether to compress, a listing, and its octets.
const LISTINGS: [(bool, &[u8], &[u8]); 2] = [
    (false, LISTING, ELEMENTS_ONLY),
    (true, PAIR_LISTING, PAIR_COMPRESSED),
];

/// Each read asks for 65,536 octets.
#[test]
fn listings_encoded(rt: HostRuntime) {
    for (compressed, listing, octets) in LISTINGS {
        let run = Run::new("listing", Engine::Encode(compressed), listing);
        let seen = assert_run(&rt, rt.alloc(), run, Ok((1, 0, 0)), octets);
        same(&rt, seen.asked, 65_536);
    }
}

/// Results: no end, a failed read, a listing without its end, no frame.
const ENDLESS: Counted = Err(ToolFault::EndlessInput(Input::Number(1)));

const READ_FAILED: Counted = Err(ToolFault::ReadFailed(Input::Number(1)));

const BAD_LINE: Counted = Err(ToolFault::Listing(ListingFault::BadLine(1)));

const NONE: Counted = Ok((0, 0, 0));

const TWO_THOUSAND: &[Part<'static>] = &[(b"B", 2000)];

const HUNDRED: &[Part<'static>] = &[(b"B", 100)];

const FOUR: &[Part<'static>] = &[(b"BBBB", 1)];

const THREE: &[Part<'static>] = &[(b"BBB", 1)];

const TWO: &[Part<'static>] = &[(b"BB", 1)];

/// An engine, the reads allowed, octets that come one a read, whether the reader then fails, the
/// result and the output. The engine returns an endless source after exactly the reads allowed,
/// reads a source that ends just in time, and keeps what it wrote before.
const DRIPPED: [(Engine, u32, &[Part<'static>], bool, Counted, &[u8]); 29] = [
    (Engine::Show, 4, HUNDRED, false, ENDLESS, b""),
    (Engine::Show, 4, FOUR, false, ENDLESS, b""),
    (Engine::Show, 4, THREE, false, NONE, b""),
    (Engine::Show, 4, TWO, true, READ_FAILED, b""),
    (Engine::Check, 4, HUNDRED, false, ENDLESS, b""),
    (Engine::Check, 4, FOUR, false, ENDLESS, b""),
    (Engine::Encode(false), 4, HUNDRED, false, ENDLESS, b""),
    (Engine::Encode(false), 4, FOUR, false, ENDLESS, b""),
    (Engine::Encode(false), 4, THREE, false, BAD_LINE, b""),
    (Engine::Encode(false), 4, &[], false, NONE, b""),
    (Engine::Encode(false), 4, TWO, true, READ_FAILED, b""),
    (Engine::Encode(false), 4, &[], true, READ_FAILED, b""),
    (Engine::Encode(false), 0, &[], false, ENDLESS, b""),
    (Engine::Encode(false), 0, TWO_THOUSAND, false, ENDLESS, b""),
    (Engine::Encode(false), 1, TWO_THOUSAND, false, ENDLESS, b""),
    (Engine::Encode(true), 0, TWO_THOUSAND, false, ENDLESS, b""),
    (Engine::Encode(true), 1, TWO_THOUSAND, false, ENDLESS, b""),
    (Engine::Encode(true), 1, &[], false, NONE, b""),
    (Engine::Show, 0, TWO_THOUSAND, false, ENDLESS, b""),
    (Engine::Show, 1, TWO_THOUSAND, false, ENDLESS, b""),
    (Engine::Show, 4, TWO_THOUSAND, false, ENDLESS, b""),
    (Engine::Show, 1000, TWO_THOUSAND, false, ENDLESS, b""),
    (Engine::Check, 0, TWO_THOUSAND, false, ENDLESS, b""),
    (Engine::Check, 1, TWO_THOUSAND, false, ENDLESS, b""),
    (Engine::Check, 4, TWO_THOUSAND, false, ENDLESS, b""),
    (Engine::Check, 1000, TWO_THOUSAND, false, ENDLESS, b""),
    (
        Engine::Check,
        4,
        THREE,
        false,
        Ok((0, 0, 3)),
        b"frames 0 refused 0 skipped 3\n",
    ),
    (
        Engine::Check,
        147,
        TWO_FRAMES,
        false,
        Ok((2, 0, 22)),
        CHECKED,
    ),
    (
        Engine::Check,
        100,
        TWO_FRAMES,
        false,
        ENDLESS,
        b"18 62 ok 1 0\n",
    ),
];

fn assert_dripped(
    rt: &impl Abort,
    alloc: Global,
    engine: Engine,
    reads: u32,
    octets: &[u8],
    breaks: bool,
    wanted: Counted,
    text: &[u8],
) {
    let mut run = Run::new("drips", engine, octets);
    run.place = octets.len();
    run.reads = reads;
    run.most = 1;
    run.breaks = breaks;
    let seen = assert_run(rt, alloc, run, wanted, text);
    let ended = (octets.len() as u64).saturating_add(1);
    same_in(rt, seen.reads, ended.min(u64::from(reads)), run);
}

#[test]
fn endless_and_failing_readers(rt: HostRuntime) {
    let alloc = rt.alloc();
    for (engine, reads, parts, breaks, wanted, text) in DRIPPED {
        let octets = joined(&rt, alloc, parts);
        assert_dripped(&rt, alloc, engine, reads, &octets, breaks, wanted, text);
    }
}

/// The stream gives the same lines wherever a test cuts it into two pieces.
#[test]
fn two_frames_and_a_stray_in_any_pieces(rt: HostRuntime) {
    let octets = joined(&rt, rt.alloc(), TWO_FRAMES);
    for cut in 0usize..147 {
        let mut run = Run::new("cut", Engine::Check, &octets);
        run.cut = cut;
        run.place = cut;
        let _ = assert_run(&rt, rt.alloc(), run, Ok((2, 0, 22)), CHECKED);
    }
}
