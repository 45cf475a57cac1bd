//! Every growth refused in turn to the engines, over fresh devices. Run as they are, no growth is
//! refused; `tests/refuse-each-growth` runs each test of this file once for each of its growths, which
//! then fails.

use super::devices::{Reader, Writer};
use super::samples::{
    ARCHIVE, COMPRESSED_PAIR, COMPRESSED_PAIR_LISTING, PAIR_COMPRESSED, PAIR_LISTING, SEQUENCES,
    SEQUENCES_LISTING, TABLE_B, TABLE_D, TEXT, TEXT_LISTING,
};
use super::{Engine, same};
use bufr_tables::{TableB, TableD, Tables};
use bufr_tool::{
    Tally, ToolFault, load_tables, run_add, run_check, run_encode, run_merge, run_show,
};
use std::alloc::Global;
use std::process::Abort;

/// Makes a call, and makes it again if it is refused.
macro_rules! again {
    ($rt:expr, $call:expr) => {
        match $call {
            Ok(answer) => answer,
            Err(_) => $call.expect($rt, "what no longer is refused"),
        }
    };
}

/// More octets than are read or written.
const ROOM: usize = 4096;

/// Returns a list that takes no memory while it is filled.
fn list_with_room(rt: &impl Abort, alloc: Global) -> Vec<u8> {
    again!(rt, Vec::with_capacity(alloc, ROOM))
}

/// Returns two texts, one after the other.
fn joined(rt: &impl Abort, alloc: Global, first: &[u8], second: &[u8]) -> Vec<u8> {
    let mut all = list_with_room(rt, alloc);
    all.extend_from_slice(first).expect(rt, "room");
    all.extend_from_slice(second).expect(rt, "room");
    all
}

fn tables(rt: &impl Abort, alloc: Global) -> Tables {
    let b = again!(rt, TableB::parse(alloc, TABLE_B));
    let d = again!(rt, TableD::parse(alloc, TABLE_D));
    Tables::new(b, d)
}

fn tally(frames: u128, reports: u128) -> Tally {
    Tally {
        frames,
        refused: 0,
        skipped: 0,
        reports,
    }
}

/// Runs an engine on fresh devices, which give fifty octets a read. Returns the answer and what was
/// written.
fn printed(
    rt: &impl Abort,
    alloc: Global,
    tables: &Tables,
    engine: Engine,
    input: &[u8],
) -> (Result<Tally, ToolFault>, Vec<u8>) {
    let mut reader = Reader::new(input, 0, 50, false);
    let mut writer = Writer::over(list_with_room(rt, alloc), ROOM, ROOM);
    let answer = match engine {
        Engine::Show => run_show(alloc, 1000, tables, &mut reader, &mut writer),
        Engine::Check => run_check(alloc, 1000, tables, &mut reader, &mut writer),
        Engine::Encode(compressed) => {
            run_encode(alloc, 1000, tables, compressed, &mut reader, &mut writer)
        }
    };
    (answer, writer.taken)
}

/// What was written is the front of a text: whole lines, or nothing if the engine writes octets.
fn assert_front(rt: &impl Abort, engine: Engine, written: &[u8], text: &[u8]) {
    same(rt, Some(written), text.get(..written.len()));
    let by_lines = matches!(engine, Engine::Show | Engine::Check) && written.ends_with(b"\n");
    same(rt, written.is_empty() || by_lines, true);
}

/// An engine writes this of `frames` frames. If memory runs out, it has written a front, and writes
/// all when it is run again.
fn assert_printed(
    rt: &impl Abort,
    alloc: Global,
    tables: &Tables,
    engine: Engine,
    input: &[u8],
    frames: u128,
    text: &[u8],
) {
    let (answer, written) = printed(rt, alloc, tables, engine, input);
    match answer {
        Ok(found) => {
            same(rt, found, tally(frames, 0));
            same(rt, written.as_slice(), text);
        }
        Err(fault) => {
            same(rt, fault, ToolFault::OutOfMemory);
            assert_front(rt, engine, &written, text);
            let (answer, written) = printed(rt, alloc, tables, engine, input);
            same(rt, answer, Ok(tally(frames, 0)));
            same(rt, written.as_slice(), text);
        }
    }
}

/// Two messages shown and checked, and one shown with a line longer than all lines before it.
#[test]
fn frames_with_each_growth_refused(rt: HostRuntime) {
    let alloc = rt.alloc();
    let tables = tables(&rt, alloc);
    let stream = joined(&rt, alloc, SEQUENCES, COMPRESSED_PAIR);
    let listings = joined(&rt, alloc, SEQUENCES_LISTING, COMPRESSED_PAIR_LISTING);
    assert_printed(&rt, alloc, &tables, Engine::Show, &stream, 2, &listings);
    let lines = b"0 62 ok 1 0\n62 68 ok 2 0\nframes 2 refused 0 skipped 0\n";
    assert_printed(&rt, alloc, &tables, Engine::Check, &stream, 2, lines);
    assert_printed(&rt, alloc, &tables, Engine::Show, TEXT, 1, TEXT_LISTING);
    drop(tables);
}

/// Two listings encoded, and one compressed.
#[test]
fn listings_with_each_growth_refused(rt: HostRuntime) {
    let alloc = rt.alloc();
    let tables = tables(&rt, alloc);
    let listings = joined(&rt, alloc, SEQUENCES_LISTING, COMPRESSED_PAIR_LISTING);
    let octets = joined(&rt, alloc, SEQUENCES, COMPRESSED_PAIR);
    let engine = Engine::Encode(false);
    assert_printed(&rt, alloc, &tables, engine, &listings, 2, &octets);
    let engine = Engine::Encode(true);
    assert_printed(
        &rt,
        alloc,
        &tables,
        engine,
        PAIR_LISTING,
        1,
        PAIR_COMPRESSED,
    );
    drop(tables);
}

/// Adds or merges a report and an archive of two, of which one takes its place.
fn collected(
    rt: &impl Abort,
    alloc: Global,
    tables: &Tables,
    merging: bool,
) -> (Result<Tally, ToolFault>, Vec<u8>) {
    let mut inputs = [
        Reader::new(SEQUENCES, 0, 50, false),
        Reader::new(ARCHIVE, 0, 50, false),
    ];
    let mut writer = Writer::over(list_with_room(rt, alloc), ROOM, ROOM);
    let answer = if merging {
        run_merge(alloc, 1000, tables, &mut inputs, &mut writer)
    } else {
        run_add(alloc, 1000, tables, &mut inputs, &mut writer)
    };
    (answer, writer.taken)
}

/// The archive of two is written; if memory runs out, nothing is, and all when it is run again.
fn assert_collected(rt: &impl Abort, alloc: Global, tables: &Tables, merging: bool, frames: u128) {
    let (answer, written) = collected(rt, alloc, tables, merging);
    match answer {
        Ok(found) => {
            same(rt, found, tally(frames, 2));
            same(rt, written.as_slice(), ARCHIVE);
        }
        Err(fault) => {
            same(rt, fault, ToolFault::OutOfMemory);
            same(rt, written.len(), 0);
            let (answer, written) = collected(rt, alloc, tables, merging);
            same(rt, answer, Ok(tally(frames, 2)));
            same(rt, written.as_slice(), ARCHIVE);
        }
    }
}

#[test]
fn archives_with_each_growth_refused(rt: HostRuntime) {
    let tables = tables(&rt, rt.alloc());
    assert_collected(&rt, rt.alloc(), &tables, false, 3);
    assert_collected(&rt, rt.alloc(), &tables, true, 2);
    drop(tables);
}

fn loaded(alloc: Global) -> Result<Tables, ToolFault> {
    let mut b = Reader::new(TABLE_B, 0, 50, false);
    let mut d = Reader::new(TABLE_D, 0, 50, false);
    load_tables(alloc, 1000, &mut b, &mut d)
}

fn assert_same_tables(rt: &impl Abort, found: Tables, wanted: &Tables) {
    same(rt, found.same(wanted), true);
    drop(found);
}

/// The tables of two files; if memory runs out, they are loaded again.
#[test]
fn tables_with_each_growth_refused(rt: HostRuntime) {
    let wanted = tables(&rt, rt.alloc());
    match loaded(rt.alloc()) {
        Ok(found) => assert_same_tables(&rt, found, &wanted),
        Err(fault) => {
            same(&rt, fault, ToolFault::OutOfMemory);
            let found = loaded(rt.alloc()).expect(&rt, "tables");
            assert_same_tables(&rt, found, &wanted);
        }
    }
    drop(wanted);
}
