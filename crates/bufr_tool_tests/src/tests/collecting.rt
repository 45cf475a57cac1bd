//! The engines that collect reports, `add` and `merge`, on devices that work, fail or do not end.

ghost use Rattle.std.specs.Prelude.{◌≡◌, ◌≤◌, map};
ghost use Rattle.bufr_tool.specs.Readers.{AreFresh};
ghost use Rattle.bufr_tool.specs.Limits.{most_reads};

use super::devices::{Reader, Writer};
use super::same;
use super::samples::{ARCHIVE, SEQUENCES, tables};
use bufr_bits::Source;
use bufr_tables::Tables;
use bufr_tool::{Input, Tally, ToolFault, run_add, run_merge};
use std::alloc::Global;
use std::process::Abort;

/// Adds streams to an archive, or merges archives, by a writer that takes `room` octets, at most
/// three at a time. Returns also what the writer took.
fn collected<'x>(
    alloc: Global,
    merging: bool,
    reads: u64,
    tables: &Tables,
    inputs: &mut [Reader<'x>],
    room: usize,
) -> (Result<Tally, ToolFault>, Vec<u8>)
    requires few { reads ≤ most_reads }
    requires fresh { AreFresh (map ⟦<Reader<'x> as Source>⟧.reading inputs.old) }
{
    let mut writer = Writer::new(alloc, room, 3);
    let answer = if merging {
        run_merge(alloc, reads, tables, inputs, &mut writer)
    } else {
        run_add(alloc, reads, tables, inputs, &mut writer)
    };
    (answer, writer.taken)
}

/// Returns the result for two messages to add, or an archive of two reports to merge, by a writer
/// of `room` octets.
fn answer_of(merging: bool, room: usize) -> Result<Tally, ToolFault> {
    if room <= ARCHIVE.len() {
        return Err(ToolFault::WriteFailed {
            written: room as u128,
        });
    }
    Ok(Tally {
        frames: if merging { 1 } else { 2 },
        refused: 0,
        skipped: 0,
        reports: 2,
    })
}

/// The writer fails after `room` octets of the archive, or works. Each read asks for 65,536 octets.
fn assert_written(rt: &impl Abort, alloc: Global, tables: &Tables, merging: bool, room: usize) {
    let mut inputs = [Reader::new(ARCHIVE, 0, 100, false)];
    let (answer, taken) = collected(alloc, merging, 10, tables, &mut inputs, room);
    same(rt, answer, answer_of(merging, room));
    same(rt, taken.as_slice(), ARCHIVE.get(..room).unwrap_or(ARCHIVE));
    let [input] = &inputs;
    same(rt, input.asked, 65_536);
}

#[test]
fn failing_writers_of_archives(rt: HostRuntime) {
    let tables = tables(&rt, rt.alloc());
    for merging in [false, true] {
        for room in 0usize..126 {
            assert_written(&rt, rt.alloc(), &tables, merging, room);
        }
    }
    drop(tables);
}

/// Returns the first `length` octets of the message of 62.
fn front_of(length: usize) -> &'static [u8] {
    SEQUENCES.get(..length).unwrap_or(SEQUENCES)
}

/// Three inputs give seven octets a read; the one of this index fails after `length` octets. The
/// engine returns it, writes nothing, and reads no later input.
fn assert_fails(
    rt: &impl Abort,
    alloc: Global,
    tables: &Tables,
    merging: bool,
    index: u8,
    length: usize,
) {
    let first = if index == 0 { length } else { 62 };
    let second = if index == 1 { length } else { 62 };
    let third = if index == 2 { length } else { 62 };
    let mut inputs = [
        Reader::new(front_of(first), 0, 7, index == 0),
        Reader::new(front_of(second), 0, 7, index == 1),
        Reader::new(front_of(third), 0, 7, index == 2),
    ];
    let (answer, taken) = collected(alloc, merging, 1000, tables, &mut inputs, 1000);
    let number = u128::from(index) + 1;
    same(
        rt,
        answer,
        Err(ToolFault::ReadFailed(Input::Number(number))),
    );
    assert!(rt; taken.is_empty());
    let [_, next, last] = &inputs;
    same(rt, next.reads == 0, index < 1);
    same(rt, last.reads == 0, index < 2);
}

/// A read fails at each place of each of the three inputs.
#[test]
fn failing_inputs(rt: HostRuntime) {
    let tables = tables(&rt, rt.alloc());
    for merging in [false, true] {
        for index in [0u8, 1, 2] {
            for length in 0usize..63 {
                assert_fails(&rt, rt.alloc(), &tables, merging, index, length);
            }
        }
    }
    drop(tables);
}

/// How many reads are allowed, how many octets a read gives, how many of the three inputs are empty,
/// from the first on, and the number of the input that does not end in time, or none.
const ENDLESS: [(u32, usize, u8, Option<u128>); 8] = [
    (0, 100, 0, Some(1)),
    (0, 100, 3, Some(1)),
    (1, 100, 0, Some(1)),
    (1, 100, 1, Some(2)),
    (1, 100, 2, Some(3)),
    (1, 100, 3, None),
    (62, 1, 1, Some(2)),
    (63, 1, 1, None),
];

fn assert_endless(
    rt: &impl Abort,
    alloc: Global,
    tables: &Tables,
    merging: bool,
    row: (u32, usize, u8, Option<u128>),
) {
    let (reads, most, empty, number) = row;
    let first = if empty > 0 { 0 } else { 62 };
    let second = if empty > 1 { 0 } else { 62 };
    let third = if empty > 2 { 0 } else { 62 };
    let mut inputs = [
        Reader::new(front_of(first), 0, most, false),
        Reader::new(front_of(second), 0, most, false),
        Reader::new(front_of(third), 0, most, false),
    ];
    let reads = u64::from(reads);
    let (answer, taken) = collected(alloc, merging, reads, tables, &mut inputs, 1000);
    match number {
        Some(number) => {
            same(
                rt,
                answer,
                Err(ToolFault::EndlessInput(Input::Number(number))),
            );
            assert!(rt; taken.is_empty());
            let [_, _, last] = &inputs;
            same(rt, last.reads == 0, number < 3 || reads == 0);
        }
        None => {
            let messages = u128::from(3u8.saturating_sub(empty));
            let frames = if merging { 3 } else { messages };
            same(rt, answer, Ok(tally(frames, messages.min(1))));
            same(rt, taken.as_slice(), front_of(third));
        }
    }
}

fn tally(frames: u128, reports: u128) -> Tally {
    Tally {
        frames,
        refused: 0,
        skipped: 0,
        reports,
    }
}

/// No read, one read, and as many as an input has octets, with and without the one that meets its end.
#[test]
fn endless_inputs(rt: HostRuntime) {
    let tables = tables(&rt, rt.alloc());
    for merging in [false, true] {
        for row in ENDLESS {
            assert_endless(&rt, rt.alloc(), &tables, merging, row);
        }
    }
    drop(tables);
}
