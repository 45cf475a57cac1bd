//! What the engines and the commands return and write.

mod collecting;
mod commands;
mod devices;
mod failing_devices;
mod growth;
mod samples;
mod streams;
mod table_files;

use bufr_listing::ListingFault;
use bufr_message::{EncodeFault, MisfitFault};
use bufr_tables::{Column, TableFault};
use bufr_tool::{Input, MOST_READS, Tally, ToolFault, run_check, run_encode, run_show};
use devices::{Reader, Writer};
use samples::tables;
use std::alloc::Global;
use std::fmt::Debug;
use std::process::Abort;

/// A function, since comparisons in a test make its proof long.
fn same<T: PartialEq + Debug + Drop>(rt: &impl Abort, found: T, wanted: T) {
    assert_eq!(rt; found, wanted);
}

fn same_in<T: PartialEq + Debug + Drop>(rt: &impl Abort, found: T, wanted: T, run: Run<'_>) {
    let (name, place) = (run.name, run.place);
    assert_eq!(rt; found, wanted, "{name} at {place}");
}

/// An engine; `encode` may compress.
#[derive(Clone, Copy)]
enum Engine {
    Show,
    Check,
    Encode(bool),
}

/// A run of an engine.
#[derive(Clone, Copy)]
struct Run<'a> {
    engine: Engine,
    /// Its name, and its number among the runs of this name.
    name: &'a str,
    place: usize,
    /// The reads allowed.
    reads: u32,
    octets: &'a [u8],
    /// The reader gives the octets before `cut` apart, if it is not 0, at most `most` a read, and
    /// then fails or ends.
    cut: usize,
    most: usize,
    breaks: bool,
    /// The writer takes `room` octets, at most `width` at a time.
    room: usize,
    width: usize,
}

impl<'a> Run<'a> {
    /// Makes a run over devices that work.
    fn new(name: &'a str, engine: Engine, octets: &'a [u8]) -> Self {
        Run {
            engine,
            name,
            place: 0,
            reads: 1000,
            octets,
            cut: 0,
            most: 1_000_000,
            breaks: false,
            room: 1_000_000,
            width: 1_000_000,
        }
    }
}

/// The record of a run's devices.
#[derive(Drop)]
struct Seen {
    /// The number of reads, and the most octets that a read asked for.
    reads: u64,
    asked: usize,
    /// The number of pieces taken whole, and the longest of them.
    pieces: u32,
    longest: usize,
}

/// The frames, the refused frames and the octets skipped.
type Counted = Result<(u128, u128, u128), ToolFault>;

/// Compares the result and the output of a run.
fn assert_run(rt: &impl Abort, alloc: Global, run: Run<'_>, wanted: Counted, text: &[u8]) -> Seen {
    let tables = tables(rt, alloc);
    let mut reader = Reader::new(run.octets, run.cut, run.most, run.breaks);
    let mut writer = Writer::new(alloc, run.room, run.width);
    let reads = u64::from(run.reads);
    let answer = match run.engine {
        Engine::Show => run_show(alloc, reads, &tables, &mut reader, &mut writer),
        Engine::Check => run_check(alloc, reads, &tables, &mut reader, &mut writer),
        Engine::Encode(compressed) => {
            run_encode(alloc, reads, &tables, compressed, &mut reader, &mut writer)
        }
    };
    drop(tables);
    let wanted = match wanted {
        Ok((frames, refused, skipped)) => Ok(Tally {
            frames,
            refused,
            skipped,
            reports: 0,
        }),
        Err(fault) => Err(fault),
    };
    same_in(rt, answer, wanted, run);
    same_in(rt, writer.taken.as_slice(), text, run);
    Seen {
        reads: reader.reads,
        asked: reader.asked,
        pieces: writer.pieces,
        longest: writer.longest,
    }
}

/// Faults and their lines.
const FAULTS: [(ToolFault, &str); 14] = [
    (ToolFault::ReadFailed(Input::TableB), "read failed table B"),
    (ToolFault::ReadFailed(Input::TableD), "read failed table D"),
    (
        ToolFault::ReadFailed(Input::Number(12)),
        "read failed input 12",
    ),
    (
        ToolFault::EndlessInput(Input::TableB),
        "endless input table B",
    ),
    (
        ToolFault::EndlessInput(Input::Number(1)),
        "endless input input 1",
    ),
    (
        ToolFault::WriteFailed { written: 236 },
        "write failed after 236 octets",
    ),
    (
        ToolFault::Table(Input::TableB, TableFault::NoColumn(Column::Fxy)),
        "table B: B1 NoColumn FXY",
    ),
    (
        ToolFault::Table(Input::TableD, TableFault::BadRow(3)),
        "table D: B3 BadRow 3",
    ),
    (
        ToolFault::NotAnArchive {
            input: 2,
            place: 62,
        },
        "not an archive input 2 at 62",
    ),
    (ToolFault::OutOfMemory, "out of memory"),
    (
        ToolFault::Listing(ListingFault::BadLine(3)),
        "listing: L1 BadLine 3",
    ),
    (
        ToolFault::Listing(ListingFault::BadValue(14)),
        "listing: L2 BadValue 14",
    ),
    (
        ToolFault::Encode(7, EncodeFault::NoDescriptors),
        "message 7: E4 NoDescriptors",
    ),
    (
        ToolFault::Encode(2, EncodeFault::Data(MisfitFault::NotCompressible(1))),
        "message 2: E2 NotCompressible 1",
    ),
];

/// Also the most reads that a command allows.
#[test]
fn lines_of_faults_and_most_reads(rt: HostRuntime) {
    for (fault, text) in FAULTS {
        let line = fault.to_string(rt.alloc()).expect(&rt, "a line");
        same(&rt, line.as_str(), text);
    }
    same(&rt, MOST_READS, 4_294_967_296);
}
