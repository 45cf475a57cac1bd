//! What the engine of `bufr-select` returns and writes.

ghost use Rattle.std.specs.Prelude.{◌≤◌};
ghost use Rattle.bufr_io.specs.Limits.{most_reads};

mod devices;
mod growth;
mod places;
mod samples;
mod turns;

use bufr_io::{Input, Tally, ToolFault, load_tables};
use bufr_select_engine::{Outputs, VersionTables, columns_of, run_select};
use bufr_tables::{Fxy, Tables};
use devices::{Reader, Writer};
use samples::{
    COMPRESSED, EDITION_5, MISSING, OF_13, OF_46, OF_47, OTHER_B, QUOTED, SEQUENCES, SOUNDING,
    TABLE_B, TABLE_D, TEXTS, UNEQUAL,
};
use std::alloc::Global;
use std::fmt::Debug;
use std::process::Abort;

/// Stops the test if the two differ.
fn same<T: PartialEq + Debug + Drop>(rt: &impl Abort, found: T, wanted: T, place: usize) {
    assert_eq!(rt; found, wanted, "at {place}");
}

/// Loads a pair of tables.
fn tables_of(rt: &impl Abort, alloc: Global, elements: &[u8]) -> Tables {
    let mut b = Reader::new(elements, 4096, false);
    let mut d = Reader::new(TABLE_D, 4096, false);
    load_tables(alloc, 100, &mut b, &mut d)
        .ok()
        .expect(rt, "tables")
}

/// Makes the pair of tables that reads all versions.
fn one_pair<'t>(rt: &impl Abort, alloc: Global, tables: &'t Tables) -> Vec<VersionTables<'t>> {
    let mut pairs = Vec::new(alloc);
    pairs
        .push(VersionTables::new(alloc, None, tables))
        .ok()
        .expect(rt, "memory");
    pairs
}

/// What the engine is run on: two inputs.
#[derive(Clone, Copy)]
struct Run<'a> {
    /// The number of the run among its like.
    place: usize,
    /// The words of the columns.
    columns: &'a str,
    /// The descriptor whose fields have a row each.
    each: &'a str,
    /// The octets of the inputs.
    first: &'a [u8],
    second: &'a [u8],
    /// How many octets a read gives at most.
    most: usize,
    /// Whether the second input fails at its end.
    breaks: bool,
    /// How many reads of an input are allowed.
    reads: u32,
    /// How many octets the writer of rows takes.
    room: usize,
    /// How many octets the writer of refusals takes.
    heard: usize,
}

impl<'a> Run<'a> {
    fn new(columns: &'a str, each: &'a str, first: &'a [u8], second: &'a [u8]) -> Self {
        Run {
            place: 0,
            columns,
            each,
            first,
            second,
            most: 1_000_000,
            breaks: false,
            reads: 1000,
            room: 1_000_000,
            heard: 1_000_000,
        }
    }
}

/// Returns a number of reads that an engine can be told to make.
fn allowed(reads: u32) -> u64
    ensures { result ≤ most_reads }
{
    u64::from(reads)
}

/// Stops the test unless a run gives this answer, of frames and those refused, and writes these rows and
/// refusals.
fn assert_run(
    rt: &impl Abort,
    alloc: Global,
    pairs: Vec<VersionTables<'_>>,
    run: Run<'_>,
    wanted: Result<(u128, u128), ToolFault>,
    rows: &[u8],
    refusals: &[u8],
) {
    let columns = columns_of(alloc, run.columns).ok().expect(rt, "columns");
    let each = Fxy::from_text(run.each.as_bytes());
    let mut inputs = [
        Reader::new(run.first, run.most, false),
        Reader::new(run.second, run.most, run.breaks),
    ];
    let mut out = Outputs {
        rows: Writer::new(alloc, run.room),
        refusals: Writer::new(alloc, run.heard),
    };
    let reads = allowed(run.reads);
    let answer = run_select(alloc, reads, pairs, &columns, each, &mut inputs, &mut out);
    let wanted = match wanted {
        Ok((frames, refused)) => Ok(Tally {
            frames,
            refused,
            skipped: 0,
            reports: 0,
        }),
        Err(fault) => Err(fault),
    };
    same(rt, answer, wanted, run.place);
    same(rt, out.rows.taken.as_slice(), rows, run.place);
    same(rt, out.refusals.taken.as_slice(), refusals, run.place);
    drop(columns);
}

fn joined(rt: &impl Abort, alloc: Global, texts: &[&[u8]]) -> Vec<u8> {
    let mut all = Vec::new(alloc);
    for text in texts {
        all.extend_from_slice(text).expect(rt, "memory");
    }
    all
}

/// Columns, the descriptor of `-e` if there is one, two inputs, and their rows.
type Row = (
    &'static str,
    &'static str,
    &'static [u8],
    &'static [u8],
    &'static str,
);

const ROWS: &[Row] = &[
    (
        "input,message,place,subset,001001,001002,004001,012101",
        "",
        SEQUENCES,
        MISSING,
        "input,message,place,subset,001001,001002,004001,012101\n\
        1,1,0,1,10,384,2024,273.15\n2,1,0,1,10,384,2024,\n",
    ),
    (
        "subset,compressed,001002,012101",
        "",
        COMPRESSED,
        UNEQUAL,
        "subset,compressed,001002,012101\n1,1,384,273.15\n2,1,384,\n1,0,,\n2,0,,273.15\n",
    ),
    (
        "031001,subset,012101#1,012101#2",
        "",
        UNEQUAL,
        b"",
        "031001,subset,012101#1,012101#2\n0,1,,\n1,2,273.15,\n",
    ),
    (
        "subset,031001",
        "012101",
        UNEQUAL,
        COMPRESSED,
        "subset,031001\n2,1\n1,\n2,\n",
    ),
    ("012101", "", MISSING, SEQUENCES, "012101\n\"\"\n273.15\n"),
    (
        "centre,year,month,day,hour,minute,second,master_version,observed",
        "",
        SEQUENCES,
        b"",
        "centre,year,month,day,hour,minute,second,master_version,observed\n\
        98,2024,1,15,12,0,0,37,1\n",
    ),
    ("001011", "", QUOTED, b"", "001011\n\"A\"\"\\5c\\0a\"\n"),
    (
        "001011#2,001011,001011#3",
        "",
        TEXTS,
        b"",
        "001011#2,001011,001011#3\n\\ff,\"a,b\\0a\",\n",
    ),
    (
        "subset,001001,001002#1,007004,007004#2,011001,011002,012101",
        "007004",
        SOUNDING,
        SEQUENCES,
        "subset,001001,001002#1,007004,007004#2,011001,011002,012101\n\
        1,10,,100000,,180,5.2,\n1,10,,85000,,,,\n1,10,,70000,,270,12.0,273.15\n",
    ),
    (
        "007004,007004#3,011001#2",
        "",
        SOUNDING,
        b"",
        "007004,007004#3,011001#2\n100000,70000,\n",
    ),
    (
        "subset,001011,001011#2",
        "001011",
        TEXTS,
        b"",
        "subset,001011,001011#2\n1,\"a,b\\0a\",\n1,\\ff,\n",
    ),
];

/// Stops the test unless a run, whose reads give at most this many octets, has this row's rows.
fn assert_row(rt: &impl Abort, alloc: Global, tables: &Tables, most: usize, row: &Row) {
    let (columns, each, first, second, rows) = row;
    let mut run = Run::new(*columns, *each, *first, *second);
    run.most = most;
    run.place = most;
    let frames = if second.is_empty() { 1 } else { 2 };
    let pairs = one_pair(rt, alloc, tables);
    assert_run(rt, alloc, pairs, run, Ok((frames, 0)), rows.as_bytes(), b"");
}

/// Messages of all kinds, whatever pieces the streams come in.
#[test]
fn rows_in_any_pieces(rt: HostRuntime) {
    let alloc = rt.alloc();
    let tables = tables_of(&rt, alloc, TABLE_B);
    for most in [1, 61, 65_536] {
        for row in ROWS {
            assert_row(&rt, alloc, &tables, most, row);
        }
    }
    drop(tables);
}

/// The rows and the refusals of the frames that count.
const HEARD_ROWS: &[u8] = b"message,012101\n2,273.15\n4,\n2,273.15\n";

const HEARD_LINES: &[u8] = b"bufr-select: input 1 at 0: M2 Edition 5\n\
bufr-select: input 1 at 129: M2 Edition 5\nbufr-select: input 2 at 0: M2 Edition 5\n";

/// Stops the test unless the writer of refusals takes this many octets, and the rest goes on.
fn assert_heard(
    rt: &impl Abort,
    alloc: Global,
    tables: &Tables,
    first: &[u8],
    second: &[u8],
    heard: usize,
) {
    let mut run = Run::new("message,012101", "", first, second);
    run.place = heard;
    run.heard = heard;
    let lines = HEARD_LINES;
    let told = heard.min(lines.len());
    let pairs = one_pair(rt, alloc, tables);
    let wanted = Ok((6, 3));
    assert_run(rt, alloc, pairs, run, wanted, HEARD_ROWS, &lines[..told]);
}

/// Refused frames among others: they count, their lines go to the other writer, and the rest goes on,
/// also if that writer fails after some octets.
#[test]
fn refusals_to_the_other_writer(rt: HostRuntime) {
    let alloc = rt.alloc();
    let tables = tables_of(&rt, alloc, TABLE_B);
    let first = joined(
        &rt,
        alloc,
        &[EDITION_5, SEQUENCES, b"stray", EDITION_5, MISSING],
    );
    let second = joined(&rt, alloc, &[EDITION_5, SEQUENCES]);
    for heard in 0..=HEARD_LINES.len() + 1 {
        assert_heard(&rt, alloc, &tables, &first, &second, heard);
    }
    drop(tables);
}

/// Adds the pair of tables that reads the versions up to this one.
fn add_pair<'t>(
    rt: &impl Abort,
    alloc: Global,
    pairs: &mut Vec<VersionTables<'t>>,
    version: u8,
    tables: &'t Tables,
) {
    pairs
        .push(VersionTables::new(alloc, Some(version), tables))
        .ok()
        .expect(rt, "memory");
}

fn assert_two_pairs(rt: &impl Abort, alloc: Global, old: &Tables, new: &Tables) {
    let mut pairs = Vec::new(alloc);
    add_pair(rt, alloc, &mut pairs, 13, old);
    add_pair(rt, alloc, &mut pairs, 46, new);
    let first = joined(rt, alloc, &[OF_13, OF_46, OF_47, OF_13]);
    let run = Run::new("place,master_version,012101", "", &first, OF_46);
    let text =
        b"place,master_version,012101\n0,13,2731.5\n49,46,273.15\n147,13,2731.5\n0,46,273.15\n";
    let line = b"bufr-select: input 1 at 98: no tables of version 47\n";
    assert_run(rt, alloc, pairs, run, Ok((5, 1)), text, line);
}

fn assert_old_pair(rt: &impl Abort, alloc: Global, old: &Tables) {
    let mut pairs = Vec::new(alloc);
    add_pair(rt, alloc, &mut pairs, 45, old);
    let run = Run::new("place", "", EDITION_5, OF_46);
    let lines = b"bufr-select: input 1 at 0: M2 Edition 5\n\
bufr-select: input 2 at 0: no tables of version 46\n";
    assert_run(rt, alloc, pairs, run, Ok((2, 2)), b"place\n", lines);
}

/// Each frame is read under the first pair whose version is not below its own.
#[test]
fn pairs_of_versions(rt: HostRuntime) {
    let alloc = rt.alloc();
    let old = tables_of(&rt, alloc, OTHER_B);
    let new = tables_of(&rt, alloc, TABLE_B);
    assert_two_pairs(&rt, alloc, &old, &new);
    assert_old_pair(&rt, alloc, &old);
    drop(new);
    drop(old);
}

/// The rows and the refusal of the frames up to the end of both inputs.
const READ_ROWS: &[u8] = b"input,012101\n1,273.15\n2,273.15\n";

const READ_LINE: &[u8] = b"bufr-select: input 2 at 0: M2 Edition 5\n";

/// Stops the test unless a run fails to read past these octets of the second input.
fn assert_broken(rt: &impl Abort, alloc: Global, tables: &Tables, second: &[u8]) {
    let (text, line) = (READ_ROWS, READ_LINE);
    let given = second.len();
    let written = if given < 124 { 22 } else { 31 };
    let told = if given < 62 { 0 } else { line.len() };
    let mut run = Run::new("input,012101", "", OF_46, second);
    run.place = given;
    run.breaks = true;
    let fault = Err(ToolFault::ReadFailed(Input::Number(2)));
    let pairs = one_pair(rt, alloc, tables);
    assert_run(
        rt,
        alloc,
        pairs,
        run,
        fault,
        &text[..written],
        &line[..told],
    );
}

/// Stops the test unless an input needs more reads than these, which bring the first rows.
fn assert_endless(
    rt: &impl Abort,
    alloc: Global,
    tables: &Tables,
    second: &[u8],
    reads: u32,
    input: Input,
    rows: &[u8],
    refusals: &[u8],
) {
    let mut run = Run::new("input,012101", "", OF_46, second);
    run.reads = reads;
    run.most = 10;
    let fault = Err(ToolFault::EndlessInput(input));
    let pairs = one_pair(rt, alloc, tables);
    assert_run(rt, alloc, pairs, run, fault, rows, refusals);
}

fn assert_each_endless(rt: &impl Abort, alloc: Global, tables: &Tables, second: &[u8]) {
    let (front, header) = (&READ_ROWS[..22], &READ_ROWS[..13]);
    let (one, two) = (Input::Number(1), Input::Number(2));
    assert_endless(rt, alloc, tables, second, 5, one, front, b"");
    assert_endless(rt, alloc, tables, second, 0, one, header, b"");
    assert_endless(rt, alloc, tables, second, 7, two, front, READ_LINE);
}

/// A read that fails after each octet, or is not allowed: the header line, and the rows and refusals of
/// the inputs before it and of the frames that are whole by then.
#[test]
fn reads_that_fail(rt: HostRuntime) {
    let alloc = rt.alloc();
    let tables = tables_of(&rt, alloc, TABLE_B);
    let second = joined(&rt, alloc, &[EDITION_5, SEQUENCES]);
    for given in 0..=second.len() {
        assert_broken(&rt, alloc, &tables, &second[..given]);
    }
    assert_each_endless(&rt, alloc, &tables, &second);
    drop(tables);
}

/// The rows and the refusal of both inputs.
const WRITTEN_ROWS: &[u8] = b"place,012101\n0,\n0,273.15\n";

const WRITTEN_LINE: &[u8] = b"bufr-select: input 1 at 62: M2 Edition 5\n";

/// Stops the test unless the writer of rows fails after these octets.
fn assert_written(rt: &impl Abort, alloc: Global, tables: &Tables, first: &[u8], rows: &[u8]) {
    let room = rows.len();
    let line = WRITTEN_LINE;
    let told = if room < 16 { 0 } else { line.len() };
    let mut run = Run::new("place,012101", "", first, SEQUENCES);
    run.place = room;
    run.most = 62;
    run.room = room;
    let fault = Err(ToolFault::WriteFailed {
        written: room as u128,
    });
    let pairs = one_pair(rt, alloc, tables);
    assert_run(rt, alloc, pairs, run, fault, rows, &line[..told]);
}

/// A writer of rows that fails after each octet, at the flush too.
#[test]
fn writes_that_fail(rt: HostRuntime) {
    let alloc = rt.alloc();
    let tables = tables_of(&rt, alloc, TABLE_B);
    let first = joined(&rt, alloc, &[MISSING, EDITION_5]);
    for room in 0..=WRITTEN_ROWS.len() {
        assert_written(&rt, alloc, &tables, &first, &WRITTEN_ROWS[..room]);
    }
    drop(tables);
}

/// The columns of the rows of two thousand messages.
const COLUMNS: &str = "input,message,place,subset,centre,sub_centre,update,category,international,\
local_category,master_version,local_version,year,month,day,hour,minute,second,observed,012101";

fn rows_of_thousands(rt: &impl Abort, alloc: Global) -> Vec<u8> {
    let mut text = joined(rt, alloc, &[COLUMNS.as_bytes(), b"\n"]);
    for turn in 0..2000u32 {
        let (number, place) = (turn + 1, 49 * turn);
        let row = format!(in alloc;
            "1,{number},{place},1,98,0,0,0,2,0,46,0,2024,1,15,12,0,0,1,273.15\n"
        ).expect(rt, "memory");
        text.extend_from_slice(row.as_bytes()).expect(rt, "memory");
    }
    text
}

fn stream_of_thousands(rt: &impl Abort, alloc: Global) -> Vec<u8> {
    let mut stream = Vec::new(alloc);
    for _ in 0..2000u32 {
        stream.extend_from_slice(OF_46).expect(rt, "memory");
    }
    stream
}

/// Stops the test unless a run, whose reads give at most this many octets, has these rows.
fn assert_thousands(
    rt: &impl Abort,
    alloc: Global,
    tables: &Tables,
    stream: &[u8],
    most: usize,
    rows: &[u8],
) {
    let mut run = Run::new(COLUMNS, "", stream, b"");
    run.place = most;
    run.most = most;
    let pairs = one_pair(rt, alloc, tables);
    assert_run(rt, alloc, pairs, run, Ok((2000, 0)), rows, b"");
}

/// Two thousand messages, whose rows are longer than what is written at once: 98,000 octets in two reads
/// and in many.
#[test]
fn thousands_of_messages(rt: HostRuntime) {
    let alloc = rt.alloc();
    let tables = tables_of(&rt, alloc, TABLE_B);
    let stream = stream_of_thousands(&rt, alloc);
    let rows = rows_of_thousands(&rt, alloc);
    for most in [1000, 65_536] {
        assert_thousands(&rt, alloc, &tables, &stream, most, &rows);
    }
    drop(tables);
}
