//! What the engine of `bufr-ls` returns and writes.

mod devices;
mod growth;
mod samples;

use bufr_io::{Input, Tally, ToolFault};
use bufr_ls_engine::{Column, ColumnsFault, columns_of, run_ls};
use devices::{Reader, Writer};
use samples::{EDITION_3, EDITION_4, HEADER, REFUSED, ROW_3, ROW_4, ROWS_REFUSED, TWO_FRAMES};
use std::alloc::Global;
use std::fmt::Debug;
use std::process::Abort;

/// Stops the test if the two differ.
fn same<T: PartialEq + Debug + Drop>(rt: &impl Abort, found: T, wanted: T, place: usize) {
    assert_eq!(rt; found, wanted, "at {place}");
}

/// What the engine is run on: three inputs.
#[derive(Clone, Copy)]
struct Run<'a> {
    /// The number of the run among its like.
    place: usize,
    columns: &'a [Column],
    /// The octets of the inputs.
    first: &'a [u8],
    second: &'a [u8],
    third: &'a [u8],
    /// How many octets a read gives at most.
    most: usize,
    /// Whether the second input fails at its end.
    breaks: bool,
    /// How many reads of an input are allowed.
    reads: u32,
    /// How many octets the writer takes.
    room: usize,
}

impl<'a> Run<'a> {
    fn new(columns: &'a [Column], first: &'a [u8], second: &'a [u8], third: &'a [u8]) -> Self {
        Run {
            place: 0,
            columns,
            first,
            second,
            third,
            most: 1_000_000,
            breaks: false,
            reads: 1000,
            room: 1_000_000,
        }
    }
}

/// Stops the test unless a run gives this answer, of frames and those refused, and writes this.
fn assert_run(
    rt: &impl Abort,
    alloc: Global,
    run: Run<'_>,
    wanted: Result<(u128, u128), ToolFault>,
    text: &[u8],
) {
    let mut inputs = [
        Reader::new(run.first, run.most, false),
        Reader::new(run.second, run.most, run.breaks),
        Reader::new(run.third, run.most, false),
    ];
    let mut writer = Writer::new(alloc, run.room);
    let reads = u64::from(run.reads);
    let answer = run_ls(alloc, reads, run.columns, &mut inputs, &mut writer);
    let wanted = match wanted {
        Ok((frames, refused)) => Ok(Tally {
            frames,
            refused,
            skipped: 0,
            reports: 0,
        }),
        Err(fault) => Err(fault),
    };
    same(rt, answer, wanted, run.place);
    same(rt, writer.taken.as_slice(), text, run.place);
}

fn joined(rt: &impl Abort, alloc: Global, texts: &[&str]) -> Vec<u8> {
    let mut all = Vec::new(alloc);
    for text in texts {
        all.extend_from_slice(text.as_bytes()).expect(rt, "memory");
    }
    all
}

/// Messages of both editions and each refusal, whatever pieces the streams come in.
#[test]
fn rows_in_any_pieces(rt: HostRuntime) {
    let alloc = rt.alloc();
    let text = joined(&rt, alloc, &[HEADER, ROW_4, ROW_3, ROWS_REFUSED]);
    let run = Run::new(Column::all(), EDITION_4, EDITION_3, REFUSED);
    for most in [1, 2, 11, 12, 13, 65_536] {
        let run = Run {
            most,
            place: most,
            ..run
        };
        assert_run(&rt, alloc, run, Ok((8, 6)), &text);
    }
}

/// The fields of `EDITION_4` after the length.
const FIELDS: &str = "4,258,772,5,6,7,8,0,9,10,2828,13,14,15,16,17,5398,1,0,023024 025026,\n";

fn of_parts(rt: &impl Abort, alloc: Global, parts: &[&[u8]]) -> Vec<u8> {
    let mut all = Vec::new(alloc);
    for part in parts {
        all.extend_from_slice(part).expect(rt, "memory");
    }
    all
}

/// Lists `EDITION_4`, another message and it again in the first input, the other in the second, it in
/// the third. Stops the test unless these lines come, and this many messages are refused.
fn assert_between(
    rt: &impl Abort,
    alloc: Global,
    columns: &[Column],
    other: &[u8],
    refused: u128,
    lines: &[&str],
) {
    let stream = of_parts(rt, alloc, &[EDITION_4, other, EDITION_4]);
    let run = Run::new(columns, &stream, other, EDITION_4);
    assert_run(rt, alloc, run, Ok((5, refused)), &joined(rt, alloc, lines));
}

/// Returns `EDITION_4` with another octet at an index.
fn changed(rt: &impl Abort, alloc: Global, place: usize, octet: u8) -> Vec<u8> {
    let front = EDITION_4.get(..place).expect(rt, "a front");
    let rest = EDITION_4.get(place..).expect(rt, "a rest");
    let (_, after) = rest.split_first().expect(rt, "an octet");
    of_parts(rt, alloc, &[front, &[octet], after])
}

/// A message, one that differs in an octet, and the first one again: each row has its own fields.
#[test]
fn heads_that_change_and_come_back(rt: HostRuntime) {
    let alloc = rt.alloc();
    let changes = [
        (12, 2, 0),
        (16, 21, 0),
        (29, 18, 0),
        (30, 19, 0),
        (36, 30, 0),
        (41, 22, 0),
        (43, 0, 0),
        (43, 192, 0),
        (47, 27, 0),
        (50, 6, 2),
        (54, 30, 0),
    ];
    let others = [
        "4,514,772,5,6,7,8,0,9,10,2828,13,14,15,16,17,5398,1,0,023024 025026,\n",
        "4,258,772,21,6,7,8,0,9,10,2828,13,14,15,16,17,5398,1,0,023024 025026,\n",
        "4,258,772,5,6,7,8,0,9,10,2828,13,14,15,16,18,5398,1,0,023024 025026,\n",
        FIELDS,
        FIELDS,
        "4,258,772,5,6,7,8,0,9,10,2828,13,14,15,16,17,5654,1,0,023024 025026,\n",
        "4,258,772,5,6,7,8,0,9,10,2828,13,14,15,16,17,5398,0,0,023024 025026,\n",
        "4,258,772,5,6,7,8,0,9,10,2828,13,14,15,16,17,5398,1,1,023024 025026,\n",
        "4,258,772,5,6,7,8,0,9,10,2828,13,14,15,16,17,5398,1,0,023024 025027,\n",
        "4,,,,,,,,,,,,,,,,,,,,M9 Section4Length\n",
        FIELDS,
    ];
    for ((place, octet, refused), other) in changes.into_iter().zip(others) {
        let message = changed(&rt, alloc, place, octet);
        let lines = [
            HEADER,
            "1,1,0,59,",
            FIELDS,
            "1,2,59,59,",
            other,
            "1,3,118,59,",
            FIELDS,
            "2,1,0,59,",
            other,
            "3,1,0,59,",
            FIELDS,
        ];
        assert_between(&rt, alloc, Column::all(), &message, refused, &lines);
    }
}

/// A longer message with the same sections 1 to 3.
#[test]
fn lengths_that_change_and_come_back(rt: HostRuntime) {
    let alloc = rt.alloc();
    let parts = [
        &EDITION_4[..6],
        &[60],
        &EDITION_4[7..50],
        &[8],
        &EDITION_4[51..55],
        b"\x1e7777",
    ];
    let longer = of_parts(&rt, alloc, &parts);
    let lines = [
        HEADER,
        "1,1,0,59,",
        FIELDS,
        "1,2,59,60,",
        FIELDS,
        "1,3,119,59,",
        FIELDS,
        "2,1,0,60,",
        FIELDS,
        "3,1,0,59,",
        FIELDS,
    ];
    assert_between(&rt, alloc, Column::all(), &longer, 0, &lines);
}

/// A message of edition 3 between two of edition 4.
#[test]
fn editions_that_change_and_come_back(rt: HostRuntime) {
    let fields = "3,2,1,3,4,255,5,0,6,7,1970,9,10,11,12,0,1,0,1,301001,\n";
    let lines = [
        HEADER,
        "1,1,0,59,",
        FIELDS,
        "1,2,59,44,",
        fields,
        "1,3,103,59,",
        FIELDS,
        "2,1,0,44,",
        fields,
        "3,1,0,59,",
        FIELDS,
    ];
    assert_between(&rt, rt.alloc(), Column::all(), EDITION_3, 0, &lines);
}

/// The version of the master tables alone, of messages that differ in an octet.
#[test]
fn versions_that_change_and_come_back(rt: HostRuntime) {
    let alloc = rt.alloc();
    let changes = [
        (11, 1, 2, "\n"),
        (21, 40, 0, "40\n"),
        (36, 30, 0, "9\n"),
        (50, 6, 2, "\n"),
        (54, 30, 0, "9\n"),
    ];
    for (place, octet, refused, other) in changes {
        let message = changed(&rt, alloc, place, octet);
        let lines = ["master_version\n", "9\n", other, "9\n", other, "9\n"];
        let columns = [Column::MasterVersion];
        assert_between(&rt, alloc, &columns, &message, refused, &lines);
    }
}

/// A thousand refused frames and a thousand messages, by turns: 56,000 octets in one read and in many.
#[test]
fn thousand_messages(rt: HostRuntime) {
    let alloc = rt.alloc();
    let columns = [
        Column::Message,
        Column::Place,
        Column::Reason,
        Column::Descriptors,
    ];
    let mut stream = Vec::new(alloc);
    let mut text = joined(&rt, alloc, &["message,place,reason,descriptors\n"]);
    for turn in 0..1000u32 {
        let (first, place) = (2 * turn + 1, 56 * turn);
        let (second, next) = (first + 1, place + 12);
        let rows = format!(in alloc;
            "{first},{place},M2 Edition 5,\n{second},{next},,301001\n"
        ).expect(&rt, "memory");
        text.extend_from_slice(rows.as_bytes())
            .expect(&rt, "memory");
        stream.extend_from_slice(TWO_FRAMES).expect(&rt, "memory");
    }
    for most in [100, 65_536] {
        let mut run = Run::new(&columns, &stream, b"", b"");
        run.place = most;
        run.most = most;
        assert_run(&rt, alloc, run, Ok((2000, 1000)), &text);
    }
}

/// Columns in another order, and inputs without a frame.
#[test]
fn columns_and_empty_inputs(rt: HostRuntime) {
    let alloc = rt.alloc();
    let columns = [
        Column::Descriptors,
        Column::Centre,
        Column::Message,
        Column::Reason,
    ];
    let text =
        b"descriptors,centre,message,reason\n023024 025026,258,1,\n,,1,M2 Edition 5\n301001,2,2,\n";
    let run = Run::new(&columns, EDITION_4, b"", TWO_FRAMES);
    assert_run(&rt, alloc, run, Ok((3, 1)), text);
    let run = Run::new(&columns, b"", b"no frame", b"BUFR");
    assert_run(&rt, alloc, run, Ok((0, 0)), &text[..34]);
    let run = Run::new(&[], b"", TWO_FRAMES, b"");
    assert_run(&rt, alloc, run, Ok((2, 1)), b"\n\n\n");
}

/// A read that fails after each octet, or is not allowed: the rows of the inputs before it and of the
/// frames that are whole by then.
#[test]
fn reads_that_fail(rt: HostRuntime) {
    let alloc = rt.alloc();
    let columns = [Column::Input, Column::Place, Column::Length];
    let text = b"input,place,length\n1,0,59\n2,0,12\n2,12,44\n";
    for given in 0..=TWO_FRAMES.len() {
        let written = if given < 12 {
            26
        } else if given < 56 {
            33
        } else {
            41
        };
        let mut run = Run::new(&columns, EDITION_4, &TWO_FRAMES[..given], TWO_FRAMES);
        run.place = given;
        run.breaks = true;
        let fault = ToolFault::ReadFailed(Input::Number(2));
        assert_run(&rt, alloc, run, Err(fault), &text[..written]);
    }
    let mut run = Run::new(&columns, EDITION_4, TWO_FRAMES, TWO_FRAMES);
    run.reads = 6;
    run.most = 10;
    let fault = ToolFault::EndlessInput(Input::Number(1));
    assert_run(&rt, alloc, run, Err(fault), &text[..26]);
    run.first = b"";
    assert_run(
        &rt,
        alloc,
        run,
        Err(ToolFault::EndlessInput(Input::Number(2))),
        b"input,place,length\n2,0,12\n2,12,44\n",
    );
}

/// A writer that fails after each octet.
#[test]
fn writes_that_fail(rt: HostRuntime) {
    let alloc = rt.alloc();
    let columns = [Column::Message, Column::Reason];
    let text = b"message,reason\n1,\n1,M2 Edition 5\n2,\n";
    for room in 0..=text.len() {
        let mut run = Run::new(&columns, EDITION_3, b"", TWO_FRAMES);
        run.place = room;
        run.most = 5;
        run.room = room;
        let fault = ToolFault::WriteFailed {
            written: room as u128,
        };
        assert_run(&rt, alloc, run, Err(fault), &text[..room]);
    }
}

/// The columns that texts name, and the first fault of each that names none.
#[test]
fn columns_of_texts(rt: HostRuntime) {
    let alloc = rt.alloc();
    let named = columns_of(alloc, "reason,sub_centre").expect(&rt, "two columns");
    let wanted = [Column::Reason, Column::SubCentre];
    same(&rt, named.as_slice(), wanted.as_slice(), 0);
    let faults = [
        ("", ColumnsFault::NoColumn(""), "no column "),
        ("centre,", ColumnsFault::NoColumn(""), "no column "),
        (
            "Centre",
            ColumnsFault::NoColumn("Centre"),
            "no column Centre",
        ),
        (
            "year,month,wind,year",
            ColumnsFault::NoColumn("wind"),
            "no column wind",
        ),
        (
            "day,hour,day,wind",
            ColumnsFault::Twice("day"),
            "column day twice",
        ),
    ];
    for (text, fault, line) in faults {
        let found = columns_of(alloc, text).err().expect(&rt, "a fault");
        same(&rt, found, fault, text.len());
        let told = found.to_string(alloc).expect(&rt, "memory");
        same(&rt, told.as_str(), line, text.len());
    }
}
