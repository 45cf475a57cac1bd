//! Archives and depots over both shelves. Octets and answers are typed from the rules of messages,
//! archives and depots.
use bufr_archive::{
    Answer, Depot, MapShelf, Plan, Ran, Shelf, SortedShelf, Step, StepFault, run_both,
};
use bufr_base::Items;
use bufr_bits::device::IntoWrite;
use bufr_tables::{TableB, TableD, Tables};
use std::alloc::Global;
use std::fmt::Debug;
use std::process::Abort;

mod archives;
mod faults;
mod kept;
mod large;
mod shelves;

const TABLE_B: &str = "\
FXY,ElementName_en,BUFR_Unit,BUFR_Scale,BUFR_ReferenceValue,BUFR_DataWidth_Bits
001001,block number,Numeric,0,0,7
001002,station number,Numeric,0,0,10
004001,year,a,0,0,12
004002,month,mon,0,0,4
004003,day,d,0,0,6
004004,hour,h,0,0,5
004005,minute,min,0,0,6
004006,second,s,0,0,6
012101,temperature,K,2,0,16
031001,delayed descriptor replication factor,Numeric,0,0,8
";

const TABLE_D: &str = "\
FXY1,FXY2
301001,001001
301001,001002
301011,004001
301011,004002
301011,004003
301012,004004
301012,004005
";

/// Block 10 and station 384 at noon of 15 January 2024, 273.15 K.
const ROW_1: [u8; 62] = [
    0x42, 0x55, 0x46, 0x52, 0x00, 0x00, 0x3E, 0x04, 0x00, 0x00, 0x16, 0x00, 0x00, 0x62, 0x00, 0x00,
    0x00, 0x00, 0x00, 0x02, 0x00, 0x25, 0x00, 0x07, 0xE8, 0x01, 0x0F, 0x0C, 0x00, 0x00, 0x00, 0x00,
    0x0F, 0x00, 0x00, 0x01, 0x80, 0xC1, 0x01, 0xC1, 0x0B, 0xC1, 0x0C, 0x0C, 0x65, 0x00, 0x00, 0x0D,
    0x00, 0x14, 0xC0, 0x3F, 0x40, 0x9E, 0xC0, 0x1A, 0xAC, 0xC0, 0x37, 0x37, 0x37, 0x37,
];

/// The first message with update sequence number 1 and 274.00 K.
const UPDATED: [u8; 62] = [
    0x42, 0x55, 0x46, 0x52, 0x00, 0x00, 0x3E, 0x04, 0x00, 0x00, 0x16, 0x00, 0x00, 0x62, 0x00, 0x00,
    0x01, 0x00, 0x00, 0x02, 0x00, 0x25, 0x00, 0x07, 0xE8, 0x01, 0x0F, 0x0C, 0x00, 0x00, 0x00, 0x00,
    0x0F, 0x00, 0x00, 0x01, 0x80, 0xC1, 0x01, 0xC1, 0x0B, 0xC1, 0x0C, 0x0C, 0x65, 0x00, 0x00, 0x0D,
    0x00, 0x14, 0xC0, 0x3F, 0x40, 0x9E, 0xC0, 0x1A, 0xC2, 0x00, 0x37, 0x37, 0x37, 0x37,
];

/// The first message in two pieces.
const FRONT: &[u8] = b"BUFR\x00\x00\x3E\x04\
\x00\x00\x16\x00\x00\x62\x00\x00\x00\x00\x00\x02\x00\x25\x00\x07\xE8\x01\x0F\x0C\x00\x00";

const BACK: &[u8] = b"\x00\x00\x0F\x00\x00\x01\x80\xC1\x01\xC1\x0B\xC1\x0C\x0C\x65\
\x00\x00\x0D\x00\x14\xC0\x3F\x40\x9E\xC0\x1A\xAC\xC0\
7777";

/// The first message in month 13, so without a key.
const MONTH_13: [u8; 62] = [
    0x42, 0x55, 0x46, 0x52, 0x00, 0x00, 0x3E, 0x04, 0x00, 0x00, 0x16, 0x00, 0x00, 0x62, 0x00, 0x00,
    0x00, 0x00, 0x00, 0x02, 0x00, 0x25, 0x00, 0x07, 0xE8, 0x01, 0x0F, 0x0C, 0x00, 0x00, 0x00, 0x00,
    0x0F, 0x00, 0x00, 0x01, 0x80, 0xC1, 0x01, 0xC1, 0x0B, 0xC1, 0x0C, 0x0C, 0x65, 0x00, 0x00, 0x0D,
    0x00, 0x14, 0xC0, 0x3F, 0x46, 0x9E, 0xC0, 0x1A, 0xAC, 0xC0, 0x37, 0x37, 0x37, 0x37,
];

/// The first message with edition 5: no message.
const EDITION_5: [u8; 62] = [
    0x42, 0x55, 0x46, 0x52, 0x00, 0x00, 0x3E, 0x05, 0x00, 0x00, 0x16, 0x00, 0x00, 0x62, 0x00, 0x00,
    0x00, 0x00, 0x00, 0x02, 0x00, 0x25, 0x00, 0x07, 0xE8, 0x01, 0x0F, 0x0C, 0x00, 0x00, 0x00, 0x00,
    0x0F, 0x00, 0x00, 0x01, 0x80, 0xC1, 0x01, 0xC1, 0x0B, 0xC1, 0x0C, 0x0C, 0x65, 0x00, 0x00, 0x0D,
    0x00, 0x14, 0xC0, 0x3F, 0x40, 0x9E, 0xC0, 0x1A, 0xAC, 0xC0, 0x37, 0x37, 0x37, 0x37,
];

/// The first message and the next station as two plain subsets.
const PAIR: &[u8] = b"BUFR\x00\x00\x46\x04\
\x00\x00\x16\x00\x00\x62\x00\x00\x00\x00\x00\x02\x00\x25\x00\x07\xE8\x01\x0F\x0C\x00\x00\
\x00\x00\x0F\x00\x00\x02\x80\xC1\x01\xC1\x0B\xC1\x0C\x0C\x65\
\x00\x00\x15\x00\x14\xC0\x3F\x40\x9E\xC0\x1A\xAC\xC5\x30\x2F\xD0\x27\xB0\x06\xAB\x30\
7777";

/// The archive of its two reports.
const PAIR_PARTED: &[u8] = b"BUFR\x00\x00\x3E\x04\
\x00\x00\x16\x00\x00\x62\x00\x00\x00\x00\x00\x02\x00\x25\x00\x07\xE8\x01\x0F\x0C\x00\x00\
\x00\x00\x0F\x00\x00\x01\x80\xC1\x01\xC1\x0B\xC1\x0C\x0C\x65\
\x00\x00\x0D\x00\x14\xC0\x3F\x40\x9E\xC0\x1A\xAC\xC0\
7777\
BUFR\x00\x00\x3E\x04\
\x00\x00\x16\x00\x00\x62\x00\x00\x00\x00\x00\x02\x00\x25\x00\x07\xE8\x01\x0F\x0C\x00\x00\
\x00\x00\x0F\x00\x00\x01\x80\xC1\x01\xC1\x0B\xC1\x0C\x0C\x65\
\x00\x00\x0D\x00\x14\xC0\xBF\x40\x9E\xC0\x1A\xAC\xC0\
7777";

/// The archive of the first message and of the one without a key.
const BOTH: &[u8] = b"BUFR\x00\x00\x3E\x04\
\x00\x00\x16\x00\x00\x62\x00\x00\x00\x00\x00\x02\x00\x25\x00\x07\xE8\x01\x0F\x0C\x00\x00\
\x00\x00\x0F\x00\x00\x01\x80\xC1\x01\xC1\x0B\xC1\x0C\x0C\x65\
\x00\x00\x0D\x00\x14\xC0\x3F\x40\x9E\xC0\x1A\xAC\xC0\
7777\
BUFR\x00\x00\x3E\x04\
\x00\x00\x16\x00\x00\x62\x00\x00\x00\x00\x00\x02\x00\x25\x00\x07\xE8\x01\x0F\x0C\x00\x00\
\x00\x00\x0F\x00\x00\x01\x80\xC1\x01\xC1\x0B\xC1\x0C\x0C\x65\
\x00\x00\x0D\x00\x14\xC0\x3F\x46\x9E\xC0\x1A\xAC\xC0\
7777";

/// A step: a slot's stream goes on or ends, or one slot merges into another, directly, by its text
/// or by a copy.
enum Done {
    Feed(usize, &'static [u8]),
    End(usize),
    Merge(usize, usize),
    Transfer(usize, usize),
    Copy(usize, usize),
}

use Done::{Copy, End, Feed, Merge, Transfer};

/// An answer. The counts are messages, refused frames, and reports that changed the archive.
enum Told {
    Fed(u128, u128, u128),
    Ended(u128, u128, u128),
    Joined,
    NoSlot(usize),
}

use Told::{Ended, Fed, Joined, NoSlot};

fn same<T: PartialEq + Debug + Drop>(rt: &impl Abort, found: T, wanted: T) {
    assert_eq!(rt; found, wanted);
}

fn tables(rt: &impl Abort, alloc: Global) -> Tables {
    let b = TableB::parse(alloc, TABLE_B.as_bytes()).expect(rt, "table B");
    let d = TableD::parse(alloc, TABLE_D.as_bytes()).expect(rt, "table D");
    Tables::new(b, d)
}

fn feed(rt: &impl Abort, alloc: Global, slot: usize, octets: &[u8]) -> Step {
    let piece = Items::from_vec(Vec::from_slice(alloc, octets).expect(rt, "room"));
    Step::Feed { slot, piece }
}

fn step_of(rt: &impl Abort, alloc: Global, done: &Done) -> Step {
    match done {
        Feed(slot, octets) => feed(rt, alloc, *slot, *octets),
        End(slot) => Step::End { slot: *slot },
        Merge(from, into) => Step::Merge {
            from: *from,
            into: *into,
        },
        Transfer(from, into) => Step::Transfer {
            from: *from,
            into: *into,
        },
        Copy(from, into) => Step::Copy {
            from: *from,
            into: *into,
        },
    }
}

fn answer_of(told: &Told) -> Result<Answer, StepFault> {
    match told {
        Fed(messages, refused, changed) => Ok(Answer::Fed {
            messages: *messages,
            refused: *refused,
            changed: *changed,
        }),
        Ended(messages, refused, changed) => Ok(Answer::Ended {
            messages: *messages,
            refused: *refused,
            changed: *changed,
        }),
        Joined => Ok(Answer::Joined),
        NoSlot(slot) => Err(StepFault::NoSlot(*slot)),
    }
}

fn does<S: Shelf>(rt: &impl Abort, alloc: Global, depot: &mut Depot<S>, done: &Done, told: &Told) {
    let step = step_of(rt, alloc, done);
    same(rt, depot.step(&step), answer_of(told));
    drop(step);
}

fn assert_writes<S: Shelf>(
    rt: &impl Abort,
    alloc: Global,
    depot: &Depot<S>,
    slot: usize,
    text: &[u8],
) {
    let archive = depot.archive(slot).expect(rt, "a slot");
    let mut sink = IntoWrite::new(Vec::new(alloc));
    archive.write(&mut sink).expect(rt, "room");
    assert!(rt; sink.into_inner().as_slice() == text, "{slot}");
}

type Written = (usize, &'static [u8]);

fn assert_all_write<S: Shelf>(
    rt: &impl Abort,
    alloc: Global,
    depot: &Depot<S>,
    written: &[Written],
) {
    for (slot, text) in written {
        assert_writes(rt, alloc, depot, *slot, *text);
    }
}

/// A step, its answer, and the texts of slots after it.
type Row = (Done, Told, &'static [Written]);

fn one_by_one<S: Shelf>(
    rt: &impl Abort,
    alloc: Global,
    tables: &Tables,
    slots: usize,
    rows: &[Row],
) {
    let mut depot: Depot<S> = Depot::new(alloc, tables, slots).expect(rt, "room");
    for (done, told, written) in rows {
        does(rt, alloc, &mut depot, done, told);
        assert_all_write(rt, alloc, &depot, *written);
    }
    drop(depot);
}

/// The first message in two pieces, a transfer to the other slot, and the update in both slots.
const DEPOT: &[Row] = &[
    (Feed(0, FRONT), Fed(0, 0, 0), &[]),
    (Feed(0, BACK), Fed(1, 0, 1), &[]),
    (End(0), Ended(0, 0, 0), &[(1, &[])]),
    (Transfer(0, 1), Joined, &[(1, &ROW_1)]),
    (Feed(1, &UPDATED), Fed(1, 0, 1), &[]),
    (End(1), Ended(0, 0, 0), &[]),
    (Merge(1, 0), Joined, &[]),
    (Copy(0, 1), Joined, &[(0, &UPDATED), (1, &UPDATED)]),
    (End(9), NoSlot(9), &[(0, &UPDATED), (1, &UPDATED)]),
];

/// The same, with a merge of a slot with itself before the copy.
const SELF_MERGE: &[Row] = &[
    (Feed(0, FRONT), Fed(0, 0, 0), &[]),
    (Feed(0, BACK), Fed(1, 0, 1), &[]),
    (End(0), Ended(0, 0, 0), &[(1, &[])]),
    (Transfer(0, 1), Joined, &[(1, &ROW_1)]),
    (Feed(1, &UPDATED), Fed(1, 0, 1), &[]),
    (End(1), Ended(0, 0, 0), &[]),
    (Merge(1, 0), Joined, &[]),
    (Merge(0, 0), Joined, &[(0, &UPDATED), (1, &UPDATED)]),
    (Copy(0, 1), Joined, &[(0, &UPDATED), (1, &UPDATED)]),
];

/// A slot that takes in itself stays as it is, with a report without a key. Then each kind of join
/// brings that report to an empty slot, and another report beside it.
const ITSELF: &[Row] = &[
    (Feed(0, &MONTH_13), Fed(1, 0, 1), &[]),
    (Merge(0, 0), Joined, &[(0, &MONTH_13)]),
    (Transfer(0, 0), Joined, &[(0, &MONTH_13)]),
    (Copy(0, 0), Joined, &[(0, &MONTH_13)]),
    (Merge(0, 1), Joined, &[(1, &MONTH_13)]),
    (Transfer(0, 2), Joined, &[(2, &MONTH_13)]),
    (Copy(0, 3), Joined, &[(3, &MONTH_13)]),
    (Feed(4, &ROW_1), Fed(1, 0, 1), &[]),
    (Merge(4, 1), Joined, &[(1, BOTH)]),
    (Transfer(4, 2), Joined, &[(2, BOTH)]),
    (
        Copy(4, 3),
        Joined,
        &[(1, BOTH), (2, BOTH), (3, BOTH), (4, &ROW_1)],
    ),
];

/// The fault names the first slot that is not there.
const MISSING: &[Row] = &[
    (Feed(1, &ROW_1), NoSlot(1), &[]),
    (End(2), NoSlot(2), &[]),
    (Merge(3, 4), NoSlot(3), &[]),
    (Merge(0, 4), NoSlot(4), &[]),
    (Transfer(5, 0), NoSlot(5), &[]),
    (Transfer(0, 6), NoSlot(6), &[]),
    (Copy(7, 8), NoSlot(7), &[]),
    (Copy(0, 8), NoSlot(8), &[(0, &[])]),
];

/// The counts have frames that spell no message, also those that only an end brings; an end adds its
/// messages. The last message has one new report of two.
const FRAMES: &[Row] = &[
    (Feed(0, &EDITION_5), Fed(0, 1, 0), &[]),
    (Feed(0, b"BUFR"), Fed(0, 0, 0), &[]),
    (Feed(0, &ROW_1), Fed(0, 0, 0), &[]),
    (Feed(0, &EDITION_5), Fed(0, 0, 0), &[]),
    (Feed(0, &EDITION_5), Fed(0, 0, 0), &[]),
    (Feed(0, &ROW_1), Fed(0, 0, 0), &[]),
    (Feed(0, &EDITION_5), Fed(0, 0, 0), &[]),
    (End(0), Ended(2, 3, 1), &[]),
    (Feed(0, &ROW_1), Fed(1, 0, 0), &[(0, &ROW_1)]),
    (Feed(0, PAIR), Fed(1, 0, 1), &[(0, PAIR_PARTED)]),
];

/// The last of a thousand slots takes in a message.
const LAST: &[Row] = &[(Feed(999, &ROW_1), Fed(1, 0, 1), &[(0, &[]), (999, &ROW_1)])];

const DEPOTS: &[(usize, &[Row])] = &[
    (2, DEPOT),
    (2, SELF_MERGE),
    (5, ITSELF),
    (1, MISSING),
    (1, FRAMES),
    (1000, LAST),
];

/// Runs the steps of rows at once: each has its answer, and the slots have the texts of the last.
fn at_once<S: Shelf>(rt: &impl Abort, alloc: Global, tables: &Tables, slots: usize, rows: &[Row]) {
    let mut depot: Depot<S> = Depot::new(alloc, tables, slots).expect(rt, "room");
    let mut steps = Vec::new(alloc);
    for (done, _, _) in rows {
        steps.push(step_of(rt, alloc, done)).expect(rt, "room");
    }
    let answers = depot.run(&steps).expect(rt, "room");
    same(rt, answers.len(), rows.len());
    for ((_, told, _), answer) in rows.iter().zip(&answers) {
        same(rt, *answer, answer_of(told));
    }
    if let Some((_, _, written)) = rows.last() {
        assert_all_write(rt, alloc, &depot, *written);
    }
    drop(answers);
    drop(steps);
    drop(depot);
}

/// Runs the steps of rows over both shelves, one by one and in one run.
fn run_rows(rt: &impl Abort, alloc: Global, tables: &Tables, slots: usize, rows: &[Row]) {
    one_by_one::<MapShelf>(rt, alloc, tables, slots, rows);
    one_by_one::<SortedShelf>(rt, alloc, tables, slots, rows);
    at_once::<MapShelf>(rt, alloc, tables, slots, rows);
    at_once::<SortedShelf>(rt, alloc, tables, slots, rows);
}

/// The steps have these answers over both shelves, one by one and in one run.
#[test]
fn steps(rt: HostRuntime) {
    let tables = tables(&rt, rt.alloc());
    for (slots, rows) in DEPOTS {
        run_rows(&rt, rt.alloc(), &tables, *slots, *rows);
    }
    drop(tables);
}
