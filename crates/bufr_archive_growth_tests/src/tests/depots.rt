use crate::tests::refusals::repeated;
use crate::tests::same;
use crate::tests::samples::{
    COLDER, MONTH_13, NEXT_IN_MONTH_13, NEXT_STATION, PAIR_BACK, PAIR_FRONT, SEQUENCES,
    SEQUENCES_BACK, SEQUENCES_FRONT, UPDATED, assert_holds, first, joined, tables,
};
use bufr_archive::{
    Answer, Depot, MapShelf, Plan, Ran, Shelf, SortedShelf, Step, StepFault, run_both,
};
use bufr_base::Items;
use bufr_tables::Tables;
use std::alloc::Global;
use std::process::Abort;

fn assert_slot<S: Shelf>(
    rt: &impl Abort,
    alloc: Global,
    depot: &Depot<S>,
    slot: usize,
    held: &[&[u8]],
) {
    let archive = depot.archive(slot).expect(rt, "a slot");
    assert_holds(rt, alloc, archive, held);
}

fn feed(rt: &impl Abort, alloc: Global, slot: usize, parts: &[&[u8]]) -> Step {
    let piece = Items::from_vec(joined(rt, alloc, parts));
    Step::Feed { slot, piece }
}

/// A step of a slot. A join names the slot that this one takes in.
enum Done {
    Feed(&'static [&'static [u8]]),
    End,
    Merge(usize),
    Transfer(usize),
    Copy(usize),
}

use Done::{Copy, End, Feed, Merge, Transfer};

fn step_of(rt: &impl Abort, alloc: Global, done: &Done, slot: usize) -> Step {
    let into = slot;
    match done {
        Feed(parts) => feed(rt, alloc, slot, *parts),
        End => Step::End { slot },
        Merge(from) => Step::Merge { from: *from, into },
        Transfer(from) => Step::Transfer { from: *from, into },
        Copy(from) => Step::Copy { from: *from, into },
    }
}

/// The answer to a step that brings these messages and new reports, `before` of them for the second
/// time.
fn answer_of(done: &Done, messages: u128, new: u128, before: u128) -> Answer {
    let changed = new.saturating_sub(before);
    match done {
        Feed(_) => Answer::Fed {
            messages,
            refused: 0,
            changed,
        },
        End => Answer::Ended {
            messages,
            refused: 0,
            changed,
        },
        Merge(_) | Transfer(_) | Copy(_) => Answer::Joined,
    }
}

/// A step, its slot, its messages and new reports, and the slot's reports before and after it.
type Row = (
    Done,
    usize,
    u128,
    u128,
    &'static [&'static [u8]],
    &'static [&'static [u8]],
);

/// Two messages with a stray `BUFR` between, so that the second is sure only at the end; and then
/// each kind of join, into a slot with a report of a common key and one without a key.
const JOINS: &[Row] = &[
    (Feed(&[PAIR_FRONT]), 0, 0, 0, &[], &[]),
    (Feed(&[PAIR_BACK, b"BUFR", MONTH_13]), 0, 1, 2, &[], TWO),
    (End, 0, 1, 1, TWO, THREE),
    (Feed(OTHERS), 1, 2, 2, &[], OTHERS),
    (Merge(0), 1, 0, 0, OTHERS, ALL),
    (Feed(OTHERS), 2, 2, 2, &[], OTHERS),
    (Transfer(0), 2, 0, 0, OTHERS, ALL),
    (Feed(OTHERS), 3, 2, 2, &[], OTHERS),
    (Copy(0), 3, 0, 0, OTHERS, ALL),
];

/// The first message in two pieces, a transfer to the other slot, and the update in both slots.
const DEPOT: &[Row] = &[
    (Feed(&[SEQUENCES_FRONT]), 0, 0, 0, &[], &[]),
    (Feed(&[SEQUENCES_BACK]), 0, 1, 1, &[], &[SEQUENCES]),
    (End, 0, 0, 0, &[SEQUENCES], &[SEQUENCES]),
    (Transfer(0), 1, 0, 0, &[], &[SEQUENCES]),
    (Feed(&[UPDATED]), 1, 1, 1, &[SEQUENCES], &[UPDATED]),
    (End, 1, 0, 0, &[UPDATED], &[UPDATED]),
    (Merge(1), 0, 0, 0, &[SEQUENCES], &[UPDATED]),
    (Copy(0), 1, 0, 0, &[UPDATED], &[UPDATED]),
];

/// The slots of a depot, its steps, and what the first slot has after them.
const DEPOTS: &[(usize, &[Row], &[&[u8]])] = &[(4, JOINS, THREE), (2, DEPOT, &[UPDATED])];

/// The reports of the first slot, of another, and of that one after it takes in the first.
const TWO: &[&[u8]] = &[SEQUENCES, NEXT_STATION];

const THREE: &[&[u8]] = &[SEQUENCES, NEXT_STATION, MONTH_13];

const OTHERS: &[&[u8]] = &[COLDER, NEXT_IN_MONTH_13];

const ALL: &[&[u8]] = &[SEQUENCES, NEXT_STATION, MONTH_13, NEXT_IN_MONTH_13];

/// The slot has its old reports and the first `joined` new ones.
fn assert_refused<S: Shelf>(
    rt: &impl Abort,
    alloc: Global,
    depot: &Depot<S>,
    row: &Row,
    joined: u128,
) {
    let (_, slot, _, new, before, after) = row;
    if joined == 0 {
        assert_slot(rt, alloc, depot, *slot, *before);
    } else if joined == *new {
        assert_slot(rt, alloc, depot, *slot, *after);
    } else {
        let told = (before.len() as u128).saturating_add(joined);
        assert_slot(rt, alloc, depot, *slot, first(rt, *after, told));
    }
}

fn does<S: Shelf>(rt: &impl Abort, alloc: Global, depot: &mut Depot<S>, row: &Row) {
    let (done, slot, messages, new, _, after) = row;
    let step = step_of(rt, alloc, done, *slot);
    let mut before = 0;
    let mut answer = depot.step(&step);
    if let Err(StepFault::OutOfMemory { joined }) = answer {
        assert_refused(rt, alloc, depot, row, joined);
        before = joined;
        answer = depot.step(&step);
    }
    same(rt, answer, Ok(answer_of(done, *messages, *new, before)));
    assert_slot(rt, alloc, depot, *slot, *after);
    drop(step);
}

fn depot_of<'t, S: Shelf>(
    rt: &impl Abort,
    alloc: Global,
    tables: &'t Tables,
    slots: usize,
) -> Depot<'t, S> {
    repeated!(rt, Depot::new(alloc, tables, slots))
}

fn steps<S: Shelf>(rt: &impl Abort, alloc: Global, tables: &Tables) {
    for (slots, rows, held) in DEPOTS {
        let mut depot: Depot<S> = depot_of(rt, alloc, tables, *slots);
        do_all(rt, alloc, &mut depot, *rows);
        assert_slot(rt, alloc, &depot, 0, *held);
        drop(depot);
    }
}

fn do_all<S: Shelf>(rt: &impl Abort, alloc: Global, depot: &mut Depot<S>, rows: &[Row]) {
    for row in rows {
        does(rt, alloc, depot, row);
    }
}

#[test]
fn refused_growth_in_a_depot(rt: HostRuntime) {
    let tables = tables(&rt, rt.alloc());
    steps::<MapShelf>(&rt, rt.alloc(), &tables);
    steps::<SortedShelf>(&rt, rt.alloc(), &tables);
    drop(tables);
}

/// The number of reports that a step brought, by its answer.
fn brought(answer: &Result<Answer, StepFault>, all: u128) -> u128 {
    match answer {
        Ok(_) => all,
        Err(StepFault::OutOfMemory { joined }) => *joined,
        Err(_) => 0,
    }
}

/// The depot holds what the answers say. Returns whether each step was done.
fn assert_told<S: Shelf>(
    rt: &impl Abort,
    alloc: Global,
    depot: &Depot<S>,
    answers: &[Result<Answer, StepFault>],
) -> bool {
    let [fed, ended, joined] = answers else {
        panic!(rt; "three answers");
    };
    let told = brought(fed, 3);
    assert_slot(rt, alloc, depot, 0, first(rt, THREE, told));
    assert_slot(rt, alloc, depot, 1, first(rt, THREE, brought(joined, told)));
    fed.is_ok() && ended.is_ok() && joined.is_ok()
}

/// Runs steps; a refused run does none. Returns whether each was done.
fn run<S: Shelf>(rt: &impl Abort, alloc: Global, depot: &mut Depot<S>, steps: &[Step]) -> bool {
    let answers = repeated!(rt, depot.run(steps), assert_slot(rt, alloc, depot, 0, &[]));
    let told = assert_told(rt, alloc, depot, &answers);
    drop(answers);
    told
}

fn runs<S: Shelf>(rt: &impl Abort, alloc: Global, tables: &Tables, steps: &[Step]) {
    let mut depot: Depot<S> = depot_of(rt, alloc, tables, 2);
    if !run(rt, alloc, &mut depot, steps) {
        assert!(rt; run(rt, alloc, &mut depot, steps));
    }
    drop(depot);
}

fn steps_of(rt: &impl Abort, alloc: Global) -> [Step; 3] {
    [
        feed(rt, alloc, 0, &[PAIR_FRONT, PAIR_BACK, MONTH_13]),
        Step::End { slot: 0 },
        Step::Transfer { from: 0, into: 1 },
    ]
}

#[test]
fn depots_run(rt: HostRuntime) {
    let tables = tables(&rt, rt.alloc());
    let steps = steps_of(&rt, rt.alloc());
    runs::<MapShelf>(&rt, rt.alloc(), &tables, &steps);
    runs::<SortedShelf>(&rt, rt.alloc(), &tables, &steps);
    drop(steps);
    drop(tables);
}

/// Runs two plans, on both shelves. Returns whether no step was refused.
fn run_plans(rt: &impl Abort, alloc: Global, plan: &Plan<'_, '_>, other: &Plan<'_, '_>) -> bool {
    let (one, two): (Ran<MapShelf>, Ran<SortedShelf>) = repeated!(rt, run_both(alloc, plan, other));
    let first = assert_told(rt, alloc, &one.depot, &one.answers);
    let second = assert_told(rt, alloc, &two.depot, &two.answers);
    drop(two);
    drop(one);
    first && second
}

fn plans_run(rt: &impl Abort, alloc: Global, tables: &Tables, steps: &[Step]) {
    let plan = Plan {
        tables,
        slots: 2,
        steps,
    };
    let other = Plan { steps, ..plan };
    if !run_plans(rt, alloc, &plan, &other) {
        assert!(rt; run_plans(rt, alloc, &plan, &other));
    }
}

#[test]
fn both_plans_run(rt: HostRuntime) {
    let tables = tables(&rt, rt.alloc());
    let steps = steps_of(&rt, rt.alloc());
    plans_run(&rt, rt.alloc(), &tables, &steps);
    drop(steps);
    drop(tables);
}
