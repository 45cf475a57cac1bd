//! Many reports in a slot, and many steps.

ghost use Rattle.std.specs.Prelude.{◌<◌};

use super::archives::first_key;
use super::{Ended, Fed, Joined, ROW_1, Told, answer_of, assert_writes, feed, same, tables};
use bufr_archive::{
    Answer, Archive, MapShelf, Plan, Ran, Shelf, SortedShelf, Step, StepFault, run_both,
};
use std::alloc::Global;
use std::process::Abort;

/// The octets of a block of seven bits and a number of ten, before seven other bits.
fn place_of(number: u32) -> u32
    requires { number < 1100 }
{
    (10 + number / 1000) << 17 | (number % 1000) << 7
}

/// The first message at 1,100 stations in order: 0 to 999 of block 10, and 0 to 99 of block 11;
/// 68,200 octets, the text of their archive.
fn stations(rt: &impl Abort, alloc: Global, update: u8) -> Vec<u8> {
    let mut text = Vec::new(alloc);
    for number in 0u32..1100 {
        let mut octets = ROW_1;
        octets[16] = update;
        // Block and number, and then the first bit of the year.
        let [_, first, second, third] = place_of(number).to_be_bytes();
        octets[49] = first;
        octets[50] = second;
        octets[51] = (octets[51] & 0x7F) | third;
        text.extend_from_slice(octets.as_slice()).expect(rt, "room");
    }
    text
}

/// The stations with update number 1 in pieces of one, and with update number 0 in one piece for
/// the next slot. Each kind of join brings the first slot to one more.
fn steps_of(rt: &impl Abort, alloc: Global, text: &[u8]) -> Vec<Step> {
    let mut steps = Vec::new(alloc);
    for piece in text.chunks(62) {
        steps.push(feed(rt, alloc, 0, piece)).expect(rt, "room");
    }
    let before = stations(rt, alloc, 0);
    steps.push(feed(rt, alloc, 1, &before)).expect(rt, "room");
    steps.push(Step::End { slot: 1 }).expect(rt, "room");
    steps
        .push(Step::Merge { from: 0, into: 1 })
        .expect(rt, "room");
    steps
        .push(Step::Transfer { from: 1, into: 2 })
        .expect(rt, "room");
    steps
        .push(Step::Copy { from: 2, into: 3 })
        .expect(rt, "room");
    steps
}

const LAST: &[Told] = &[Fed(1100, 0, 1100), Ended(0, 0, 0), Joined, Joined, Joined];

fn assert_answers(rt: &impl Abort, answers: &[Result<Answer, StepFault>]) {
    same(rt, answers.len(), 1105);
    for (place, answer) in answers.iter().enumerate() {
        let told = match place.checked_sub(1100) {
            Some(behind) => LAST.get(behind).expect(rt, "five steps"),
            None => &Fed(1, 0, 1),
        };
        same(rt, *answer, answer_of(told));
    }
}

/// The archive has all stations, and finds one by its key.
fn assert_found<S: Shelf>(rt: &impl Abort, archive: &Archive<S>, text: &[u8]) {
    same(rt, archive.len(), 1100);
    let found = archive.get(&first_key(777)).expect(rt, "a report");
    same(
        rt,
        found,
        text.get(777 * 62..778 * 62).expect(rt, "a report"),
    );
    assert!(rt; archive.get(&first_key(1000)).is_none());
}

fn assert_ran<S: Shelf>(rt: &impl Abort, alloc: Global, ran: &Ran<S>, text: &[u8]) {
    assert_answers(rt, &ran.answers);
    for slot in 0..4 {
        assert_writes(rt, alloc, &ran.depot, slot, text);
    }
    let archive = ran.depot.archive(3).expect(rt, "a slot");
    assert_found(rt, archive, text);
}

/// Runs a plan alone and beside an equal one, over both shelves.
fn run_all(rt: &impl Abort, alloc: Global, plan: &Plan<'_, '_>, other: &Plan<'_, '_>, text: &[u8]) {
    let ran: Ran<SortedShelf> = plan.run(alloc).expect(rt, "room");
    assert_ran(rt, alloc, &ran, text);
    drop(ran);
    let both = run_both(alloc, plan, other);
    let (first, second): (Ran<MapShelf>, Ran<SortedShelf>) = both.expect(rt, "room");
    assert_ran(rt, alloc, &first, text);
    assert_ran(rt, alloc, &second, text);
    drop(second);
    drop(first);
}

#[test]
fn plans_of_a_thousand_reports(rt: HostRuntime) {
    let tables = tables(&rt, rt.alloc());
    let text = stations(&rt, rt.alloc(), 1);
    let steps = steps_of(&rt, rt.alloc(), &text);
    let plan = Plan {
        tables: &tables,
        slots: 4,
        steps: &steps,
    };
    let other = Plan {
        steps: &steps,
        ..plan
    };
    run_all(&rt, rt.alloc(), &plan, &other, &text);
    drop(steps);
    drop(tables);
}
