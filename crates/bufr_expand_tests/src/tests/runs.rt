//! Tests of turns and elements passed at once.

ghost use Rattle.std.specs.Prelude.{◌≡◌, false};
ghost use Rattle.bufr_expand.specs.Walks.{waits};

use super::same;
use super::samples::{Field, answer, step, template_of};
use bufr_expand::{EvenTurns, Run, Step, Walk};
use bufr_tables::Kind;
use std::alloc::Global;
use std::process::Abort;

/// The start of a walk: the items before it, its steps, and the number of each count.
type Before = (u64, u64, u64);

/// Descriptors, the start of a walk, the most bits to pass, the fields, items and bits passed, the
/// items after them, and the next field.
type Row<'a> = (
    &'a [u32],
    Before,
    u128,
    Option<(u64, u64, u128)>,
    u64,
    Option<Field>,
);

fn parts(run: Option<Run>) -> Option<(u64, u64, u128)> {
    match run {
        Some(run) => Some((run.fields, run.items, run.bits)),
        None => None,
    }
}

/// What a walk passes at once.
#[derive(Clone, Copy)]
enum Passed {
    Turns,
    Elements,
}

fn pass(walk: &mut Walk<'_>, passed: Passed, most: u128) -> Option<Run>
    requires { waits walk.old ≡ false }
    ensures { waits walk.new ≡ false }
{
    match passed {
        Passed::Turns => walk.pass_turns(most),
        Passed::Elements => walk.pass_elements(most),
    }
}

fn assert_passes(rt: &impl Abort, walk: &mut Walk<'_>, passed: Passed, row: &Row<'_>)
    requires { waits walk.old ≡ false }
{
    let (_, (_, steps, told), most, run, items, next) = *row;
    for _ in 0..steps {
        let _ = step(walk, told);
    }
    same(rt, parts(pass(walk, passed, most)), run);
    same(rt, walk.items(), items);
    same(rt, walk.next(), Ok(answer(rt, next)));
}

fn assert_row(rt: &impl Abort, alloc: Global, passed: Passed, row: &Row<'_>) {
    let (digits, (used, _, _), _, _, _, _) = *row;
    let template = template_of(rt, alloc, digits);
    let mut walk = Walk::start(alloc, &template, used).expect(rt, "room");
    assert_passes(rt, &mut walk, passed, row);
    drop(walk);
    drop(template);
}

/// More bits than any row has.
const MANY: u128 = 1_000_000;

const PAIRS: &[u32] = &[102000, 31001, 12101, 1001];

const TEMPERATURES: &[u32] = &[101000, 31001, 12101];

/// Turns in turns.
const TURNS: &[u32] = &[103000, 31001, 101003, 12101, 1001];

/// A count in turns.
const COUNTS: &[u32] = &[104000, 31001, 1001, 101000, 31001, 12101];

/// Turns with an operator, and turns with a field that has no spec.
const WITH_AN_OPERATOR: &[u32] = &[102000, 31001, 12101, 201130];

const WITHOUT_A_SPEC: &[u32] = &[102000, 31001, 12101, 12102];

/// Turns under an operator, and turns with a field that it does not change.
const UNDER_AN_OPERATOR: &[u32] = &[201130, 102000, 31001, 12101, 1011];

const UNTOUCHED: &[u32] = &[201130, 103000, 31001, 206016, 12101, 12101];

/// A count, a temperature, and a block number.
const COUNT: Option<Field> = Some((31001, Kind::Count, 0, 8));

const TEMPERATURE_FIELD: Field = (12101, Kind::Quantity, 2, 16);

const TEMPERATURE: Option<Field> = Some(TEMPERATURE_FIELD);

const NUMBER_FIELD: Field = (1001, Kind::Quantity, 0, 7);

const NUMBER: Option<Field> = Some(NUMBER_FIELD);

/// Turns that a walk passes at once, or not.
const ROWS: &[Row<'static>] = &[
    // all of them, and one bit too many
    (PAIRS, (0, 1, 100), 2300, Some((200, 300, 2300)), 301, None),
    (PAIRS, (0, 1, 100), 2299, None, 1, TEMPERATURE),
    // those left
    (PAIRS, (0, 0, 100), MANY, None, 0, COUNT),
    (PAIRS, (0, 1, 0), MANY, None, 1, None),
    (PAIRS, (0, 2, 100), MANY, None, 3, NUMBER),
    (PAIRS, (0, 3, 100), MANY, Some((198, 297, 2277)), 301, None),
    // turns in turns, and counts in turns
    (TURNS, (0, 1, 4), MANY, Some((16, 36, 220)), 37, None),
    (TURNS, (0, 2, 4), MANY, Some((2, 4, 32)), 9, NUMBER),
    (COUNTS, (0, 1, 4), MANY, None, 1, NUMBER),
    (COUNTS, (0, 3, 4), MANY, Some((4, 8, 64)), 12, NUMBER),
    // operators in turns, and before them
    (WITH_AN_OPERATOR, (0, 1, 2), MANY, None, 1, TEMPERATURE),
    (WITHOUT_A_SPEC, (0, 1, 2), MANY, None, 1, TEMPERATURE),
    (
        UNDER_AN_OPERATOR,
        (0, 1, 5),
        MANY,
        Some((10, 15, 450)),
        17,
        None,
    ),
    (UNTOUCHED, (0, 1, 2), MANY, Some((4, 6, 68)), 8, None),
    // the last item
    (
        &[12101],
        (16_777_215, 0, 0),
        MANY,
        None,
        16_777_215,
        TEMPERATURE,
    ),
    // the greatest number of items, and one more
    (
        TEMPERATURES,
        (16_776_705, 1, 255),
        MANY,
        Some((255, 510, 4080)),
        16_777_216,
        None,
    ),
    (
        TEMPERATURES,
        (16_776_706, 1, 255),
        MANY,
        None,
        16_776_707,
        TEMPERATURE,
    ),
];

#[test]
fn turns_at_once(rt: HostRuntime) {
    for row in ROWS {
        assert_row(&rt, rt.alloc(), Passed::Turns, row);
    }
}

/// A temperature and a name; a temperature before an operator, and two after it; one before a
/// replication, and a block before a count.
const BOTH: &[u32] = &[12101, 1011];

const BEFORE_AN_OPERATOR: &[u32] = &[12101, 201130, 12101, 12101, 201000, 1001];

const BEFORE_TURNS: &[u32] = &[12101, 101002, 12101];

const BEFORE_A_COUNT: &[u32] = &[1001, 101000, 31001, 12101];

/// Elements, the second of them as in the table whatever operators are in force.
const AS_IN_TABLE: &[u32] = &[1001, 206016, 12101, 12101];

/// Elements that a walk passes at once, or not.
const ELEMENT_ROWS: &[Row<'static>] = &[
    // all of them, those left, and one bit too many
    (BOTH, (0, 0, 0), MANY, Some((2, 2, 88)), 2, None),
    (BOTH, (0, 1, 0), MANY, Some((1, 1, 72)), 2, None),
    (BOTH, (0, 2, 0), MANY, None, 2, None),
    (BOTH, (5, 0, 0), 88, Some((2, 2, 88)), 7, None),
    (BOTH, (0, 0, 0), 87, None, 0, TEMPERATURE),
    (AS_IN_TABLE, (0, 0, 0), MANY, Some((3, 3, 39)), 3, None),
    // up to an operator, and under it
    (
        BEFORE_AN_OPERATOR,
        (0, 0, 0),
        MANY,
        Some((1, 1, 16)),
        1,
        Some(WIDER),
    ),
    (
        BEFORE_AN_OPERATOR,
        (0, 2, 0),
        MANY,
        Some((1, 1, 18)),
        4,
        NUMBER,
    ),
    // up to a replication and a count
    (
        BEFORE_TURNS,
        (0, 0, 0),
        MANY,
        Some((1, 1, 16)),
        1,
        TEMPERATURE,
    ),
    (BEFORE_A_COUNT, (0, 0, 0), MANY, Some((1, 1, 7)), 1, COUNT),
    (BEFORE_A_COUNT, (0, 1, 2), MANY, None, 1, COUNT),
    // in a turn: no further than its end
    (PAIRS, (0, 1, 2), MANY, None, 1, TEMPERATURE),
    (PAIRS, (0, 2, 2), MANY, Some((1, 1, 7)), 4, TEMPERATURE),
    (PAIRS, (0, 4, 2), MANY, Some((1, 1, 7)), 7, None),
    // the greatest number of items, and one more
    (
        BOTH,
        (16_777_214, 0, 0),
        MANY,
        Some((2, 2, 88)),
        16_777_216,
        None,
    ),
    (
        BOTH,
        (16_777_215, 0, 0),
        MANY,
        None,
        16_777_215,
        TEMPERATURE,
    ),
];

#[test]
fn elements_at_once(rt: HostRuntime) {
    for row in ELEMENT_ROWS {
        assert_row(&rt, rt.alloc(), Passed::Elements, row);
    }
}

/// Turns that are laid out: their number, and the fields of one of them.
type Laid<'a> = (u64, &'a [Field]);

/// Descriptors, the start of a walk, the turns laid out, the items after them, and the next field.
type LaidRow<'a> = (&'a [u32], Before, Option<Laid<'a>>, u64, Option<Field>);

fn assert_fields(rt: &impl Abort, turns: &EvenTurns, wanted: &[Field]) {
    same(rt, turns.fields.len(), wanted.len());
    for (field, next) in turns.fields.iter().zip(wanted) {
        same(
            rt,
            Step::Field(field.fxy, field.spec),
            answer(rt, Some(*next)),
        );
    }
}

fn assert_laid(rt: &impl Abort, found: Option<EvenTurns>, wanted: Option<Laid<'_>>) {
    match (&found, wanted) {
        (Some(turns), Some((times, fields))) => {
            same(rt, turns.turns, times);
            assert_fields(rt, turns, fields);
        }
        _ => same(rt, found.is_some(), wanted.is_some()),
    }
    drop(found);
}

fn assert_lays(rt: &impl Abort, alloc: Global, walk: &mut Walk<'_>, row: &LaidRow<'_>)
    requires { waits walk.old ≡ false }
{
    let (_, (_, steps, told), wanted, items, next) = *row;
    for _ in 0..steps {
        let _ = step(walk, told);
    }
    let found = walk.lay_turns(alloc).expect(rt, "room");
    assert_laid(rt, found, wanted);
    same(rt, walk.items(), items);
    same(rt, walk.next(), Ok(answer(rt, next)));
}

fn assert_laid_row(rt: &impl Abort, alloc: Global, row: &LaidRow<'_>) {
    let (digits, (used, _, _), _, _, _) = *row;
    let template = template_of(rt, alloc, digits);
    let mut walk = Walk::start(alloc, &template, used).expect(rt, "room");
    assert_lays(rt, alloc, &mut walk, row);
    drop(walk);
    drop(template);
}

/// A temperature of 18 bits under 201130, and a name.
const WIDER: Field = (12101, Kind::Quantity, 2, 18);

const WIDER_NAME: Field = (1011, Kind::Text, 0, 72);

/// A temperature of scale 3 under 207001: 4 bits more.
const FINER: Field = (12101, Kind::Quantity, 3, 20);

/// An element that repeats nothing.
const REPEATS_NOTHING: Field = (31001, Kind::Quantity, 0, 8);

const COUNTED: &[u32] = &[102000, 31001, 1001, 31001];

/// Turns under 207, and a block after them.
const SCALED: &[u32] = &[207001, 101000, 31001, 12101, 207000, 1001];

/// Turns of a temperature, and then turns of a block.
const AFTER_TURNS: &[u32] = &[101000, 31001, 12101, 101000, 31001, 1001];

/// Turns that a walk lays out, or not.
const LAID_ROWS: &[LaidRow<'static>] = &[
    // all of them, and those left after one
    (
        PAIRS,
        (0, 1, 100),
        Some((100, &[TEMPERATURE_FIELD, NUMBER_FIELD])),
        301,
        None,
    ),
    (
        PAIRS,
        (0, 3, 100),
        Some((99, &[TEMPERATURE_FIELD, NUMBER_FIELD])),
        301,
        None,
    ),
    // before the count, in a turn, and if none is left
    (PAIRS, (0, 0, 100), None, 0, COUNT),
    (PAIRS, (0, 2, 100), None, 3, NUMBER),
    (PAIRS, (0, 1, 0), None, 1, None),
    (PAIRS, (0, 3, 1), None, 4, None),
    // a replication in turns: its own turns alone
    (TURNS, (0, 1, 4), None, 1, TEMPERATURE),
    (TURNS, (0, 2, 4), Some((2, &[TEMPERATURE_FIELD])), 9, NUMBER),
    (COUNTS, (0, 1, 4), None, 1, NUMBER),
    (
        COUNTS,
        (0, 3, 4),
        Some((4, &[TEMPERATURE_FIELD])),
        12,
        NUMBER,
    ),
    (
        COUNTED,
        (0, 1, 2),
        Some((2, &[NUMBER_FIELD, REPEATS_NOTHING])),
        7,
        None,
    ),
    // one replication after another
    (
        AFTER_TURNS,
        (0, 1, 3),
        Some((3, &[TEMPERATURE_FIELD])),
        7,
        COUNT,
    ),
    (AFTER_TURNS, (0, 5, 3), Some((3, &[NUMBER_FIELD])), 14, None),
    // operators and a field without a spec in turns
    (WITH_AN_OPERATOR, (0, 1, 2), None, 1, TEMPERATURE),
    (WITHOUT_A_SPEC, (0, 1, 2), None, 1, TEMPERATURE),
    // operators before the turns, and a field that they do not change
    (
        UNDER_AN_OPERATOR,
        (0, 1, 5),
        Some((5, &[WIDER, WIDER_NAME])),
        17,
        None,
    ),
    (
        UNTOUCHED,
        (0, 1, 2),
        Some((2, &[TEMPERATURE_FIELD, WIDER])),
        8,
        None,
    ),
    (SCALED, (0, 1, 3), Some((3, &[FINER])), 8, NUMBER),
    // the greatest number of items, and one more
    (
        TEMPERATURES,
        (16_776_705, 1, 255),
        Some((255, &[TEMPERATURE_FIELD])),
        16_777_216,
        None,
    ),
    (
        TEMPERATURES,
        (16_776_706, 1, 255),
        None,
        16_776_707,
        TEMPERATURE,
    ),
];

#[test]
fn turns_laid_out(rt: HostRuntime) {
    for row in LAID_ROWS {
        assert_laid_row(&rt, rt.alloc(), row);
    }
}
