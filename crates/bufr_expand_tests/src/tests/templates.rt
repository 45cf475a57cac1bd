use super::same;
use super::samples::{Field, assert_end, assert_steps, template_of};
use bufr_expand::Walk;
use bufr_tables::Kind;
use std::alloc::Global;
use std::process::Abort;

/// Descriptors, the number of each count, the nodes of the template, the fields of a walk, and its
/// items at the end.
type Row<'a> = (&'a [u32], u64, usize, &'a [Field], u64);

/// A block number, a station number and a temperature.
const BLOCK: Field = (1001, Kind::Quantity, 0, 7);

const STATION: Field = (1002, Kind::Quantity, 0, 10);

const TEMPERATURE: Field = (12101, Kind::Quantity, 2, 16);

/// Templates.
const ROWS: &[Row<'static>] = &[
    // sequences
    (
        &[301001, 301011, 301012, 12101],
        0,
        8,
        &[
            BLOCK,
            STATION,
            (4001, Kind::Quantity, 0, 12),
            (4002, Kind::Quantity, 0, 4),
            (4003, Kind::Quantity, 0, 6),
            (4004, Kind::Quantity, 0, 5),
            (4005, Kind::Quantity, 0, 6),
            TEMPERATURE,
        ],
        8,
    ),
    // a delayed replication
    (
        &[101000, 31001, 12101],
        2,
        2,
        &[(31001, Kind::Count, 0, 8), TEMPERATURE, TEMPERATURE],
        5,
    ),
    // twice two numbers and then a temperature, two times, and then one more number
    (
        &[103002, 101002, 301001, 12101, 1001],
        0,
        6,
        &[
            BLOCK,
            STATION,
            BLOCK,
            STATION,
            TEMPERATURE,
            BLOCK,
            STATION,
            BLOCK,
            STATION,
            TEMPERATURE,
            BLOCK,
        ],
        20,
    ),
    // 201130 and 208002 change the last two fields, but no field of 205 or 206
    (
        &[
            201130, 208002, 206012, 1250, 206016, 12101, 206017, 12101, 205004, 12101, 1011,
        ],
        0,
        8,
        &[
            (1250, Kind::Quantity, 0, 12),
            TEMPERATURE,
            (12101, Kind::Quantity, 0, 17),
            (205004, Kind::Text, 0, 32),
            (12101, Kind::Quantity, 2, 18),
            (1011, Kind::Text, 0, 16),
        ],
        8,
    ),
];

/// Checks the size of a row's template and a walk over it, after the template was shared and
/// dropped.
fn assert_row(rt: &impl Abort, alloc: Global, row: &Row<'_>) {
    let (digits, told, nodes, fields, items) = *row;
    let template = template_of(rt, alloc, digits);
    same(rt, template.nodes(), nodes);
    let shared = template.share().expect(rt, "room");
    drop(template);
    let mut walk = Walk::start(alloc, &shared, 0).expect(rt, "room");
    assert_steps(rt, &mut walk, told, fields);
    assert_end(rt, &mut walk, items);
    drop(walk);
    drop(shared);
}

#[test]
fn templates(rt: HostRuntime) {
    for row in ROWS {
        assert_row(&rt, rt.alloc(), row);
    }
}
