use super::*;

/// A station: a WMO block and number, a WIGOS name, or a mobile name.
enum Known<'a> {
    Wmo(i128, i128),
    Wigos(&'a [u8]),
    Mobile(&'a [u8]),
}

use Known::{Mobile, Wigos, Wmo};

/// A station or none, an update number and octets.
type Row<'a> = (Option<Known<'a>>, u8, &'a [u8]);

/// Stations of each kind, and none, in order of slots: blocks and numbers on both sides of one and
/// two octets, names that begin alike, and then octets.
const IN_ORDER: &[Row<'static>] = &[
    (Some(Wmo(-1, 65_535)), 9, b"b"),
    (Some(Wmo(0, -1)), 0, b"a"),
    (Some(Wmo(0, 0)), 255, b"b"),
    (Some(Wmo(0, 255)), 0, b"a"),
    (Some(Wmo(0, 256)), 0, b"a"),
    (Some(Wmo(0, 65_535)), 1, b"a"),
    (Some(Wmo(0, 65_536)), 0, b"a"),
    (Some(Wmo(1, 0)), 2, b"b"),
    (Some(Wmo(255, 65_535)), 0, b"a"),
    (Some(Wmo(256, 0)), 0, b"a"),
    (Some(Wmo(256, 255)), 0, b"a"),
    (Some(Wmo(256, 256)), 0, b"a"),
    (Some(Wmo(65_535, 0)), 0, b"a"),
    (Some(Wmo(65_535, 65_535)), 3, b"a"),
    (Some(Wmo(65_536, 0)), 0, b"a"),
    (Some(Wigos(b"1")), 7, b"b"),
    (Some(Wigos(b"10384")), 8, b"a"),
    (Some(Mobile(b"SHIP00001")), 0, b"b"),
    (Some(Mobile(b"SHIP00002")), 1, b"a"),
    (None, 9, b"a"),
    (None, 0, b"b"),
];

fn key_of(rt: &impl Abort, alloc: Global, row: &Row) -> Option<Key> {
    let station = match &row.0 {
        Some(Wmo(block, number)) => Station::wmo(*block, *number),
        Some(Wigos(name)) => Station::wigos(0, 20000, 0, octets(rt, alloc, *name)),
        Some(Mobile(name)) => Station::mobile(octets(rt, alloc, *name)),
        None => return None,
    };
    Some(key(station, 12))
}

/// Makes the mark of a row, which has its key and update number.
fn mark_of(rt: &impl Abort, alloc: Global, row: &Row) -> PackedSlot {
    let mark = PackedSlot::new(alloc, key_of(rt, alloc, row), row.1).expect(rt, "room");
    same(rt, mark.key().expect(rt, "room"), key_of(rt, alloc, row));
    same(rt, mark.update(), row.1);
    mark
}

fn row_at(rt: &impl Abort, place: usize) -> &'static Row<'static> {
    IN_ORDER.get(place).expect(rt, "a row")
}

/// The slots of two marks have the order of their rows.
fn assert_order(rt: &impl Abort, alloc: Global, place: usize, other_place: usize) {
    let row = row_at(rt, place);
    let other = row_at(rt, other_place);
    let mark = mark_of(rt, alloc, row);
    let other_mark = mark_of(rt, alloc, other);
    assert!(rt;
        mark.slot_order(row.2, &other_mark, other.2) == place.cmp(&other_place),
        "{place}, {other_place}"
    );
    drop(other_mark);
    drop(mark);
}

#[test]
fn order_of_marks(rt: HostRuntime) {
    for place in 0..IN_ORDER.len() {
        for other_place in 0..IN_ORDER.len() {
            assert_order(&rt, rt.alloc(), place, other_place);
        }
    }
}
