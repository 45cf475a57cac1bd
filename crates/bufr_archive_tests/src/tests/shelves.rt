use bufr_base::Items;
use bufr_entries::{Entry, Key, Moment, PackedSlot, ShelfBuilder, Station};
use bufr_shelves::*;
use std::alloc::Global;
use std::cmp::Ordering;
use std::fmt::Debug;
use std::process::Abort;

mod gathered;
mod large;
mod marks;

fn same<T: PartialEq + Debug + Drop>(rt: &impl Abort, found: T, wanted: T) {
    assert_eq!(rt; found, wanted);
}

fn octets(rt: &impl Abort, alloc: Global, bytes: &[u8]) -> Items<u8> {
    Items::from_vec(Vec::from_slice(alloc, bytes).expect(rt, "room"))
}

// The last five decimal digits of a number.
fn digits(number: u32) -> [u8; 5] {
    [
        b'0' + (number / 10000 % 10) as u8,
        b'0' + (number / 1000 % 10) as u8,
        b'0' + (number / 100 % 10) as u8,
        b'0' + (number / 10 % 10) as u8,
        b'0' + (number % 10) as u8,
    ]
}

/// The key of a report of centre 98.
fn key(station: Station, hour: u8) -> Key {
    Key {
        centre: 98,
        category: 2,
        international: 0,
        local_category: 37,
        station,
        moment: Moment {
            year: 2024,
            month: 1,
            day: 15,
            hour,
            minute: 0,
            second: 0,
        },
        sub_centre: 0,
    }
}

fn wmo(number: i128) -> Station {
    Station::Wmo { block: 10, number }
}

/// The key of a report at noon, if a station is given.
fn noon(number: Option<i128>) -> Option<Key> {
    match number {
        Some(number) => Some(key(wmo(number), 12)),
        None => None,
    }
}

/// A report to put: its station, unless it has no key, its update number, its octets, and whether
/// it changes the shelf.
type Put<'a> = (Option<i128>, u8, &'a [u8], bool);

/// An entry that is held: whether it has a key, its update number and its octets.
type Kept<'a> = (bool, u8, &'a [u8]);

fn assert_held(rt: &impl Abort, held: Held, wanted: Kept) {
    let (has_key, update, bytes) = wanted;
    same(rt, held.bytes.as_slice(), bytes);
    same(rt, held.update, update);
    same(rt, held.key.is_some(), has_key);
}

fn put_one<S: Shelf>(rt: &impl Abort, alloc: Global, shelf: &mut S, row: Put) {
    let (number, update, bytes, changes) = row;
    let answer = shelf.put(noon(number), update, octets(rt, alloc, bytes));
    same(rt, answer.expect(rt, "room"), changes);
}

fn shelf_of<S: Shelf>(rt: &impl Abort, alloc: Global, rows: &[Put]) -> S {
    let mut shelf = S::new(alloc);
    for row in rows {
        put_one(rt, alloc, &mut shelf, *row);
    }
    shelf
}

/// Returns the entry after `held`, which has a later slot.
fn behind<'a, S: Shelf>(rt: &impl Abort, shelf: &'a S, held: Held<'a>) -> Option<Held<'a>> {
    let next = shelf.after(held);
    if let Some(other) = next {
        assert!(rt; held.slot_cmp(other).is_lt());
    }
    next
}

fn assert_holds<S: Shelf>(rt: &impl Abort, shelf: &S, expected: &[Kept]) {
    same(rt, shelf.len(), expected.len());
    let mut next = shelf.first();
    for row in expected {
        let held = next.expect(rt, "an entry");
        assert_held(rt, held, *row);
        next = behind(rt, shelf, held);
    }
    assert!(rt; next.is_none());
}

/// Reports put on a shelf, and what it then holds.
const KEPT: &[(&[Put<'static>], &[Kept<'static>])] = &[
    (&[], &[]),
    // the greater update number wins, whatever its octets, first or last
    (
        &[
            (Some(384), 0, b"original", true),
            (Some(384), 1, b"changed", true),
            (Some(384), 0, b"original", false),
        ],
        &[(true, 1, b"changed")],
    ),
    (
        &[
            (Some(384), 1, b"changed", true),
            (Some(384), 0, b"original", false),
            (Some(384), 1, b"changed", false),
        ],
        &[(true, 1, b"changed")],
    ),
    // octets settle equal update numbers, a proper prefix first
    (
        &[
            (Some(384), 0, b"ab", true),
            (Some(384), 0, b"abc", true),
            (Some(384), 0, b"abd", true),
            (Some(384), 0, b"abc", false),
        ],
        &[(true, 0, b"abd")],
    ),
    (
        &[
            (Some(384), 0, b"abd", true),
            (Some(384), 0, b"ab", false),
            (Some(384), 0, b"", false),
        ],
        &[(true, 0, b"abd")],
    ),
    // without a key: once each, by octets, after entries with a key
    (
        &[
            (None, 0, b"zz", true),
            (None, 0, b"a", true),
            (None, 0, b"zz", false),
            (None, 0, b"a", false),
            (None, 0, b"zz", false),
            (None, 0, b"a", false),
        ],
        &[(false, 0, b"a"), (false, 0, b"zz")],
    ),
    (
        &[
            (None, 0, b"zz", true),
            (None, 0, b"a", true),
            (Some(384), 0, b"m", true),
            (None, 1, b"a", true),
            (None, 0, b"a", false),
        ],
        &[(true, 0, b"m"), (false, 1, b"a"), (false, 0, b"zz")],
    ),
];

fn put_on<S: Shelf>(rt: &impl Abort, alloc: Global) {
    for (rows, expected) in KEPT {
        let shelf: S = shelf_of(rt, alloc, rows);
        assert_holds(rt, &shelf, expected);
    }
}

#[test]
fn reports_put(rt: HostRuntime) {
    put_on::<MapShelf>(&rt, rt.alloc());
    put_on::<SortedShelf>(&rt, rt.alloc());
}

#[test]
fn octets_and_faults(rt: HostRuntime) {
    let bytes = octets(&rt, rt.alloc(), b"abc");
    let copied = bytes.clone().expect(&rt, "room");
    assert!(rt; copied == bytes);
    let longer = octets(&rt, rt.alloc(), b"abcd");
    same(&rt, bytes.partial_cmp(&longer), Some(Ordering::Less));
    let bytes = bytes.into_vec();
    same(&rt, bytes.as_slice(), b"abc".as_slice());
    let said = format!(in rt.alloc(); "{}", JoinFault::OutOfMemory).expect(&rt, "room");
    same(&rt, said.as_str(), "out of memory");
}
