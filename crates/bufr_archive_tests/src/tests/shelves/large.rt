//! A thousand entries on each shelf.
use super::*;

// The numbers below 1000, each once, in no order.
fn scattered(place: u32) -> u32 {
    (u64::from(place) * 389 % 1000) as u32
}

fn put_new<S: Shelf>(
    rt: &impl Abort,
    alloc: Global,
    shelf: &mut S,
    station: Option<i128>,
    update: u8,
    number: u32,
) {
    put_one(rt, alloc, shelf, (station, update, &digits(number), true));
}

/// A shelf of a thousand stations and five hundred entries without a key.
fn thousand<S: Shelf>(rt: &impl Abort, alloc: Global) -> S {
    let mut shelf = S::new(alloc);
    for place in 0..1000u32 {
        let number = scattered(place);
        put_new(rt, alloc, &mut shelf, Some(number as i128), 0, number);
        if number % 2 == 0 {
            put_new(rt, alloc, &mut shelf, None, 0, number);
        }
    }
    shelf
}

/// A shelf of the odd stations with update number 1.
fn odd_updates<S: Shelf>(rt: &impl Abort, alloc: Global) -> S {
    let mut shelf = S::new(alloc);
    for place in 0..1000u32 {
        let number = scattered(place);
        if number % 2 == 1 {
            put_new(rt, alloc, &mut shelf, Some(number as i128), 1, number);
        }
    }
    shelf
}

/// The entry at an index among the 1,500; odd stations have this update number.
fn assert_entry(rt: &impl Abort, held: Held, place: u16, odd: u8) {
    let place = u32::from(place);
    if place < 1000 {
        let update = if place % 2 == 1 { odd } else { 0 };
        assert_held(rt, held, (true, update, &digits(place)));
    } else {
        assert_held(rt, held, (false, 0, &digits(2 * (place - 1000))));
    }
}

fn assert_thousand<S: Shelf>(rt: &impl Abort, shelf: &S, odd: u8) {
    same(rt, shelf.len(), 1500);
    let mut next = shelf.first();
    for place in 0..1500u16 {
        let held = next.expect(rt, "an entry");
        assert_entry(rt, held, place, odd);
        next = shelf.after(held);
    }
    assert!(rt; next.is_none());
}

/// The shelf finds a station at its hour, and not at the next.
fn assert_found<S: Shelf>(rt: &impl Abort, shelf: &S, number: u16) {
    let station = number as i128;
    let held = shelf.get(&key(wmo(station), 12)).expect(rt, "there");
    assert_entry(rt, held, number, 1);
    assert!(rt; shelf.get(&key(wmo(station), 13)).is_none());
}

/// Joins updates into a thousand stations, and these into the updates.
fn join_a_thousand<S: Shelf>(rt: &impl Abort, alloc: Global) {
    let mut shelf = thousand::<S>(rt, alloc);
    assert_thousand(rt, &shelf, 0);
    let copied = shelf.copy().expect(rt, "room");
    let mut updates = odd_updates::<S>(rt, alloc);
    shelf.join(&updates).expect(rt, "room");
    assert_thousand(rt, &shelf, 1);
    assert_thousand(rt, &copied, 0);
    updates.join(&copied).expect(rt, "room");
    assert_thousand(rt, &updates, 1);
    for number in 0..1000u16 {
        assert_found(rt, &shelf, number);
    }
}

#[test]
fn thousand_joined(rt: HostRuntime) {
    join_a_thousand::<MapShelf>(&rt, rt.alloc());
    join_a_thousand::<SortedShelf>(&rt, rt.alloc());
}

/// A list of a thousand entries, each station twice, makes a shelf of five hundred.
fn shelve_a_thousand<S: Shelf>(rt: &impl Abort, alloc: Global) {
    let mut entries = Vec::new(alloc);
    for place in 0..1000u32 {
        let number = scattered(place) / 2;
        let key = noon(Some(number as i128));
        let bytes = octets(rt, alloc, &digits(number));
        let next = Entry {
            key,
            update: 0,
            bytes,
        };
        entries.push(next).expect(rt, "room");
    }
    let shelf: S = shelve(alloc, entries).expect(rt, "room");
    assert_first_stations(rt, &shelf);
}

fn assert_first_stations<S: Shelf>(rt: &impl Abort, shelf: &S) {
    same(rt, shelf.len(), 500);
    let mut next = shelf.first();
    for number in 0..500u32 {
        let held = next.expect(rt, "a station");
        assert_held(rt, held, (true, 0, &digits(number)));
        next = shelf.after(held);
    }
    assert!(rt; next.is_none());
}

#[test]
fn thousand_shelved(rt: HostRuntime) {
    shelve_a_thousand::<MapShelf>(&rt, rt.alloc());
    shelve_a_thousand::<SortedShelf>(&rt, rt.alloc());
}
