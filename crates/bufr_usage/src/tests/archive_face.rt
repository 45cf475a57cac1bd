//! The public calls of bufr_archive, each by its path and with its parameters.
ghost use Rattle.std.specs.Prelude.{◌≡◌};

use super::faces::report_of;
use super::{ARCHIVE, BARE, STATION, tables};
use bufr_archive::{Items, MapShelf, Shelf, SortedShelf};
use bufr_message::Refused;
use bufr_tables::Tables;
use std::alloc::Global;
use std::process::Abort;

/// Copies octets to the heap.
fn items(rt: &impl Abort, alloc: Global, octets: &[u8]) -> Items<u8> {
    Items::from_vec(Vec::from_slice(alloc, octets).expect(rt, "room"))
}

fn key(station: bufr_archive::Station) -> bufr_archive::Key {
    bufr_archive::Key {
        centre: 98,
        category: 2,
        international: 3,
        local_category: 41,
        station,
        moment: bufr_archive::Moment {
            year: 2023,
            month: 5,
            day: 17,
            hour: 13,
            minute: 34,
            second: 56,
        },
        sub_centre: 7,
    }
}

/// Makes the key of the report in `STATION`.
fn wmo_key() -> bufr_archive::Key {
    key(bufr_archive::Station::Wmo {
        block: 10,
        number: 384,
    })
}

#[test]
fn stations(rt: HostRuntime) {
    let wigos = key(bufr_archive::Station::Wigos {
        series: 0,
        issuer: 20000,
        number: 0,
        name: items(&rt, rt.alloc(), b"10384"),
    });
    let mobile = key(bufr_archive::Station::Mobile {
        name: items(&rt, rt.alloc(), b"10384"),
    });
    let wmo = wmo_key();
    assert!(rt; wmo < wigos && wigos < mobile);
    drop(wmo);
    drop(mobile);
    drop(wigos);
}

fn is_held(
    held: Option<bufr_archive::Held>,
    key: Option<&bufr_archive::Key>,
    octets: &[u8],
) -> bool {
    match held {
        Some(held) => held.key == key && held.update == 0 && held.bytes.as_slice() == octets,
        None => false,
    }
}

/// Makes a shelf with an entry of a key and one without.
fn shelf<S: Shelf>(rt: &impl Abort, alloc: Global) -> S {
    let mut shelf: S = bufr_archive::Shelf::new(alloc);
    let changed: Result<bool, bufr_archive::OutOfMemory> = shelf.put(
        Some(wmo_key()),
        0,
        items(rt, alloc, b"A"),
    );
    assert!(rt; changed == Ok(true));
    assert!(rt; shelf.put(None, 0, items(rt, alloc, b"B")) == Ok(true));
    shelf
}

/// Joins a shelf to a copy of itself, which stays as it is.
fn joined<S: Shelf>(rt: &impl Abort, alloc: Global) -> S {
    let shelf: S = shelf(rt, alloc);
    let mut both = shelf.copy().expect(rt, "room");
    let joined: Result<(), bufr_archive::JoinFault> = both.join(&shelf);
    assert!(rt; joined.is_ok() && both.len() == 2);
    both
}

fn assert_shelf<S: Shelf>(rt: &impl Abort, alloc: Global) {
    let both: S = joined(rt, alloc);
    let key = wmo_key();
    assert!(rt; is_held(both.get(&key), Some(&key), b"A"));
    let first = both.first();
    assert!(rt; is_held(first, Some(&key), b"A"));
    assert!(rt; is_held(both.after(first.expect(rt, "an entry")), None, b"B"));
    drop(key);
}

#[test]
fn shelves(rt: HostRuntime) {
    assert_shelf::<MapShelf>(&rt, rt.alloc());
    assert_shelf::<SortedShelf>(&rt, rt.alloc());
}

fn archive<'t, S: Shelf>(
    rt: &impl Abort,
    alloc: Global,
    tables: &'t Tables,
    message: &[u8],
) -> bufr_archive::Archive<'t, S> {
    let mut archive: bufr_archive::Archive<'t, S> = bufr_archive::Archive::new(alloc, tables);
    let bufr_archive::Added { reports, changed } = archive
        .add_message(message)
        .expect(rt, "a message");
    assert!(rt; reports == 1 && changed == 1);
    archive
}

fn text<S: Shelf>(
    rt: &impl Abort,
    alloc: Global,
    archive: &bufr_archive::Archive<'_, S>,
) -> Vec<u8> {
    let mut sink = bufr_bits::IntoWrite::new(Vec::new(alloc));
    let written: Result<(), bufr_archive::WriteFault> = archive.write(&mut sink);
    assert!(rt; written.is_ok());
    sink.into_inner()
}

fn assert_taken_in<'t, S: Shelf>(
    rt: &impl Abort,
    into: &mut bufr_archive::Archive<'t, S>,
    from: &bufr_archive::Archive<'t, S>,
)
    requires { into.old.tables ≡ from.now.tables }
{
    let merged: Result<(), bufr_archive::JoinFault> = into.merge(from);
    assert!(rt; merged.is_ok() && into.len() == 1);
}

fn assert_bare<S: Shelf>(rt: &impl Abort, alloc: Global, archive: &bufr_archive::Archive<'_, S>) {
    let key = wmo_key();
    assert!(rt; archive.get(&key).is_none());
    drop(key);
    assert!(rt; text(rt, alloc, archive).as_slice() == BARE);
}

/// An archive that takes in a copy of itself stays as it is.
fn assert_archive<S: Shelf>(rt: &impl Abort, alloc: Global) {
    let tables = tables(rt, alloc);
    let archive: bufr_archive::Archive<'_, S> = archive(rt, alloc, &tables, BARE);
    let mut copied = archive.copy().expect(rt, "room");
    assert_taken_in(rt, &mut copied, &archive);
    drop(archive);
    assert_bare(rt, alloc, &copied);
    drop(copied);
    drop(tables);
}

#[test]
fn archives(rt: HostRuntime) {
    assert_archive::<MapShelf>(&rt, rt.alloc());
    assert_archive::<SortedShelf>(&rt, rt.alloc());
}

#[test]
fn archives_read(rt: HostRuntime) {
    let tables = tables(&rt, rt.alloc());
    let archive: bufr_archive::Archive<'_, SortedShelf> = bufr_archive::Archive::read(
        rt.alloc(),
        &tables,
        ARCHIVE,
    ).expect(&rt, "an archive");
    assert!(rt; archive.len() == 2);
    drop(archive);
    drop(tables);
}

#[test]
fn refused_messages(rt: HostRuntime) {
    let tables = tables(&rt, rt.alloc());
    let mut archive: bufr_archive::Archive<'_, SortedShelf> = bufr_archive::Archive::new(
        rt.alloc(),
        &tables,
    );
    let refused = archive.add_message(b"BUFR");
    assert!(rt;
        matches!(
            refused,
            Err(bufr_archive::AddFault::Refused(Refused::NotBufr))
        )
    );
    drop(archive);
    drop(tables);
}

/// Returns the key of the only report of a message.
fn key_of(
    rt: &impl Abort,
    alloc: Global,
    tables: &Tables,
    message: &[u8],
) -> Option<bufr_archive::Key> {
    let report = report_of(rt, alloc, tables, message);
    let key = bufr_archive::key_of(alloc, &report);
    drop(report);
    key.expect(rt, "room")
}

#[test]
fn keys(rt: HostRuntime) {
    let alloc = rt.alloc();
    let tables = tables(&rt, alloc);
    let keyless = key_of(&rt, alloc, &tables, BARE);
    assert!(rt; keyless.is_none());
    drop(keyless);
    let key = key_of(&rt, alloc, &tables, STATION);
    drop(tables);
    let wanted = Some(wmo_key());
    assert!(rt; key == wanted);
    drop(key);
    drop(wanted);
}

#[test]
fn reports_of_a_key(rt: HostRuntime) {
    let alloc = rt.alloc();
    let tables = tables(&rt, alloc);
    let archive: bufr_archive::Archive<'_, MapShelf> = archive(&rt, alloc, &tables, STATION);
    let key = wmo_key();
    assert!(rt; archive.get(&key) == Some(STATION));
    drop(key);
    drop(archive);
    drop(tables);
}

/// Whether a step is refused for want of a slot, from 0.
fn lacks_slot(
    answer: Result<bufr_archive::Answer, bufr_archive::StepFault>,
    wanted: usize,
) -> bool {
    match answer {
        Ok(bufr_archive::Answer::Fed { .. }) => false,
        Ok(bufr_archive::Answer::Ended { .. }) => false,
        Ok(bufr_archive::Answer::Joined) => false,
        Err(bufr_archive::StepFault::NoSlot(slot)) => slot == wanted,
        Err(bufr_archive::StepFault::StreamTooLong) => false,
        Err(bufr_archive::StepFault::OutOfMemory { joined: _ }) => false,
    }
}

/// Makes a depot of two slots whose first slot has a message.
fn depot<'t>(
    rt: &impl Abort,
    alloc: Global,
    tables: &'t Tables,
) -> bufr_archive::Depot<'t, SortedShelf> {
    let mut depot: bufr_archive::Depot<'t, SortedShelf> = bufr_archive::Depot::new(
        alloc, tables, 2,
    ).expect(rt, "room");
    let feed = bufr_archive::Step::Feed {
        slot: 0,
        piece: items(rt, alloc, BARE),
    };
    let fed = depot.step(&feed);
    drop(feed);
    let wanted = bufr_archive::Answer::Fed {
        messages: 1,
        refused: 0,
        changed: 1,
    };
    assert!(rt; fed == Ok(wanted));
    depot
}

/// Ends the first slot's stream, and takes its archive into the second's and back.
fn run_steps(
    rt: &impl Abort,
    depot: &mut bufr_archive::Depot<'_, SortedShelf>,
) -> Vec<Result<bufr_archive::Answer, bufr_archive::StepFault>> {
    let steps = [
        bufr_archive::Step::End { slot: 0 },
        bufr_archive::Step::Merge { from: 0, into: 1 },
        bufr_archive::Step::Transfer { from: 1, into: 0 },
        bufr_archive::Step::Copy { from: 1, into: 0 },
    ];
    let answers = depot.run(&steps);
    drop(steps);
    answers.expect(rt, "room")
}

#[test]
fn steps(rt: HostRuntime) {
    let tables = tables(&rt, rt.alloc());
    let mut depot = depot(&rt, rt.alloc(), &tables);
    let answers: Vec<Result<bufr_archive::Answer, bufr_archive::StepFault>> = run_steps(
        &rt, &mut depot,
    );
    assert!(rt; answers.last() == Some(&Ok(bufr_archive::Answer::Joined)));
    drop(answers);
    assert!(rt; depot.archive(1).expect(&rt, "a slot").len() == 1);
    let end = bufr_archive::Step::End { slot: 9 };
    assert!(rt; lacks_slot(depot.step(&end), 9));
    drop(end);
    drop(depot);
    drop(tables);
}
