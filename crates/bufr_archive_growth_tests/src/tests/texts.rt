//! Archives as texts; keys and entries of reports.
ghost use Rattle.std.specs.Prelude.{◌≡◌};

use crate::tests::refusals::repeated;
use crate::tests::same;
use crate::tests::samples::{ALL, OTHERS, OWN, WIGOS, joined, tables};
use bufr_archive::{ArchiveText, Key, MergedOctets, Moment, Station, entry_of, key_of};
use bufr_base::Items;
use bufr_message::{Report, decode, reports};
use bufr_tables::Tables;
use std::alloc::Global;
use std::process::Abort;

fn text_of<'t>(
    rt: &impl Abort,
    alloc: Global,
    tables: &'t Tables,
    messages: &[&[u8]],
) -> ArchiveText<'t>
    ensures { result.tables ≡ tables.now }
{
    repeated!(
        rt,
        ArchiveText::read(alloc, tables, joined(rt, alloc, messages))
    )
}

fn assert_next(rt: &impl Abort, left: &mut MergedOctets<'_>, wanted: &[u8]) {
    let Some(message) = left.next() else {
        panic!(rt; "no message");
    };
    same(rt, message, wanted);
}

fn assert_end(rt: &impl Abort, left: &mut MergedOctets<'_>) {
    if let Some(_) = left.next() {
        panic!(rt; "a message too many");
    }
}

/// Merges two texts, message by message.
fn hands_out<'t>(rt: &impl Abort, alloc: Global, own: &ArchiveText<'t>, other: &ArchiveText<'t>)
    requires { own.now.tables ≡ other.now.tables }
{
    let mut left = repeated!(rt, own.merged_with(alloc, other));
    for wanted in ALL {
        assert_next(rt, &mut left, *wanted);
    }
    assert_end(rt, &mut left);
    drop(left);
}

fn hands_out_both(rt: &impl Abort, alloc: Global, tables: &Tables) {
    let own = text_of(rt, alloc, tables, OWN);
    let other = text_of(rt, alloc, tables, OTHERS);
    hands_out(rt, alloc, &own, &other);
    drop(other);
    drop(own);
}

/// Merges a text into another, which stays after a refusal; the text that it takes in is gone.
fn merged<'t>(rt: &impl Abort, alloc: Global, tables: &'t Tables) -> ArchiveText<'t> {
    let mut own = text_of(rt, alloc, tables, OWN);
    let other = text_of(rt, alloc, tables, OTHERS);
    if own.merge(alloc, other).is_err() {
        same(rt, own.len(), OWN.len());
        let other = text_of(rt, alloc, tables, OTHERS);
        own.merge(alloc, other)
            .expect(rt, "what no longer is refused");
    }
    own
}

fn merges(rt: &impl Abort, alloc: Global, tables: &Tables) {
    let own = merged(rt, alloc, tables);
    let text = joined(rt, alloc, ALL);
    same(rt, own.into_octets().as_slice(), text.as_slice());
}

#[test]
fn texts_merged(rt: HostRuntime) {
    let tables = tables(&rt, rt.alloc());
    hands_out_both(&rt, rt.alloc(), &tables);
    merges(&rt, rt.alloc(), &tables);
    drop(tables);
}

/// The key of the message of a WIGOS identifier.
fn wigos_key(rt: &impl Abort, alloc: Global) -> Key {
    let name = repeated!(rt, Vec::from_slice(alloc, b"10384".as_slice()));
    Key {
        centre: 98,
        category: 0,
        international: 2,
        local_category: 0,
        station: Station::wigos(0, 20_000, 0, Items::from_vec(name)),
        moment: Moment {
            year: 2024,
            month: 1,
            day: 15,
            hour: 12,
            minute: 0,
            second: 0,
        },
        sub_centre: 0,
    }
}

fn assert_entry(rt: &impl Abort, alloc: Global, tables: &Tables, report: &Report) {
    let wanted = Some(wigos_key(rt, alloc));
    same(rt, repeated!(rt, key_of(alloc, report)), wanted);
    let entry = repeated!(rt, entry_of(alloc, tables, report)).expect(rt, "an entry");
    same(rt, entry.key, Some(wigos_key(rt, alloc)));
    same(rt, entry.update, 0);
    same(rt, entry.bytes.as_slice(), WIGOS);
}

/// Reads a message's reports, again after a refusal.
fn reports_of(rt: &impl Abort, alloc: Global, tables: &Tables) -> Vec<Report> {
    let decoded = repeated!(rt, decode(alloc, tables, WIGOS));
    match reports(alloc, decoded.message) {
        Ok(found) => found,
        Err(_) => {
            let decoded = decode(alloc, tables, WIGOS).expect(rt, "a message");
            reports(alloc, decoded.message).expect(rt, "what no longer is refused")
        }
    }
}

#[test]
fn keys_and_entries(rt: HostRuntime) {
    let tables = tables(&rt, rt.alloc());
    let found = reports_of(&rt, rt.alloc(), &tables);
    let report = found.as_slice().get(0).expect(&rt, "a report");
    assert_entry(&rt, rt.alloc(), &tables, report);
    drop(found);
    drop(tables);
}
