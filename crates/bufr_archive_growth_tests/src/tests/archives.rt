//! Archives by their own calls, over both shelves.
ghost use Rattle.std.specs.Prelude.{◌≡◌};

use crate::tests::refusals::repeated;
use crate::tests::same;
use crate::tests::samples::{
    ALL, COUNT_0, COUNT_1, COUNTS, OTHERS, OWN, assert_holds, first, joined, tables,
};
use bufr_archive::{AddFault, Added, Archive, MapShelf, Shelf, SortedShelf};
use bufr_tables::Tables;
use std::alloc::Global;
use std::process::Abort;

/// The reports of the message of two counts.
const BOTH: &[&[u8]] = &[COUNT_0, COUNT_1];

/// Adds the message of two counts to an archive with the first `held` of its reports. Returns how
/// many of them it then has.
fn add<S: Shelf>(rt: &impl Abort, archive: &mut Archive<S>, held: u128) -> u128 {
    match archive.add_message(COUNTS) {
        Err(AddFault::OutOfMemory { done }) => { if done > held { done } else { held } }
        answer => {
            let changed = 2u128.saturating_sub(held);
            same(
                rt,
                answer,
                Ok(Added {
                    reports: 2,
                    changed,
                }),
            );
            2
        }
    }
}

/// Adds the message three times; at most one call is refused. The archive has the reports that the
/// calls told.
fn adds<S: Shelf>(rt: &impl Abort, alloc: Global, tables: &Tables) {
    let mut archive: Archive<S> = Archive::new(alloc, tables);
    let mut held = 0;
    for _ in 0..3u8 {
        held = add(rt, &mut archive, held);
        assert_holds(rt, alloc, &archive, first(rt, BOTH, held));
    }
    same(rt, held, 2);
    drop(archive);
}

#[test]
fn refused_growth_while_adding(rt: HostRuntime) {
    let tables = tables(&rt, rt.alloc());
    adds::<MapShelf>(&rt, rt.alloc(), &tables);
    adds::<SortedShelf>(&rt, rt.alloc(), &tables);
    drop(tables);
}

fn archive_of<'t, S: Shelf>(
    rt: &impl Abort,
    alloc: Global,
    tables: &'t Tables,
    messages: &[&[u8]],
) -> Archive<'t, S>
    ensures { result.tables ≡ tables.now }
{
    let text = joined(rt, alloc, messages);
    repeated!(rt, Archive::read(alloc, tables, &text))
}

/// Merges two archives. After a refusal both hold what they held.
fn merged<'t, S: Shelf>(rt: &impl Abort, alloc: Global, tables: &'t Tables) -> Archive<'t, S> {
    let mut archive: Archive<S> = archive_of(rt, alloc, tables, OWN);
    let other: Archive<S> = archive_of(rt, alloc, tables, OTHERS);
    repeated!(
        rt,
        archive.merge(&other),
        assert_holds(rt, alloc, &archive, OWN)
    );
    assert_holds(rt, alloc, &other, OTHERS);
    drop(other);
    archive
}

/// Merges two archives and copies the merged one, which stays.
fn merges<S: Shelf>(rt: &impl Abort, alloc: Global, tables: &Tables) {
    let archive: Archive<S> = merged(rt, alloc, tables);
    let copied = repeated!(rt, archive.copy());
    assert_holds(rt, alloc, &copied, ALL);
    assert_holds(rt, alloc, &archive, ALL);
    drop(copied);
    drop(archive);
}

#[test]
fn refused_growth_while_merging(rt: HostRuntime) {
    let tables = tables(&rt, rt.alloc());
    merges::<MapShelf>(&rt, rt.alloc(), &tables);
    merges::<SortedShelf>(&rt, rt.alloc(), &tables);
    drop(tables);
}
