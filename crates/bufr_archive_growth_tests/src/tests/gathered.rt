use crate::tests::refusals::repeated;
use crate::tests::same;
use crate::tests::samples::{
    NEXT_STATION, PAIR_BACK, PAIR_FRONT, SEQUENCES, assert_holds, first, joined, tables,
};
use bufr_archive::{AddFault, Archive, ArchiveBuilder, ShelfBuilder, SortedShelf};
use bufr_base::{Items, OutOfMemory};
use bufr_tables::Tables;
use std::alloc::Global;
use std::process::Abort;

/// The reports of the message of two stations.
const GATHERED: [&[u8]; 2] = [SEQUENCES, NEXT_STATION];

/// Turns an archive into the text of these messages. Returns false if memory ran out.
fn gives(rt: &impl Abort, alloc: Global, archive: Archive<SortedShelf>, wanted: &[&[u8]]) -> bool {
    let text = joined(rt, alloc, wanted);
    match archive.into_octets() {
        Ok(octets) => {
            same(rt, octets.as_slice(), text.as_slice());
            true
        }
        Err(_) => false,
    }
}

/// Gathers a message of two reports; the builder holds those that it added. Returns whether it
/// added both and the archive became octets.
fn gathers(rt: &impl Abort, alloc: Global, tables: &Tables) -> bool {
    let octets = joined(rt, alloc, &[PAIR_FRONT, PAIR_BACK]);
    let mut builder = ArchiveBuilder::new(alloc, tables);
    let told = match builder.add_message(&octets) {
        Err(AddFault::OutOfMemory { done }) => done,
        answer => {
            same(rt, answer, Ok(()));
            2
        }
    };
    let Ok(archive) = Archive::of_gathered(alloc, builder) else {
        return false;
    };
    let held = first(rt, &GATHERED, told);
    assert_holds(rt, alloc, &archive, held);
    gives(rt, alloc, archive, held) && told == 2
}

#[test]
fn refused_growth_while_gathering(rt: HostRuntime) {
    let tables = tables(&rt, rt.alloc());
    if !gathers(&rt, rt.alloc(), &tables) {
        assert!(rt; gathers(&rt, rt.alloc(), &tables));
    }
    drop(tables);
}

fn copied(rt: &impl Abort, alloc: Global, octets: &[u8]) -> Items<u8> {
    Items::from_vec(repeated!(rt, Vec::from_slice(alloc, octets)))
}

/// Gathers entries without a key, one twice. A refused call leaves those before, and is repeated.
fn entries(rt: &impl Abort, alloc: Global) -> ShelfBuilder {
    let mut builder = ShelfBuilder::new(alloc);
    for octets in [b"seven".as_slice(), b"none", b"later", b"none"] {
        repeated!(rt, builder.put(None, 0, copied(rt, alloc, octets)));
    }
    builder
}

fn octets_of(rt: &impl Abort, alloc: Global) -> Result<Vec<u8>, OutOfMemory> {
    let shelf = SortedShelf::of_gathered(alloc, entries(rt, alloc))?;
    shelf.into_octets()
}

#[test]
fn gathered_in_any_order(rt: HostRuntime) {
    let octets = repeated!(&rt, octets_of(&rt, rt.alloc()));
    same(&rt, octets.as_slice(), b"laternoneseven".as_slice());
}
