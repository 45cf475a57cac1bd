//! The lines before a first subset, kept from one message to the next.

use crate::tests::refusals::repeated;
use crate::tests::same;
use crate::tests::samples::tables;
use bufr_listing::LastHeading;
use bufr_message::LentSections;
use bufr_message::listing::read;
use bufr_tables::Tables;
use std::alloc::Global;
use std::process::Abort;

/// Messages without a subset, in turn. Each has one difference from the one before, or none.
const LISTINGS: &[&[u8]] = &[
    b"message\nsection1 98 0 0 0 2 0 37 0\ntime 2024 1 15 12 0 0\nflags\n\
    descriptors 012101\nend\n",
    b"message\nsection1 98 0 0 0 2 0 37 0\ntime 2024 1 15 12 0 0\nflags\n\
    descriptors 012101\nend\n",
    b"message\nsection1 99 0 0 0 2 0 37 0\ntime 2024 1 15 12 0 0\nflags\n\
    descriptors 012101\nend\n",
    b"message\nsection1 99 0 0 0 2 0 37 1\ntime 2024 1 15 12 0 0\nflags\n\
    descriptors 012101\nend\n",
    b"message\nsection1 99 0 0 0 2 0 37 1\ntime 2025 1 15 12 0 0\nflags\n\
    descriptors 012101\nend\n",
    b"message\nsection1 99 0 0 0 2 0 37 1\ntime 2025 1 15 12 0 9\nflags\n\
    descriptors 012101\nend\n",
    b"message\nsection1 99 0 0 0 2 0 37 1\ntime 2025 1 15 12 0 9\nflags observed\n\
    descriptors 012101\nend\n",
    b"message\nsection1 99 0 0 0 2 0 37 1\ntime 2025 1 15 12 0 9\n\
    flags observed compressed\ndescriptors 012101\nend\n",
    b"message\nsection1 99 0 0 0 2 0 37 1\ntime 2025 1 15 12 0 9\n\
    flags observed compressed\ndescriptors 012101 001001\nend\n",
    b"message\nsection1 99 0 0 0 2 0 37 1\ntime 2025 1 15 12 0 9\n\
    flags observed compressed\ndescriptors 012101 001002\nend\n",
    b"message\nsection1 99 0 0 0 2 0 37 1\ntime 2025 1 15 12 0 9\nlocal1 0a\n\
    flags observed compressed\ndescriptors 012101 001002\nend\n",
    b"message\nsection1 99 0 0 0 2 0 37 1\ntime 2025 1 15 12 0 9\n\
    flags observed compressed\ndescriptors 012101 001002\nend\n",
    b"message\nsection1 99 0 0 0 2 0 37 1\ntime 2025 1 15 12 0 9\nsection2\n\
    flags observed compressed\ndescriptors 012101 001002\nend\n",
    b"message\nsection1 99 0 0 0 2 0 37 1\ntime 2025 1 15 12 0 9\nsection2 0b0c\n\
    flags observed compressed\ndescriptors 012101 001002\nend\n",
    b"message\nsection1 99 0 0 0 2 0 37 1\ntime 2025 1 15 12 0 9\n\
    flags observed compressed\ndescriptors 012101 001002\nend\n",
];

fn assert_kept(
    rt: &impl Abort,
    alloc: Global,
    tables: &Tables,
    kept: &mut LastHeading,
    listing: &[u8],
) {
    let messages = repeated!(rt, read(alloc, tables, listing));
    let message = messages.first().expect(rt, "a message");
    let sections = LentSections::of_message(message);
    repeated!(rt, kept.set(alloc, &sections));
    drop(messages);
    same(rt, Some(kept.as_slice()), listing.strip_suffix(b"end\n"));
}

fn keep_all(rt: &impl Abort, alloc: Global) {
    let tables = tables(rt, alloc);
    let mut kept = LastHeading::new(alloc);
    for listing in LISTINGS {
        assert_kept(rt, alloc, &tables, &mut kept, *listing);
    }
    drop(kept);
    drop(tables);
}

#[test]
fn headings_kept(rt: HostRuntime) {
    keep_all(&rt, rt.alloc());
}
