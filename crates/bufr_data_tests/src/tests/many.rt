//! Tests of a thousand subsets of thirty fields. Want of memory meets every contract, so these
//! compare all of them.

use super::index::indexed;
use super::same;
use super::samples::{Descriptors, octets_of, read, template};
use bufr_base::Items;
use bufr_bits::BitSink;
use bufr_data::{Subset, write_subsets};
use std::alloc::Global;
use std::process::Abort;

/// Thirty temperatures.
const THIRTY: Descriptors = &[(1, 1, 30), (0, 12, 101)];

fn plain_octets(rt: &impl Abort, alloc: Global) -> Vec<u8> {
    let mut plain = BitSink::new(alloc);
    for subset in 0u64..1000 {
        for field in 0u64..30 {
            plain.put(16, 100 * field + subset).expect(rt, "room");
        }
    }
    octets_of(plain)
}

fn written(rt: &impl Abort, alloc: Global, compressed: bool, subsets: &[Subset]) -> Vec<u8> {
    let template = template(rt, alloc, THIRTY);
    let mut sink = BitSink::new(alloc);
    write_subsets(alloc, &template, compressed, subsets, &mut sink).expect(rt, "octets");
    drop(template);
    octets_of(sink)
}

/// Compares each subset of an index with the one that was read.
fn assert_each(
    rt: &impl Abort,
    alloc: Global,
    compressed: bool,
    octets: &[u8],
    place: u128,
    subsets: &[Subset],
) {
    let index = indexed(rt, alloc, THIRTY, compressed, 1000, octets, place);
    for (at, wanted) in subsets.iter().enumerate() {
        assert!(rt; at < index.count());
        let found = index.subset(alloc, at).expect(rt, "room");
        same(rt, &found, wanted);
        drop(found);
    }
    drop(index);
}

#[test]
fn thousand_subsets_of_thirty_fields(rt: HostRuntime) {
    let alloc = rt.alloc();
    let plain = plain_octets(&rt, alloc);
    let subsets = read(&rt, alloc, THIRTY, false, 1000, &plain);
    let again = written(&rt, alloc, false, subsets.as_slice());
    same(&rt, again.as_slice(), plain.as_slice());
    assert_each(&rt, alloc, false, &plain, 480_000, subsets.as_slice());
    assert_columns(&rt, alloc, &subsets);
    drop(subsets);
}

/// Writes the subsets in columns, reads them again and compares each.
fn assert_columns(rt: &impl Abort, alloc: Global, subsets: &Items<Subset>) {
    // for each field 16 bits, 6 bits, and 10 bits for each subset, up to 999 above the least
    let columns = written(rt, alloc, true, subsets.as_slice());
    same(rt, columns.len(), (30 * (16 + 6 + 10 * 1000) + 7) / 8);
    let again = read(rt, alloc, THIRTY, true, 1000, &columns);
    same(rt, &again, subsets);
    assert_each(rt, alloc, true, &columns, 300_660, subsets.as_slice());
    drop(again);
}
