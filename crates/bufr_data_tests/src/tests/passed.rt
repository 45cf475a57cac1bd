//! Tests of plain subsets of a common size, passed together.

use super::same;
use super::samples::{DELAYED, Descriptors, TEMPERATURE, template};
use bufr_bits::BitReader;
use bufr_data::DataTemplate;
use std::alloc::Global;
use std::process::Abort;

/// 255 turns of an operator without bits, and a field of two bits: 512 items.
const MANY_ITEMS: Descriptors = &[(1, 1, 255), (2, 1, 0), (0, 2, 1)];

/// Whether compressed, the number of subsets, the octets, the place before, and the place after if
/// the subsets are passed.
type Call<'a> = (bool, u16, &'a [u8], u128, Option<u128>);

/// A template's descriptors, and messages in turn.
const ROWS: &[(Descriptors, &[Call])] = &[
    // 17 bits: a bit is missing, bits are left, none is left, a bit is missing
    (
        &[(3, 1, 1)],
        &[
            (false, 1, &[0; 2], 0, None),
            (false, 3, &[0; 7], 0, Some(51)),
            (false, 2, &[0; 7], 1, Some(35)),
            (false, 3, &[0; 7], 5, Some(56)),
            (false, 3, &[0; 7], 6, None),
            (true, 3, &[0; 7], 0, None),
            (false, 0, &[0; 7], 0, None),
        ],
    ),
    (TEMPERATURE, &[(true, 2, &[0; 4], 0, None)]),
    // a count
    (DELAYED, &[(false, 1, &[0; 4], 0, None)]),
    // 16,777,216 items, and 512 more
    (
        MANY_ITEMS,
        &[
            (false, 32_768, &[0; 8193], 0, Some(65_536)),
            (false, 32_769, &[0; 8193], 0, None),
        ],
    ),
];

fn passes(rt: &impl Abort, alloc: Global, kept: &mut DataTemplate, call: &Call) {
    let (compressed, count, octets, before, after) = *call;
    let mut reader = BitReader::new(octets);
    same(rt, reader.pass(before), true);
    let passed = kept.pass_alike(alloc, compressed, &mut reader, count);
    same(rt, passed.expect(rt, "room"), after.is_some());
    same(rt, reader.place(), after.unwrap_or(before));
}

#[test]
fn subsets_passed_together(rt: HostRuntime) {
    for (list, calls) in ROWS {
        let mut kept = DataTemplate::new(template(&rt, rt.alloc(), *list));
        for call in *calls {
            passes(&rt, rt.alloc(), &mut kept, call);
        }
        drop(kept);
    }
}
