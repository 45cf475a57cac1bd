//! Decimals printed, and read of their texts.

use super::same;
use bufr_data::Decimal;
use std::alloc::Global;
use std::process::Abort;

/// Units and a scale, and the text of their decimal.
const TEXTS: &[(i128, i32, &str)] = &[
    (-1, 2, "-0.01"),
    (-18000, 2, "-180.00"),
    (27315, 2, "273.15"),
    (27400, 2, "274.00"),
    (0, 2, "0.00"),
    (-400, 0, "-400"),
    (0, 0, "0"),
    (10132, -1, "101320"),
    (0, -1, "0"),
];

/// Texts that no decimal of this scale prints.
const OTHERS: &[(i32, &str)] = &[
    (2, "273.1"),
    (2, "273.150"),
    (2, "0273.15"),
    (2, ".15"),
    (2, "-0.00"),
    (2, "+1.00"),
    (2, ""),
    (0, "05"),
    (0, "-0"),
    (0, "5."),
    (-1, "101325"),
    (-1, "00"),
    (601, "0"),
    (-601, "0"),
];

fn printed_and_read(rt: &impl Abort, alloc: Global, units: i128, scale: i32, text: &str) {
    let decimal = Decimal::new(units, scale).expect(rt, "a decimal");
    let mut printed = Vec::new(alloc);
    decimal.push_text(&mut printed).expect(rt, "memory");
    same(rt, printed.as_slice(), text.as_bytes());
    same(rt, Decimal::parse(text.as_bytes(), scale), Some(decimal));
}

#[test]
fn texts_of_decimals(rt: HostRuntime) {
    for (units, scale, text) in TEXTS {
        printed_and_read(&rt, rt.alloc(), *units, *scale, text);
    }
    for (scale, text) in OTHERS {
        same(&rt, Decimal::parse(text.as_bytes(), *scale), None);
    }
}
