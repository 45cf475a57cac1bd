//! Tests of equal and different tables.

use super::same;
use super::samples::tables_of;

const HEADER: &[u8] =
    b"FXY,ElementName_en,BUFR_Unit,BUFR_Scale,BUFR_ReferenceValue,BUFR_DataWidth_Bits\n";

/// A Table B and a Table D.
type Files<'a> = (&'a [u8], &'a [u8]);

/// A Table B of one row, and two copies of it joined.
const ONE_B: &[u8] = b"FXY,ElementName_en,BUFR_Unit,BUFR_Scale,BUFR_ReferenceValue,\
BUFR_DataWidth_Bits\n012101,x,K,2,0,16\n";

const TWO_B: &[u8] = b"FXY,ElementName_en,BUFR_Unit,BUFR_Scale,BUFR_ReferenceValue,\
BUFR_DataWidth_Bits\n012101,x,K,2,0,16\n\
FXY,ElementName_en,BUFR_Unit,BUFR_Scale,BUFR_ReferenceValue,\
BUFR_DataWidth_Bits\n012101,x,K,2,0,16\n";

/// A Table D of one row, and two copies of it joined.
const ONE_D: &[u8] = b"FXY1,FXY2\n301001,001001\n";

const TWO_D: &[u8] = b"FXY1,FXY2\n,\nFXY1,FXY2\n301001,001001\n";

/// Two pairs of files, and whether their tables are equal.
const PAIRS: &[(Files<'static>, Files<'static>, bool)] = &[
    ((ONE_B, ONE_D), (TWO_B, ONE_D), true),
    ((HEADER, ONE_D), (HEADER, b"FXY1,FXY2\n"), false),
    ((HEADER, ONE_D), (HEADER, TWO_D), true),
];

#[test]
fn tables_that_differ(rt: HostRuntime) {
    for (one, other, wanted) in PAIRS {
        let first = tables_of(&rt, rt.alloc(), one.0, one.1);
        let second = tables_of(&rt, rt.alloc(), other.0, other.1);
        same(&rt, first.same(&second), *wanted);
        drop(second);
        drop(first);
    }
}
