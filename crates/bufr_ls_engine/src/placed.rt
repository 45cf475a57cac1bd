//! Numbers in a row that is filled from its end, each with a comma after it.

ghost use Rattle.std.specs.Prelude.{◌≡◌, ◌++◌, ◌∷◌, ◌<◌, ◌≤◌, ◌+◌, decimal, length, drop};

use crate::texts::{FIELDS, LENGTHS};
use itoa::write_digits;

/// Puts a number of an octet. Returns the index of its text.
#[inline(always)]
pub(crate) fn put_octet(row: &mut [u8], end: usize, number: u8) -> usize
    requires room { 4 ≤ end }
    requires within { end ≤ length row.old }
    ensures put { drop result row.new ≡ decimal number ++ 44 ∷ drop end row.old }
    ensures near { end ≤ result + 4 }
    ensures before { result ≤ end }
    ensures long { length row.new ≡ length row.old }
{
    let at = 4 * usize::from(number);
    row[end - 4..end].copy_from_slice(&FIELDS[at..at + 4]);
    end - usize::from(LENGTHS[usize::from(number)])
}

/// Puts a number of two octets.
#[inline(always)]
pub(crate) fn put_count(row: &mut [u8], end: usize, number: u16) -> usize
    requires room { 21 ≤ end }
    requires within { end ≤ length row.old }
    ensures put { drop result row.new ≡ decimal number ++ 44 ∷ drop end row.old }
    ensures near { end ≤ result + 6 }
    ensures before { result ≤ end }
    ensures long { length row.new ≡ length row.old }
{
    if number < 256 {
        put_octet(row, end, number as u8)
    } else {
        put_number(row, end, u64::from(number))
    }
}

/// Puts a number of any length.
#[inline(always)]
pub(crate) fn put_number(row: &mut [u8], end: usize, number: u64) -> usize
    requires room { 21 ≤ end }
    requires within { end ≤ length row.old }
    ensures put { drop result row.new ≡ decimal number ++ 44 ∷ drop end row.old }
    ensures exact { result + length (decimal number) + 1 ≡ end }
    ensures near { end ≤ result + 21 }
    ensures before { result ≤ end }
    ensures long { length row.new ≡ length row.old }
{
    row[end - 1] = b',';
    write_digits(number, row, end - 1)
}
