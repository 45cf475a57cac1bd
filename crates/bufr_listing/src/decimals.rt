//! The digits of numbers, written from their end into a room.

ghost use Rattle.std.specs.Prelude.{◌≡◌, ◌<◌, ◌≤◌, ◌+◌, ◌-◌, ◌/◌, ◌^◌, ◌++◌, drop, length};
ghost use Rattle.std.specs.Prelude.{◌+ℤ◌, negsuc, pos, IfSome};
ghost use Rattle.bufr_fields.specs.Digits.{last_digits};
ghost use Rattle.bufr_fields.specs.Values.{decimal_within, digits_by, sign_of, text_of};
ghost use Rattle.bufr_listing.specs.Listings.{number_word};

use bufr_fields::{Decimal, NumberField};
use itoa::write_digits;

/// The most digits after a point that `write_digits_by` writes.
const MOST_PLACES: i32 = 20;

/// The room for a number, its sign and its point.
const MOST_OCTETS: usize = 48;

// The functions below write before `end`, and return where what they wrote begins. They return
// `None` if the room is short.

/// Writes a raw number plus its reference value by their scale, unless the sum is large.
#[inline(always)]
pub fn write_sum(room: &mut [u8], end: usize, field: NumberField) -> Option<usize>
    requires { end ≤ length room.old }
    ensures written { IfSome result (λ start. drop start room.new ≡ number_word
        (decimal_within (pos field.number +ℤ field.spec.reference) field.spec.scale)
        ++ drop end room.old) }
    ensures within { IfSome result (λ start. start ≤ end) }
{
    let NumberField { spec, number, .. } = field;
    let units = i128::from(number) + i128::from(spec.reference);
    match Decimal::new(units, spec.scale) {
        Some(number) => write_decimal(room, end, number),
        None => None,
    }
}

/// Writes a number, unless it is large.
#[inline(always)]
fn write_decimal(room: &mut [u8], end: usize, number: Decimal) -> Option<usize>
    requires { end ≤ length room.old }
    ensures written { IfSome result (λ start. drop start room.new
        ≡ text_of number ++ drop end room.old) }
    ensures within { IfSome result (λ start. start ≤ end) }
{
    let size = number.units.unsigned_abs();
    if size > u64::MAX as u128 || end < MOST_OCTETS {
        return None;
    }
    if number.scale == -1 {
        let start = write_tens(room, end, size as u64);
        return Some(write_sign(room, start, number.units));
    }
    if number.scale < 0 || number.scale > MOST_PLACES {
        return None;
    }
    let start = write_digits_by(room, end, size as u64, number.scale as usize);
    Some(write_sign(room, start, number.units))
}

/// Writes the sign of a number.
#[inline(always)]
fn write_sign(room: &mut [u8], end: usize, units: i128) -> usize
    requires some { 0 < end }
    requires inside { end ≤ length room.old }
    ensures written { drop result room.new ≡ sign_of units ++ drop end room.old }
    ensures within { result ≤ end }
{
    if units >= 0 {
        return end;
    }
    room[end - 1] = b'-';
    end - 1
}

/// Writes the digits of ten times `size`.
#[inline(always)]
fn write_tens(room: &mut [u8], end: usize, size: u64) -> usize
    requires room { 48 ≤ end }
    requires inside { end ≤ length room.old }
    ensures written { drop result room.new ≡ digits_by (negsuc 0) size ++ drop end room.old }
    ensures short { end ≤ result + 41 }
    ensures within { result ≤ end }
{
    if size == 0 {
        return write_digits(0, room, end);
    }
    room[end - 1] = b'0';
    write_digits(size, room, end - 1)
}

/// Writes the digits of `size`, `places` of them after a point.
#[inline(always)]
fn write_digits_by(room: &mut [u8], end: usize, size: u64, places: usize) -> usize
    requires few { places ≤ 20 }
    requires room { 48 ≤ end }
    requires inside { end ≤ length room.old }
    ensures written { drop result room.new ≡ digits_by (pos places) size ++ drop end room.old }
    ensures short { end ≤ result + 41 }
    ensures within { result ≤ end }
{
    if places == 0 {
        return write_digits(size, room, end);
    }
    let whole = write_last(room, end, size, places);
    let point = end - places - 1;
    room[point] = b'.';
    write_digits(whole, room, point)
}

/// Writes the last `places` digits of `size`, and returns the number before them.
#[inline(always)]
fn write_last(room: &mut [u8], end: usize, size: u64, places: usize) -> u64
    requires few { places ≤ end }
    requires inside { end ≤ length room.old }
    ensures written { drop (end - places) room.new ≡ last_digits places size ++ drop end room.old }
    ensures rest { result ≡ size / 10 ^ places }
{
    let mut left = size;
    for count in 0..places {
        room[end - count - 1] = b'0' + (left % 10) as u8;
        left /= 10;
    }
    left
}
