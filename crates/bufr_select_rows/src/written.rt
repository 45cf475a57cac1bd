//! The values of fields, written from their end into a room.

ghost use Rattle.std.specs.Prelude.{◌≡◌, ◌≤◌, ◌++◌, decimal, drop, length, IfSome};
ghost use Rattle.csv.specs.Writing.{default_writer, field_text};
ghost use Rattle.bufr_select_rows.specs.Texts.{sum_word};

use crate::quotes::needs_quotes;
use crate::text::Sum;
use bufr_expand::Spec;
use bufr_fields::NumberField;
use bufr_listing::write_sum;
use bufr_tables::{Fxy, Kind};
use itoa::write_digits;

/// The room for a count.
const MOST_OCTETS: usize = 48;

// The functions below write before `end`, and return where what they wrote begins. They return
// `None` if the room is short.

/// Writes a sum, unless it is large.
#[inline(always)]
pub(crate) fn write_number(room: &mut [u8], end: usize, sum: Sum) -> Option<usize>
    requires { end ≤ length room.old }
    ensures written { IfSome result (λ start. drop start room.new
        ≡ sum_word sum ++ drop end room.old) }
    ensures within { IfSome result (λ start. start ≤ end) }
{
    let number = sum.number;
    let reference = sum.reference;
    // The usual scales, each in code of its own.
    if reference == 0 {
        match sum.scale {
            0 => return write_parts(room, end, number, 0, 0),
            1 => return write_parts(room, end, number, 0, 1),
            2 => return write_parts(room, end, number, 0, 2),
            -1 => return write_parts(room, end, number, 0, -1),
            _ => {}
        }
    }
    write_parts(room, end, number, reference, sum.scale)
}

/// Writes the sum of a number and a reference value by a scale, unless it is large.
#[inline(always)]
fn write_parts(
    room: &mut [u8],
    end: usize,
    number: u64,
    reference: i64,
    scale: i32,
) -> Option<usize>
    requires { end ≤ length room.old }
    ensures written { IfSome result (λ start. drop start room.new ≡ sum_word
        (record { number = number; reference = reference; scale = scale }) ++ drop end room.old) }
    ensures within { IfSome result (λ start. start ≤ end) }
{
    let spec = Spec {
        kind: Kind::Quantity,
        scale,
        reference,
        width: u64::BITS,
    };
    let field = NumberField {
        fxy: Fxy::from_bits(0),
        spec,
        number,
    };
    write_sum(room, end, field)
}

/// Writes the digits of a count.
#[inline(always)]
pub(crate) fn write_count(room: &mut [u8], end: usize, count: u64) -> Option<usize>
    requires { end ≤ length room.old }
    ensures written { IfSome result (λ start. drop start room.new
        ≡ decimal count ++ drop end room.old) }
    ensures within { IfSome result (λ start. start ≤ end) }
{
    if end < MOST_OCTETS {
        return None;
    }
    Some(write_digits(count, room, end))
}

/// Writes octets, unless they need quotes.
pub(crate) fn write_octets(room: &mut [u8], end: usize, octets: &[u8]) -> Option<usize>
    requires { end ≤ length room.old }
    ensures written { IfSome result (λ start. drop start room.new
        ≡ field_text default_writer octets.now ++ drop end room.old) }
    ensures within { IfSome result (λ start. start ≤ end) }
{
    if needs_quotes(octets) {
        return None;
    }
    write_plain(room, end, octets)
}

/// Writes octets as they are.
#[inline(always)]
pub(crate) fn write_plain(room: &mut [u8], end: usize, octets: &[u8]) -> Option<usize>
    requires { end ≤ length room.old }
    ensures written { IfSome result (λ start. drop start room.new
        ≡ octets.now ++ drop end room.old) }
    ensures within { IfSome result (λ start. start ≤ end) }
{
    if octets.len() > end {
        return None;
    }
    let start = end - octets.len();
    room[start..end].copy_from_slice(octets);
    Some(start)
}
