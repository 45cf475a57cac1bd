//! Numbers in a text that has room for them, each with the octet after it.

ghost use Rattle.std.specs.Prelude.{◌≡◌, ◌++◌, ◌∷◌, ◌<◌, ◌≤◌, ◌+◌, [], decimal, length, vec_len};
ghost use Rattle.std.specs.Prelude.{OnOk, OnErr};
ghost use Rattle.std.specs.Vec.{vec_capacity};
ghost use Rattle.bufr_ls_engine.specs.RowSteps.{number_text};

use crate::texts::{LENGTHS, LINES};
use bufr_base::OutOfMemory;
use itoa::{Buffer, Integer};

/// The most octets that a number of 128 bits and the octet after it take.
pub(crate) const LONGEST: usize = 41;

/// A number of a row, by its longest text.
#[derive(Clone, Copy, Drop)]
pub(crate) enum Number {
    /// No number.
    Empty,
    /// A number of one octet.
    Octet(u8),
    /// A number of two octets.
    Count(u16),
    /// A number of 64 bits.
    Long(u64),
    /// A number that seldom needs more than 64 bits.
    Wide(u128),
}

/// Adds the line of a number of one octet, or nothing if memory runs out.
#[inline(always)]
pub(crate) fn push_octet_line(text: &mut Vec<u8>, number: u8) -> Result<(), OutOfMemory>
    ensures ok { OnOk result (text.new.items ≡ text.old.items ++ decimal number ++ 10 ∷ []) }
    ensures err { OnErr result (text.new.items ≡ text.old.items) }
{
    let held = text.len();
    let at = 4 * usize::from(number);
    text.extend_from_slice(&LINES[at..at + 4])?;
    text.truncate(held + usize::from(LENGTHS[usize::from(number)]));
    Ok(())
}

/// Adds a number.
#[inline(always)]
pub(crate) fn push_sized(text: &mut Vec<u8>, number: Number, end: u8)
    requires room { vec_len text.old + 41 ≤ vec_capacity text.old }
    ensures items { text.new.items ≡ text.old.items ++ number_text number ++ end ∷ [] }
{
    match number {
        Number::Empty => text.push_reserved(end),
        Number::Octet(number) => push_count(text, u16::from(number), end),
        Number::Count(number) => push_count(text, number, end),
        Number::Long(number) => push_number(text, number, end),
        Number::Wide(number) => push_wide(text, number, end),
    }
}

/// Adds a number that seldom needs more than 64 bits.
#[inline(always)]
pub(crate) fn push_wide(text: &mut Vec<u8>, number: u128, end: u8)
    requires room { vec_len text.old + 41 ≤ vec_capacity text.old }
    ensures items { text.new.items ≡ text.old.items ++ decimal number ++ end ∷ [] }
    ensures len { vec_len text.new ≤ vec_len text.old + 41 }
    ensures capacity { vec_capacity text.old ≤ vec_capacity text.new }
{
    match u64::try_from(number) {
        Ok(number) => push_number(text, number, end),
        Err(_) => push_long(text, number, end),
    }
}

/// Adds a number that often has one digit or two.
#[inline(always)]
#[tactic(auto, using(crate::proofs::NumberFacts::first_digit, crate::proofs::NumberFacts::two_digits))]
pub(crate) fn push_count(text: &mut Vec<u8>, number: u16, end: u8)
    requires room { vec_len text.old + 41 ≤ vec_capacity text.old }
    ensures items { text.new.items ≡ text.old.items ++ decimal number ++ end ∷ [] }
    ensures len { vec_len text.new ≤ vec_len text.old + 41 }
    ensures capacity { vec_capacity text.old ≤ vec_capacity text.new }
{
    if number < 10 {
        push_two(text, b'0' + number as u8, end);
    } else if number < 100 {
        let tens = b'0' + (number / 10) as u8;
        push_three(text, tens, b'0' + (number % 10) as u8, end);
    } else {
        push_number(text, u64::from(number), end);
    }
}

/// Adds a number of any length.
pub(crate) fn push_number(text: &mut Vec<u8>, number: u64, end: u8)
    requires room { vec_len text.old + 41 ≤ vec_capacity text.old }
    ensures items { text.new.items ≡ text.old.items ++ decimal number ++ end ∷ [] }
    ensures len { vec_len text.new ≤ vec_len text.old + 41 }
    ensures capacity { vec_capacity text.old ≤ vec_capacity text.new }
{
    if number < 10_000 {
        push_short(text, number, end);
    } else if number < 100_000_000 {
        push_eight(text, number, end);
    } else {
        push_long(text, number, end);
    }
}

/// Adds a number of at most four digits.
#[inline(always)]
#[tactic(auto, using(crate::proofs::NumberFacts::one_digit, crate::proofs::NumberFacts::last_two, crate::proofs::NumberFacts::three_digits, crate::proofs::NumberFacts::four_digits))]
fn push_short(text: &mut Vec<u8>, number: u64, end: u8)
    requires small { number < 10000 }
    requires room { vec_len text.old + 5 ≤ vec_capacity text.old }
    ensures items { text.new.items ≡ text.old.items ++ decimal number ++ end ∷ [] }
    ensures len { vec_len text.new ≤ vec_len text.old + 5 }
    ensures capacity { vec_capacity text.old ≤ vec_capacity text.new }
{
    let last = b'0' + (number % 10) as u8;
    if number < 10 {
        push_two(text, last, end);
        return;
    }
    let tens = b'0' + (number / 10 % 10) as u8;
    if number < 100 {
        push_three(text, tens, last, end);
        return;
    }
    let hundreds = b'0' + (number / 100 % 10) as u8;
    if number < 1000 {
        push_four(text, hundreds, tens, last, end);
        return;
    }
    let thousands = b'0' + (number / 1000) as u8;
    push_five(text, thousands, hundreds, tens, last, end);
}

/// Adds a number of five to eight digits: all but the last three, then these.
#[inline(always)]
fn push_eight(text: &mut Vec<u8>, number: u64, end: u8)
    requires long { 10000 ≤ number }
    requires small { number < 100000000 }
    requires room { vec_len text.old + 9 ≤ vec_capacity text.old }
    ensures items { text.new.items ≡ text.old.items ++ decimal number ++ end ∷ [] }
    ensures len { vec_len text.new ≤ vec_len text.old + 9 }
    ensures capacity { vec_capacity text.old ≤ vec_capacity text.new }
{
    let low = number % 10_000;
    push_short(text, number / 10_000, b'0' + (low / 1000) as u8);
    let hundreds = b'0' + (low / 100 % 10) as u8;
    let tens = b'0' + (low / 10 % 10) as u8;
    push_four(text, hundreds, tens, b'0' + (low % 10) as u8, end);
}

/// Adds a number that is seldom there.
#[inline(never)]
fn push_long<I: Integer>(text: &mut Vec<u8>, number: I, end: u8)
    requires room { vec_len text.old + 41 ≤ vec_capacity text.old }
    ensures items { text.new.items ≡ text.old.items ++ I.text number ++ end ∷ [] }
    ensures len { vec_len text.new ≤ vec_len text.old + 41 }
    ensures capacity { vec_capacity text.old ≤ vec_capacity text.new }
{
    push_octets(text, Buffer::new().format(number).as_bytes());
    push_octets(text, &[end]);
}

#[inline(always)]
fn push_two(text: &mut Vec<u8>, first: u8, second: u8)
    requires room { vec_len text.old + 2 ≤ vec_capacity text.old }
    ensures items { text.new.items ≡ text.old.items ++ first ∷ second ∷ [] }
    ensures len { vec_len text.new ≡ vec_len text.old + 2 }
    ensures capacity { vec_capacity text.old ≤ vec_capacity text.new }
{
    text.push_reserved(first);
    text.push_reserved(second);
}

#[inline(always)]
fn push_three(text: &mut Vec<u8>, first: u8, second: u8, third: u8)
    requires room { vec_len text.old + 3 ≤ vec_capacity text.old }
    ensures items { text.new.items ≡ text.old.items ++ first ∷ second ∷ third ∷ [] }
    ensures len { vec_len text.new ≡ vec_len text.old + 3 }
    ensures capacity { vec_capacity text.old ≤ vec_capacity text.new }
{
    text.push_reserved(first);
    text.push_reserved(second);
    text.push_reserved(third);
}

#[inline(always)]
fn push_four(text: &mut Vec<u8>, first: u8, second: u8, third: u8, fourth: u8)
    requires room { vec_len text.old + 4 ≤ vec_capacity text.old }
    ensures items { text.new.items ≡ text.old.items ++ first ∷ second ∷ third ∷ fourth ∷ [] }
    ensures len { vec_len text.new ≡ vec_len text.old + 4 }
    ensures capacity { vec_capacity text.old ≤ vec_capacity text.new }
{
    push_two(text, first, second);
    push_two(text, third, fourth);
}

#[inline(always)]
fn push_five(text: &mut Vec<u8>, first: u8, second: u8, third: u8, fourth: u8, fifth: u8)
    requires room { vec_len text.old + 5 ≤ vec_capacity text.old }
    ensures items { text.new.items ≡ text.old.items ++ first ∷ second ∷ third ∷ fourth ∷ fifth ∷ [] }
    ensures len { vec_len text.new ≡ vec_len text.old + 5 }
    ensures capacity { vec_capacity text.old ≤ vec_capacity text.new }
{
    push_two(text, first, second);
    push_three(text, third, fourth, fifth);
}

#[inline(always)]
pub(crate) fn push_octets(text: &mut Vec<u8>, octets: &[u8])
    requires room { vec_len text.old + length octets.now ≤ vec_capacity text.old }
    ensures items { text.new.items ≡ text.old.items ++ octets.now }
    ensures len { vec_len text.new ≡ vec_len text.old + length octets.now }
    ensures capacity { vec_capacity text.old ≤ vec_capacity text.new }
{
    // There is room, so memory can't run out.
    let _ = text.extend_from_slice(octets);
}
