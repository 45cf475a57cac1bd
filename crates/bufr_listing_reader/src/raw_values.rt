//! Reads words as raw values.

ghost use Rattle.bufr_listing_reader.specs.Words.{below};
ghost use Rattle.std.specs.Prelude.{◌≡◌, ◌≤◌, ◌^◌, ◌-ℤ◌, IfOk, option_map};
ghost use Rattle.bufr_listing_reader.specs.RawWords as words;
ghost use Rattle.bufr_listing_reader.specs.RawWords.{raw_of, number_of, text_of, octets_of, first_octet};
ghost use Rattle.bufr_listing_reader.specs.RawWords.{lower_value};
ghost use Rattle.bufr_fields.specs.Limits.{most_raw_bits};

use crate::line_words::natural;
use bufr_base::{Items, OutOfMemory};
use bufr_expand::Spec;
use bufr_fields::{Decimal, MOST_DECIMAL_SCALE, MOST_RAW_BITS, Raw, are_ones, greatest};
use bufr_listing::is_literal;
use bufr_tables::Kind;
use std::alloc::Global;

/// The word for a missing value.
const MISSING: &[u8] = b"missing";

/// Returns the raw value of this spec that prints this word, if there is one.
pub(crate) fn raw_of(alloc: Global, spec: Spec, word: &[u8]) -> Result<Option<Raw>, OutOfMemory>
    ensures { IfOk result (λ o. o ≡ raw_of spec word.now) }
{
    if spec.scale < -MOST_DECIMAL_SCALE || spec.scale > MOST_DECIMAL_SCALE {
        return Ok(None);
    }
    match spec.kind {
        Kind::Text => match text_of(alloc, spec.width, word)? {
            None => Ok(None),
            Some(octets) => Ok(Some(Raw::Text(Items::from_vec(octets)))),
        },
        _ => match number_of(spec, word) {
            None => Ok(None),
            Some(number) => Ok(Some(Raw::Number(number))),
        },
    }
}

/// Returns the number of this spec that prints this word, for any kind but texts.
fn number_of(spec: Spec, word: &[u8]) -> Option<u64>
    ensures { result ≡ number_of spec word.now }
{
    if spec.width > MOST_RAW_BITS {
        return None;
    }
    if word == MISSING {
        return if may_be_missing(spec) {
            Some(greatest(spec.width))
        } else {
            None
        };
    }
    let value = Decimal::parse(word, spec.scale)?;
    let number = above(value.units, spec.reference)?;
    unless_missing(spec, number)
}

/// Whether all ones mean a missing value: not in one bit, nor in a count.
fn may_be_missing(spec: Spec) -> bool
    ensures { result ≡ words.may_be_missing spec }
{
    spec.width != 1 && !matches!(spec.kind, Kind::Count)
}

/// Returns the number if it fits the spec and is not the missing value.
fn unless_missing(spec: Spec, number: u64) -> Option<u64>
    requires { spec.width ≤ most_raw_bits }
    ensures { result ≡ words.unless_missing spec number }
{
    let greatest = greatest(spec.width);
    if number > greatest || (number == greatest && may_be_missing(spec)) {
        None
    } else {
        Some(number)
    }
}

/// Returns how far units are above a reference value, if 64 bits hold it.
fn above(units: i128, reference: i64) -> Option<u64>
    ensures { result ≡ below (2 ^ 64) (units -ℤ reference) }
{
    natural(units.checked_sub(i128::from(reference))?)
}

/// Returns the octets of a text field of `width` bits that print this word.
fn text_of(alloc: Global, width: u32, word: &[u8]) -> Result<Option<Vec<u8>>, OutOfMemory>
    ensures { IfOk result (λ o. option_map (λ v. v.items) o ≡ text_of width word.now) }
{
    let count = (width / 8) as usize;
    let may_be_missing = width != 1;
    if word == MISSING {
        return if may_be_missing {
            Ok(Some(Vec::from_elem(alloc, 255, count)?))
        } else {
            Ok(None)
        };
    }
    match octets_of(alloc, count, word)? {
        None => Ok(None),
        Some(octets) => {
            if may_be_missing && are_ones(&octets) {
                Ok(None)
            } else {
                Ok(Some(octets))
            }
        }
    }
}

/// Reads `count` octets between quotes.
fn octets_of(alloc: Global, count: usize, word: &[u8]) -> Result<Option<Vec<u8>>, OutOfMemory>
    ensures { IfOk result (λ o. option_map (λ v. v.items) o ≡ octets_of count word.now) }
{
    match word {
        [b'"', behind @ ..] => octets_before(alloc, count, behind),
        _ => Ok(None),
    }
}

/// Reads `count` octets up to the quote that ends the text.
fn octets_before(alloc: Global, count: usize, text: &[u8]) -> Result<Option<Vec<u8>>, OutOfMemory>
    ensures { IfOk result (λ o. option_map (λ v. v.items) o
        ≡ words.octets_before count text.now) }
{
    let mut rest = text;
    let mut octets = Vec::new(alloc);
    for _i in 0..count {
        match first_octet(rest) {
            None => return Ok(None),
            Some((octet, behind)) => {
                octets.push(octet)?;
                rest = behind;
            }
        }
    }
    Ok(if rest == b"\"".as_slice() {
        Some(octets)
    } else {
        None
    })
}

/// Reads the first octet of a text between quotes. Returns also the text after it.
fn first_octet(text: &[u8]) -> Option<(u8, &[u8])>
    ensures { option_map (λ x. (x.0, x.1.now)) result ≡ first_octet text.now }
{
    match text {
        [b'\\', high, low, behind @ ..] => {
            let octet = 16 * lower_value(*high)? + lower_value(*low)?;
            if is_literal(octet) {
                None
            } else {
                Some((octet, behind))
            }
        }
        [octet, behind @ ..] if is_literal(*octet) => Some((*octet, behind)),
        _ => None,
    }
}

fn lower_value(digit: u8) -> Option<u8>
    ensures { result ≡ lower_value digit }
{
    match digit {
        b'0'..=b'9' => Some(digit - b'0'),
        b'a'..=b'f' => Some(digit - b'a' + 10),
        _ => None,
    }
}
