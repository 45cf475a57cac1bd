//! Reads numbers and descriptors in the fields of a table file.

ghost use Rattle.std.specs.Prelude.{◌≡◌, option_and_then, pos, if◌then◌else◌};
ghost use Rattle.bufr_tables.specs.Numbers.{natural, negative, integer, unsigned, signed_fit};
ghost use Rattle.bufr_tables.specs.Numbers.{unsigned_fit, signed_of, unsigned_of, descriptor_of};

use crate::fxy::{Fxy, are_digits};

// Reads digits as a number of 64 bits.
fn natural(text: &[u8]) -> Option<u64>
    ensures { result ≡ option_and_then (unsigned_fit 64) (natural text.now) }
{
    if text.is_empty() || !are_digits(text) {
        return None;
    }
    let mut value = 0u64;
    for c in text {
        value = value
            .checked_mul(10)?
            .checked_add(u64::from(c.saturating_sub(b'0')))?;
    }
    Some(value)
}

// Applies a sign, if the result fits in 64 bits.
fn with_sign(is_negative: bool, n: u64) -> Option<i64>
    ensures { result ≡ signed_fit 64 (if is_negative then negative n else pos n) }
{
    if is_negative && n > 0 {
        if n > 0x8000_0000_0000_0000 {
            return None;
        }
        return Some(-((n - 1) as i64) - 1);
    }
    if n > 0x7FFF_FFFF_FFFF_FFFF {
        return None;
    }
    Some(n as i64)
}

// Reads a number of 64 bits that may have a plus sign.
fn unsigned(text: &[u8]) -> Option<u64>
    ensures { result ≡ option_and_then (unsigned_fit 64) (unsigned text.now) }
{
    let (first, rest) = text.split_first()?;
    if *first == b'+' {
        return natural(rest);
    }
    natural(text)
}

/// Reads a signed number of 64 bits.
pub(crate) fn signed_of(text: &[u8]) -> Option<i64>
    ensures { result ≡ signed_of 64 text.now }
{
    let (first, rest) = text.split_first()?;
    if *first == b'-' {
        return with_sign(true, natural(rest)?);
    }
    with_sign(false, unsigned(text)?)
}

/// Reads a signed number of 32 bits.
pub(crate) fn small_signed_of(text: &[u8]) -> Option<i32>
    ensures { result ≡ signed_of 32 text.now }
{
    let value = signed_of(text)?;
    if value < -0x8000_0000 || value > 0x7FFF_FFFF {
        return None;
    }
    Some(value as i32)
}

/// Reads an unsigned number of 32 bits.
pub(crate) fn small_unsigned_of(text: &[u8]) -> Option<u32>
    ensures { result ≡ unsigned_of 32 text.now }
{
    let value = unsigned(text)?;
    if value > 0xFFFF_FFFF {
        return None;
    }
    Some(value as u32)
}

pub(crate) fn descriptor_of(f: u8, text: &[u8]) -> Option<Fxy>
    ensures { result ≡ descriptor_of f text.now }
{
    let fxy = Fxy::from_text(text)?;
    if fxy.f() == f { Some(fxy) } else { None }
}
