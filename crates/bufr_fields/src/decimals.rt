//! Reads decimals from their texts. Takes no memory.

ghost use Rattle.std.specs.Prelude.{◌≡◌, ◌^◌, Some, None, IfSome, nat_lt, if◌then◌else◌};
ghost use Rattle.std.specs.Str.Parse.{digits_value};
ghost use Rattle.bufr_fields.specs.Values.{text_of};
ghost use Rattle.bufr_fields.specs.declared.field.Decimal as declared;
ghost use Rattle.bufr_fields.specs.DecimalTexts.{digits_in, before_zeros, units_by};
ghost use Rattle.bufr_fields.specs.DecimalTexts.{decimal_of, IsDecimal};

use crate::digits::has_digits;
use crate::field::Decimal;
use crate::limits::MOST_DECIMAL_SCALE;

impl Decimal {
    /// Returns the decimal of this scale that prints this text. `None` for any other spelling, a scale
    /// not from -600 to 600, or units past `i128`. Takes time linear in the text.
    pub fn parse(text: &[u8], scale: i32) -> Option<Decimal>
        ensures found { IfSome result (λ d. (d.scale ≡ scale) × IsDecimal d
            × (text_of d ≡ text.now)) }
        ensures only { (d : declared.Decimal) → IsDecimal d → d.scale ≡ scale → text_of d ≡ text.now
            → result ≡ Some d }
    {
        parse(text, scale)
    }
}

/// Builds the only candidate, and compares its digits with the text.
fn parse(text: &[u8], scale: i32) -> Option<Decimal>
    ensures { result ≡ decimal_of scale text.now }
{
    if scale < -MOST_DECIMAL_SCALE || scale > MOST_DECIMAL_SCALE {
        return None;
    }
    let number = number_in(without_zeros(text, scale))?;
    let is_negative = text.first() == Some(&b'-');
    let units = units_of(is_negative, number)?;
    let digits = if is_negative { &text[1..] } else { text };
    if has_digits(number, scale, digits) {
        Some(Decimal { units, scale })
    } else {
        None
    }
}

/// Cuts off the zeros that a negative scale puts at the end.
fn without_zeros(text: &[u8], scale: i32) -> &[u8]
    ensures { result.now ≡ before_zeros scale text.now }
{
    if scale >= 0 {
        return text;
    }
    let kept = text.len().saturating_sub(scale.unsigned_abs() as usize);
    &text[..kept]
}

/// Returns the number of all digits in a text, if it fits 128 bits.
fn number_in(text: &[u8]) -> Option<u128>
    ensures { result ≡ (if nat_lt (digits_value 10 (digits_in text.now)) (2 ^ 128)
        then Some (digits_value 10 (digits_in text.now)) else None) }
{
    let mut value = 0u128;
    for c in text {
        if c.is_ascii_digit() {
            value = value
                .checked_mul(10)?
                .checked_add(u128::from(c.saturating_sub(b'0')))?;
        }
    }
    Some(value)
}

/// Adds the sign to a number. `None` for minus zero, and past `i128`.
fn units_of(is_negative: bool, number: u128) -> Option<i128>
    ensures { result ≡ units_by is_negative number }
{
    if !is_negative {
        return i128::try_from(number).ok();
    }
    if number == 0 {
        return None;
    }
    let below = i128::try_from(number - 1).ok()?;
    Some(-below - 1)
}
