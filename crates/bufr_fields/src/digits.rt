//! Compares texts with the digits of numbers. Takes no memory.

ghost use Rattle.std.specs.Prelude.{◌≡◌, ◌+◌, ◌/◌, ◌%◌, ◌^◌, decimal, length, true};
ghost use Rattle.std.specs.Str.{bytes_eq};
ghost use Rattle.bufr_expand.specs.OperatorsInForce.{is_within};
ghost use Rattle.bufr_fields.specs.Digits.{last_digits};
ghost use Rattle.bufr_fields.specs.Values.{digits_by};
ghost use Rattle.bufr_fields.specs.Limits.{most_decimal_scale};

/// Whether a text is the number's digits.
fn is_decimal(number: u128, text: &[u8]) -> bool
    ensures { result ≡ bytes_eq (decimal number) text.now }
{
    match text.split_last() {
        None => false,
        Some((last, front)) => {
            if *last != last_digit(number) {
                return false;
            }
            if number < 10 {
                return front.is_empty();
            }
            is_decimal(number / 10, front)
        }
    }
}

fn last_digit(number: u128) -> u8
    ensures { result ≡ 48 + number % 10 }
{
    b'0' + (number % 10) as u8
}

/// Whether a text is the number's last digits.
fn are_last_digits(number: u128, text: &[u8]) -> bool
    ensures { result ≡ bytes_eq (last_digits (length text.now) number) text.now }
{
    match text.split_last() {
        None => true,
        Some((last, front)) => *last == last_digit(number) && are_last_digits(number / 10, front),
    }
}

/// Drops the last `places` digits.
fn without_last(number: u128, places: u32) -> u128
    ensures { result ≡ number / 10 ^ places }
{
    if places > 38 {
        0
    } else {
        number / 10u128.pow(places)
    }
}

/// Whether a text is the number's digits at this scale.
pub(crate) fn has_digits(number: u128, scale: i32, text: &[u8]) -> bool
    requires { is_within most_decimal_scale scale ≡ true }
    ensures { result ≡ bytes_eq (digits_by scale number) text.now }
{
    let places = scale.unsigned_abs() as usize;
    if scale > 0 {
        if text.len() <= places {
            return false;
        }
        let (whole, rest) = text.split_at(text.len() - places - 1);
        return rest[0] == b'.'
            && is_decimal(without_last(number, scale.unsigned_abs()), whole)
            && are_last_digits(number, &rest[1..]);
    }
    if number == 0 {
        return is_decimal(0, text);
    }
    if text.len() < places {
        return false;
    }
    let (digits, zeros) = text.split_at(text.len() - places);
    // Zeros are the last digits of 0.
    is_decimal(number, digits) && are_last_digits(0, zeros)
}
