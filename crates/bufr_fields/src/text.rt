ghost use Rattle.std.specs.Prelude.{◌≡◌, ◌≤◌, ◌+◌, ◌-◌, ◌++◌, length, take, decimal, Some};
ghost use Rattle.std.specs.Prelude.{IsAscii, OnOk, OnErr, replicate};
ghost use Rattle.bufr_fields.specs.Values.{sign_of, digits_by, pointed, text_of};

use crate::field::Decimal;
use bufr_base::OutOfMemory;
use itoa::Buffer;
use std::fmt;

impl Decimal {
    ghost use Rattle.std.specs.Prelude.{◌≡◌, ◌++◌, OnOk, OnErr};
    ghost use Rattle.bufr_fields.specs.Values.{text_of};

    /// Appends the text of the decimal, or nothing if memory runs out.
    pub fn push_text(self, text: &mut Vec<u8>) -> Result<(), OutOfMemory>
        ensures ok { OnOk result (text.new.items ≡ text.old.items ++ text_of self) }
        ensures err { OnErr result (text.new.items ≡ text.old.items) }
    {
        let held = text.len();
        let added = push_decimal(text, self);
        if added.is_err() {
            text.truncate(held);
        }
        added
    }
}

/// Prints the digits with a point, or with zeros appended for a negative scale.
impl fmt::Display for Decimal {
    ghost output = { λ d. Some (text_of d) };

    fn fmt<W: fmt::Write>(&self, f: &mut fmt::Formatter<W>) -> fmt::Result {
        let mut buffer = Buffer::new();
        let sign = sign(self.units);
        let parts = parts_of(&mut buffer, self.units.unsigned_abs(), self.scale);
        let (front, point, back) = (parts.front, parts.point, parts.back);
        let zeros = Zeros(parts.zeros);
        write!(f, "{sign}{front}{point}{zeros}{back}")
    }
}

/// A number's printed digits, in parts.
#[derive(Clone, Copy)]
struct Parts<'a> {
    /// The digits before the point, or all.
    front: &'a str,
    /// The point, with a zero if no digit is before it.
    point: &'static str,
    /// The zeros after it.
    zeros: u32,
    /// The rest of the digits.
    back: &'a str,
}

fn sign(units: i128) -> &'static str
    ensures { result.now ≡ sign_of units }
{
    if units < 0 { "-" } else { "" }
}

fn parts_of<'a>(buffer: &'a mut Buffer, number: u128, scale: i32) -> Parts<'a>
    ensures { result.front.now ++ result.point.now ++ replicate result.zeros 48 ++ result.back.now
        ≡ digits_by scale number }
{
    let places = scale.unsigned_abs();
    let digits = buffer.format(number);
    if scale > 0 {
        return pointed(digits, places);
    }
    Parts {
        front: digits,
        point: "",
        zeros: if number == 0 { 0 } else { places },
        back: "",
    }
}

/// Puts a point before the last `places` digits.
fn pointed<'a>(digits: &'a str, places: u32) -> Parts<'a>
    requires ascii { IsAscii digits.now }
    requires short { length digits.now ≤ 40 }
    ensures { result.front.now ++ result.point.now ++ replicate result.zeros 48 ++ result.back.now
        ≡ pointed places (replicate (places + 1 - length digits.now) 48 ++ digits.now) }
{
    let count = digits.len() as u32;
    if count <= places {
        return Parts {
            front: "",
            point: "0.",
            zeros: places - count,
            back: digits,
        };
    }
    let (front, back) = digits.split_at((count - places) as usize);
    Parts {
        front,
        point: ".",
        zeros: 0,
        back,
    }
}

/// Appends the text, or a part if memory runs out.
fn push_decimal(text: &mut Vec<u8>, decimal: Decimal) -> Result<(), OutOfMemory>
    ensures ok { OnOk result (text.new.items ≡ text.old.items ++ text_of decimal) }
    ensures kept { OnErr result (take (length text.old.items) text.new.items ≡ text.old.items) }
{
    let mut buffer = Buffer::new();
    let parts = parts_of(&mut buffer, decimal.units.unsigned_abs(), decimal.scale);
    push_octets(text, sign(decimal.units).as_bytes())?;
    push_octets(text, parts.front.as_bytes())?;
    push_octets(text, parts.point.as_bytes())?;
    push_zeros(text, parts.zeros)?;
    push_octets(text, parts.back.as_bytes())?;
    Ok(())
}

fn push_octets(text: &mut Vec<u8>, octets: &[u8]) -> Result<(), OutOfMemory>
    ensures ok { OnOk result (text.new.items ≡ text.old.items ++ octets.now) }
    ensures err { OnErr result (text.new.items ≡ text.old.items) }
{
    match octets {
        [] => Ok(()),
        [octet] => {
            text.push(*octet)?;
            Ok(())
        }
        octets => text.extend_from_slice(octets),
    }
}

fn push_zeros(text: &mut Vec<u8>, zeros: u32) -> Result<(), OutOfMemory>
    ensures ok { OnOk result (text.new.items ≡ text.old.items ++ replicate zeros 48) }
    ensures err { OnErr result (text.new.items ≡ text.old.items) }
{
    if zeros == 0 {
        return Ok(());
    }
    text.resize(text.len() + zeros as usize, b'0')
}

/// A printed run of zeros.
#[derive(Clone, Copy)]
struct Zeros(u32);

impl fmt::Display for Zeros {
    ghost output = { λ z. Some (replicate z.0 48) };

    fn fmt<W: fmt::Write>(&self, f: &mut fmt::Formatter<W>) -> fmt::Result {
        for _i in 0..self.0 {
            write!(f, "0")?;
        }
        Ok(())
    }
}
