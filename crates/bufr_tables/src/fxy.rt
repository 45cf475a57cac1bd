ghost use Rattle.std.specs.Prelude.{◌≡◌, ◌∷◌, [], Some, IsTrue};
ghost use Rattle.std.specs.List.{list_all};
ghost use Rattle.std.specs.Char.{is_ascii_digit};
ghost use Rattle.bufr_tables.specs.Descriptors.{f_of, x_of, y_of, in_ranges};
ghost use Rattle.bufr_tables.specs.Descriptors.{of_text, six_digits};

use crate::three_digits::THREE_DIGITS;
use std::fmt;
use std::marker::Model;

/// The greatest F, of 2 bits.
pub const GREATEST_F: u8 = 3;
/// The greatest X, of 6 bits.
pub const GREATEST_X: u8 = 63;
/// The greatest Y, of 8 bits.
pub const GREATEST_Y: u16 = 255;

/// A descriptor F XX YYY. Contracts see it as a number of 16 bits.
#[derive(Clone, Copy, Debug, PartialEq, Eq, PartialOrd, Ord)]
pub struct Fxy(u16);

impl Model for Fxy {
    ghost use Rattle.std.specs.Prelude.{ℕ};

    ghost Value = { ℕ };

    ghost view = { λ a. a.0 };

    ghost inverse = { λ d. record { 0 = d } };
}

impl Fxy {
    /// Makes a descriptor, or `None` if F is above 3 or X above 63.
    pub fn new(f: u8, x: u8, y: u8) -> Option<Fxy>
        ensures { result ≡ in_ranges f x y }
    {
        if f > GREATEST_F || x > GREATEST_X {
            return None;
        }
        Some(Fxy(16384 * f as u16 + 256 * x as u16 + y as u16))
    }

    /// Makes a descriptor of 16 bits, as in section 3.
    pub fn from_bits(bits: u16) -> Fxy
        ensures { result ≡ bits }
    {
        Self(bits)
    }

    /// Reads six ASCII digits FXXYYY, or returns `None`.
    pub fn from_text(text: &[u8]) -> Option<Fxy>
        ensures { result ≡ of_text text.now }
    {
        if text.len() != 6 || !are_digits(text) {
            return None;
        }
        from_digits(text[0], text[1], text[2], text[3], text[4], text[5])
    }

    /// Returns the 16 bits.
    pub fn bits(self) -> u16
        ensures { result ≡ self }
    {
        let Fxy(bits) = self;
        bits
    }

    /// Returns F, X and Y.
    pub fn parts(self) -> (u8, u8, u8)
        ensures { result ≡ (f_of self, x_of self, y_of self) }
    {
        let Fxy(bits) = self;
        (
            (bits >> 14) as u8,
            (bits >> 8 & 63) as u8,
            (bits & 255) as u8,
        )
    }

    /// Returns F, 0 to 3.
    pub fn f(self) -> u8
        ensures { result ≡ f_of self }
    {
        (self.0 >> 14) as u8
    }

    /// Returns X, 0 to 63.
    pub fn x(self) -> u8
        ensures { result ≡ x_of self }
    {
        (self.0 >> 8 & 63) as u8
    }

    /// Returns Y, 0 to 255.
    pub fn y(self) -> u8
        ensures { result ≡ y_of self }
    {
        (self.0 & 255) as u8
    }

    /// Returns the six ASCII digits FXXYYY.
    // A few loads take less time than the divisions.
    pub fn digits(self) -> [u8; 6]
        ensures { result ≡ six_digits self }
    {
        let (f, x, y) = self.parts();
        let (x, y) = (3 * usize::from(x), 3 * usize::from(y));
        [
            b'0' + f,
            THREE_DIGITS[x + 1],
            THREE_DIGITS[x + 2],
            THREE_DIGITS[y],
            THREE_DIGITS[y + 1],
            THREE_DIGITS[y + 2],
        ]
    }
}

/// Returns whether all octets are ASCII digits.
pub(crate) fn are_digits(text: &[u8]) -> bool
    ensures { result ≡ list_all is_ascii_digit text.now }
{
    text.iter().all(|c| c.is_ascii_digit())
}

fn from_digits(f: u8, x10: u8, x1: u8, y100: u8, y10: u8, y1: u8) -> Option<Fxy>
    requires { IsTrue (list_all is_ascii_digit (f ∷ x10 ∷ x1 ∷ y100 ∷ y10 ∷ y1 ∷ [])) }
    ensures { result ≡ of_text (f ∷ x10 ∷ x1 ∷ y100 ∷ y10 ∷ y1 ∷ []) }
{
    let x = 10 * (x10 - b'0') + (x1 - b'0');
    let y = 100 * u16::from(y100 - b'0') + 10 * u16::from(y10 - b'0') + u16::from(y1 - b'0');
    if y > GREATEST_Y {
        return None;
    }
    Fxy::new(f - b'0', x, y as u8)
}

/// Prints the six digits FXXYYY.
impl fmt::Display for Fxy {
    ghost output = { λ d. Some (six_digits d) };

    fn fmt<W: fmt::Write>(&self, f: &mut fmt::Formatter<W>) -> fmt::Result {
        match str::from_utf8(&self.digits()) {
            Ok(digits) => f.write_str(digits),
            Err(_) => Err(fmt::Error),
        }
    }
}
