//! The columns of a row, and their words.

ghost use Rattle.std.specs.Prelude.{◌≡◌, ◌≢◌, ℕ, ◌<◌, ◌^◌, ◌++◌, decimal, IfSome, OnOk};
ghost use Rattle.std.specs.Option.{IfNone};
ghost use Rattle.bufr_select_rows.specs.Columns.{IsColumn, IsNoColumn, word};

use crate::fact::Fact;
use bufr_base::OutOfMemory;
use bufr_fields::Decimal;
use bufr_tables::Fxy;
use itoa::Buffer;

/// A column of a row.
#[derive(Clone, Copy, Debug, Drop, PartialEq, Eq)]
pub enum Column {
    /// A fact about the subset as a whole.
    Fact(Fact),
    /// The first field with this descriptor.
    First(Fxy),
    /// The n-th field with this descriptor.
    Nth(Fxy, u64),
}

impl Column {
    pub fn from_word(text: &str) -> Option<Column>
        ensures can_be { IfSome result IsColumn }
        ensures named { IfSome result (λ column. word column ≡ text.now) }
        ensures none { IfNone result (IsNoColumn text.now) }
    {
        if let Some(fact) = Fact::from_word(text) {
            return Some(Column::Fact(fact));
        }
        match text.as_bytes() {
            [a, b, c, d, e, f] => {
                let fxy = Fxy::from_text(&[*a, *b, *c, *d, *e, *f])?;
                Some(Column::First(fxy))
            }
            [a, b, c, d, e, f, mark, digits @ ..] => {
                if *mark != b'#' {
                    return None;
                }
                let fxy = Fxy::from_text(&[*a, *b, *c, *d, *e, *f])?;
                let number = number_of(digits)?;
                Some(Column::Nth(fxy, number))
            }
            _ => None,
        }
    }

    /// Adds the word of the column, or a part of it if memory runs out.
    pub fn push_word(self, text: &mut Vec<u8>) -> Result<(), OutOfMemory>
        ensures { OnOk result (text.new.items ≡ text.old.items ++ word self) }
    {
        match self {
            Column::Fact(fact) => text.extend_from_slice(fact.word().as_bytes()),
            Column::First(fxy) => text.extend_from_slice(&fxy.digits()),
            Column::Nth(fxy, number) => {
                text.extend_from_slice(&fxy.digits())?;
                text.push(b'#')?;
                text.extend_from_slice(Buffer::new().format(number).as_bytes())
            }
        }
    }
}

/// Reads the digits of a number that counts from 1.
fn number_of(digits: &[u8]) -> Option<u64>
    ensures counts { IfSome result (λ n. 0 < n) }
    ensures fits { IfSome result (λ n. n < 2 ^ 64) }
    ensures spelt { IfSome result (λ n. decimal n ≡ digits.now) }
    ensures none { IfNone result ((n : ℕ) → 0 < n → n < 2 ^ 64 → decimal n ≢ digits.now) }
{
    let number = Decimal::parse(digits, 0)?;
    if number.units < 1 || number.units > u64::MAX as i128 {
        return None;
    }
    Some(number.units as u64)
}
