//! The number of an element's first field, in two octets.
ghost use Rattle.std.specs.Prelude.{◌≡◌, None, Some, pos};
ghost use Rattle.std.specs.Option.{option_flatten, option_map, option_or};

use crate::first_number::FirstNumber;
use std::marker::Model;

#[derive(Clone, Copy)]
pub(crate) enum ShortSaid {
    Unmet,
    Unusable,
    Number(u16),
}

/// A number like `FirstNumber`, of at most two octets.
#[derive(Drop)]
pub(crate) struct FirstShort {
    said: ShortSaid,
}

impl Model for FirstShort {
    ghost use Rattle.std.specs.Prelude.{Option, ℤ};
    ghost use Rattle.bufr_report_keys.specs.Said.{short_said};

    ghost Value = { Option (Option ℤ) };

    ghost view = { λ n. short_said n.said };
}

impl FirstShort {
    #[inline(always)]
    pub(crate) fn unmet() -> FirstShort
        ensures { result ≡ None }
    {
        FirstShort {
            said: ShortSaid::Unmet,
        }
    }

    #[inline(always)]
    pub(crate) fn copied(&self) -> FirstShort
        ensures { result ≡ self.now }
    {
        FirstShort { said: self.said }
    }

    /// Notes the number of a field, or none if it is unusable. Only the first of an element counts.
    #[inline(always)]
    pub(crate) fn note(&mut self, number: Option<u16>)
        ensures { self.new ≡ option_or self.old (Some (option_map pos number)) }
    {
        match (self.said, number) {
            (ShortSaid::Unmet, Some(number)) => self.said = ShortSaid::Number(number),
            (ShortSaid::Unmet, None) => self.said = ShortSaid::Unusable,
            _ => {}
        }
    }

    #[inline(always)]
    pub(crate) fn usable(&self) -> Option<u16>
        ensures { option_map pos result ≡ option_flatten self.now }
    {
        match self.said {
            ShortSaid::Number(number) => Some(number),
            ShortSaid::Unmet | ShortSaid::Unusable => None,
        }
    }

    /// Returns the usable number like `FirstNumber::usable`.
    #[inline(always)]
    pub(crate) fn whole(&self) -> Option<i128>
        ensures { result ≡ option_flatten self.now }
    {
        match self.said {
            ShortSaid::Number(number) => Some(i128::from(number)),
            ShortSaid::Unmet | ShortSaid::Unusable => None,
        }
    }

    /// Makes the same number as a `FirstNumber`.
    pub(crate) fn widened(&self) -> FirstNumber
        ensures { result ≡ self.now }
    {
        let mut number = FirstNumber::unmet();
        match self.said {
            ShortSaid::Unmet => {}
            ShortSaid::Unusable => number.note(None),
            ShortSaid::Number(said) => number.note(Some(i128::from(said))),
        }
        number
    }
}
