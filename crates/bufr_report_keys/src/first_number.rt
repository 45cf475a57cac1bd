//! The number of an element's first field.
ghost use Rattle.std.specs.Prelude.{◌≡◌, IfSome, None, Some, pos};
ghost use Rattle.std.specs.Option.{option_flatten, option_or};

use std::marker::Model;

#[derive(Clone, Copy)]
pub(crate) enum Said {
    Unmet,
    Unusable,
    Number(i128),
}

/// A number of an element's first field: not met, met but unusable, or a number, in less room than
/// an option in an option.
#[derive(Drop)]
pub(crate) struct FirstNumber {
    said: Said,
}

impl Model for FirstNumber {
    ghost use Rattle.std.specs.Prelude.{Option, ℤ};
    ghost use Rattle.bufr_report_keys.specs.Said.{number_said};

    ghost Value = { Option (Option ℤ) };

    ghost view = { λ n. number_said n.said };
}

impl FirstNumber {
    pub(crate) fn unmet() -> FirstNumber
        ensures { result ≡ None }
    {
        FirstNumber { said: Said::Unmet }
    }

    /// Notes the number of a field, or none if it is unusable. Only the first of an element counts.
    #[inline(always)]
    pub(crate) fn note(&mut self, number: Option<i128>)
        ensures { self.new ≡ option_or self.old (Some number) }
    {
        match (self.said, number) {
            (Said::Unmet, Some(number)) => self.said = Said::Number(number),
            (Said::Unmet, None) => self.said = Said::Unusable,
            _ => {}
        }
    }

    pub(crate) fn usable(&self) -> Option<i128>
        ensures { result ≡ option_flatten self.now }
    {
        match self.said {
            Said::Number(number) => Some(number),
            Said::Unmet | Said::Unusable => None,
        }
    }

    /// Returns the number, if it fits in two octets.
    pub(crate) fn two_octets(&self) -> Option<u16>
        ensures { IfSome result (λ number. option_flatten self.now ≡ Some (pos number)) }
    {
        let Ok(number) = u16::try_from(self.usable()?) else {
            return None;
        };
        Some(number)
    }
}
