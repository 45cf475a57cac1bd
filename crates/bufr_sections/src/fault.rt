//! Faults of messages. Each prints its number, its name and its values.

ghost use Rattle.std.specs.Prelude.{Some};
ghost use Rattle.bufr_sections.specs.EncodeReasons.{encode_reason};
ghost use Rattle.bufr_sections.specs.Reasons.{reason};

use bufr_expand::TemplateFault;
use bufr_fields::{DataFault, MisfitFault};
use std::error::Error;
use std::fmt;

/// A refusal: the first fault of octets that are no message.
#[derive(Clone, Copy, Debug, PartialEq, Eq)]
pub enum Refused {
    /// Fewer than 8 octets, or another start than `BUFR`.
    NotBufr,
    /// An edition other than 3 and 4.
    Edition(u8),
    /// A total length other than the number of octets.
    TotalLength,
    /// A total length below 12, or another end than `7777`.
    NoEnd,
    /// A section 1 of fewer than 22 octets (17 in edition 3), or past `7777`.
    Section1Length,
    /// A master table other than 0, meteorology.
    MasterTable(u8),
    /// A section 2 of fewer than 4 octets, or past `7777`.
    Section2Length,
    /// A section 3 of fewer than 9 octets, or past `7777`.
    Section3Length,
    /// A section 4 of fewer than 4 octets, or with another end than `7777`.
    Section4Length,
    /// Descriptors without a template.
    Template(TemplateFault),
    /// Data bits other than those of the descriptors' fields.
    Data(DataFault),
}

impl fmt::Display for Refused {
    ghost output = { λ why. Some (reason why) };

    #[tactic(auto, unfolding(crate::specs::Reasons::reason))]
    fn fmt<W: fmt::Write>(&self, f: &mut fmt::Formatter<W>) -> fmt::Result {
        match self {
            Refused::NotBufr => write!(f, "M1 NotBufr"),
            Refused::Edition(n) => write!(f, "M2 Edition {n}"),
            Refused::TotalLength => write!(f, "M3 TotalLength"),
            Refused::NoEnd => write!(f, "M4 NoEnd"),
            Refused::Section1Length => write!(f, "M5 Section1Length"),
            Refused::MasterTable(n) => write!(f, "M6 MasterTable {n}"),
            Refused::Section2Length => write!(f, "M7 Section2Length"),
            Refused::Section3Length => write!(f, "M8 Section3Length"),
            Refused::Section4Length => write!(f, "M9 Section4Length"),
            Refused::Template(why) => write!(f, "{why}"),
            Refused::Data(why) => write!(f, "{why}"),
        }
    }
}

impl Error for Refused {}

/// A fault of encoding: the first fault of a message that has no octets.
#[derive(Clone, Copy, Debug, PartialEq, Eq)]
pub enum EncodeFault {
    /// No descriptor.
    NoDescriptors,
    /// Descriptors without a template.
    Template(TemplateFault),
    /// Subsets that don't fit the descriptors, or are too large.
    Data(MisfitFault),
}

impl fmt::Display for EncodeFault {
    ghost output = { λ why. Some (encode_reason why) };

    #[tactic(auto, unfolding(crate::specs::EncodeReasons::encode_reason))]
    fn fmt<W: fmt::Write>(&self, f: &mut fmt::Formatter<W>) -> fmt::Result {
        match self {
            EncodeFault::NoDescriptors => write!(f, "E4 NoDescriptors"),
            EncodeFault::Template(why) => write!(f, "{why}"),
            EncodeFault::Data(why) => write!(f, "{why}"),
        }
    }
}

impl Error for EncodeFault {}
