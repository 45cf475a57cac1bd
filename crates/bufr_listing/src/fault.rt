//! Why a text is no listing. Each type prints its number, its name and its values.

ghost use Rattle.std.specs.Prelude.{Some};
ghost use Rattle.bufr_listing.specs.Reasons.{cause_reason, listing_reason};

use bufr_expand::{TemplateFault, WalkFault};
use std::error::Error;
use std::fmt;

/// A cause of L3.
#[derive(Clone, Copy, Debug, PartialEq, Eq)]
pub enum Cause {
    /// X1 to X9: the descriptors have no template.
    Template(TemplateFault),
    /// V1 or V6: no further field can follow.
    Walk(WalkFault),
}

impl fmt::Display for Cause {
    ghost output = { λ why. Some (cause_reason why) };

    #[tactic(auto, unfolding(crate::specs::Reasons::cause_reason))]
    fn fmt<W: fmt::Write>(&self, f: &mut fmt::Formatter<W>) -> fmt::Result {
        match self {
            Cause::Template(why) => write!(f, "{why}"),
            Cause::Walk(WalkFault::TooLarge) => write!(f, "V6 TooLarge"),
            Cause::Walk(WalkFault::EffectiveRange(fxy)) => { write!(f, "V1 EffectiveRange {fxy}") }
        }
    }
}

/// A fault of a text, the first by lines, from 1; on one line L3 comes first, then L1, then L2.
#[derive(Clone, Copy, Debug, PartialEq, Eq)]
pub enum ListingFault {
    /// L1: the line has another first word, descriptor or number of words than the one due, or a
    /// word that is no descriptor. If the text ends within a block, the number after its last line.
    BadLine(u128),
    /// L2: another word of the line is wrong at its place.
    BadValue(u128),
    /// L3: the descriptors have no template, or no further field can follow at this line, whatever
    /// its words.
    Refused(u128, Cause),
}

impl fmt::Display for ListingFault {
    ghost output = { λ why. Some (listing_reason why) };

    #[tactic(auto, unfolding(crate::specs::Reasons::listing_reason))]
    fn fmt<W: fmt::Write>(&self, f: &mut fmt::Formatter<W>) -> fmt::Result {
        match self {
            ListingFault::BadLine(line) => write!(f, "L1 BadLine {line}"),
            ListingFault::BadValue(line) => write!(f, "L2 BadValue {line}"),
            ListingFault::Refused(line, why) => write!(f, "L3 Refused {line} {why}"),
        }
    }
}

impl Error for ListingFault {}
