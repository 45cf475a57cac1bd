//! Faults of data. Subsets and fields count from 1.

ghost use Rattle.std.specs.Prelude.{Some};
ghost use Rattle.bufr_fields.specs.Reasons.{read_reason, write_reason};

use bufr_tables::Fxy;
use std::error::Error;
use std::fmt;

/// A fault of data that are read, the first.
#[derive(Clone, Copy, Debug, PartialEq, Eq)]
pub enum DataFault {
    /// The spec of an element is outside the limits.
    EffectiveRange(Fxy),
    /// The data end within this field of this subset.
    DataEnds(u64, u64),
    /// Compressed subsets differ in this factor.
    UnequalCounts(u64),
    /// A compressed increment of this subset is too large for this field.
    IncrementRange(u64, u64),
    /// The compressed texts are longer than this field.
    CharIncrement(u64),
    /// More than 16,777,216 items, or 67,108,864 compressed values.
    TooLarge,
}

impl fmt::Display for DataFault {
    ghost output = { λ why. Some (read_reason why) };

    #[tactic(auto, unfolding(crate::specs::Reasons::read_reason))]
    fn fmt<W: fmt::Write>(&self, f: &mut fmt::Formatter<W>) -> fmt::Result {
        match self {
            DataFault::EffectiveRange(fxy) => write!(f, "V1 EffectiveRange {fxy}"),
            DataFault::DataEnds(subset, field) => write!(f, "V2 DataEnds {subset} {field}"),
            DataFault::UnequalCounts(field) => write!(f, "V3 UnequalCounts {field}"),
            DataFault::IncrementRange(subset, field) => {
                write!(f, "V4 IncrementRange {subset} {field}")
            }
            DataFault::CharIncrement(field) => write!(f, "V5 CharIncrement {field}"),
            DataFault::TooLarge => write!(f, "V6 TooLarge"),
        }
    }
}

impl Error for DataFault {}

/// A fault of subsets that are written, the first.
#[derive(Clone, Copy, Debug, PartialEq, Eq)]
pub enum MisfitFault {
    /// The template does not allow this field in this subset.
    DoesNotFit(u64, u64),
    /// The subsets can't share a column at this field.
    NotCompressible(u64),
    /// More than 16,777,216 items, or 67,108,864 compressed values.
    TooLarge,
}

impl fmt::Display for MisfitFault {
    ghost output = { λ why. Some (write_reason why) };

    #[tactic(auto, unfolding(crate::specs::Reasons::write_reason))]
    fn fmt<W: fmt::Write>(&self, f: &mut fmt::Formatter<W>) -> fmt::Result {
        match self {
            MisfitFault::DoesNotFit(subset, field) => write!(f, "E1 DoesNotFit {subset} {field}"),
            MisfitFault::NotCompressible(field) => write!(f, "E2 NotCompressible {field}"),
            MisfitFault::TooLarge => write!(f, "E3 TooLarge"),
        }
    }
}

impl Error for MisfitFault {}
