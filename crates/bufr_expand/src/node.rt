//! The nodes of a template, and the faults of a list.

ghost use Rattle.std.specs.Prelude.{Some};
ghost use Rattle.bufr_expand.specs.Reasons.{template_reason};

use bufr_tables::{Element, Fxy};
use std::error::Error;
use std::fmt;

/// A node of a template. The nodes of its body follow a replication.
#[derive(Clone, Copy, Debug, PartialEq, Eq)]
pub enum Node {
    /// An element of Table B.
    Element(Fxy, Element),
    /// A field that no operator changes: the text of 205, or the element after 206.
    Untouched(Fxy, Element),
    /// An operator 201, 202, 207 or 208.
    Operator(Fxy),
    /// A replication: its turns, and the nodes in its body.
    Repeated(u64, u64),
    /// A delayed replication: its factor with the row, and the nodes in its body.
    Delayed(Fxy, Element, u64),
}

/// A number of turns.
#[derive(Clone, Copy)]
pub(crate) enum Repetitions {
    /// A fixed number.
    Times(u64),
    /// The number at this factor in the data.
    Factor(Fxy, Element),
}

/// A fault of a list of descriptors, the first.
#[derive(Clone, Copy, Debug, PartialEq, Eq)]
pub enum TemplateFault {
    /// X1: Table B lacks the element.
    UnknownElement(Fxy),
    /// X2: Table D lacks the sequence.
    UnknownSequence(Fxy),
    /// X3: an operator other than 201, 202, 205, 206, 207 and 208.
    UnsupportedOperator(Fxy),
    /// X4: a replication of nothing, without its factor, or of more descriptors than the list has.
    BadReplication(Fxy),
    /// X5: a factor other than 031000, 031001 and 031002, or whose row is no count.
    BadFactor(Fxy),
    /// X6: 205000, 206000, or more than 63 bits for an element without a row of that width.
    BadOperand(Fxy),
    /// X7: no element after 206.
    Dangling206(Fxy),
    /// X8: a sequence or a replication at a level past the last of its kind.
    TooDeep,
    /// X9: a node past the last that a template may have.
    TooManyNodes,
}

impl fmt::Display for TemplateFault {
    ghost output = { λ why. Some (template_reason why) };

    #[tactic(auto, unfolding(crate::specs::Reasons::template_reason))]
    fn fmt<W: fmt::Write>(&self, f: &mut fmt::Formatter<W>) -> fmt::Result {
        match self {
            TemplateFault::UnknownElement(fxy) => write!(f, "X1 UnknownElement {fxy}"),
            TemplateFault::UnknownSequence(fxy) => write!(f, "X2 UnknownSequence {fxy}"),
            TemplateFault::UnsupportedOperator(fxy) => write!(f, "X3 UnsupportedOperator {fxy}"),
            TemplateFault::BadReplication(fxy) => write!(f, "X4 BadReplication {fxy}"),
            TemplateFault::BadFactor(fxy) => write!(f, "X5 BadFactor {fxy}"),
            TemplateFault::BadOperand(fxy) => write!(f, "X6 BadOperand {fxy}"),
            TemplateFault::Dangling206(fxy) => write!(f, "X7 Dangling206 {fxy}"),
            TemplateFault::TooDeep => write!(f, "X8 TooDeep"),
            TemplateFault::TooManyNodes => write!(f, "X9 TooManyNodes"),
        }
    }
}

impl Error for TemplateFault {}
