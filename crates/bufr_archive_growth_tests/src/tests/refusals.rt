//! Want of memory apart from faults.

use bufr_archive::JoinFault;
use bufr_base::{Failure, OutOfMemory};
use std::fmt::Debug;
use std::process::Abort;

/// A failure that may be want of memory.
pub(super) trait Refusal {
    /// Whether memory ran out.
    fn is_refusal(&self) -> bool;
}

impl Refusal for OutOfMemory {
    fn is_refusal(&self) -> bool {
        true
    }
}

impl Refusal for JoinFault {
    fn is_refusal(&self) -> bool {
        matches!(self, JoinFault::OutOfMemory)
    }
}

impl<F> Refusal for Failure<F> {
    fn is_refusal(&self) -> bool {
        matches!(self, Failure::OutOfMemory)
    }
}

pub(super) fn assert_refused<E: Refusal + Debug + Drop>(rt: &impl Abort, fault: E) {
    assert!(rt; fault.is_refusal(), "{fault:?}");
}

/// Makes a call. If memory runs out, compares `then` if it is given, and repeats the call.
macro_rules! repeated {
    ($rt:expr, $call:expr $(, $then:expr)?) => {
        match $call {
            Ok(answer) => answer,
            Err(fault) => {
                $crate::tests::refusals::assert_refused($rt, fault);
                $($then;)?
                $call.expect($rt, "what no longer is refused")
            }
        }
    };
}

pub(super) use repeated;
