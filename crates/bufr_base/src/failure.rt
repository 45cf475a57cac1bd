//! Failures: a fault, or want of memory.

ghost use Rattle.std.specs.Prelude.{◌≡◌};
ghost use Rattle.bufr_base.specs.Answers.{ChangesFault};
ghost use Rattle.bufr_base.specs.declared.failure.Failure.TheVariants.{OutOfMemory as NoMemory};

use crate::OutOfMemory;
use std::alloc::AllocFailed;
use std::fmt::Display;
use thiserror::Error;

/// A failure of a call that takes memory.
#[derive(Clone, Copy, Debug, Drop, PartialEq, Eq, Error)]
#[error_bound(F: Display)]
pub enum Failure<F> {
    /// The fault of the call.
    #[error("{0}")]
    Fault(F),
    /// Memory ran out.
    #[error("out of memory")]
    OutOfMemory,
}

impl<F> Failure<F> {
    /// Changes the fault, if it is one.
    pub fn map<G, C: FnOnce(F) -> G>(self, change: C) -> Failure<G>
        requires { C.IsAlwaysCallable change }
        ensures { ChangesFault (C.post change) self result }
    {
        match self {
            Failure::Fault(fault) => Failure::Fault(change(fault)),
            Failure::OutOfMemory => Failure::OutOfMemory,
        }
    }
}

impl<F> From<OutOfMemory> for Failure<F> {
    ghost from_gives = { λ _ e. e ≡ NoMemory };

    fn from(_e: OutOfMemory) -> Failure<F> {
        Failure::OutOfMemory
    }
}

impl<F, T: Drop> From<AllocFailed<T>> for Failure<F> {
    ghost from_gives = { λ _ e. e ≡ NoMemory };

    fn from(_e: AllocFailed<T>) -> Failure<F> {
        Failure::OutOfMemory
    }
}
