//! The state of a walk.

use crate::operators::Spec;
use crate::walk::WalkFault;
use bufr_tables::Fxy;

/// A replication that the walk is inside.
#[derive(Clone, Copy)]
pub(crate) struct Open {
    /// The turns left.
    pub(crate) turns: u64,
    /// The first node of the body.
    pub(crate) from: usize,
    /// The node after the body.
    pub(crate) to: usize,
    /// The node after the enclosing list.
    pub(crate) stop: usize,
}

/// A count whose number the walk waits for.
#[derive(Clone, Copy)]
pub(crate) struct PendingCount {
    /// The descriptor of its field.
    pub(crate) fxy: Fxy,
    /// The spec of its field.
    pub(crate) spec: Spec,
    /// The first node of the body that it repeats, if any.
    pub(crate) body: Option<usize>,
}

/// A state of a walk.
#[derive(Clone, Copy)]
pub(crate) enum State {
    /// Goes on to the next node.
    Going,
    /// Waits for a number.
    Waiting(PendingCount),
    /// Stopped at a fault.
    Stopped(WalkFault),
}
