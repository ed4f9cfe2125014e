//! `StepRefusal`: why a node does not do an event.

use std::alloc::{AllocError, AllocFailed};

/// Why a node does not do an event. Of several causes the first of this order is told.
#[derive(Debug, Clone, Copy, PartialEq, Eq)]
pub enum StepRefusal {
    /// An actor of the event is neither live nor frozen here.
    NotHere,
    /// An actor of the event is frozen here.
    Moving,
    /// The target is no other known node.
    NoNode,
    /// Another condition of the row lacks.
    NotEnabled,
    /// As many applications were deployed here as may be.
    AppsSpent,
    /// A number that the row makes would reach 2^62.
    StampSpent,
    /// Memory was wanting.
    OutOfMemory,
}

impl From<AllocError> for StepRefusal {
    ghost use Rattle.std.specs.Prelude.{◌≡◌};
    ghost use Rattle.cv_protocol.specs.declared.refusal.StepRefusal.TheVariants.{OutOfMemory};

    ghost from_gives = { λ _ e. e ≡ OutOfMemory };

    fn from(_refused: AllocError) -> StepRefusal {
        StepRefusal::OutOfMemory
    }
}

impl<T: Drop> From<AllocFailed<T>> for StepRefusal {
    ghost use Rattle.std.specs.Prelude.{◌≡◌};
    ghost use Rattle.cv_protocol.specs.declared.refusal.StepRefusal.TheVariants.{OutOfMemory};

    ghost from_gives = { λ _ e. e ≡ OutOfMemory };

    fn from(_refused: AllocFailed<T>) -> StepRefusal {
        StepRefusal::OutOfMemory
    }
}
