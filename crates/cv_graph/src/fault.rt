//! What may be wrong with the kinds, arguments and joins of a script.

use std::alloc::{AllocError, AllocFailed};

/// Why a script's parts make no network. An `at` is the place of the fault in the source.
#[derive(Debug, Clone, Copy, PartialEq, Eq)]
pub enum GraphFault {
    /// An actor of a kind that is not there.
    NoKind { at: u32 },
    /// A number with a fraction for an argument that is no duration.
    Fraction { at: u32 },
    /// An argument that the kind lacks or does not take, or one that is missing.
    BadArg { at: u32 },
    /// A port that is not there.
    NoPort { at: u32 },
    /// A second join to one target.
    FedTwice { at: u32 },
    /// An inport to which no way leads from an actor or from `voidport`.
    Unfed { at: u32 },
    /// An action that needs more tokens of an inport than its queue has.
    BatchOverQueue { at: u32 },
    /// Want of memory.
    OutOfMemory,
}

impl From<AllocError> for GraphFault {
    ghost use Rattle.std.specs.Prelude.{◌≡◌};
    ghost use Rattle.cv_graph.specs.declared.fault.GraphFault.TheVariants.{OutOfMemory};

    ghost from_gives = { λ _ e. e ≡ OutOfMemory };

    fn from(_: AllocError) -> GraphFault {
        GraphFault::OutOfMemory
    }
}

impl<T: Drop> From<AllocFailed<T>> for GraphFault {
    ghost use Rattle.std.specs.Prelude.{◌≡◌};
    ghost use Rattle.cv_graph.specs.declared.fault.GraphFault.TheVariants.{OutOfMemory};

    ghost from_gives = { λ _ e. e ≡ OutOfMemory };

    fn from(_: AllocFailed<T>) -> GraphFault {
        GraphFault::OutOfMemory
    }
}
