//! What may be wrong with the components, names and arguments of a script.

use std::alloc::{AllocError, AllocFailed};

/// Why a script can't be expanded. An `at` is the place of the fault in the source.
#[derive(Debug, Clone, Copy, PartialEq, Eq)]
pub enum ExpandFault {
    /// A declaration names a component that is not there.
    NoComponent { at: u32 },
    /// A component is declared inside itself.
    Recursion { at: u32 },
    /// A declaration gives a component more or fewer arguments than it has.
    ArgCount { at: u32 },
    /// An argument that the component lacks, or a name that stands for no value.
    NoArg { at: u32 },
    /// A name that is taken already.
    DoubleName { at: u32 },
    /// Over 256 actors and instances together, or over 4,096 joins.
    TooMany { at: u32 },
    /// Want of memory.
    OutOfMemory,
}

impl From<AllocError> for ExpandFault {
    ghost use Rattle.std.specs.Prelude.{◌≡◌};
    ghost use Rattle.cv_expand.specs.declared.fault.ExpandFault.TheVariants.{OutOfMemory};

    ghost from_gives = { λ _ e. e ≡ OutOfMemory };

    fn from(_: AllocError) -> ExpandFault {
        ExpandFault::OutOfMemory
    }
}

impl<T: Drop> From<AllocFailed<T>> for ExpandFault {
    ghost use Rattle.std.specs.Prelude.{◌≡◌};
    ghost use Rattle.cv_expand.specs.declared.fault.ExpandFault.TheVariants.{OutOfMemory};

    ghost from_gives = { λ _ e. e ≡ OutOfMemory };

    fn from(_: AllocFailed<T>) -> ExpandFault {
        ExpandFault::OutOfMemory
    }
}
