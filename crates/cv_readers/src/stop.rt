//! Where a reader of words stops.

use std::alloc::{AllocError, AllocFailed};

/// Why a reader stopped. The number says how many words are left from the one at fault on, 0 where
/// there are too few.
#[derive(Debug, Clone, Copy, PartialEq, Eq)]
pub enum Stop {
    /// A word that cannot stand there.
    Unexpected(usize),
    /// A word that opens a level too many.
    TooDeep(usize),
    /// Want of memory.
    OutOfMemory,
}

impl From<AllocError> for Stop {
    ghost use Rattle.std.specs.Prelude.{◌≡◌};
    ghost use Rattle.cv_readers.specs.declared.stop.Stop.TheVariants.{OutOfMemory};

    ghost from_gives = { λ _ e. e ≡ OutOfMemory };

    fn from(_: AllocError) -> Stop {
        Stop::OutOfMemory
    }
}

impl<T: Drop> From<AllocFailed<T>> for Stop {
    ghost use Rattle.std.specs.Prelude.{◌≡◌};
    ghost use Rattle.cv_readers.specs.declared.stop.Stop.TheVariants.{OutOfMemory};

    ghost from_gives = { λ _ e. e ≡ OutOfMemory };

    fn from(_: AllocFailed<T>) -> Stop {
        Stop::OutOfMemory
    }
}
