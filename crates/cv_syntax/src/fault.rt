//! `ParseFault`: why lexemes are no script.

use std::alloc::{AllocError, AllocFailed};

/// Why the lexemes of a source are no script. Of two faults the one further left is told.
#[derive(Debug, Clone, Copy, PartialEq, Eq)]
pub enum ParseFault {
    /// The place of the first lexeme with which no script begins like this, or the source's length.
    Unexpected { at: u32 },
    /// The place of the lexeme that opens the 17th level of a literal or an expression.
    TooDeep { at: u32 },
    /// Want of memory.
    OutOfMemory,
}

impl From<AllocError> for ParseFault {
    ghost use Rattle.std.specs.Prelude.{◌≡◌};
    ghost use Rattle.cv_syntax.specs.declared.fault.ParseFault.TheVariants.{OutOfMemory};

    ghost from_gives = { λ _ e. e ≡ OutOfMemory };

    fn from(_: AllocError) -> ParseFault {
        ParseFault::OutOfMemory
    }
}

impl<T: Drop> From<AllocFailed<T>> for ParseFault {
    ghost use Rattle.std.specs.Prelude.{◌≡◌};
    ghost use Rattle.cv_syntax.specs.declared.fault.ParseFault.TheVariants.{OutOfMemory};

    ghost from_gives = { λ _ e. e ≡ OutOfMemory };

    fn from(_: AllocFailed<T>) -> ParseFault {
        ParseFault::OutOfMemory
    }
}
