//! `TokenFault`: why bytes are no token.

use std::alloc::{AllocError, AllocFailed};

/// Why bytes are no token. Of several faults the first of this order is told.
#[derive(Debug, Clone, Copy, PartialEq, Eq)]
pub enum TokenFault {
    /// The bytes are not UTF-8, or no JSON text that nests at most 127 deep.
    NotJson,
    /// Lists and dictionaries nest over 16 deep.
    TooDeep,
    /// A number has a fraction or an exponent, is written `-0`, or is outside 64 signed bits.
    BadNumber,
    /// The compact text has over 1,024 bytes.
    TooLarge,
    /// Memory was wanting.
    OutOfMemory,
}

impl From<AllocError> for TokenFault {
    ghost use Rattle.std.specs.Prelude.{◌≡◌};
    ghost use Rattle.cv_token.specs.declared.fault.TokenFault.TheVariants.{OutOfMemory};

    ghost from_gives = { λ _ e. e ≡ OutOfMemory };

    fn from(_refused: AllocError) -> TokenFault {
        TokenFault::OutOfMemory
    }
}

impl<T: Drop> From<AllocFailed<T>> for TokenFault {
    ghost use Rattle.std.specs.Prelude.{◌≡◌};
    ghost use Rattle.cv_token.specs.declared.fault.TokenFault.TheVariants.{OutOfMemory};

    ghost from_gives = { λ _ e. e ≡ OutOfMemory };

    fn from(_refused: AllocFailed<T>) -> TokenFault {
        TokenFault::OutOfMemory
    }
}
