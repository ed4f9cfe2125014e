//! What a script is cut into, and what may be wrong with its letters.

use std::alloc::{AllocError, AllocFailed};

/// The kinds of lexeme.
#[derive(Debug, Clone, Copy, PartialEq, Eq)]
pub enum Sort {
    Name,
    Int,
    Fraction,
    Text,
    Mark,
}

/// A lexeme: `len` bytes of the script, from the byte `at` on.
#[derive(Debug, Clone, Copy, PartialEq, Eq)]
pub struct Lexeme {
    pub sort: Sort,
    pub at: u32,
    pub len: u32,
}

/// The first thing from the left that is no lexeme and no white space, with its place in bytes.
#[derive(Debug, Clone, Copy, PartialEq, Eq)]
pub enum LexFault {
    /// A character that begins no lexeme.
    BadChar { at: u32 },
    /// A quoted text that never ends, at its quote.
    OpenText { at: u32 },
    /// A comment that never ends, at its first byte.
    OpenComment { at: u32 },
    /// An integer outside 64 signed bits, at its first byte.
    WideNumber { at: u32 },
    /// An escape that says no character, or half of a pair of surrogates, at its `\`.
    BadEscape { at: u32 },
    /// A name of more than 64 bytes, at its first byte.
    LongName { at: u32 },
    /// Want of memory.
    OutOfMemory,
}

impl From<AllocError> for LexFault {
    ghost use Rattle.std.specs.Prelude.{◌≡◌};
    ghost use Rattle.cv_lex.specs.declared.lexeme.LexFault.TheVariants.{OutOfMemory};

    ghost from_gives = { λ _ e. e ≡ OutOfMemory };

    fn from(_: AllocError) -> LexFault {
        LexFault::OutOfMemory
    }
}

impl<T: Drop> From<AllocFailed<T>> for LexFault {
    ghost use Rattle.std.specs.Prelude.{◌≡◌};
    ghost use Rattle.cv_lex.specs.declared.lexeme.LexFault.TheVariants.{OutOfMemory};

    ghost from_gives = { λ _ e. e ≡ OutOfMemory };

    fn from(_: AllocFailed<T>) -> LexFault {
        LexFault::OutOfMemory
    }
}
