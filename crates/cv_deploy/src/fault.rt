//! The faults of scripts.

ghost use Rattle.std.specs.Prelude.{◌≡◌};
ghost use Rattle.cv_deploy.specs.Faults.{word_of};

use std::alloc::AllocError;
use std::fmt;

/// What is wrong with a script.
#[derive(Debug, Clone, Copy, PartialEq, Eq)]
pub enum Code {
    /// The bytes are no UTF-8.
    NotUtf8,
    /// A character that begins no lexeme.
    BadChar,
    /// A quoted text that never ends, at its quote.
    OpenText,
    /// A comment that never ends, at its first byte.
    OpenComment,
    /// An integer outside 64 signed bits.
    WideNumber,
    /// An escape that says no character, at its `\`.
    BadEscape,
    /// A name of more than 64 bytes.
    LongName,
    /// The first lexeme with which no script begins like this, or the end of the text.
    Unexpected,
    /// The lexeme that opens the 17th level of a literal or an expression.
    TooDeep,
    /// A declaration names a component that is not there.
    NoComponent,
    /// A component is declared inside itself.
    Recursion,
    /// A declaration gives a component more or fewer arguments than it has.
    ArgCount,
    /// An argument that the component lacks, or a name that stands for no value.
    NoArg,
    /// A name that is taken already.
    DoubleName,
    /// Over 256 actors and instances together, or over 4,096 joins.
    TooMany,
    /// An actor of a kind that is not there.
    NoKind,
    /// A number with a fraction for an argument that is no duration.
    Fraction,
    /// An argument that the kind lacks or does not take, or one that is missing.
    BadArg,
    /// A port that is not there.
    NoPort,
    /// A second join to one target.
    FedTwice,
    /// An inport to which no way leads from an actor or from `voidport`.
    Unfed,
    /// An action needs more tokens of an inport than may wait there.
    BatchOverQueue,
    /// A rule or an apply, in a script with no other fault.
    Unbuilt,
}

/// The first fault of a script: line and column from 1, where columns count bytes.
#[derive(Debug, Clone, Copy, PartialEq, Eq)]
pub struct Fault {
    pub line: u32,
    pub col: u32,
    pub code: Code,
}

/// Why bytes stand for no network.
#[derive(Debug, Clone, Copy, PartialEq, Eq)]
pub enum NoNetwork {
    Script(Fault),
    OutOfMemory,
}

impl From<AllocError> for NoNetwork {
    ghost use Rattle.std.specs.Prelude.{◌≡◌};
    ghost use Rattle.cv_deploy.specs.declared.fault.NoNetwork.TheVariants.{OutOfMemory};

    ghost from_gives = { λ _ e. e ≡ OutOfMemory };

    fn from(_error: AllocError) -> NoNetwork {
        NoNetwork::OutOfMemory
    }
}

impl Code {
    /// The word that the program prints.
    pub fn word(self) -> &'static str
        ensures { result.now ≡ word_of self }
    {
        match self {
            Code::NotUtf8 => "NotUtf8",
            Code::BadChar => "BadChar",
            Code::OpenText => "OpenText",
            Code::OpenComment => "OpenComment",
            Code::WideNumber => "WideNumber",
            Code::BadEscape => "BadEscape",
            Code::LongName => "LongName",
            Code::Unexpected => "Unexpected",
            Code::TooDeep => "TooDeep",
            Code::NoComponent => "NoComponent",
            Code::Recursion => "Recursion",
            Code::ArgCount => "ArgCount",
            Code::NoArg => "NoArg",
            Code::DoubleName => "DoubleName",
            Code::TooMany => "TooMany",
            Code::NoKind => "NoKind",
            Code::Fraction => "Fraction",
            Code::BadArg => "BadArg",
            Code::NoPort => "NoPort",
            Code::FedTwice => "FedTwice",
            Code::Unfed => "Unfed",
            Code::BatchOverQueue => "BatchOverQueue",
            Code::Unbuilt => "Unbuilt",
        }
    }
}

impl fmt::Display for Code {
    ghost use Rattle.std.specs.Prelude.{Some};
    ghost use Rattle.cv_deploy.specs.Faults.{word_of};

    ghost output = { λ c. Some (word_of c) };

    fn fmt<W: fmt::Write>(&self, f: &mut fmt::Formatter<W>) -> fmt::Result {
        f.write_str(self.word())
    }
}
