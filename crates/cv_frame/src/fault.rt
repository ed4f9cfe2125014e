//! `FrameFault`: why a piece of a stream was not taken.

use std::alloc::AllocError;

/// Why a piece of a stream of frames was not taken. A stamp that is too far counts before `BadFrame`.
#[derive(Clone, Copy, Debug, PartialEq, Eq)]
pub enum FrameFault {
    /// What begins at this byte of the stream is not the one spelling of a frame; a place past 2^64 - 1 counts as that
    /// number.
    BadFrame { at: u64 },
    /// The length of the next frame is over 1,048,576.
    FrameTooLong,
    /// The stamp of the next frame is from 2^62 to 2^64 - 1, and all else of it is as in a frame.
    StampTooFar,
    /// Memory was wanting.
    OutOfMemory,
}

impl From<AllocError> for FrameFault {
    ghost use Rattle.std.specs.Prelude.{◌≡◌};
    ghost use Rattle.cv_frame.specs.declared.fault.FrameFault.TheVariants.{OutOfMemory};

    ghost from_gives = { λ _ e. e ≡ OutOfMemory };

    fn from(_refused: AllocError) -> FrameFault {
        FrameFault::OutOfMemory
    }
}
