//! `Flaw`: why bytes begin with no frame.

/// Why bytes begin with no frame. A stamp that is too far counts before all else that may be wrong.
#[derive(Clone, Copy, Debug, PartialEq, Eq)]
pub enum Flaw {
    /// The length is over 1,048,576.
    FrameTooLong,
    /// The stamp is from 2^62 to 2^64 - 1, and all else is as in a frame.
    StampTooFar,
    /// The text is no frame's.
    BadFrame,
}
