//! `HttpFault`: why bytes are no request.

use std::alloc::AllocError;

/// Why bytes are no request. Of the faults of a head's fields, `Coding` counts before `BadLength`, and `BadLength`
/// before `BodyTooLong`.
#[derive(Clone, Copy, Debug, PartialEq, Eq)]
pub enum HttpFault {
    /// The bytes can't become a head, whatever follows. While they end inside the target, and while the fields are too
    /// many, this may wait, and `HeadTooLong` may come in its place.
    BadHead,
    /// The window of a head is full and holds no whole head of at most 64 fields.
    HeadTooLong,
    /// The body has over 1,048,576 bytes.
    BodyTooLong,
    /// The body is coded: there is a `Transfer-Encoding`, or a `Content-Encoding` other than `identity`.
    Coding,
    /// A `Content-Length` is not of 1 to 20 digits, or there is a second one.
    BadLength,
    /// Memory was wanting.
    OutOfMemory,
}

impl From<AllocError> for HttpFault {
    ghost use Rattle.std.specs.Prelude.{◌≡◌};
    ghost use Rattle.cv_http.specs.declared.fault.HttpFault.TheVariants.{OutOfMemory};

    ghost from_gives = { λ _ e. e ≡ OutOfMemory };

    fn from(_refused: AllocError) -> HttpFault {
        HttpFault::OutOfMemory
    }
}
