//! What holds of every stream of requests, however it was cut into pieces.

ghost use Rattle.cv_feed.specs.Streams.{HasOneReading, ReadsByPieces};
ghost use Rattle.std.specs.Prelude.{ℕ, List};
ghost use Rattle.cv_http.specs.Requests.{SpellsRequest, HasNoRequests, HasOneFault};
ghost use Rattle.cv_http.specs.Windows.{window, IsWindow};

use crate::format::Requests;

/// A stream has one reading up to where no request stands whole, so what a feed reads does not depend on the cut.
pub fn one_reading()
    ensures { HasOneReading SpellsRequest }
{
    cv_feed::one_reading::<Requests>();
}

/// A reading of a first piece and one of what it left with the second piece are one reading of both.
pub fn any_cut()
    ensures { ReadsByPieces SpellsRequest }
{
    cv_feed::any_cut::<Requests>();
}

/// The window of bytes is the longest front of them that has at most 16,384 bytes and nothing behind a 66th line feed.
pub fn windows()
    ensures { (bytes : List ℕ) → IsWindow (window bytes) bytes }
{}

/// Where a fault stands no request begins, whatever follows.
pub fn no_request_at_a_fault()
    ensures { HasNoRequests }
{}

/// One fault stands at one place, however much of the stream has come, but for the two of the head.
pub fn one_fault()
    ensures { HasOneFault }
{}
