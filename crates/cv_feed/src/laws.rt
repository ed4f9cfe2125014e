//! What holds of every stream of messages, however it was cut into pieces.

ghost use Rattle.cv_feed.specs.Streams.{HasOneReading, ReadsByPieces};

use crate::format::Format;

/// A stream has one reading up to where no message stands whole, so what a feed reads does not depend on the cut.
pub fn one_reading<T: Format>()
    ensures { HasOneReading T.Spells }
{}

/// A reading of a first piece and one of what it left with the second piece are one reading of both.
pub fn any_cut<T: Format>()
    ensures { ReadsByPieces T.Spells }
{}
