//! What holds of every stream of frames, however it was cut into pieces.

ghost use Rattle.cv_feed.specs.Streams.{HasOneReading, ReadsByPieces};
ghost use Rattle.cv_frame.specs.Wire.{HasOneFault, HasNoFrames, IsFramed};

/// A stream has one reading up to where no frame stands whole, so what a feed reads does not depend on the cut.
pub fn one_reading()
    ensures { HasOneReading IsFramed }
{}

/// A reading of a first piece and one of what it left with the second piece are one reading of both.
pub fn any_cut()
    ensures { ReadsByPieces IsFramed }
{}

/// Where a fault stands no frame begins, whatever follows.
pub fn no_frame_at_a_fault()
    ensures { HasNoFrames }
{}

/// One fault stands at one place, however much of the stream has come.
pub fn one_fault()
    ensures { HasOneFault }
{}
