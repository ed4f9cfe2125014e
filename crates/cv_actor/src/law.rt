//! What holds of every actor that travels.

ghost use Rattle.cv_actor.specs.Returning.{ComesBackAsItLeft};

/// An actor that is captured and restored at one moment is the actor that it was, with the new attempt: its tentative
/// reads are given up, what its readers have not acknowledged is to be sent again, and it waits as long as before.
pub fn comes_back_as_it_left()
    ensures { ComesBackAsItLeft }
{}
