//! What holds of the states that nodes open with.

ghost use Rattle.cv_state.specs.Opening.{OpensInPlaces};

/// A node that opens with an application has exactly those of its actors whose place it is, at their start.
pub fn opens_in_places()
    ensures { OpensInPlaces }
{}
