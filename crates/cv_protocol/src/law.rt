//! What holds of the table of rows, whatever the state.

ghost use Rattle.cv_protocol.specs.Laws.{CausesAreExact, StampsRise};

/// An event is refused exactly where it is no row of the state: the causes of refusal leave no event without an answer, and bar
/// no row.
pub fn causes_are_exact()
    ensures { CausesAreExact }
{}

/// Each entry has a greater stamp than the one before.
pub fn stamps_rise()
    ensures { StampsRise }
{}
