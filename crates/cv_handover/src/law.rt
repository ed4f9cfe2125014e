//! The laws of handover. The functions do nothing: their clauses are laws.

ghost use Rattle.cv_handover.specs.Attempts.{AttemptsHold};
ghost use Rattle.cv_handover.specs.Placed.{FromPlaced};
ghost use Rattle.cv_handover.specs.Alone.{EachAlone, EachFromStart};
ghost use Rattle.cv_handover.specs.Rounds.{DeterminedGetRounds};
ghost use Rattle.cv_handover.specs.Rising.{CancelledByCancel, JournalsRaise, JudgedOnce, RowsRaise, VerdictsAreJudged};
ghost use Rattle.cv_handover.specs.Runs.{AllHolds, FromAgreed, FromNothing, OwnersHold, StepLaw, StreamsInOrder};

/// One step: from any states of any nodes in which all that holds at every moment holds, any event of any node that is a
/// row of its state has a meaning, and all holds afterwards. The frame that a node gets may be any that was ever sent, late,
/// again, or after others that were sent later; a deployment carries the network of its application.
pub fn step_law()
    ensures { StepLaw }
{}

/// After every beginning of every record of local runs in which each frame that came was sent before, all that holds at every
/// moment holds: of the states that the journals leave, of all frames that were sent so far, and of what the rows meant, with
/// some history of moves.
pub fn always_agrees()
    ensures agreed { FromAgreed AllHolds }
    ensures opened { FromNothing AllHolds }
    ensures placed { FromPlaced AllHolds }
{}

/// After every beginning of such a record: no deed needed another owner than the actor had, and an actor lives in the state of a
/// node exactly where its owner is that node. Frames may be lost, repeated and late, and hints may be false.
pub fn one_owner()
    ensures agreed { FromAgreed OwnersHold }
    ensures opened { FromNothing OwnersHold }
    ensures placed { FromPlaced OwnersHold }
{}

/// After every beginning of such a record: the one runtime that fires the recorded actions in their order could fire each of
/// them; what each consumer got is the beginning of what its producer wrote there; no more was taken than was got; and the
/// slots of each actor that lives are those of the one runtime.
pub fn streams_in_order()
    ensures agreed { FromAgreed StreamsInOrder }
    ensures opened { FromNothing StreamsInOrder }
    ensures placed { FromPlaced StreamsInOrder }
{}

/// After every beginning of such a record, and for each application of a wired network, one outport of which may feed several
/// connections: the one runtime of that network alone, which fires the application's recorded actions in their order, could fire
/// each of them; each of its streams begins with what the consumer got, wherever producer and consumer lived; no more was taken
/// than was got; and the slots of each of its actors that lives are the same.
pub fn as_one_runtime()
    ensures agreed { FromAgreed EachAlone }
    ensures opened { FromNothing EachFromStart }
    ensures placed { FromPlaced EachFromStart }
{}

/// After every beginning of such a record, and for each application of a wired network: what the consumer of a determined
/// connection got, wherever both ends lived, is the beginning of what the plain network writes there in as many rounds as the
/// application has recorded firings, or in more.
pub fn as_the_rounds()
    ensures opened { FromNothing DeterminedGetRounds }
    ensures placed { FromPlaced DeterminedGetRounds }
{}

/// Whatever the state: a row never lowers a node's record of an actor, and so no journal does; and an attempt that was judged is
/// never again above all that the node keeps of the actor, so a node judges it at most once. A record with a verdict is new only
/// where a Transfer or a Cancel of an attempt above all that is delivered, and is the judgement of it; and one that says
/// Cancelled is there only where a Cancel of that attempt was delivered.
pub fn records_rise()
    ensures rows { RowsRaise }
    ensures journals { JournalsRaise }
    ensures once { JudgedOnce }
    ensures judged { VerdictsAreJudged }
    ensures cancelled { CancelledByCancel }
{}

/// After every beginning of such a record, of the attempts to move an actor: each has one source, one target and one state,
/// however often it was sent; it is given up towards its target, and its target alone tells a verdict, always the same one,
/// which is the one that it keeps; no node tells a verdict of an attempt above its record; and who lives does so by an attempt
/// that is at least each that was ever sent.
pub fn attempts_are_one()
    ensures agreed { FromAgreed AttemptsHold }
    ensures opened { FromNothing AttemptsHold }
    ensures placed { FromPlaced AttemptsHold }
{}
