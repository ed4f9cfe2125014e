//! What holds of all kinds, at all arguments, states and inputs. The functions do nothing: their clauses are laws.

ghost use Rattle.std.specs.Prelude.{◌≡◌, ◌≤◌, ◌<◌, IfSome, IsTrue, true, ℕ, List, Option};
ghost use Rattle.cv_token.specs.declared.token.Token.{Token};
ghost use Rattle.cv_behave.specs.KindRow.{action_count, given, is_ready, GivesItsTokens, StaysReady};
ghost use Rattle.cv_kinds.specs.Kept.{KeepsState, StartsInState};
ghost use Rattle.cv_kinds.specs.KindRow.{row_of};

use crate::kind::Kind;

/// An action that is ready stays ready when tokens are put behind the ends of its inputs.
pub fn ready_stays_ready(_kind: Kind)
    ensures { StaysReady (row_of _kind) }
{}

/// An action that is ready is one of the row's.
pub fn ready_is_there(_kind: Kind)
    ensures { (args state : List Token) (action : ℕ) (inputs : List (List Token)) → is_ready (row_of _kind) args state action inputs ≡ true → action < action_count (row_of _kind) }
{}

/// An effect has a place for each outport, and gives each as many tokens as `gives` says.
pub fn gives_its_tokens(_kind: Kind)
    ensures { GivesItsTokens (row_of _kind) }
{}

/// The port at whose first token a guard looks is an inport.
pub fn guards_look_at_inports(_kind: Kind)
    ensures { IfSome (row_of _kind).guard_port (λ port. port < (row_of _kind).inports) }
{}

/// For arguments of the kind's row the start is a state of the kind.
pub fn starts_in_state(_kind: Kind)
    ensures { StartsInState _kind }
{}

/// Where the arguments are of the row, the state is one of the kind, the heads fit and the guard holds, the effect leaves a
/// state of the kind, and each token that it gives fits.
pub fn keeps_state(_kind: Kind)
    ensures { KeepsState _kind }
{}

/// An action gives an outport at most one token.
pub fn gives_at_most_one(_kind: Kind)
    ensures { (action port : ℕ) → given (row_of _kind) action port ≤ 1 }
{}
