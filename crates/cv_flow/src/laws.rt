//! What holds of the rows as a whole, at all arguments, states and inputs: of the rows that `Behave` answers. The functions
//! do nothing: their clauses are laws.

ghost use Rattle.std.specs.Prelude.{◌≡◌, ◌≢◌, ◌↔◌, IsTrue};
ghost use Rattle.cv_behave.specs.KindRow.{Deterministic, GivesItsTokens, StaysReady};
ghost use Rattle.cv_flow.specs.Rows.{is_exclusive};

use crate::kind::FlowKind;
use cv_behave::Behave;

/// Of every kind but `flow.Join` and `flow.Valve` at most one action is ready.
pub fn at_most_one_ready(_kind: FlowKind)
    ensures { _kind ≢ FlowKind.Join → _kind ≢ FlowKind.Valve → Deterministic (⟦<FlowKind as Behave>⟧.row _kind) }
{}

/// An action that is ready stays ready when tokens are put behind the ends of its inputs.
pub fn ready_stays_ready(_kind: FlowKind)
    ensures { StaysReady (⟦<FlowKind as Behave>⟧.row _kind) }
{}

/// An effect has a place for each outport, and gives each as many tokens as `gives` says.
pub fn gives_its_tokens(_kind: FlowKind)
    ensures { GivesItsTokens (⟦<FlowKind as Behave>⟧.row _kind) }
{}

impl FlowKind {
    /// Whether the kind is one of all but `flow.Join` and `flow.Valve`.
    fn is_marked(self) -> bool
        ensures { result ≡ is_exclusive self }
    {
        match self {
            FlowKind::Join | FlowKind::Valve => false,
            _ => true,
        }
    }

    /// Whether for no arguments, state and inputs two actions of the kind are ready.
    pub fn is_deterministic(self) -> bool
        ensures { IsTrue result ↔ Deterministic (⟦<FlowKind as Behave>⟧.row self) }
    {
        self.is_marked()
    }
}
