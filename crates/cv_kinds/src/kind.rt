//! The kinds of actors: those of both families.

ghost use Rattle.std.specs.Prelude.{◌≡◌, ◌≢◌, ◌≤◌, ◌↔◌, IsTrue, true};
ghost use Rattle.cv_behave.specs.KindRow.{action_count, Deterministic};
ghost use Rattle.cv_kinds.specs.KindRow.{row_of, is_print};

use cv_behave::{Behave, Effect};
use cv_calc::CalcKind;
use cv_flow::FlowKind;
use cv_token::{Items, OutOfMemory, Token};
use std::alloc::Global;

/// What an actor does: a kind of one of the families. Its row is the family's.
#[derive(Debug, Clone, Copy, PartialEq, Eq)]
pub enum Kind {
    /// A source, a sink, or what stands between them.
    Flow(FlowKind),
    /// A calculation.
    Calc(CalcKind),
}

impl Behave for Kind {
    ghost use Rattle.cv_kinds.specs.KindRow.{row_of};

    ghost row = { λ k. row_of k };

    #[tactic(auto, unfolding(crate::specs::KindRow::row_of))]
    fn actions(&self) -> u8 {
        match self {
            Kind::Flow(kind) => kind.actions(),
            Kind::Calc(kind) => kind.actions(),
        }
    }

    #[tactic(auto, unfolding(crate::specs::KindRow::row_of))]
    fn inports(&self) -> u8 {
        match self {
            Kind::Flow(kind) => kind.inports(),
            Kind::Calc(kind) => kind.inports(),
        }
    }

    #[tactic(auto, unfolding(crate::specs::KindRow::row_of))]
    fn outports(&self) -> u8 {
        match self {
            Kind::Flow(kind) => kind.outports(),
            Kind::Calc(kind) => kind.outports(),
        }
    }

    #[tactic(auto, unfolding(crate::specs::KindRow::row_of))]
    fn needs(&self, args: &Items, action: u8, port: u8) -> u16 {
        match self {
            Kind::Flow(kind) => kind.needs(args, action, port),
            Kind::Calc(kind) => kind.needs(args, action, port),
        }
    }

    #[tactic(auto, unfolding(crate::specs::KindRow::row_of))]
    fn gives(&self, action: u8, port: u8) -> u16 {
        match self {
            Kind::Flow(kind) => kind.gives(action, port),
            Kind::Calc(kind) => kind.gives(action, port),
        }
    }

    #[tactic(auto, unfolding(crate::specs::KindRow::row_of))]
    fn guard_port(&self) -> Option<u8> {
        match self {
            Kind::Flow(kind) => kind.guard_port(),
            Kind::Calc(kind) => kind.guard_port(),
        }
    }

    #[tactic(auto, unfolding(crate::specs::KindRow::row_of))]
    fn guard(&self, args: &Items, state: &Items, action: u8, head: Option<&Token>) -> bool {
        match self {
            Kind::Flow(kind) => kind.guard(args, state, action, head),
            Kind::Calc(kind) => kind.guard(args, state, action, head),
        }
    }

    #[tactic(auto, unfolding(crate::specs::KindRow::row_of))]
    fn effect(
        &self,
        alloc: Global,
        args: &Items,
        state: &Items,
        action: u8,
        heads: &Items,
    ) -> Result<Effect, OutOfMemory> {
        match self {
            Kind::Flow(kind) => kind.effect(alloc, args, state, action, heads),
            Kind::Calc(kind) => kind.effect(alloc, args, state, action, heads),
        }
    }

    #[tactic(auto, unfolding(crate::specs::KindRow::row_of))]
    fn start(&self, alloc: Global, args: &Items) -> Result<Items, OutOfMemory> {
        match self {
            Kind::Flow(kind) => kind.start(alloc, args),
            Kind::Calc(kind) => kind.start(alloc, args),
        }
    }

    #[tactic(auto, unfolding(crate::specs::KindRow::row_of))]
    fn timed(&self, action: u8) -> bool {
        match self {
            Kind::Flow(kind) => kind.timed(action),
            Kind::Calc(kind) => kind.timed(action),
        }
    }

    #[tactic(auto, unfolding(crate::specs::KindRow::row_of))]
    fn pause(&self, args: &Items) -> u64 {
        match self {
            Kind::Flow(kind) => kind.pause(args),
            Kind::Calc(kind) => kind.pause(args),
        }
    }
}

impl Kind {
    /// Whether the tokens that an actor of this kind takes are printed.
    pub fn is_print(self) -> bool
        ensures { result ≡ is_print self }
    {
        match self {
            Kind::Flow(FlowKind::Print) => true,
            _ => false,
        }
    }
}

/// How many actions the kind has: at most four.
#[tactic(auto, using(crate::proofs::Promises::few_actions))]
pub fn actions(kind: Kind) -> u8
    ensures count { result ≡ action_count (row_of kind) }
    ensures few { result ≤ 4 }
{
    kind.actions()
}

/// Whether for no arguments, state and inputs two actions of the kind are ready. All kinds are deterministic but
/// `flow.Join` and `flow.Valve`.
#[tactic(auto, unfolding(crate::specs::KindRow::row_of))]
pub fn deterministic(kind: Kind) -> bool
    ensures exact { IsTrue result ↔ Deterministic (row_of kind) }
    ensures all_but_two { kind ≢ Kind.Flow FlowKind.Join → kind ≢ Kind.Flow FlowKind.Valve → result ≡ true }
{
    match kind {
        Kind::Flow(kind) => kind.is_deterministic(),
        Kind::Calc(_) => true,
    }
}
