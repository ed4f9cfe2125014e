//! `State`: what a node is between two entries of its journal.

ghost use Rattle.std.specs.Prelude.{◌≡◌, None, if◌then◌else◌, is_some, slice_get, IfOk, IfErr, IsSomeAnd, OnErr};
ghost use Rattle.std.specs.Option.{option_copied, option_map};
ghost use Rattle.std.specs.FinMap as map;
ghost use Rattle.cv_protocol.specs.declared.refusal.StepRefusal.TheVariants as refusal;
ghost use Rattle.cv_protocol.specs.NodeState.{opening};
ghost use Rattle.cv_protocol.specs.Poll.{poll};
ghost use Rattle.cv_actor.specs.Polled.{foreseen};
ghost use Rattle.cv_state.specs.Leaving.{frozen_place};

use crate::known::Known;
use crate::moves::Moves;
use cv_actor::{Live, Outlook};
use cv_protocol::{Location, StepRefusal};
use cv_rules::NodeSpec;
use cv_table::ActorTable;
use cv_token::{ActorId, OutOfMemory};
use std::alloc::Global;
use std::marker::Model;

/// The state of a node.
#[derive(Drop)]
pub struct State {
    pub(crate) spec: NodeSpec,
    pub(crate) stamp: u64,
    pub(crate) moment: u64,
    pub(crate) known: Known,
    pub(crate) live: ActorTable<Live>,
    pub(crate) moves: Moves,
    pub(crate) hints: ActorTable<Location>,
}

impl Model for State {
    ghost use Rattle.std.specs.Prelude.{◌<◌, ◌^◌};
    ghost use Rattle.cv_protocol.specs.NodeState.{NodeState, node_code};

    ghost Value = { NodeState };

    ghost coded = { node_code };

    ghost view = { λ s. record {
      spec = s.spec;
      stamp = s.stamp;
      now = s.moment;
      known = s.known;
      live = s.live.map;
      moves = s.moves;
      hints = s.hints.map;
    } };

    ghost invariant = { λ s. (s.stamp < 2 ^ 62) × (s.moment < 2 ^ 62) };
}

impl State {
    /// A node before its first entry.
    pub fn new(alloc: Global, spec: NodeSpec) -> Result<State, OutOfMemory>
        ensures { IfOk result (λ state. state ≡ opening spec) }
    {
        let attrs = spec.attrs.copy(alloc)?;
        let known = Known::new(alloc, spec.no, attrs)?;
        Ok(State {
            spec,
            stamp: 0,
            moment: 0,
            known,
            live: ActorTable::new(alloc),
            moves: Moves::new(alloc),
            hints: ActorTable::new(alloc),
        })
    }

    /// The stamp of the last entry.
    pub fn stamp(&self) -> u64
        ensures { result ≡ self.now.stamp }
    {
        self.stamp
    }

    /// The moment.
    pub fn now(&self) -> u64
        ensures { result ≡ self.now.now }
    {
        self.moment
    }

    /// The live actor of that identifier.
    pub fn live(&self, actor: ActorId) -> Option<&Live>
        ensures { option_copied result ≡ map.get self.now.live actor }
    {
        self.live.get(actor)
    }

    /// The live actor of that place in rising order, from 0.
    pub fn live_at(&self, place: u32) -> Option<ActorId>
        ensures { result ≡ slice_get (map.keys self.now.live) place }
    {
        self.live.key_at(place as usize)
    }

    /// Whether the actor is frozen here.
    pub fn is_frozen(&self, actor: ActorId) -> bool
        ensures { result ≡ is_some (map.get self.now.moves.frozen actor) }
    {
        self.moves.is_frozen(actor)
    }

    /// The frozen copy of that place by rising actor, from 0: its actor, attempt and target.
    pub fn frozen_at(&self, place: u32) -> Option<(ActorId, u64, u16)>
        ensures { result ≡ option_map frozen_place (slice_get (map.entries self.now.moves.frozen) place) }
    {
        self.moves.frozen_at(place)
    }

    /// What a poll of the actor would do.
    pub fn outlook(&self, actor: ActorId) -> Result<Outlook, StepRefusal>
        ensures ok { IfOk result (λ told. IsSomeAnd (map.get self.now.live actor) (λ l. told ≡ foreseen (poll l self.now.now))) }
        ensures absent { OnErr result (map.get self.now.live actor ≡ None) }
        ensures cause { IfErr result (λ e. e ≡ (if is_some (map.get self.now.moves.frozen actor) then refusal.Moving else refusal.NotHere)) }
    {
        match self.live.get(actor) {
            Some(live) => Ok(live.outlook(self.moment)),
            None => Err(self.absence(actor)),
        }
    }

    /// Where the actor was made live, and by which attempt, as far as this node knows.
    pub fn hint(&self, actor: ActorId) -> Option<Location>
        ensures { result ≡ map.get self.now.hints actor }
    {
        self.hints.get(actor).copied()
    }
}

impl State {
    /// Why an actor is not found that does not live here.
    pub(crate) fn absence(&self, actor: ActorId) -> StepRefusal
        ensures { result ≡ (if is_some (map.get self.now.moves.frozen actor) then refusal.Moving else refusal.NotHere) }
    {
        if self.moves.is_frozen(actor) {
            StepRefusal::Moving
        } else {
            StepRefusal::NotHere
        }
    }
}
