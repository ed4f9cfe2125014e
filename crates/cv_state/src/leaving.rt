//! The row of an actor that leaves for another node.

ghost use Rattle.std.specs.Prelude.{◌≡◌, ◌++◌, [], Some, slice_get, IfErr, IfOk, OnOk, OnErr};
ghost use Rattle.std.specs.FinMap as map;
ghost use Rattle.cv_protocol.specs.declared.event.Sent.TheVariants as sent;
ghost use Rattle.cv_protocol.specs.NodeRow.{cause_of, row};
ghost use Rattle.cv_protocol.specs.NodeState.{is_other_known};
ghost use Rattle.cv_protocol.specs.Rows.{captured};
ghost use Rattle.cv_state.specs.Kept.{added};
ghost use Rattle.cv_state.specs.Leaving.{joined_at, joined_among, left_state};
ghost use Rattle.cv_state.specs.Steps.{LeadsTo, Refuses};

use crate::state::State;
use cv_actor::{LIMIT, Live};
use cv_protocol::{ActorState, Body, Event, Frame, Frozen, Hint, Hints, Location, StepRefusal};
use cv_table::ActorTable;
use cv_token::{ActorId, OutOfMemory};
use sqlite_items::Boxed;
use std::alloc::Global;

/// The hint at that place, where its actor is another one and joined to this one.
fn joined_hint(
    actor: ActorId,
    live: &Live,
    hints: &ActorTable<Location>,
    place: usize,
) -> Option<Hint>
    ensures { result ≡ joined_at actor live.now.actor (slice_get (map.entries hints.now.map) place) }
{
    let other = hints.key_at(place)?;
    let hint = hints.get(other)?;
    if other != actor && live.is_joined(other) {
        Some(Hint {
            actor: other,
            attempt: hint.attempt,
            node: hint.node,
        })
    } else {
        None
    }
}

/// The hints of the other actors that are joined to this one, by rising actor.
fn joined_hints(
    alloc: Global,
    actor: ActorId,
    live: &Live,
    hints: &ActorTable<Location>,
) -> Result<Hints, OutOfMemory>
    ensures { IfOk result (λ joined. joined ≡ joined_among actor live.now.actor (map.entries hints.now.map)) }
{
    let mut joined = Hints::new(alloc);
    for place in 0..hints.len() {
        add(&mut joined, joined_hint(actor, live, hints, place))?;
    }
    Ok(joined)
}

/// Adds the hint, where there is one.
fn add(hints: &mut Hints, hint: Option<Hint>) -> Result<(), OutOfMemory>
    ensures { OnOk result (hints.new ≡ hints.old ++ added hint []) }
{
    match hint {
        Some(hint) => hints.push(hint),
        None => Ok(()),
    }
}

impl State {
    /// Whether the node is another one, and known.
    pub(crate) fn is_other_known(&self, node: u16) -> bool
        ensures { result ≡ is_other_known self.now node }
    {
        node != self.spec.no && self.known.knows(node)
    }

    /// What travels of the live actor; nothing changes here.
    fn capture(
        &self,
        alloc: Global,
        actor: ActorId,
        live: &Live,
    ) -> Result<Boxed<ActorState>, OutOfMemory>
        ensures { IfOk result (λ state. state ≡ captured self.now actor live.now) }
    {
        let hints = joined_hints(alloc, actor, live, &self.hints)?;
        let state = live.state(alloc, hints, self.moment)?;
        Boxed::new(alloc, state)
    }

    /// The live actor becomes this frozen copy. Want of memory changes nothing.
    fn leave(&mut self, actor: ActorId, copy: Frozen) -> Result<(), OutOfMemory>
        ensures ok { OnOk result (self.new ≡ left_state self.old actor copy) }
        ensures err { OnErr result (self.new ≡ self.old) }
    {
        self.moves.freeze(actor, copy)?;
        self.live.remove(actor);
        Ok(())
    }

    /// The live actor leaves for the other node: it becomes a frozen copy with the next attempt, and its state goes there.
    pub fn freeze(&mut self, alloc: Global, actor: ActorId, to: u16) -> Result<Frame, StepRefusal>
        ensures done { IfOk result (λ frame. LeadsTo (row self.old (Event.Freeze actor to)) self.new (sent.One frame)) }
        ensures cause { IfErr result (Refuses (cause_of self.old (Event.Freeze actor to))) }
        ensures err { OnErr result (self.new ≡ self.old) }
    {
        let Some(live) = self.live(actor) else {
            return Err(self.absence(actor));
        };
        if !self.is_other_known(to) {
            return Err(StepRefusal::NoNode);
        }
        let before = live.attempt();
        if before >= LIMIT - 1 {
            return Err(StepRefusal::StampSpent);
        }
        if self.is_spent() {
            return Err(StepRefusal::StampSpent);
        }
        let attempt = before + 1;
        let kept = self.capture(alloc, actor, live)?;
        let state = Boxed::new(alloc, kept.get().copy(alloc)?)?;
        let copy = Frozen {
            state: kept,
            attempt,
            target: to,
        };
        self.leave(actor, copy)?;
        self.step_on();
        let body = Body::Transfer {
            actor,
            attempt,
            state,
        };
        Ok(self.frame(to, body))
    }
}
