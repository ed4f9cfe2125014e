//! Hints: where actors were made live, as far as a node knows.

ghost use Rattle.std.specs.Prelude.{◌≡◌, ◌+◌, ◌<◌, ◌≤◌, length, IfErr, OnOk, OnErr};
ghost use Rattle.std.specs.FinMap as map;
ghost use Rattle.cv_protocol.specs.declared.event.Sent.TheVariants as sent;
ghost use Rattle.cv_protocol.specs.NodeState.{is_later, raise};
ghost use Rattle.cv_protocol.specs.NodeRow.{cause_of, row};
ghost use Rattle.cv_state.specs.Arrivals.{all_hinted, hinted, places_of};
ghost use Rattle.cv_state.specs.Steps.{LeadsTo, Refuses};

use crate::state::State;
use cv_actor::{LIMIT, Live, Rewinding};
use cv_protocol::{Event, Hint, Location, StepRefusal};
use cv_table::ActorTable;
use cv_token::{ActorId, OutOfMemory};

/// Whether the attempt is above the one of the actor's hint, or none is kept.
fn is_later(hints: &ActorTable<Location>, actor: ActorId, attempt: u64) -> bool
    ensures { result ≡ is_later attempt (map.get hints.now.map actor) }
{
    match hints.get(actor) {
        Some(place) => place.attempt < attempt,
        None => true,
    }
}

/// A hint of a later attempt than the one kept takes its place, and then what live producers sent to that actor is to be
/// sent again.
pub(crate) fn take_hint(hints: &mut ActorTable<Location>, live: &mut ActorTable<Live>, hint: Hint)
    requires { 0 < hints.old.spare }
    ensures places { places_of hints.new.map live.new.map ≡ hinted (places_of hints.old.map live.old.map) hint }
    ensures room { hints.old.spare ≤ hints.new.spare + 1 }
{
    let Hint {
        actor,
        attempt,
        node,
    } = hint;
    if !is_later(hints, actor, attempt) {
        return;
    }
    let Ok(_old) = hints.insert(actor, Location { attempt, node }) else {
        unreachable!()
    };
    live.change_all(&Rewinding { actor });
}

/// The same of each of these hints, in their order.
pub(crate) fn take_hints(
    hints: &mut ActorTable<Location>,
    live: &mut ActorTable<Live>,
    news: &[Hint],
)
    requires { length news.now ≤ hints.old.spare }
    ensures { places_of hints.new.map live.new.map ≡ all_hinted news.now (places_of hints.old.map live.old.map) }
{
    for hint in news {
        take_hint(hints, live, *hint);
    }
}

impl State {
    /// Raises the hint of an actor: it changes where the attempt is above the one kept, and then what live producers
    /// sent to that actor is to be sent again. Whether or not it changes, a frozen copy of an attempt of at most this one
    /// goes. Want of memory changes nothing.
    pub fn raise(&mut self, actor: ActorId, attempt: u64, node: u16) -> Result<(), OutOfMemory>
        ensures ok { OnOk result (self.new ≡ raise self.old actor attempt node) }
        ensures err { OnErr result (self.new ≡ self.old) }
    {
        self.hints.reserve(1)?;
        self.moves.release(actor, attempt)?;
        let hint = Hint {
            actor,
            attempt,
            node,
        };
        take_hint(&mut self.hints, &mut self.live, hint);
        Ok(())
    }

    /// The node learns where an actor was made live.
    pub fn learn(&mut self, actor: ActorId, attempt: u64, node: u16) -> Result<(), StepRefusal>
        ensures done { OnOk result (LeadsTo (row self.old (Event.Hint actor attempt node)) self.new sent.Nothing) }
        ensures cause { IfErr result (Refuses (cause_of self.old (Event.Hint actor attempt node))) }
        ensures err { OnErr result (self.new ≡ self.old) }
    {
        if attempt >= LIMIT || self.stamp + 1 >= LIMIT {
            return Err(StepRefusal::StampSpent);
        }
        self.raise(actor, attempt, node)?;
        self.stamp += 1;
        Ok(())
    }
}
