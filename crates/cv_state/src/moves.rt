//! `Moves`: the actors that are frozen at a node, and what it judged or released.

ghost use Rattle.std.specs.Prelude.{◌≡◌, is_some, max, slice_get, OnOk, OnErr};
ghost use Rattle.std.specs.Option.{option_copied, option_map};
ghost use Rattle.std.specs.FinMap as map;
ghost use Rattle.cv_protocol.specs.NodeState.{frozen_attempt, judged_attempt, released};
ghost use Rattle.cv_protocol.specs.Deliveries.{outs_noted, verdict_of};
ghost use Rattle.cv_protocol.specs.Rows.{elsewhere};
ghost use Rattle.cv_state.specs.Arrivals.{all_released, with_record};
ghost use Rattle.cv_state.specs.Leaving.{frozen_place};

use crate::known::Known;
use crate::releasing::{judged_attempt, release, release_all};
use cv_protocol::{ActorState, Frozen, Judged, Verdict};
use cv_table::ActorTable;
use cv_token::{ActorId, AppId, OutOfMemory};
use std::alloc::Global;
use std::marker::Model;

/// The frozen copies of a node, and the greatest attempt of each actor that it judged or released.
#[derive(Drop)]
pub struct Moves {
    frozen: ActorTable<Frozen>,
    judged: ActorTable<Judged>,
}

impl Model for Moves {
    ghost use Rattle.cv_protocol.specs.NodeState.{Moves as MovesView, moves_code};

    ghost Value = { MovesView };

    ghost coded = { moves_code };

    ghost view = { λ m. record { frozen = m.frozen.map; judged = m.judged.map } };
}

impl Moves {
    /// No copies and no records.
    pub fn new(alloc: Global) -> Moves
        ensures { result ≡ record { frozen = map.empty; judged = map.empty } }
    {
        Moves {
            frozen: ActorTable::new(alloc),
            judged: ActorTable::new(alloc),
        }
    }

    /// Whether the actor is frozen here.
    pub fn is_frozen(&self, actor: ActorId) -> bool
        ensures { result ≡ is_some (map.get self.now.frozen actor) }
    {
        self.frozen.get(actor).is_some()
    }

    /// The frozen copy of the actor.
    pub fn frozen(&self, actor: ActorId) -> Option<&Frozen>
        ensures { option_copied result ≡ map.get self.now.frozen actor }
    {
        self.frozen.get(actor)
    }

    /// The record of the actor.
    pub fn judged(&self, actor: ActorId) -> Option<Judged>
        ensures { result ≡ map.get self.now.judged actor }
    {
        self.judged.get(actor).copied()
    }

    /// The frozen copy of that place by rising actor, from 0: its actor, attempt and target.
    pub fn frozen_at(&self, place: u32) -> Option<(ActorId, u64, u16)>
        ensures { result ≡ option_map frozen_place (slice_get (map.entries self.now.frozen) place) }
    {
        let actor = self.frozen.key_at(place as usize)?;
        let copy = self.frozen.get(actor)?;
        Some((actor, copy.attempt, copy.target))
    }

    /// Keeps a frozen copy of the actor. Want of memory changes nothing.
    pub fn freeze(&mut self, actor: ActorId, copy: Frozen) -> Result<(), OutOfMemory>
        ensures ok { OnOk result (self.new ≡ record self.old { frozen = map.insert self.old.frozen actor copy }) }
        ensures err { OnErr result (self.new ≡ self.old) }
    {
        self.frozen.insert(actor, copy)?;
        Ok(())
    }

    /// Lets the frozen copies of the application's actors go.
    pub fn drop_app(&mut self, app: AppId)
        ensures { self.new ≡ record self.old { frozen = map.retain_keys self.old.frozen (elsewhere app) } }
    {
        self.frozen.drop_app(app);
    }

    /// Lets a frozen copy of an attempt of at most `upto` go; the actor's record rises to that attempt. Want of memory
    /// changes nothing.
    pub fn release(&mut self, actor: ActorId, upto: u64) -> Result<(), OutOfMemory>
        ensures ok { OnOk result (self.new ≡ released self.old actor upto) }
        ensures err { OnErr result (self.new ≡ self.old) }
    {
        self.judged.reserve(1)?;
        release(&mut self.frozen, &mut self.judged, actor, upto);
        Ok(())
    }

    /// The verdict on exactly that attempt, where it was judged here.
    pub fn verdict(&self, actor: ActorId, attempt: u64) -> Option<Verdict>
        ensures { result ≡ verdict_of attempt (map.get self.now.judged actor) }
    {
        match self.judged(actor) {
            Some(record) => {
                if record.attempt == attempt {
                    record.verdict
                } else {
                    None
                }
            }
            None => None,
        }
    }

    /// The greatest attempt of the actor among its record and its frozen copy; 0 without any.
    pub fn last(&self, actor: ActorId) -> u64
        ensures { result ≡ max (judged_attempt (map.get self.now.judged actor)) (frozen_attempt (map.get self.now.frozen actor)) }
    {
        let frozen = match self.frozen(actor) {
            Some(copy) => copy.attempt,
            None => 0,
        };
        judged_attempt(&self.judged, actor).max(frozen)
    }

    /// Keeps the verdict on an attempt. Want of memory changes nothing.
    pub fn judge(
        &mut self,
        actor: ActorId,
        attempt: u64,
        verdict: Verdict,
    ) -> Result<(), OutOfMemory>
        ensures ok { OnOk result (self.new ≡ with_record self.old actor attempt verdict) }
        ensures err { OnErr result (self.new ≡ self.old) }
    {
        let record = Judged {
            attempt,
            verdict: Some(verdict),
        };
        self.judged.insert(actor, record)?;
        Ok(())
    }

    /// Takes the frozen copy of the actor out.
    pub fn take(&mut self, actor: ActorId) -> Option<Frozen>
        ensures value { result ≡ map.get self.old.frozen actor }
        ensures rest { self.new ≡ record self.old { frozen = map.remove self.old.frozen actor } }
    {
        self.frozen.remove(actor)
    }

    /// An actor comes to live here by this attempt. Its record is made, and the frozen copies go that its state knows to be
    /// old: its own, and those of the actors of the hints. Its connections are known. Want of memory changes nothing.
    pub(crate) fn accept(
        &mut self,
        known: &mut Known,
        actor: ActorId,
        attempt: u64,
        state: &ActorState,
    ) -> Result<(), OutOfMemory>
        ensures moves { OnOk result (self.new ≡ all_released state.now.hints (released (with_record self.old actor attempt Verdict.Accepted) actor attempt)) }
        ensures known { OnOk result (known.new ≡ record known.old { producers = outs_noted actor state.now.actor.outs known.old.producers }) }
        ensures err { OnErr result (self.new ≡ self.old) }
        ensures unknown { OnErr result (known.new ≡ known.old) }
    {
        let hints = state.hints().as_slice();
        self.judged.reserve(hints.len() + 2)?;
        known.note_outs(actor, state.outs())?;
        let record = Judged {
            attempt,
            verdict: Some(Verdict::Accepted),
        };
        let Ok(_old) = self.judged.insert(actor, record) else {
            unreachable!()
        };
        release(&mut self.frozen, &mut self.judged, actor, attempt);
        release_all(&mut self.frozen, &mut self.judged, hints);
        Ok(())
    }
}
