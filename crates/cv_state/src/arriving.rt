//! What a node makes of an actor that comes to live here.

ghost use Rattle.std.specs.Prelude.{◌≡◌, ◌^◌, ◌<◌, ◌&&◌, true, nat_le, IfErr, IfOk, OnErr, OnOk};
ghost use Rattle.std.specs.FinMap as map;
ghost use Rattle.cv_protocol.specs.Poll.{live_fits};
ghost use Rattle.cv_protocol.specs.Travel.{restore};
ghost use Rattle.cv_protocol.specs.NodeState.{last};
ghost use Rattle.cv_protocol.specs.NodeRow.{spent_unless};
ghost use Rattle.cv_protocol.specs.Deliveries.{accepted, accepted_state, hints_fit, transfer_comes};
ghost use Rattle.cv_state.specs.Steps.{Does, Refuses};

use crate::hints::{take_hint, take_hints};
use crate::state::State;
use cv_actor::{LIMIT, fits_restored, restore};
use cv_protocol::{ActorState, Body, Hint, Sent, StepRefusal, Verdict};
use cv_token::{ActorId, OutOfMemory};
use std::alloc::Global;

/// Whether the attempts of all hints are below the limit.
pub(crate) fn hints_fit(hints: &[Hint]) -> bool
    ensures { result ≡ hints_fit hints.now }
{
    hints.iter().all(|hint| hint.attempt < LIMIT)
}

impl State {
    /// The actor lives here now, by this attempt: its record is made, the producers of its connections are known, and its own
    /// hint and those of its state are raised. Want of memory changes nothing.
    fn arrive(
        &mut self,
        alloc: Global,
        actor: ActorId,
        attempt: u64,
        state: &ActorState,
    ) -> Result<(), OutOfMemory>
        requires { live_fits (restore state.now attempt self.old.now) ≡ true }
        ensures ok { OnOk result (self.new ≡ accepted_state self.old actor attempt state.now) }
        ensures err { OnErr result (self.new ≡ self.old) }
    {
        let hints = state.hints().as_slice();
        let own = Hint {
            actor,
            attempt,
            node: self.spec.no,
        };
        let copy = state.copy(alloc)?;
        self.live.reserve(1)?;
        self.hints.reserve(hints.len() + 1)?;
        self.moves.accept(&mut self.known, actor, attempt, state)?;
        let Ok(_old) = self.live.insert(actor, restore(copy, attempt, self.moment)) else {
            unreachable!()
        };
        take_hint(&mut self.hints, &mut self.live, own);
        take_hints(&mut self.hints, &mut self.live, hints);
        Ok(())
    }

    /// The attempt is accepted: the actor comes to live here, and the sender is told.
    fn accept(
        &mut self,
        alloc: Global,
        stamp: u64,
        sender: u16,
        actor: ActorId,
        attempt: u64,
        state: &ActorState,
    ) -> Result<Sent, StepRefusal>
        ensures done { IfOk result (λ sent. Does (accepted self.old stamp sender actor attempt state.now) self.new sent) }
        ensures cause { IfErr result (Refuses (spent_unless (accepted self.old stamp sender actor attempt state.now).fits)) }
        ensures err { OnErr result (self.new ≡ self.old) }
    {
        if !fits_restored(state, attempt, self.moment) || !hints_fit(state.hints().as_slice()) {
            return Err(StepRefusal::StampSpent);
        }
        let sent = self.one(
            stamp,
            sender,
            Body::Verdict {
                actor,
                attempt,
                verdict: Verdict::Accepted,
            },
        );
        self.arrive(alloc, actor, attempt, state)?;
        Ok(sent)
    }

    /// An actor's state comes. An attempt that is not above all before is answered as before; another is judged, and the
    /// verdict is kept and told. Where it is accepted the actor lives here now.
    pub fn take_transfer(
        &mut self,
        alloc: Global,
        stamp: u64,
        sender: u16,
        actor: ActorId,
        attempt: u64,
        state: &ActorState,
    ) -> Result<Sent, StepRefusal>
        ensures done { IfOk result (λ sent. Does (transfer_comes self.old stamp sender actor attempt state.now (nat_le attempt (last self.old actor))) self.new sent) }
        ensures cause { IfErr result (Refuses (spent_unless (transfer_comes self.old stamp sender actor attempt state.now (nat_le attempt (last self.old actor))).fits)) }
        ensures err { OnErr result (self.new ≡ self.old) }
    {
        if attempt <= self.last(actor) {
            return Ok(self.judged_before(stamp, sender, actor, attempt));
        }
        match self.judge(actor, state) {
            Verdict::Accepted => self.accept(alloc, stamp, sender, actor, attempt, state),
            verdict => self.refuse(stamp, sender, actor, attempt, verdict),
        }
    }
}
