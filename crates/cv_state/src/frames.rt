//! The rows of frames that are lost or sent again.

ghost use Rattle.std.specs.Prelude.{◌≡◌, Some, IfErr, IfOk, OnOk, OnErr, if◌then◌else◌, is_some};
ghost use Rattle.std.specs.FinMap as map;
ghost use Rattle.cv_protocol.specs.declared.refusal.StepRefusal.TheVariants as refusal;
ghost use Rattle.cv_protocol.specs.declared.event.Sent.TheVariants as sent;
ghost use Rattle.cv_protocol.specs.NodeRow.{cause_of, row};
ghost use Rattle.cv_state.specs.Steps.{LeadsTo, Refuses};

use crate::state::State;
use cv_actor::LIMIT;
use cv_protocol::{Body, Event, Frame, StepRefusal};
use cv_token::ActorId;
use sqlite_items::Boxed;
use std::alloc::Global;

impl State {
    /// The frame is lost on its way here.
    pub fn lose(&mut self, frame: &Frame) -> Result<(), StepRefusal>
        ensures done { OnOk result (LeadsTo (row self.old (Event.Lose frame.now)) self.new sent.Nothing) }
        ensures cause { IfErr result (λ e. cause_of self.old (Event.Lose frame.now) ≡ Some e) }
        ensures err { OnErr result (self.new ≡ self.old) }
    {
        if frame.to != self.spec.no {
            return Err(StepRefusal::NotEnabled);
        }
        let last = self.stamp.max(frame.stamp);
        if last >= LIMIT - 1 {
            return Err(StepRefusal::StampSpent);
        }
        self.stamp = last + 1;
        Ok(())
    }

    /// Why an actor is not found that is not frozen here.
    pub(crate) fn not_frozen(&self, actor: ActorId) -> StepRefusal
        ensures { result ≡ (if is_some (map.get self.now.live actor) then refusal.NotEnabled else refusal.NotHere) }
    {
        if self.live.get(actor).is_some() {
            StepRefusal::NotEnabled
        } else {
            StepRefusal::NotHere
        }
    }

    /// The state of a frozen actor goes to its target again.
    pub fn resend(&mut self, alloc: Global, actor: ActorId) -> Result<Frame, StepRefusal>
        ensures done { IfOk result (λ frame. LeadsTo (row self.old (Event.Resend actor)) self.new (sent.One frame)) }
        ensures cause { IfErr result (Refuses (cause_of self.old (Event.Resend actor))) }
        ensures err { OnErr result (self.new ≡ self.old) }
    {
        let Some(copy) = self.moves.frozen(actor) else {
            return Err(self.not_frozen(actor));
        };
        if self.stamp + 1 >= LIMIT {
            return Err(StepRefusal::StampSpent);
        }
        let attempt = copy.attempt;
        let target = copy.target;
        let state = copy.state.get().copy(alloc)?;
        let state = Boxed::new(alloc, state)?;
        self.stamp += 1;
        Ok(Frame {
            from: self.spec.no,
            to: target,
            stamp: self.stamp,
            body: Body::Transfer {
                actor,
                attempt,
                state,
            },
        })
    }

    /// The move of a frozen actor is to be given up.
    pub fn withdraw(&mut self, actor: ActorId) -> Result<Frame, StepRefusal>
        ensures done { IfOk result (λ frame. LeadsTo (row self.old (Event.Withdraw actor)) self.new (sent.One frame)) }
        ensures cause { IfErr result (λ e. cause_of self.old (Event.Withdraw actor) ≡ Some e) }
        ensures err { OnErr result (self.new ≡ self.old) }
    {
        let Some(copy) = self.moves.frozen(actor) else {
            return Err(self.not_frozen(actor));
        };
        if self.stamp + 1 >= LIMIT {
            return Err(StepRefusal::StampSpent);
        }
        let attempt = copy.attempt;
        let target = copy.target;
        self.stamp += 1;
        Ok(Frame {
            from: self.spec.no,
            to: target,
            stamp: self.stamp,
            body: Body::Cancel { actor, attempt },
        })
    }
}
