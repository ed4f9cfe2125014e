//! The row of a frame that comes.

ghost use Rattle.std.specs.Prelude.{◌≡◌, IfErr, IfOk, OnErr};
ghost use Rattle.cv_protocol.specs.NodeRow.{cause_of, comes, row, spent_unless};
ghost use Rattle.cv_state.specs.Steps.{Does, LeadsTo, Refuses};

use crate::state::State;
use cv_actor::LIMIT;
use cv_protocol::{Body, Event, Frame, Sent, StepRefusal};
use std::alloc::Global;

impl State {
    /// What a frame says is done; the stamp is that of the entry, and stays to be set.
    fn take(
        &mut self,
        alloc: Global,
        stamp: u64,
        sender: u16,
        body: &Body,
    ) -> Result<Sent, StepRefusal>
        ensures done { IfOk result (λ sent. Does (comes self.old stamp sender body.now) self.new sent) }
        ensures cause { IfErr result (Refuses (spent_unless (comes self.old stamp sender body.now).fits)) }
        ensures err { OnErr result (self.new ≡ self.old) }
    {
        match body {
            Body::Token {
                conn,
                actor,
                n,
                token,
            } => self.take_token(alloc, stamp, sender, *conn, *actor, *n, token),
            Body::Ack { conn, actor, upto } => {
                self.take_ack(*conn, *actor, *upto);
                Ok(Sent::Nothing)
            }
            Body::Nack { conn, actor, upto } => {
                self.take_nack(*conn, *actor, *upto);
                Ok(Sent::Nothing)
            }
            Body::Transfer {
                actor,
                attempt,
                state,
            } => self.take_transfer(alloc, stamp, sender, *actor, *attempt, state.get()),
            Body::Verdict {
                actor,
                attempt,
                verdict,
            } => {
                self.take_verdict(*actor, *attempt, *verdict)?;
                Ok(Sent::Nothing)
            }
            Body::Cancel { actor, attempt } => self.take_cancel(stamp, sender, *actor, *attempt),
            Body::Located {
                actor,
                attempt,
                node,
            } => {
                self.take_located(*actor, *attempt, *node)?;
                Ok(Sent::Nothing)
            }
            Body::Destroy { app } => {
                self.destroy_here(*app)?;
                Ok(Sent::Nothing)
            }
        }
    }

    /// A frame comes that is addressed here.
    pub fn deliver(&mut self, alloc: Global, frame: &Frame) -> Result<Sent, StepRefusal>
        ensures done { IfOk result (λ sent. LeadsTo (row self.old (Event.Deliver frame.now)) self.new sent) }
        ensures cause { IfErr result (Refuses (cause_of self.old (Event.Deliver frame.now))) }
        ensures err { OnErr result (self.new ≡ self.old) }
    {
        if frame.to != self.spec.no || frame.stamp >= LIMIT {
            return Err(StepRefusal::NotEnabled);
        }
        let stamp = self.stamp.max(frame.stamp) + 1;
        if stamp >= LIMIT {
            return Err(StepRefusal::StampSpent);
        }
        let sent = self.take(alloc, stamp, frame.from, &frame.body)?;
        self.stamp = stamp;
        Ok(sent)
    }
}
