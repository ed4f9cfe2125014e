//! Why a frame that comes would be refused, by what it says.

ghost use Rattle.std.specs.Prelude.{◌≡◌, ℕ, nat_le};
ghost use Rattle.std.specs.FinMap as map;
ghost use Rattle.cv_token.specs.declared.token.Token.{Token};
ghost use Rattle.cv_protocol.specs.Deliveries.{cancel_comes, token_comes, transfer_comes, verdict_comes};
ghost use Rattle.cv_protocol.specs.NodeRow.{cause_of, comes};
ghost use Rattle.cv_protocol.specs.NodeState.{last};

use crate::arriving::hints_fit;
use crate::state::State;
use crate::tokens::fits_offer;
use crate::verdicts::is_accepted;
use cv_actor::{LIMIT, fits_restored};
use cv_protocol::{ActorState, Body, Event, Frame, StepRefusal, Verdict};
use cv_token::{ActorId, ConnId};

impl State {
    /// Whether the numbers stay below the limit once the token comes.
    fn fits_token(&self, conn: ConnId, actor: ActorId, n: u64) -> bool
        ensures { (stamp sender : ℕ) (t : Token) → result ≡ (token_comes self.now stamp sender conn actor n t (map.get self.now.live actor)).fits }
    {
        let Some(live) = self.live.get(actor) else {
            return true;
        };
        let Some(seat) = live.seat(conn) else {
            return true;
        };
        let Some(port) = live.inp(seat) else {
            unreachable!()
        };
        fits_offer(port, n)
    }

    /// Whether they stay below it once the actor's state comes.
    fn fits_transfer(&self, actor: ActorId, attempt: u64, state: &ActorState) -> bool
        ensures { (stamp sender : ℕ) → result ≡ (transfer_comes self.now stamp sender actor attempt state.now (nat_le attempt (last self.now actor))).fits }
    {
        if attempt <= self.last(actor) {
            return true;
        }
        match self.judge(actor, state) {
            Verdict::Accepted => {
                fits_restored(state, attempt, self.moment) && hints_fit(state.hints().as_slice())
            }
            Verdict::Unfit | Verdict::Full | Verdict::Gone | Verdict::Cancelled => attempt < LIMIT,
        }
    }

    /// Whether they stay below it once the verdict comes.
    fn fits_verdict(&self, actor: ActorId, attempt: u64, verdict: Verdict) -> bool
        ensures { result ≡ (verdict_comes self.now actor attempt verdict (map.get self.now.moves.frozen actor)).fits }
    {
        let Some(copy) = self.moves.frozen(actor) else {
            return true;
        };
        if copy.attempt != attempt || is_accepted(verdict) || self.is_gone(actor.app) {
            return true;
        }
        fits_restored(copy.state.get(), copy.attempt, self.moment)
    }

    /// Whether they stay below it once the attempt is given up.
    fn fits_cancel(&self, actor: ActorId, attempt: u64) -> bool
        ensures { (stamp sender : ℕ) → result ≡ (cancel_comes self.now stamp sender actor attempt (nat_le attempt (last self.now actor))).fits }
    {
        attempt <= self.last(actor) || attempt < LIMIT
    }

    /// Whether they stay below it once what the frame says is done.
    fn fits_body(&self, body: &Body) -> bool
        ensures { (stamp sender : ℕ) → result ≡ (comes self.now stamp sender body.now).fits }
    {
        match body {
            Body::Token { conn, actor, n, .. } => self.fits_token(*conn, *actor, *n),
            Body::Ack { .. } => true,
            Body::Nack { .. } => true,
            Body::Destroy { .. } => true,
            Body::Transfer {
                actor,
                attempt,
                state,
            } => self.fits_transfer(*actor, *attempt, state.get()),
            Body::Verdict {
                actor,
                attempt,
                verdict,
            } => self.fits_verdict(*actor, *attempt, *verdict),
            Body::Cancel { actor, attempt } => self.fits_cancel(*actor, *attempt),
            Body::Located { attempt, .. } => *attempt < LIMIT,
        }
    }

    /// Why the frame is not delivered here.
    pub(crate) fn deliver_cause(&self, frame: &Frame) -> Option<StepRefusal>
        ensures { result ≡ cause_of self.now (Event.Deliver frame.now) }
    {
        if frame.to != self.spec.no || frame.stamp >= LIMIT {
            return Some(StepRefusal::NotEnabled);
        }
        if !self.fits_body(&frame.body) || self.stamp.max(frame.stamp) + 1 >= LIMIT {
            return Some(StepRefusal::StampSpent);
        }
        None
    }
}
