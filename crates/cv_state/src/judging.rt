//! What a node makes of an attempt to move an actor here.

ghost use Rattle.std.specs.Prelude.{◌≡◌, nat_le, IfErr, IfOk, OnErr, OnOk};
ghost use Rattle.std.specs.FinMap as map;
ghost use Rattle.cv_protocol.specs.Kinds.{rule_of};
ghost use Rattle.cv_protocol.specs.NodeState.{is_gone, last, own_attrs};
ghost use Rattle.cv_protocol.specs.NodeRow.{spent_unless};
ghost use Rattle.cv_protocol.specs.Deliveries.{cancel_comes, judged_as, old_attempt, refused, verdict_of};
ghost use Rattle.cv_state.specs.Steps.{Does, Refuses};

use crate::state::State;
use cv_actor::LIMIT;
use cv_kinds::ActorSpec;
use cv_protocol::{ActorState, Application, Body, Sent, StepRefusal, Verdict};
use cv_rules::{Attrs, Rule, meets};
use cv_token::{ActorId, AppId};

/// What an actor asks of its node.
fn rule_of(_spec: &ActorSpec) -> Rule
    ensures { result ≡ rule_of _spec.now }
{
    Rule::Any
}

impl State {
    /// Whether the application is destroyed here.
    pub fn is_gone(&self, app: AppId) -> bool
        ensures { result ≡ is_gone self.now app }
    {
        match self.known.application(app) {
            Some(Application::Destroyed) => true,
            Some(Application::Known { .. }) => false,
            None => false,
        }
    }

    /// The attributes that the node knows of itself.
    fn own_attrs(&self) -> &Attrs
        ensures { result.now ≡ own_attrs self.now }
    {
        match self.known.attrs(self.spec.no) {
            Some(attrs) => attrs,
            None => &self.spec.attrs,
        }
    }

    /// The greatest attempt of the actor that the node keeps.
    pub(crate) fn last(&self, actor: ActorId) -> u64
        ensures { result ≡ last self.now actor }
    {
        let live = match self.live.get(actor) {
            Some(live) => live.attempt(),
            None => 0,
        };
        self.moves.last(actor).max(live)
    }

    /// The verdict on an attempt that is above all before: the first of these that applies. The application is destroyed
    /// here, the node's attributes fail the actor's rule, as many actors live here as there is room for.
    pub(crate) fn judge(&self, actor: ActorId, state: &ActorState) -> Verdict
        ensures { result ≡ judged_as self.now actor state.now }
    {
        if self.is_gone(actor.app) {
            return Verdict::Gone;
        }
        if !meets(&rule_of(state.spec()), self.own_attrs()) {
            return Verdict::Unfit;
        }
        if self.live.len() >= usize::from(self.spec.room) {
            return Verdict::Full;
        }
        Verdict::Accepted
    }

    /// An attempt that is not above all before is answered by its verdict, or by where the actor is by now.
    pub(crate) fn judged_before(
        &self,
        stamp: u64,
        sender: u16,
        actor: ActorId,
        attempt: u64,
    ) -> Sent
        ensures { Does (old_attempt self.now stamp sender actor attempt) self.now result }
    {
        if let Some(verdict) = self.moves.verdict(actor, attempt) {
            return self.one(
                stamp,
                sender,
                Body::Verdict {
                    actor,
                    attempt,
                    verdict,
                },
            );
        }
        match self.hint(actor) {
            Some(place) if attempt <= place.attempt => self.answer_located(
                stamp, sender, actor, place,
            ),
            _ => Sent::Nothing,
        }
    }

    /// The verdict is kept and told. Want of memory changes nothing.
    pub(crate) fn refuse(
        &mut self,
        stamp: u64,
        sender: u16,
        actor: ActorId,
        attempt: u64,
        verdict: Verdict,
    ) -> Result<Sent, StepRefusal>
        ensures done { IfOk result (λ sent. Does (refused self.old stamp sender actor attempt verdict) self.new sent) }
        ensures cause { IfErr result (Refuses (spent_unless (refused self.old stamp sender actor attempt verdict).fits)) }
        ensures err { OnErr result (self.new ≡ self.old) }
    {
        if attempt >= LIMIT {
            return Err(StepRefusal::StampSpent);
        }
        self.moves.judge(actor, attempt, verdict)?;
        Ok(self.one(
            stamp,
            sender,
            Body::Verdict {
                actor,
                attempt,
                verdict,
            },
        ))
    }

    /// An attempt is given up: it is refused as cancelled, or answered as before where it is not above all before.
    pub fn take_cancel(
        &mut self,
        stamp: u64,
        sender: u16,
        actor: ActorId,
        attempt: u64,
    ) -> Result<Sent, StepRefusal>
        ensures done { IfOk result (λ sent. Does (cancel_comes self.old stamp sender actor attempt (nat_le attempt (last self.old actor))) self.new sent) }
        ensures cause { IfErr result (Refuses (spent_unless (cancel_comes self.old stamp sender actor attempt (nat_le attempt (last self.old actor))).fits)) }
        ensures err { OnErr result (self.new ≡ self.old) }
    {
        if attempt <= self.last(actor) {
            return Ok(self.judged_before(stamp, sender, actor, attempt));
        }
        self.refuse(stamp, sender, actor, attempt, Verdict::Cancelled)
    }
}
