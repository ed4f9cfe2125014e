//! What a node makes of a verdict on a move from here, and of an application that is destroyed.

ghost use Rattle.std.specs.Prelude.{◌≡◌, IfErr, IfSome, IsSome, OnErr, OnOk};
ghost use Rattle.std.specs.FinMap as map;
ghost use Rattle.cv_protocol.specs.declared.event.Sent.TheVariants as sent;
ghost use Rattle.cv_protocol.specs.NodeState.{is_gone};
ghost use Rattle.cv_protocol.specs.NodeRow.{spent_unless};
ghost use Rattle.cv_protocol.specs.Rows.{destroyed_state, hint};
ghost use Rattle.cv_protocol.specs.Deliveries.{is_accepted, resumed, verdict_comes};
ghost use Rattle.cv_state.specs.Steps.{Does, Refuses};

use crate::state::State;
use cv_actor::{LIMIT, fits_restored, restore};
use cv_protocol::{StepRefusal, Verdict};
use cv_token::{ActorId, AppId, OutOfMemory};

/// Whether the actor was taken.
pub(crate) fn is_accepted(verdict: Verdict) -> bool
    ensures { result ≡ is_accepted verdict }
{
    match verdict {
        Verdict::Accepted => true,
        Verdict::Unfit | Verdict::Full | Verdict::Gone | Verdict::Cancelled => false,
    }
}

impl State {
    /// The move of the frozen actor was refused: it lives here again, or goes with its application.
    fn resume(&mut self, actor: ActorId) -> Result<(), StepRefusal>
        requires { IsSome (map.get self.old.moves.frozen actor) }
        ensures done { OnOk result (IfSome (map.get self.old.moves.frozen actor) (λ copy. Does (resumed self.old actor copy (is_gone self.old actor.app)) self.new sent.Nothing)) }
        ensures cause { IfErr result (λ e. IfSome (map.get self.old.moves.frozen actor) (λ copy. Refuses (spent_unless (resumed self.old actor copy (is_gone self.old actor.app)).fits) e)) }
        ensures err { OnErr result (self.new ≡ self.old) }
    {
        if self.is_gone(actor.app) {
            let _copy = self.moves.take(actor);
            return Ok(());
        }
        let Some(copy) = self.moves.frozen(actor) else {
            unreachable!()
        };
        if !fits_restored(copy.state.get(), copy.attempt, self.moment) {
            return Err(StepRefusal::StampSpent);
        }
        self.live.reserve(1)?;
        let Some(copy) = self.moves.take(actor) else {
            unreachable!()
        };
        let live = restore(copy.state.into_inner(), copy.attempt, self.moment);
        let Ok(_old) = self.live.insert(actor, live) else {
            unreachable!()
        };
        Ok(())
    }

    /// A verdict comes. It counts for a frozen copy of exactly that attempt: where the actor was taken, the copy goes and the
    /// node knows where it is; else the actor lives here again, or goes with its application.
    pub fn take_verdict(
        &mut self,
        actor: ActorId,
        attempt: u64,
        verdict: Verdict,
    ) -> Result<(), StepRefusal>
        ensures done { OnOk result (Does (verdict_comes self.old actor attempt verdict (map.get self.old.moves.frozen actor)) self.new sent.Nothing) }
        ensures cause { IfErr result (Refuses (spent_unless (verdict_comes self.old actor attempt verdict (map.get self.old.moves.frozen actor)).fits)) }
        ensures err { OnErr result (self.new ≡ self.old) }
    {
        let Some(copy) = self.moves.frozen(actor) else {
            return Ok(());
        };
        if copy.attempt != attempt {
            return Ok(());
        }
        let target = copy.target;
        if is_accepted(verdict) {
            self.raise(actor, attempt, target)?;
            return Ok(());
        }
        self.resume(actor)
    }

    /// The node is told where an actor was made live.
    pub fn take_located(
        &mut self,
        actor: ActorId,
        attempt: u64,
        node: u16,
    ) -> Result<(), StepRefusal>
        ensures done { OnOk result (Does (hint self.old actor attempt node) self.new sent.Nothing) }
        ensures cause { IfErr result (Refuses (spent_unless (hint self.old actor attempt node).fits)) }
        ensures err { OnErr result (self.new ≡ self.old) }
    {
        if attempt >= LIMIT {
            return Err(StepRefusal::StampSpent);
        }
        self.raise(actor, attempt, node)?;
        Ok(())
    }

    /// The application is destroyed here, and its live actors go. Want of memory changes nothing.
    pub fn destroy_here(&mut self, app: AppId) -> Result<(), OutOfMemory>
        ensures ok { OnOk result (self.new ≡ destroyed_state self.old app) }
        ensures err { OnErr result (self.new ≡ self.old) }
    {
        self.known.destroy(app)?;
        self.live.drop_app(app);
        Ok(())
    }
}
