//! The rows of the events that need no other node.

ghost use Rattle.std.specs.Prelude.{◌≡◌, Some, IfErr, OnOk, OnErr};
ghost use Rattle.cv_protocol.specs.declared.event.Sent.TheVariants as sent;
ghost use Rattle.cv_protocol.specs.NodeRow.{cause_of, row};
ghost use Rattle.cv_state.specs.Answers.{is_fire, read_of};
ghost use Rattle.cv_state.specs.Steps.{LeadsTo, Refuses};

use crate::state::State;
use cv_actor::{LIMIT, Outlook};
use cv_protocol::{Event, StepRefusal};
use cv_rules::Attrs;
use cv_token::{ActorId, OutOfMemory};
use std::alloc::Global;

/// How many tokens of the inport are to be read.
pub(crate) fn read_of(outlook: Outlook, port: u8) -> Option<u16>
    ensures { result ≡ read_of port outlook }
{
    match outlook {
        Outlook::Reads(held, count) => { if held == port { Some(count) } else { None } }
        Outlook::Fires(_first) => None,
        Outlook::Waits(_lacks) => None,
    }
}

/// Whether the action fires.
pub(crate) fn is_fire(outlook: Outlook, action: u8) -> bool
    ensures { result ≡ is_fire action outlook }
{
    match outlook {
        Outlook::Fires(first) => first == action,
        Outlook::Reads(_port, _count) => false,
        Outlook::Waits(_lacks) => false,
    }
}

impl State {
    /// Time goes on.
    pub fn tick(&mut self, now: u64) -> Result<(), StepRefusal>
        ensures done { OnOk result (LeadsTo (row self.old (Event.Tick now)) self.new sent.Nothing) }
        ensures cause { IfErr result (λ e. cause_of self.old (Event.Tick now) ≡ Some e) }
        ensures err { OnErr result (self.new ≡ self.old) }
    {
        if now < self.moment || now >= LIMIT {
            return Err(StepRefusal::NotEnabled);
        }
        if self.stamp + 1 >= LIMIT {
            return Err(StepRefusal::StampSpent);
        }
        self.moment = now;
        self.stamp += 1;
        Ok(())
    }

    /// The node is known with these attributes.
    pub fn meet(&mut self, alloc: Global, node: u16, attrs: &Attrs) -> Result<(), StepRefusal>
        ensures done { OnOk result (LeadsTo (row self.old (Event.Meet node attrs.now)) self.new sent.Nothing) }
        ensures cause { IfErr result (Refuses (cause_of self.old (Event.Meet node attrs.now))) }
        ensures err { OnErr result (self.new ≡ self.old) }
    {
        if node < 1 || node > 64 {
            return Err(StepRefusal::NotEnabled);
        }
        if self.stamp + 1 >= LIMIT {
            return Err(StepRefusal::StampSpent);
        }
        self.known.meet(alloc, node, attrs)?;
        self.stamp += 1;
        Ok(())
    }

    /// The actor reads the inport, where that is what its poll would do.
    pub fn peek(&mut self, actor: ActorId, port: u8) -> Result<(), StepRefusal>
        ensures done { OnOk result (LeadsTo (row self.old (Event.Peek actor port)) self.new sent.Nothing) }
        ensures cause { IfErr result (λ e. cause_of self.old (Event.Peek actor port) ≡ Some e) }
        ensures err { OnErr result (self.new ≡ self.old) }
    {
        let Some(live) = self.live.get(actor) else {
            return Err(self.absence(actor));
        };
        let Some(count) = read_of(live.outlook(self.moment), port) else {
            return Err(StepRefusal::NotEnabled);
        };
        if self.stamp + 1 >= LIMIT {
            return Err(StepRefusal::StampSpent);
        }
        let Some(live) = self.live.get_mut(actor) else {
            unreachable!()
        };
        live.peek(port, count);
        self.stamp += 1;
        Ok(())
    }

    /// The action of the actor fires, where that is what its poll would do.
    #[tactic(auto, using(cv_table::proofs::Views::insert_same))]
    pub fn fire(&mut self, alloc: Global, actor: ActorId, action: u8) -> Result<(), StepRefusal>
        ensures done { OnOk result (LeadsTo (row self.old (Event.Fire actor action)) self.new sent.Nothing) }
        ensures cause { IfErr result (Refuses (cause_of self.old (Event.Fire actor action))) }
        ensures err { OnErr result (self.new ≡ self.old) }
    {
        let Some(live) = self.live.get(actor) else {
            return Err(self.absence(actor));
        };
        if !is_fire(live.outlook(self.moment), action) {
            return Err(StepRefusal::NotEnabled);
        }
        if !live.fits_firing(self.moment, action) {
            return Err(StepRefusal::StampSpent);
        }
        if self.stamp + 1 >= LIMIT {
            return Err(StepRefusal::StampSpent);
        }
        let now = self.moment;
        let Some(live) = self.live.get_mut(actor) else {
            unreachable!()
        };
        live.fire(alloc, now, action)?;
        self.stamp += 1;
        Ok(())
    }
}
