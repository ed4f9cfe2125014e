//! The rows by their events.

ghost use Rattle.std.specs.Prelude.{◌≡◌, IfOk, IfErr, OnErr};
ghost use Rattle.cv_protocol.specs.NodeRow.{cause_of, row};
ghost use Rattle.cv_state.specs.Steps.{LeadsTo, Refuses};

use crate::state::State;
use cv_protocol::{Event, Sent, StepRefusal};
use std::alloc::Global;

impl State {
    /// Does the row of the event, and tells the frames that it sends. A refused event changes nothing.
    pub fn apply(&mut self, alloc: Global, event: &Event) -> Result<Sent, StepRefusal>
        ensures done { IfOk result (λ sent. LeadsTo (row self.old event.now) self.new sent) }
        ensures cause { IfErr result (Refuses (cause_of self.old event.now)) }
        ensures err { OnErr result (self.new ≡ self.old) }
    {
        match event {
            Event::Meet { node, attrs } => self.meet(alloc, *node, attrs)?,
            Event::Deploy { name, net } => self.deploy(alloc, name, net.get())?,
            Event::Tick { now } => self.tick(*now)?,
            Event::Peek { actor, port } => self.peek(*actor, *port)?,
            Event::Fire { actor, action } => self.fire(alloc, *actor, *action)?,
            Event::Pass { conn } => self.pass(alloc, *conn)?,
            Event::Send { conn } => return Ok(Sent::One(self.send(alloc, *conn)?)),
            Event::Rewind { conn } => self.rewind(*conn)?,
            Event::Freeze { actor, to } => {
                return Ok(Sent::One(self.freeze(alloc, *actor, *to)?));
            }
            Event::Resend { actor } => return Ok(Sent::One(self.resend(alloc, *actor)?)),
            Event::Withdraw { actor } => return Ok(Sent::One(self.withdraw(*actor)?)),
            Event::Hint {
                actor,
                attempt,
                node,
            } => self.learn(*actor, *attempt, *node)?,
            Event::Destroy { app } => return Ok(Sent::All(self.destroy(alloc, *app)?)),
            Event::Lose { frame } => self.lose(frame)?,
            Event::Deliver { frame } => return self.deliver(alloc, frame),
        }
        Ok(Sent::Nothing)
    }
}
