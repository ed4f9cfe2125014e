//! Why an event would be refused: each row's cause, found without memory and without doing the row.

ghost use Rattle.std.specs.Prelude.{◌≡◌, ◌&&◌, ◌<◌, ◌+◌, Some, nat_lt, is_some, length};
ghost use Rattle.std.specs.Option.{option_map};
ghost use Rattle.cv_protocol.specs.Poll.{limit};
ghost use Rattle.cv_protocol.specs.NodeRow.{cause_of, spent_unless};
ghost use Rattle.cv_protocol.specs.Rows.{outlet as living_outlet};
ghost use Rattle.cv_state.specs.Outlets.{next_at, next_of, outlet_in};
ghost use Rattle.cv_state.specs.Ways.{passing_of, passing_on, received_in, way_in, way_of};

use crate::near::{is_fire, read_of};
use crate::outlet::Outlet;
use crate::pass::Way;
use crate::state::State;
use cv_actor::LIMIT;
use cv_endpoint::next_to_send;
use cv_kinds::Network;
use cv_protocol::{Event, Frame, StepRefusal};
use cv_queue::{InPort, OutPort};
use cv_rules::Attrs;
use cv_token::{ActorId, AppId, ConnId, Text};

/// How many tokens the inport will have received once the reader's first token that is not acknowledged passes to it; none where
/// none passes.
fn will_receive(out: &OutPort, reader: u16, inp: &InPort) -> Option<u64>
    requires { reader < length out.now.readers }
    ensures { result ≡ option_map received_in (passing_of out.now reader inp.now) }
{
    let acked = out.reader(reader)?.acked;
    let received = inp.received();
    if acked > received || inp.len() == inp.cap() {
        return None;
    }
    let _token = out.token_for(reader, acked)?;
    if acked < received {
        Some(received)
    } else {
        Some(received + 1)
    }
}

/// Whether a token goes to the reader next.
fn is_next(port: &OutPort, reader: u16, window: u16) -> bool
    requires { reader < length port.now.readers }
    ensures { result ≡ is_some (next_of port.now reader window) }
{
    match next_to_send(port, reader, window) {
        Some(n) => port.token_for(reader, n).is_some(),
        None => false,
    }
}

impl State {
    /// A number would reach the limit, where the row's do not fit or the stamp would.
    fn spent_unless(&self, fits: bool) -> Option<StepRefusal>
        ensures { result ≡ spent_unless (fits && nat_lt (self.now.stamp + 1) limit) }
    {
        if fits && !self.is_spent() {
            None
        } else {
            Some(StepRefusal::StampSpent)
        }
    }

    /// Why a node is not met.
    fn meet_cause(&self, node: u16, _attrs: &Attrs) -> Option<StepRefusal>
        ensures { result ≡ cause_of self.now (Event.Meet node _attrs.now) }
    {
        if node < 1 || node > 64 {
            return Some(StepRefusal::NotEnabled);
        }
        self.spent_unless(true)
    }

    /// Why an application is not deployed.
    fn deploy_cause(&self, _name: &Text, net: &Network) -> Option<StepRefusal>
        ensures { result ≡ cause_of self.now (Event.Deploy _name.now net.now) }
    {
        if !self.may_deploy() {
            return Some(StepRefusal::AppsSpent);
        }
        self.spent_unless(self.is_timely(net))
    }

    /// Why time does not go on to that moment.
    fn tick_cause(&self, now: u64) -> Option<StepRefusal>
        ensures { result ≡ cause_of self.now (Event.Tick now) }
    {
        if now < self.moment || now >= LIMIT {
            return Some(StepRefusal::NotEnabled);
        }
        self.spent_unless(true)
    }

    /// Why the actor does not read the inport.
    fn peek_cause(&self, actor: ActorId, port: u8) -> Option<StepRefusal>
        ensures { result ≡ cause_of self.now (Event.Peek actor port) }
    {
        let Some(live) = self.live.get(actor) else {
            return Some(self.absence(actor));
        };
        let Some(_count) = read_of(live.outlook(self.moment), port) else {
            return Some(StepRefusal::NotEnabled);
        };
        self.spent_unless(true)
    }

    /// Why the action of the actor does not fire.
    fn fire_cause(&self, actor: ActorId, action: u8) -> Option<StepRefusal>
        ensures { result ≡ cause_of self.now (Event.Fire actor action) }
    {
        let Some(live) = self.live.get(actor) else {
            return Some(self.absence(actor));
        };
        if !is_fire(live.outlook(self.moment), action) {
            return Some(StepRefusal::NotEnabled);
        }
        self.spent_unless(live.fits_firing(self.moment, action))
    }

    /// How many tokens the consumer's inport would have received, where one passes on the connection.
    fn received_after(&self, conn: ConnId, way: Way) -> Option<u64>
        requires { Some way ≡ option_map way_in (way_of self.now conn) }
        ensures { result ≡ option_map received_in (passing_on (way_of self.now conn)) }
    {
        let spot = way.outlet.spot;
        let out = self.live.get(way.outlet.producer)?.out(spot.out)?;
        let inp = self.live.get(spot.reader.consumer)?.inp(way.inp)?;
        will_receive(out, spot.number, inp)
    }

    /// Why no token passes on the connection.
    fn pass_cause(&self, conn: ConnId) -> Option<StepRefusal>
        ensures { result ≡ cause_of self.now (Event.Pass conn) }
    {
        let Some(way) = self.way(conn) else {
            return Some(self.no_way(conn));
        };
        let Some(received) = self.received_after(conn, way) else {
            return Some(StepRefusal::NotEnabled);
        };
        self.spent_unless(received < LIMIT)
    }

    /// Whether there is a token to send next on the connection.
    fn has_next(&self, conn: ConnId, outlet: Outlet) -> bool
        requires { Some outlet ≡ option_map outlet_in (living_outlet self.now conn) }
        ensures { result ≡ is_some (next_at self.now.spec.window (living_outlet self.now conn)) }
    {
        let spot = outlet.spot;
        let Some(live) = self.live.get(outlet.producer) else {
            return false;
        };
        match live.out(spot.out) {
            Some(port) => is_next(port, spot.number, self.spec.window),
            None => false,
        }
    }

    /// Why no token is sent on the connection.
    fn send_cause(&self, conn: ConnId) -> Option<StepRefusal>
        ensures { result ≡ cause_of self.now (Event.Send conn) }
    {
        let Some(outlet) = self.outlet(conn) else {
            return Some(self.no_outlet(conn));
        };
        if self.away(outlet.spot.reader.consumer).is_none() || !self.has_next(conn, outlet) {
            return Some(StepRefusal::NotEnabled);
        }
        self.spent_unless(true)
    }

    /// Why the connection is not rewound.
    fn rewind_cause(&self, conn: ConnId) -> Option<StepRefusal>
        ensures { result ≡ cause_of self.now (Event.Rewind conn) }
    {
        if self.outlet(conn).is_none() {
            return Some(self.no_outlet(conn));
        }
        self.spent_unless(true)
    }

    /// Why the actor does not leave for that node.
    fn freeze_cause(&self, actor: ActorId, to: u16) -> Option<StepRefusal>
        ensures { result ≡ cause_of self.now (Event.Freeze actor to) }
    {
        let Some(live) = self.live(actor) else {
            return Some(self.absence(actor));
        };
        if !self.is_other_known(to) {
            return Some(StepRefusal::NoNode);
        }
        self.spent_unless(live.attempt() < LIMIT - 1)
    }

    /// Why the state of the actor is not sent again.
    fn resend_cause(&self, actor: ActorId) -> Option<StepRefusal>
        ensures { result ≡ cause_of self.now (Event.Resend actor) }
    {
        if !self.moves.is_frozen(actor) {
            return Some(self.not_frozen(actor));
        }
        self.spent_unless(true)
    }

    /// Why the move of the actor is not given up.
    fn withdraw_cause(&self, actor: ActorId) -> Option<StepRefusal>
        ensures { result ≡ cause_of self.now (Event.Withdraw actor) }
    {
        if !self.moves.is_frozen(actor) {
            return Some(self.not_frozen(actor));
        }
        self.spent_unless(true)
    }

    /// Why the node does not learn where the actor was made live.
    fn hint_cause(&self, _actor: ActorId, attempt: u64, _node: u16) -> Option<StepRefusal>
        ensures { result ≡ cause_of self.now (Event.Hint _actor attempt _node) }
    {
        self.spent_unless(attempt < LIMIT)
    }

    /// Why the application is not destroyed.
    fn destroy_cause(&self, app: AppId) -> Option<StepRefusal>
        ensures { result ≡ cause_of self.now (Event.Destroy app) }
    {
        if !self.is_living(app) {
            return Some(StepRefusal::NotEnabled);
        }
        self.spent_unless(true)
    }

    /// Why the frame is not lost here.
    fn lose_cause(&self, frame: &Frame) -> Option<StepRefusal>
        ensures { result ≡ cause_of self.now (Event.Lose frame.now) }
    {
        if frame.to != self.spec.no {
            return Some(StepRefusal::NotEnabled);
        }
        if self.stamp.max(frame.stamp) >= LIMIT - 1 {
            return Some(StepRefusal::StampSpent);
        }
        None
    }

    /// Why the node would refuse the event; None exactly where it would do it but for want of memory. It takes no memory.
    pub fn cause(&self, event: &Event) -> Option<StepRefusal>
        ensures { result ≡ cause_of self.now event.now }
    {
        match event {
            Event::Meet { node, attrs } => self.meet_cause(*node, attrs),
            Event::Deploy { name, net } => self.deploy_cause(name, net.get()),
            Event::Tick { now } => self.tick_cause(*now),
            Event::Peek { actor, port } => self.peek_cause(*actor, *port),
            Event::Fire { actor, action } => self.fire_cause(*actor, *action),
            Event::Pass { conn } => self.pass_cause(*conn),
            Event::Send { conn } => self.send_cause(*conn),
            Event::Rewind { conn } => self.rewind_cause(*conn),
            Event::Freeze { actor, to } => self.freeze_cause(*actor, *to),
            Event::Resend { actor } => self.resend_cause(*actor),
            Event::Withdraw { actor } => self.withdraw_cause(*actor),
            Event::Hint {
                actor,
                attempt,
                node,
            } => self.hint_cause(*actor, *attempt, *node),
            Event::Destroy { app } => self.destroy_cause(*app),
            Event::Lose { frame } => self.lose_cause(frame),
            Event::Deliver { frame } => self.deliver_cause(frame),
        }
    }
}
