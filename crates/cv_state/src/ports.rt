//! The rows on a connection whose producer lives here.

ghost use Rattle.std.specs.Prelude.{◌≡◌, ◌<◌, Some, IfErr, IfOk, IsSome, OnOk, OnErr, length};
ghost use Rattle.std.specs.Option.{option_map};
ghost use Rattle.std.specs.FinMap as map;
ghost use Rattle.cv_protocol.specs.declared.event.Sent.TheVariants as sent;
ghost use Rattle.cv_protocol.specs.NodeRow.{cause_of, row};
ghost use Rattle.cv_protocol.specs.Rows.{outlet as living_outlet};
ghost use Rattle.cv_state.specs.Outlets.{away_by, next_at, next_of, outlet_in, rewound_at, sent_at};
ghost use Rattle.cv_state.specs.Steps.{LeadsTo, Refuses};

use crate::outlet::Outlet;
use crate::state::State;
use cv_endpoint::next_to_send;
use cv_protocol::{Body, Event, Frame, StepRefusal};
use cv_queue::OutPort;
use cv_token::{ActorId, ConnId, OutOfMemory, Token};
use std::alloc::Global;

/// A copy of the token that goes to the reader next, with its number. None comes exactly where all of the reader's tokens are
/// sent, or `window` of them are sent and not acknowledged.
fn next_token(
    alloc: Global,
    port: &OutPort,
    reader: u16,
    window: u16,
) -> Result<Option<(u64, Token)>, OutOfMemory>
    requires { reader < length port.now.readers }
    ensures { IfOk result (λ next. next ≡ next_of port.now reader window) }
{
    let Some(n) = next_to_send(port, reader, window) else {
        return Ok(None);
    };
    let Some(token) = port.token_for(reader, n) else {
        unreachable!()
    };
    Ok(Some((n, token.copy(alloc)?)))
}

impl State {
    /// The other node where the actor was made live, as far as this node knows.
    pub(crate) fn away(&self, actor: ActorId) -> Option<u16>
        ensures { result ≡ away_by self.now.spec.no (map.get self.now.hints actor) }
    {
        let hint = self.hints.get(actor)?;
        if hint.node == self.spec.no {
            None
        } else {
            Some(hint.node)
        }
    }

    /// A copy of the token that is sent next on a connection, with its number.
    fn next(
        &self,
        alloc: Global,
        conn: ConnId,
        outlet: Outlet,
    ) -> Result<Option<(u64, Token)>, OutOfMemory>
        requires { Some outlet ≡ option_map outlet_in (living_outlet self.now conn) }
        ensures { IfOk result (λ next. next ≡ next_at self.now.spec.window (living_outlet self.now conn)) }
    {
        let spot = outlet.spot;
        let Some(live) = self.live.get(outlet.producer) else {
            unreachable!()
        };
        let Some(port) = live.out(spot.out) else {
            unreachable!()
        };
        next_token(alloc, port, spot.number, self.spec.window)
    }

    /// The token that is sent next on the connection counts as sent.
    fn mark_sent(&mut self, conn: ConnId, outlet: Outlet)
        requires told { Some outlet ≡ option_map outlet_in (living_outlet self.old conn) }
        requires there { IsSome (next_at self.old.spec.window (living_outlet self.old conn)) }
        ensures { self.new ≡ sent_at self.old (living_outlet self.old conn) }
    {
        let spot = outlet.spot;
        let Some(live) = self.live.get_mut(outlet.producer) else {
            unreachable!()
        };
        let Some(port) = live.out_mut(spot.out) else {
            unreachable!()
        };
        port.mark_sent(spot.number);
    }

    /// The next token of the connection goes to the node where its consumer is.
    pub fn send(&mut self, alloc: Global, conn: ConnId) -> Result<Frame, StepRefusal>
        ensures done { IfOk result (λ frame. LeadsTo (row self.old (Event.Send conn)) self.new (sent.One frame)) }
        ensures cause { IfErr result (Refuses (cause_of self.old (Event.Send conn))) }
        ensures err { OnErr result (self.new ≡ self.old) }
    {
        let Some(outlet) = self.outlet(conn) else {
            return Err(self.no_outlet(conn));
        };
        let reader = outlet.spot.reader;
        let Some(node) = self.away(reader.consumer) else {
            return Err(StepRefusal::NotEnabled);
        };
        let Some((n, token)) = self.next(alloc, conn, outlet)? else {
            return Err(StepRefusal::NotEnabled);
        };
        if self.is_spent() {
            return Err(StepRefusal::StampSpent);
        }
        self.mark_sent(conn, outlet);
        self.step_on();
        let body = Body::Token {
            conn: reader.conn,
            actor: reader.consumer,
            n,
            token,
        };
        Ok(self.frame(node, body))
    }

    /// What the reader of the connection has not acknowledged is to be sent again.
    fn rewind_reader(&mut self, conn: ConnId, outlet: Outlet)
        requires { Some outlet ≡ option_map outlet_in (living_outlet self.old conn) }
        ensures { self.new ≡ rewound_at self.old (living_outlet self.old conn) }
    {
        let spot = outlet.spot;
        let Some(live) = self.live.get_mut(outlet.producer) else {
            unreachable!()
        };
        let Some(port) = live.out_mut(spot.out) else {
            unreachable!()
        };
        port.rewind(spot.number);
    }

    /// What the reader has not acknowledged is to be sent again.
    pub fn rewind(&mut self, conn: ConnId) -> Result<(), StepRefusal>
        ensures done { OnOk result (LeadsTo (row self.old (Event.Rewind conn)) self.new sent.Nothing) }
        ensures cause { IfErr result (λ e. cause_of self.old (Event.Rewind conn) ≡ Some e) }
        ensures err { OnErr result (self.new ≡ self.old) }
    {
        let Some(outlet) = self.outlet(conn) else {
            return Err(self.no_outlet(conn));
        };
        if self.is_spent() {
            return Err(StepRefusal::StampSpent);
        }
        self.rewind_reader(conn, outlet);
        self.step_on();
        Ok(())
    }
}
