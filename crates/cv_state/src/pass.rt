//! The row of a token that passes between two actors that both live here.

ghost use Rattle.std.specs.Prelude.{◌≡◌, ◌+◌, ◌<◌, ◌^◌, None, Some, IfErr, IfOk, IsSome, IsSomeAnd, OnOk, OnErr, length};
ghost use Rattle.std.specs.Option.{option_map};
ghost use Rattle.std.specs.FinMap as map;
ghost use Rattle.cv_queue.specs.Ports.{received};
ghost use Rattle.cv_protocol.specs.declared.event.Sent.TheVariants as sent;
ghost use Rattle.cv_protocol.specs.NodeRow.{cause_of, row};
ghost use Rattle.cv_protocol.specs.Rows.{outlet as living_outlet};
ghost use Rattle.cv_state.specs.Steps.{LeadsTo, Refuses};
ghost use Rattle.cv_state.specs.Ways.{HasReader, acked_at, given_at, passed_at, passing_of, passing_on, received_at, way_in, way_of};

use crate::outlet::Outlet;
use crate::state::State;
use cv_actor::LIMIT;
use cv_protocol::{Event, StepRefusal};
use cv_queue::{InPort, OutPort};
use cv_token::{ConnId, OutOfMemory, Token};
use std::alloc::Global;

/// A connection whose two actors live here: where the reader stands, and which inport it feeds.
#[derive(Clone, Copy)]
pub(crate) struct Way {
    pub(crate) outlet: Outlet,
    pub(crate) inp: u8,
}

/// What passes: how many tokens the reader will have acknowledged and the inport received, and the token where the inport
/// lacks it.
#[derive(Drop)]
pub(crate) struct Passing {
    acked: u64,
    received: u64,
    token: Option<Token>,
}

/// What passes to the inport: the reader's first token that is not acknowledged. None comes where there is no such token, the
/// inport is full, or the inport received less than the reader acknowledged.
fn next_to_pass(
    alloc: Global,
    out: &OutPort,
    reader: u16,
    inp: &InPort,
) -> Result<Option<Passing>, OutOfMemory>
    requires { reader < length out.now.readers }
    ensures { IfOk result (λ passing. passing ≡ passing_of out.now reader inp.now) }
{
    let Some(found) = out.reader(reader) else {
        unreachable!()
    };
    let received = inp.received();
    if found.acked > received || inp.len() == inp.cap() {
        return Ok(None);
    }
    let Some(token) = out.token_for(reader, found.acked) else {
        return Ok(None);
    };
    let acked = found.acked + 1;
    if found.acked < received {
        return Ok(Some(Passing {
            acked,
            received,
            token: None,
        }));
    }
    Ok(Some(Passing {
        acked,
        received: received + 1,
        token: Some(token.copy(alloc)?),
    }))
}

impl State {
    /// The connection, where its two actors live here.
    pub(crate) fn way(&self, conn: ConnId) -> Option<Way>
        ensures { result ≡ option_map way_in (way_of self.now conn) }
    {
        let outlet = self.outlet(conn)?;
        let reader = outlet.spot.reader;
        let inp = self.live.get(reader.consumer)?.seat(reader.conn)?;
        Some(Way { outlet, inp })
    }

    /// Why nothing passes on a connection whose producer does not live here.
    fn no_producer(&self, conn: ConnId) -> StepRefusal
        requires { living_outlet self.now conn ≡ None }
        ensures { cause_of self.now (Event.Pass conn) ≡ Some result }
    {
        let Some(reader) = self.reader_left(conn) else {
            return StepRefusal::NotHere;
        };
        let consumer = reader.consumer;
        if self.live.get(consumer).is_some() || self.moves.is_frozen(consumer) {
            StepRefusal::Moving
        } else {
            StepRefusal::NotHere
        }
    }

    /// Why nothing passes on a connection of which not both actors live here.
    pub(crate) fn no_way(&self, conn: ConnId) -> StepRefusal
        requires { way_of self.now conn ≡ None }
        ensures { cause_of self.now (Event.Pass conn) ≡ Some result }
    {
        let Some(outlet) = self.outlet(conn) else {
            return self.no_producer(conn);
        };
        let consumer = outlet.spot.reader.consumer;
        if self.live.get(consumer).is_some() {
            StepRefusal::NotEnabled
        } else {
            self.absence(consumer)
        }
    }

    /// What passes on the connection.
    fn next_passing(
        &self,
        alloc: Global,
        conn: ConnId,
        way: Way,
    ) -> Result<Option<Passing>, OutOfMemory>
        requires { Some way ≡ option_map way_in (way_of self.now conn) }
        ensures { IfOk result (λ passing. passing ≡ passing_on (way_of self.now conn)) }
    {
        let spot = way.outlet.spot;
        let Some(producer) = self.live.get(way.outlet.producer) else {
            unreachable!()
        };
        let Some(out) = producer.out(spot.out) else {
            unreachable!()
        };
        let Some(consumer) = self.live.get(spot.reader.consumer) else {
            unreachable!()
        };
        let Some(inp) = consumer.inp(way.inp) else {
            unreachable!()
        };
        next_to_pass(alloc, out, spot.number, inp)
    }

    /// The token comes into the consumer's inport as the next one.
    fn give(&mut self, conn: ConnId, way: Way, token: Token)
        requires told { Some way ≡ option_map way_in (way_of self.old conn) }
        requires fits { IsSomeAnd (way_of self.old conn) (λ w. received w.seat.inlet.port < 2 ^ 62) }
        ensures { self.new ≡ given_at self.old (way_of self.old conn) token }
    {
        let Some(live) = self.live.get_mut(way.outlet.spot.reader.consumer) else {
            unreachable!()
        };
        let Some(inp) = live.inp_mut(way.inp) else {
            unreachable!()
        };
        let next = inp.received();
        let _taken = inp.offer(next, token);
    }

    /// The reader at the producer acknowledges its tokens up to this number.
    fn acknowledge(&mut self, outlet: Outlet, upto: u64)
        requires { HasReader outlet.spot (map.get self.old.live outlet.producer) }
        ensures { self.new ≡ acked_at self.old outlet.producer outlet.spot upto (map.get self.old.live outlet.producer) }
    {
        let spot = outlet.spot;
        let Some(live) = self.live.get_mut(outlet.producer) else {
            unreachable!()
        };
        let Some(port) = live.out_mut(spot.out) else {
            unreachable!()
        };
        port.ack(spot.number, upto);
    }

    /// The token comes into the consumer's inport, where that lacks it.
    fn receive(&mut self, conn: ConnId, way: Way, passing: Passing)
        requires told { Some way ≡ option_map way_in (way_of self.old conn) }
        requires passes { Some passing ≡ passing_on (way_of self.old conn) }
        requires fits { passing.received < 2 ^ 62 }
        ensures { self.new ≡ received_at self.old (way_of self.old conn) }
    {
        if let Some(token) = passing.token {
            self.give(conn, way, token);
        }
    }

    /// The token is passed on, where the inport lacks it, and the reader acknowledges it.
    fn pass_on(&mut self, conn: ConnId, way: Way, passing: Passing)
        requires told { Some way ≡ option_map way_in (way_of self.old conn) }
        requires passes { Some passing ≡ passing_on (way_of self.old conn) }
        requires fits { passing.received < 2 ^ 62 }
        ensures { self.new ≡ passed_at self.old (way_of self.old conn) }
    {
        let acked = passing.acked;
        self.receive(conn, way, passing);
        self.acknowledge(way.outlet, acked);
    }

    /// The producer's first token that is not acknowledged passes to the consumer, and is acknowledged; one that the consumer
    /// received before is acknowledged alone.
    pub fn pass(&mut self, alloc: Global, conn: ConnId) -> Result<(), StepRefusal>
        ensures done { OnOk result (LeadsTo (row self.old (Event.Pass conn)) self.new sent.Nothing) }
        ensures cause { IfErr result (Refuses (cause_of self.old (Event.Pass conn))) }
        ensures err { OnErr result (self.new ≡ self.old) }
    {
        let Some(way) = self.way(conn) else {
            return Err(self.no_way(conn));
        };
        let Some(passing) = self.next_passing(alloc, conn, way)? else {
            return Err(StepRefusal::NotEnabled);
        };
        if passing.received >= LIMIT {
            return Err(StepRefusal::StampSpent);
        }
        if self.is_spent() {
            return Err(StepRefusal::StampSpent);
        }
        self.pass_on(conn, way, passing);
        self.step_on();
        Ok(())
    }
}
