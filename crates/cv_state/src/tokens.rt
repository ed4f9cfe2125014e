//! What a node makes of a token that comes to a consumer.

ghost use Rattle.std.specs.Prelude.{◌≡◌, ◌^◌, ◌<◌, ◌∷◌, [], nat_lt, IfErr, IfOk, IsTrue, OnErr};
ghost use Rattle.std.specs.FinMap as map;
ghost use Rattle.cv_token.specs.declared.token.Token.{Token};
ghost use Rattle.cv_queue.specs.Ports.{after_offer, received};
ghost use Rattle.cv_protocol.specs.Poll.{limit};
ghost use Rattle.cv_protocol.specs.Rows.{frame_to};
ghost use Rattle.cv_protocol.specs.NodeRow.{spent_unless};
ghost use Rattle.cv_protocol.specs.Deliveries.{located, told, token_comes, token_missed};
ghost use Rattle.cv_state.specs.Steps.{Does, Refuses, frames_of};

use crate::state::State;
use cv_actor::LIMIT;
use cv_endpoint::{Answer, on_token};
use cv_protocol::{Body, Frame, Location, Sent, StepRefusal};
use cv_queue::InPort;
use cv_token::{ActorId, ConnId, Token};
use std::alloc::Global;

/// Whether the inport's numbers are below the limit once a token of number `n` was offered to it.
pub(crate) fn fits_offer(port: &InPort, n: u64) -> bool
    ensures value { (t : Token) → result ≡ nat_lt (received (after_offer port.now n t)) limit }
    ensures low { IsTrue result → received port.now < 2 ^ 62 }
{
    let received = port.received();
    let is_taken = n == received && port.len() != port.cap();
    if is_taken {
        received < LIMIT - 1
    } else {
        received < LIMIT
    }
}

/// What the producer is told of its token.
fn answer_body(conn: ConnId, producer: ActorId, answer: Answer) -> Body
    ensures { result ≡ told conn producer answer }
{
    match answer {
        Answer::Ack(upto) => Body::Ack {
            conn,
            actor: producer,
            upto,
        },
        Answer::Nack(upto) => Body::Nack {
            conn,
            actor: producer,
            upto,
        },
    }
}

impl State {
    /// One frame from here, with the stamp of the entry that sends it.
    pub(crate) fn one(&self, stamp: u64, to: u16, body: Body) -> Sent
        ensures { frames_of result ≡ frame_to self.now stamp to body ∷ [] }
    {
        Sent::One(Frame {
            from: self.spec.no,
            to,
            stamp,
            body,
        })
    }

    /// The sender is told where the actor is.
    pub(crate) fn answer_located(
        &self,
        stamp: u64,
        sender: u16,
        actor: ActorId,
        place: Location,
    ) -> Sent
        ensures { Does (located self.now stamp sender actor place) self.now result }
    {
        self.one(
            stamp,
            sender,
            Body::Located {
                actor,
                attempt: place.attempt,
                node: place.node,
            },
        )
    }

    /// The consumer is not here to take a token: nothing happens while it is frozen here or where it is not known where it
    /// is; else the sender is told where.
    fn answer_missed(&self, stamp: u64, sender: u16, actor: ActorId) -> Sent
        ensures { Does (token_missed self.now stamp sender actor (map.get self.now.moves.frozen actor)) self.now result }
    {
        if self.moves.is_frozen(actor) {
            return Sent::Nothing;
        }
        let Some(place) = self.hint(actor) else {
            return Sent::Nothing;
        };
        if place.node == self.spec.no {
            return Sent::Nothing;
        }
        self.answer_located(stamp, sender, actor, place)
    }

    /// A token comes: a consumer that lives here is offered it, and its answer is sent; else the sender is told where the
    /// consumer is, where that is known.
    pub fn take_token(
        &mut self,
        alloc: Global,
        stamp: u64,
        sender: u16,
        conn: ConnId,
        actor: ActorId,
        n: u64,
        token: &Token,
    ) -> Result<Sent, StepRefusal>
        ensures done { IfOk result (λ sent. Does (token_comes self.old stamp sender conn actor n token.now (map.get self.old.live actor)) self.new sent) }
        ensures cause { IfErr result (Refuses (spent_unless (token_comes self.old stamp sender conn actor n token.now (map.get self.old.live actor)).fits)) }
        ensures err { OnErr result (self.new ≡ self.old) }
    {
        let Some(live) = self.live.get(actor) else {
            return Ok(self.answer_missed(stamp, sender, actor));
        };
        let Some(seat) = live.seat(conn) else {
            return Ok(self.answer_missed(stamp, sender, actor));
        };
        let Some((fed, producer)) = live.feed(seat) else {
            unreachable!()
        };
        let Some(port) = live.inp(seat) else {
            unreachable!()
        };
        if !fits_offer(port, n) {
            return Err(StepRefusal::StampSpent);
        }
        let token = token.copy(alloc)?;
        let Some(live) = self.live.get_mut(actor) else {
            unreachable!()
        };
        let Some(port) = live.inp_mut(seat) else {
            unreachable!()
        };
        let answer = on_token(port, n, token);
        Ok(self.one(stamp, sender, answer_body(fed, producer, answer)))
    }
}
