//! The rows of the second reading.

use crate::beings::{Being, Does, Look, Way, count};
use crate::letters::{Known, Letter, Parcel, Says};
use crate::reading::{Answer, LIMIT, Left, Reading};
use cv_flow::FlowKind;
use cv_kinds::{ActorSpec, Kind, Network};
use cv_node::Seen;
use cv_protocol::{Event, StepRefusal};
use cv_token::{ActorId, AppId, ConnId, Token};
use sqlite_items::Boxed;
use std::alloc::{AllocError, Global};

impl Reading {
    /// A node with that number is known.
    pub fn meet(&mut self, alloc: Global, node: u16) -> Answer {
        if node < 1 || node > 64 {
            return Err(StepRefusal::NotEnabled);
        }
        if !self.nodes.contains(&node) {
            self.nodes.push(node)?;
            self.nodes.sort()?;
        }
        self.steps(alloc, None)
    }

    /// The application that is deployed here next.
    pub fn next_app(&self) -> AppId {
        AppId {
            node: self.no,
            seq: self.deployed.saturating_add(1),
        }
    }

    /// The actors of the network come to live here.
    pub fn deploy(&mut self, alloc: Global, net: &Boxed<Network>) -> Answer {
        let app = self.next_app();
        let beings = beings_of(alloc, app, net.get(), self.now)?;
        self.apps.push((app, false))?;
        self.deployed = self.deployed.saturating_add(1);
        for being in beings {
            self.set_hint(being.id, 0, self.no)?;
            self.settle(being)?;
        }
        self.steps(alloc, None)
    }

    pub fn tick(&mut self, alloc: Global, now: u64) -> Answer {
        if now < self.now || now >= LIMIT {
            return Err(StepRefusal::NotEnabled);
        }
        self.now = now;
        self.steps(alloc, None)
    }

    pub fn peek(&mut self, alloc: Global, actor: ActorId, port: u8) -> Answer {
        self.all_here(&[actor])?;
        let now = self.now;
        match self.live_mut(actor) {
            Some(being) if port == 0 && being.look(now) == Look::Reads => being.reads = true,
            _ => return Err(StepRefusal::NotEnabled),
        }
        self.steps(alloc, None)
    }

    pub fn fire(&mut self, alloc: Global, actor: ActorId, action: u8) -> Answer {
        self.all_here(&[actor])?;
        let now = self.now;
        match self.live_mut(actor) {
            Some(being) if action == 0 && being.look(now) == Look::Fires => being.fire(now)?,
            _ => return Err(StepRefusal::NotEnabled),
        }
        self.steps(alloc, None)
    }

    pub fn pass(&mut self, alloc: Global, conn: ConnId) -> Answer {
        let Some((producer, consumer)) = self.writer(conn) else {
            return Err(StepRefusal::NotHere);
        };
        self.all_here(&[producer, consumer])?;
        let Some((acked, token)) = self.passing(producer, consumer, conn) else {
            return Err(StepRefusal::NotEnabled);
        };
        if let Some(being) = self.live_mut(consumer) {
            being.offer(acked, token)?;
        }
        self.ack(producer, conn, acked.saturating_add(1));
        self.steps(alloc, None)
    }

    /// The first token that the reader did not acknowledge, with its number, where it can pass.
    fn passing(&self, producer: ActorId, consumer: ActorId, conn: ConnId) -> Option<(usize, i64)> {
        let from = self.live.get(self.being(producer)?)?;
        let to = self.live.get(self.being(consumer)?)?;
        let acked = from.ways.get(from.way_of(conn)?)?.acked;
        let token = from.wrote.get(acked)?;
        if to.is_fed_by(conn) && to.has_room() && acked <= to.got.len() {
            Some((acked, *token))
        } else {
            None
        }
    }

    pub fn send(&mut self, alloc: Global, conn: ConnId) -> Answer {
        let Some((producer, consumer)) = self.writer(conn) else {
            return Err(StepRefusal::NotHere);
        };
        self.all_here(&[producer])?;
        let node = match self.hint(consumer) {
            Some((_attempt, node)) if node != self.no => node,
            _ => return Err(StepRefusal::NotEnabled),
        };
        let Some((n, token)) = self.sending(producer, conn) else {
            return Err(StepRefusal::NotEnabled);
        };
        let says = Says::Token(conn, consumer, count(n), token);
        self.steps(alloc, Some((node, says)))
    }

    /// The next token of the connection counts as sent, where the window of 1 leaves one.
    fn sending(&mut self, producer: ActorId, conn: ConnId) -> Option<(usize, i64)> {
        let being = self.live_mut(producer)?;
        let place = being.way_of(conn)?;
        let way = being.ways.get_mut(place)?;
        if way.sent != way.acked {
            return None;
        }
        let token = being.wrote.get(way.sent)?;
        way.sent = way.sent.saturating_add(1);
        Some((way.acked, *token))
    }

    pub fn rewind(&mut self, alloc: Global, conn: ConnId) -> Answer {
        let Some((producer, _consumer)) = self.writer(conn) else {
            return Err(StepRefusal::NotHere);
        };
        self.all_here(&[producer])?;
        if let Some(being) = self.live_mut(producer) {
            if let Some(place) = being.way_of(conn) {
                being.rewind(place);
            }
        }
        self.steps(alloc, None)
    }

    pub fn freeze(&mut self, alloc: Global, actor: ActorId, to: u16) -> Answer {
        self.all_here(&[actor])?;
        if to == self.no || !self.nodes.contains(&to) {
            return Err(StepRefusal::NoNode);
        }
        self.pack(alloc, actor, to)?;
        self.resend(alloc, actor)
    }

    /// The live actor becomes a frozen copy.
    fn pack(&mut self, alloc: Global, actor: ActorId, to: u16) -> Result<(), StepRefusal> {
        let Some(being) = self.leave(actor) else {
            return Err(StepRefusal::NotEnabled);
        };
        let attempt = being.attempt.saturating_add(1);
        let parcel = self.parcel(alloc, being)?;
        self.left.push(Left {
            parcel,
            attempt,
            target: to,
        })?;
        Ok(())
    }

    /// The actor as it travels.
    fn parcel(&self, alloc: Global, being: Being) -> Result<Parcel, AllocError> {
        let hints = self.hints_of(alloc, &being)?;
        let mut being = being;
        being.settle(self.now);
        Ok(Parcel { being, hints })
    }

    /// What is known of those that are joined to the actor.
    fn hints_of(&self, alloc: Global, being: &Being) -> Result<Vec<Known>, AllocError> {
        let mut hints = Vec::new(alloc);
        for hint in &self.hints {
            if being.is_joined(hint.0) {
                hints.push(*hint)?;
            }
        }
        Ok(hints)
    }

    /// The frozen copy goes to its target.
    pub fn resend(&mut self, alloc: Global, actor: ActorId) -> Answer {
        let Some(left) = self.frozen(actor) else {
            return Err(self.unfrozen(actor));
        };
        let parcel = left.parcel.copy(alloc)?;
        let says = Says::Transfer(actor, left.attempt);
        let mut letter = self.letter(left.target, says);
        self.stamp = self.stamp.saturating_add(1);
        letter.stamp = self.stamp;
        letter.parcel = Some(parcel);
        let mut letters = Vec::new(alloc);
        letters.push(letter)?;
        Ok(letters)
    }

    pub fn withdraw(&mut self, alloc: Global, actor: ActorId) -> Answer {
        let Some(left) = self.frozen(actor) else {
            return Err(self.unfrozen(actor));
        };
        let says = Says::Cancel(actor, left.attempt);
        let target = left.target;
        self.steps(alloc, Some((target, says)))
    }

    /// How an event of a frozen actor is refused where the actor is not frozen here.
    fn unfrozen(&self, actor: ActorId) -> StepRefusal {
        if self.being(actor).is_some() {
            StepRefusal::NotEnabled
        } else {
            StepRefusal::NotHere
        }
    }

    pub fn learn(&mut self, alloc: Global, actor: ActorId, attempt: u64, node: u16) -> Answer {
        if attempt >= LIMIT {
            return Err(StepRefusal::StampSpent);
        }
        self.raise(actor, attempt, node)?;
        self.steps(alloc, None)
    }

    pub fn destroy(&mut self, alloc: Global, app: AppId) -> Answer {
        if !self.apps.iter().any(|known| known.0 == app && !known.1) {
            return Err(StepRefusal::NotEnabled);
        }
        self.destroys(app)?;
        self.stamp = self.stamp.saturating_add(1);
        let mut letters = Vec::new(alloc);
        for node in &self.nodes {
            if *node != self.no {
                letters.push(self.letter(*node, Says::Destroy(app)))?;
            }
        }
        Ok(letters)
    }

    pub fn lose(&mut self, alloc: Global, letter: &Letter) -> Answer {
        if letter.to != self.no {
            return Err(StepRefusal::NotEnabled);
        }
        self.stamp = self.stamp.max(letter.stamp);
        self.steps(alloc, None)
    }
}

impl Reading {
    /// Does the row of an event; a frame that comes or is lost is given as the letter.
    pub fn row(&mut self, alloc: Global, event: &Event, letter: &Letter) -> Answer {
        match event {
            Event::Lose { .. } => self.lose(alloc, letter),
            Event::Deliver { .. } => self.deliver(alloc, letter),
            _ => self.change(alloc, event),
        }
    }

    /// Does the row of an event that no frame brings.
    fn change(&mut self, alloc: Global, event: &Event) -> Answer {
        match event {
            Event::Meet { node, .. } => self.meet(alloc, *node),
            Event::Deploy { net, .. } => self.deploy(alloc, net),
            Event::Tick { now } => self.tick(alloc, *now),
            Event::Destroy { app } => self.destroy(alloc, *app),
            _ => self.act(alloc, event),
        }
    }

    /// Does the row of an event of one actor or one connection.
    fn act(&mut self, alloc: Global, event: &Event) -> Answer {
        match event {
            Event::Peek { actor, port } => self.peek(alloc, *actor, *port),
            Event::Fire { actor, action } => self.fire(alloc, *actor, *action),
            Event::Pass { conn } => self.pass(alloc, *conn),
            Event::Send { conn } => self.send(alloc, *conn),
            Event::Rewind { conn } => self.rewind(alloc, *conn),
            _ => self.travel(alloc, event),
        }
    }

    /// Does the row of an event of an actor that leaves or is elsewhere.
    fn travel(&mut self, alloc: Global, event: &Event) -> Answer {
        match event {
            Event::Freeze { actor, to } => self.freeze(alloc, *actor, *to),
            Event::Resend { actor } => self.resend(alloc, *actor),
            Event::Withdraw { actor } => self.withdraw(alloc, *actor),
            Event::Hint {
                actor,
                attempt,
                node,
            } => self.learn(alloc, *actor, *attempt, *node),
            _ => Err(StepRefusal::NotEnabled),
        }
    }

    /// Where the actor is seen, where it is known.
    pub fn seen(&self, actor: ActorId) -> Option<Seen> {
        let lives = self.being(actor).is_some();
        if !lives && self.frozen(actor).is_some() {
            return Some(Seen::Moving);
        }
        if self.is_gone(actor.app) {
            return None;
        }
        if lives {
            return Some(Seen::Live);
        }
        let (_attempt, node) = self.hint(actor)?;
        Some(Seen::Away(node))
    }

    /// The least moment that an action waits for.
    pub fn next_due(&self) -> Option<u64> {
        let mut least = None;
        for being in &self.live {
            if let Look::Until(due) = being.look(self.now) {
                least = Some(match least {
                    Some(found) => due.min(found),
                    None => due,
                });
            }
        }
        least
    }
}

/// The number at that place of the arguments.
fn number_at(args: &[Token], place: usize) -> i64 {
    match args.get(place) {
        Some(Token::Int(number)) => *number,
        _ => 0,
    }
}

fn count_at(args: &[Token], place: usize) -> usize {
    usize::try_from(number_at(args, place)).unwrap_or(0)
}

/// An actor at its start, without its connections.
fn being_of(alloc: Global, id: ActorId, spec: &ActorSpec, now: u64) -> Being {
    let args = spec.args.as_slice();
    let mut being = Being {
        id,
        does: Does::Prints,
        pause: 0,
        left: 0,
        next: 0,
        due: 0,
        attempt: 0,
        fed: None,
        got: Vec::new(alloc),
        took: 0,
        reads: false,
        wrote: Vec::new(alloc),
        ways: Vec::new(alloc),
    };
    match spec.kind {
        Kind::Flow(FlowKind::Constant) => {
            being.does = Does::Writes;
            being.next = number_at(args, 0);
            being.left = count_at(args, 1);
        }
        Kind::Flow(FlowKind::CountTimer) => {
            being.does = Does::Ticks;
            being.pause = u64::try_from(number_at(args, 0)).unwrap_or(0);
            being.next = number_at(args, 1);
            being.left = count_at(args, 2);
        }
        Kind::Flow(FlowKind::Identity) => being.does = Does::Carries,
        _ => {}
    }
    being.due = now.saturating_add(being.pause);
    being
}

/// The actors of a network at their start. Each of its actors has one inport and one outport at most.
fn beings_of(alloc: Global, app: AppId, net: &Network, now: u64) -> Result<Vec<Being>, AllocError> {
    let mut beings = Vec::new(alloc);
    for (place, spec) in net.actors().iter().enumerate() {
        let id = ActorId {
            app,
            actor: u16::try_from(place).unwrap_or(0),
        };
        let mut being = being_of(alloc, id, spec, now);
        for (number, connection) in net.connections().iter().enumerate() {
            let conn = ConnId {
                app,
                place: u16::try_from(number).unwrap_or(0),
            };
            if connection.to == id.actor {
                being.fed = Some((
                    conn,
                    ActorId {
                        app,
                        actor: connection.from,
                    },
                ));
            }
            if connection.from == id.actor {
                being.ways.push(Way {
                    conn,
                    consumer: ActorId {
                        app,
                        actor: connection.to,
                    },
                    acked: 0,
                    sent: 0,
                })?;
            }
        }
        beings.push(being)?;
    }
    Ok(beings)
}
