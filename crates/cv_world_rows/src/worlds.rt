//! Small networks on a few nodes, stepped at random: each event goes to the node and to its second reading.

use crate::matching::{are_alike, is_same};
use cv_fixtures::{node_spec, text};
use cv_flow::FlowKind;
use cv_kinds::{ActorSpec, Connection, Kind, Network};
use cv_node::Node;
use cv_node_reading::beings::{Does, Look};
use cv_node_reading::letters::{Letter, Says};
use cv_node_reading::reading::{LIMIT, Reading};
use cv_protocol::{Event, Frame, Frames, Sent, StepRefusal};
use cv_rules::Attrs;
use cv_station::copy_frame;
use cv_token::{ActorId, AppId, ConnId, Items, OutOfMemory, Text, Token};
use sqlite_items::Boxed;
use std::alloc::{AllocError, Global};
use std::process::Abort;
use std::test::Fail;

/// How many nodes there are.
const NODES: u16 = 3;

/// How many actors a network has.
const ACTORS: u16 = 5;

/// Numbers in an order that looks like none.
#[derive(Drop)]
pub struct Dice {
    state: u64,
}

impl Dice {
    pub fn new(seed: u64) -> Dice {
        Dice { state: seed }
    }

    /// A number below `below`; 0 where that is 0.
    pub fn roll(&mut self, below: u16) -> u16 {
        self.state = self
            .state
            .wrapping_mul(6364136223846793005)
            .wrapping_add(1442695040888963407);
        let number = (self.state >> 33) % u64::from(below.max(1));
        u16::try_from(number).unwrap_or(0)
    }

    /// The place of one of so many.
    fn place(&mut self, count: usize) -> usize {
        usize::from(self.roll(u16::try_from(count).unwrap_or(u16::MAX)))
    }

    /// 0 or 1.
    fn bit(&mut self) -> u8 {
        u8::from(self.roll(2) == 1)
    }
}

/// A frame on its way, with its second reading.
#[derive(Drop)]
pub struct Post {
    frame: Frame,
    letter: Letter,
}

/// Nodes, their second readings, and what is on its way.
#[derive(Drop)]
pub struct World {
    pub nodes: Vec<Node>,
    pub readings: Vec<Reading>,
    pub posts: Vec<Post>,
    pub dice: Dice,
    /// How many events were done.
    pub done: u32,
}

/// What an actor of a random network is: what it does, how often, and its pause.
#[derive(Clone, Copy)]
struct Part {
    does: Does,
    left: u16,
    pause: u16,
}

fn does(roll: u16) -> Does {
    match roll {
        0 => Does::Writes,
        1 => Does::Ticks,
        2 => Does::Prints,
        _ => Does::Carries,
    }
}

fn kind(does: Does) -> FlowKind {
    match does {
        Does::Writes => FlowKind::Constant,
        Does::Ticks => FlowKind::CountTimer,
        Does::Carries => FlowKind::Identity,
        Does::Prints => FlowKind::Print,
    }
}

/// An actor of that name and kind.
fn spec(alloc: Global, place: u16, part: &Part) -> Result<ActorSpec, OutOfMemory> {
    let mut args = Items::new(alloc);
    let left = Token::Int(i64::from(part.left));
    match part.does {
        Does::Writes => {
            args.push(Token::Int(i64::from(place)))?;
            args.push(left)?;
        }
        Does::Ticks => {
            args.push(Token::Int(i64::from(part.pause)))?;
            args.push(Token::Int(1))?;
            args.push(left)?;
        }
        Does::Carries => args.push(Token::Bool(false))?,
        Does::Prints => {}
    }
    let path = Text::from_string(format!(in alloc; "a{place}")?);
    Ok(ActorSpec {
        path,
        kind: Kind::Flow(kind(part.does)),
        args,
    })
}

/// What the actor at that place does: the first two write.
fn part_at(dice: &mut Dice, place: u16) -> Part {
    let roll = if place < 2 {
        dice.roll(2)
    } else {
        dice.roll(3).saturating_add(2)
    };
    Part {
        does: does(roll),
        left: dice.roll(9),
        pause: dice.roll(100),
    }
}

/// A network of five actors: each but the first two is fed by one up to itself that writes, or by none.
fn network(alloc: Global, dice: &mut Dice) -> Result<Network, OutOfMemory> {
    let mut actors = Vec::new(alloc);
    let mut connections = Vec::new(alloc);
    for place in 0..ACTORS {
        let part = part_at(dice, place);
        actors.push(spec(alloc, place, &part)?)?;
        let from = dice.roll(place.saturating_add(1));
        let writes = match actors.get(usize::from(from)) {
            Some(spec) => spec.kind != Kind::Flow(FlowKind::Print),
            None => false,
        };
        if place >= 2 && writes && dice.roll(8) > 0 {
            connections.push(Connection {
                from,
                out: 0,
                to: place,
                inp: 0,
            })?;
        }
    }
    match Network::of(alloc, actors, connections)? {
        Some(net) => Ok(net),
        None => Err(AllocError),
    }
}

impl World {
    /// Nodes that know themselves alone.
    pub fn new(rt: &impl Abort, alloc: Global, seed: u64) -> Result<World, Fail> {
        let mut nodes = Vec::new(alloc);
        let mut readings = Vec::new(alloc);
        for no in 1..=NODES {
            assert!(rt; 1 <= no && no <= 64);
            nodes.push(Node::new(alloc, node_spec(alloc, no, 6))?)?;
            readings.push(Reading::new(alloc, no, 6)?)?;
        }
        Ok(World {
            nodes,
            readings,
            posts: Vec::new(alloc),
            dice: Dice::new(seed),
            done: 0,
        })
    }
}

impl World {
    /// An actor: mostly one that lives at that node.
    fn actor(&mut self, at: usize) -> ActorId {
        if let Some(reading) = self.readings.get(at) {
            let place = self.dice.place(reading.live.len().saturating_add(1));
            if let Some(being) = reading.live.get(place) {
                return being.id;
            }
        }
        ActorId {
            app: self.app(),
            actor: self.dice.roll(ACTORS),
        }
    }

    fn app(&mut self) -> AppId {
        AppId {
            node: self.dice.roll(2).saturating_add(1),
            seq: u32::from(self.dice.roll(2)).saturating_add(1),
        }
    }

    /// A connection: mostly one that an actor writes to which lives at that node.
    fn conn(&mut self, at: usize) -> ConnId {
        if let Some(reading) = self.readings.get(at) {
            let place = self.dice.place(reading.live.len());
            if let Some(being) = reading.live.get(place) {
                if let Some(way) = being.ways.first() {
                    return way.conn;
                }
            }
        }
        ConnId {
            app: self.app(),
            place: self.dice.roll(3),
        }
    }

    /// An attempt, at times one that reaches the limit.
    fn attempt(&mut self) -> u64 {
        match self.dice.roll(4) {
            3 => LIMIT,
            few => u64::from(few),
        }
    }

    fn moment(&mut self, at: usize) -> u64 {
        let now = match self.readings.get(at) {
            Some(reading) => reading.now,
            None => 0,
        };
        now.saturating_add(u64::from(self.dice.roll(60)))
            .saturating_sub(3)
    }

    /// An event of an actor, which may not be able to do it.
    fn acts(&mut self, at: usize) -> Event {
        let actor = self.actor(at);
        match self.dice.roll(6) {
            0 => Event::Peek {
                actor,
                port: self.dice.bit(),
            },
            1 => Event::Fire {
                actor,
                action: self.dice.bit(),
            },
            2 => Event::Resend { actor },
            3 => Event::Withdraw { actor },
            _ => Event::Freeze {
                actor,
                to: self.dice.roll(5),
            },
        }
    }

    /// A frozen actor's move is begun again or given up; without frozen ones, an event of a connection.
    fn moves(&mut self, at: usize) -> Event {
        let Some(actor) = self.mover(at) else {
            return self.flows(at);
        };
        if self.dice.roll(3) == 0 {
            Event::Withdraw { actor }
        } else {
            Event::Resend { actor }
        }
    }

    /// An actor that is frozen at that node.
    fn mover(&mut self, at: usize) -> Option<ActorId> {
        let reading = self.readings.get(at)?;
        let place = self.dice.place(reading.left.len());
        Some(reading.left.get(place)?.parcel.being.id)
    }

    /// An event of a connection.
    fn flows(&mut self, at: usize) -> Event {
        let conn = self.conn(at);
        match self.dice.roll(8) {
            0 | 1 | 2 => Event::Pass { conn },
            3 | 4 | 5 | 6 => Event::Send { conn },
            _ => Event::Rewind { conn },
        }
    }

    /// What an actor can do that lives at that node; where it can do nothing, an event of a connection.
    fn can(&mut self, at: usize) -> Event {
        let Some((actor, look)) = self.looks(at) else {
            return self.flows(at);
        };
        match look {
            Look::Reads => Event::Peek { actor, port: 0 },
            Look::Fires => Event::Fire { actor, action: 0 },
            Look::Until(due) => Event::Tick { now: due },
            Look::Lacks => self.flows(at),
        }
    }

    /// An actor that lives at that node, and what it finds.
    fn looks(&mut self, at: usize) -> Option<(ActorId, Look)> {
        let reading = self.readings.get(at)?;
        let place = self.dice.place(reading.live.len());
        let being = reading.live.get(place)?;
        Some((being.id, being.look(reading.now)))
    }

    /// An event of the node.
    fn changes(&mut self, alloc: Global, at: usize) -> Result<Event, OutOfMemory> {
        Ok(match self.dice.roll(16) {
            0 => Event::Meet {
                node: self.dice.roll(5),
                attrs: Attrs::new(alloc),
            },
            4 if self.dice.roll(4) == 0 => Event::Destroy { app: self.app() },
            5 => Event::Hint {
                actor: self.actor(at),
                attempt: self.attempt(),
                node: self.dice.roll(4),
            },
            6 if self.deployed(at) < 2 => self.deploy(alloc)?,
            _ => Event::Tick {
                now: self.moment(at),
            },
        })
    }

    fn deploy(&mut self, alloc: Global) -> Result<Event, OutOfMemory> {
        Ok(Event::Deploy {
            name: text(alloc, "n")?,
            net: Boxed::new(alloc, network(alloc, &mut self.dice)?)?,
        })
    }

    /// How many applications that node deployed; the last one deploys none.
    fn deployed(&self, at: usize) -> u32 {
        match self.readings.get(at) {
            Some(reading) if at < 2 => reading.deployed,
            _ => 9,
        }
    }

    /// The event goes to the node and to its reading, which answer and end alike.
    fn apply(
        &mut self,
        rt: &impl Abort,
        alloc: Global,
        at: usize,
        event: Event,
        letter: &Letter,
    ) -> Result<(), Fail> {
        let Some(node) = self.nodes.get_mut(at) else {
            return Ok(());
        };
        let Some(reading) = self.readings.get_mut(at) else {
            return Ok(());
        };
        if follows(rt, alloc, node, reading, event, letter, &mut self.posts)? {
            self.done = self.done.saturating_add(1);
        }
        Ok(())
    }

    /// A frame that is on its way comes or is lost; some come again later, and some to another node.
    fn deliver(&mut self, rt: &impl Abort, alloc: Global) -> Result<(), Fail> {
        let place = self.dice.place(self.posts.len());
        if place >= self.posts.len() {
            return Ok(());
        }
        let post = self.posts.remove(place);
        self.arrive(rt, alloc, &post)?;
        if self.dice.roll(3) == 0 {
            self.posts.push(post)?;
        }
        Ok(())
    }

    fn arrive(&mut self, rt: &impl Abort, alloc: Global, post: &Post) -> Result<(), Fail> {
        let mut at = usize::from(post.letter.to.saturating_sub(1));
        if self.dice.roll(20) == 0 {
            at = self.dice.place(usize::from(NODES));
        }
        let event = self.arrival(alloc, &post.frame)?;
        self.apply(rt, alloc, at, event, &post.letter)
    }

    /// A copy of the frame comes, or is lost.
    fn arrival(&mut self, alloc: Global, frame: &Frame) -> Result<Event, OutOfMemory> {
        let frame = copy_frame(alloc, frame)?;
        if self.dice.roll(8) == 0 {
            Ok(Event::Lose { frame })
        } else {
            Ok(Event::Deliver { frame })
        }
    }

    /// The nodes learn of one another, and the first two deploy an application.
    pub fn begin(&mut self, rt: &impl Abort, alloc: Global) -> Result<(), Fail> {
        for at in 0..usize::from(NODES) {
            for node in 1..=NODES {
                let attrs = Attrs::new(alloc);
                self.apply(rt, alloc, at, Event::Meet { node, attrs }, &nothing())?;
            }
            if at < 2 {
                let event = self.deploy(alloc)?;
                self.apply(rt, alloc, at, event, &nothing())?;
            }
        }
        Ok(())
    }

    /// One event.
    pub fn step(&mut self, rt: &impl Abort, alloc: Global) -> Result<(), Fail> {
        if self.dice.roll(16) > 10 {
            return self.deliver(rt, alloc);
        }
        let at = self.dice.place(usize::from(NODES));
        let event = match self.dice.roll(11) {
            0 => self.changes(alloc, at)?,
            1 | 2 => self.acts(at),
            3 | 4 | 5 => self.flows(at),
            10 => self.moves(at),
            _ => self.can(at),
        };
        self.apply(rt, alloc, at, event, &nothing())
    }
}

/// The event goes to the node and to its reading, which answer and end alike: whether it was done. What it sends goes on its way.
fn follows(
    rt: &impl Abort,
    alloc: Global,
    node: &mut Node,
    reading: &mut Reading,
    event: Event,
    letter: &Letter,
    posts: &mut Vec<Post>,
) -> Result<bool, Fail> {
    let enabled = node.enabled(&event);
    let wanted = reading.row(alloc, &event, letter);
    let told = node.step(alloc, event);
    assert_eq!(rt; enabled, wanted.is_ok());
    assert!(rt; are_alike(node, reading));
    match wanted {
        Ok(letters) => {
            send_off(rt, frames_of(rt, alloc, told)?, letters, posts)?;
            Ok(true)
        }
        Err(cause) => {
            assert_eq!(rt; told.err(), Some(cause));
            Ok(false)
        }
    }
}

/// The frames of an event that was done.
fn frames_of(
    rt: &impl Abort,
    alloc: Global,
    told: Result<Sent, StepRefusal>,
) -> Result<Frames, Fail> {
    let mut frames = Frames::new(alloc);
    match told {
        Ok(Sent::All(all)) => return Ok(all),
        Ok(Sent::One(frame)) => frames.push(frame)?,
        Ok(Sent::Nothing) => {}
        Err(_) => assert!(rt; false),
    }
    Ok(frames)
}

/// The frames are the letters, and go on their way.
fn send_off(
    rt: &impl Abort,
    frames: Frames,
    letters: Vec<Letter>,
    posts: &mut Vec<Post>,
) -> Result<(), Fail> {
    let mut frames = frames;
    let mut letters = letters;
    assert_eq!(rt; frames.len(), letters.len());
    for _ in 0..letters.len() {
        if let Some(letter) = letters.pop() {
            if let Some(frame) = frames.pop() {
                assert!(rt; is_same(&frame, &letter));
                posts.push(Post { frame, letter })?;
            }
        }
    }
    Ok(())
}

/// No letter.
fn nothing() -> Letter {
    let app = AppId { node: 0, seq: 0 };
    Letter {
        from: 0,
        to: 0,
        stamp: 0,
        says: Says::Destroy(app),
        parcel: None,
    }
}
