//! Rows of single steps: what the calls tell, moves that are refused, and transfers that come late.

use cv_fixtures::{node_spec, text};
use cv_flow::FlowKind;
use cv_kinds::{ActorSpec, Kind, Network};
use cv_node::{Node, Seen};
use cv_protocol::{Body, Event, Frame, Location, Sent, StepRefusal, Verdict};
use cv_rules::Attrs;
use cv_station::copy_frame;
use cv_token::{ActorId, AppId, Items, OutOfMemory, Token};
use sqlite_items::Boxed;
use std::alloc::{AllocError, Global};
use std::process::Abort;
use std::test::Fail;

/// The one actor, a timer of 100 milliseconds and two steps.
const ACTOR: ActorId = ActorId {
    app: AppId { node: 1, seq: 1 },
    actor: 0,
};

fn network(alloc: Global) -> Result<Network, OutOfMemory> {
    let mut args = Items::new(alloc);
    for number in [100, 1, 2] {
        args.push(Token::Int(number))?;
    }
    let mut actors = Vec::new(alloc);
    actors.push(ActorSpec {
        path: text(alloc, "t")?,
        kind: Kind::Flow(FlowKind::CountTimer),
        args,
    })?;
    match Network::of(alloc, actors, Vec::new(alloc))? {
        Some(net) => Ok(net),
        None => Err(AllocError),
    }
}

/// Node `no`, which knows nodes 1 to 3.
fn node(rt: &impl Abort, alloc: Global, no: u16) -> Result<Node, Fail> {
    assert!(rt; 1 <= no && no <= 64);
    let mut node = Node::new(alloc, node_spec(alloc, no, 9))?;
    for other in 1..4 {
        let attrs = Attrs::new(alloc);
        let met = node.step(alloc, Event::Meet { node: other, attrs });
        assert!(rt; met.is_ok());
    }
    Ok(node)
}

/// Node 1, where the actor was deployed.
fn first(rt: &impl Abort, alloc: Global) -> Result<Node, Fail> {
    let mut node = node(rt, alloc, 1)?;
    let event = Event::Deploy {
        name: text(alloc, "n")?,
        net: Boxed::new(alloc, network(alloc)?)?,
    };
    assert!(rt; node.step(alloc, event).is_ok());
    Ok(node)
}

/// What is done in a row.
#[derive(Clone, Copy)]
enum Act {
    /// The actor leaves the first node for the second one.
    Freeze(u16, u16),
    /// The actor fires at the node.
    Fire(u16),
    /// A copy of the frame of that number, counted from 0 as they are sent, comes to where it is addressed.
    Deliver(usize),
    /// It is asked where the node sees the actor.
    Look(u16),
}

/// What is told of it.
#[derive(Clone, Copy, PartialEq, Eq)]
enum Told {
    /// The event was done, and sent nothing.
    Done,
    Refused(StepRefusal),
    /// The frame that the event sent: a transfer by that attempt.
    Transfer(u64),
    /// The verdict on that attempt.
    Verdict(u64, Verdict),
    /// The place where the actor was made live by that attempt.
    Located(u64, u16),
    /// Another frame.
    Other,
    Sees(Option<Seen>),
}

/// Nodes 1 to 3, and all frames that they sent; the actor was deployed at node 1.
#[derive(Drop)]
struct World {
    nodes: Vec<Node>,
    sent: Vec<Frame>,
}

impl World {
    fn new(rt: &impl Abort, alloc: Global) -> Result<World, Fail> {
        let mut nodes = Vec::new(alloc);
        nodes.push(first(rt, alloc)?)?;
        nodes.push(node(rt, alloc, 2)?)?;
        nodes.push(node(rt, alloc, 3)?)?;
        let sent = Vec::new(alloc);
        Ok(World { nodes, sent })
    }

    fn act(&mut self, alloc: Global, act: Act) -> Result<Told, OutOfMemory> {
        match act {
            Act::Freeze(at, to) => self.step(alloc, at, freeze(to)),
            Act::Fire(at) => self.step(alloc, at, fire()),
            Act::Deliver(place) => self.deliver(alloc, place),
            Act::Look(at) => Ok(Told::Sees(self.sees(at))),
        }
    }

    /// Where the node sees the actor.
    fn sees(&self, at: u16) -> Option<Seen> {
        self.nodes.get(place_of(at))?.known_actor(ACTOR)
    }

    fn deliver(&mut self, alloc: Global, place: usize) -> Result<Told, OutOfMemory> {
        match self.sent.get(place) {
            Some(frame) => {
                let to = frame.to;
                let frame = copy_frame(alloc, frame)?;
                self.step(alloc, to, Event::Deliver { frame })
            }
            None => Ok(Told::Other),
        }
    }

    /// Does an event at the node; a frame that it sends is kept.
    fn step(&mut self, alloc: Global, at: u16, event: Event) -> Result<Told, OutOfMemory> {
        match self.nodes.get_mut(place_of(at)) {
            Some(node) => {
                let sent = node.step(alloc, event);
                self.keep(sent)
            }
            None => Ok(Told::Other),
        }
    }

    fn keep(&mut self, sent: Result<Sent, StepRefusal>) -> Result<Told, OutOfMemory> {
        match sent {
            Ok(Sent::One(frame)) => {
                let told = told_of(&frame.body);
                self.sent.push(frame)?;
                Ok(told)
            }
            Ok(_) => Ok(Told::Done),
            Err(cause) => Ok(Told::Refused(cause)),
        }
    }
}

/// The place of the node of that number.
fn place_of(no: u16) -> usize {
    usize::from(no.saturating_sub(1))
}

/// What a frame tells of the actor.
fn told_of(body: &Body) -> Told {
    match body {
        Body::Transfer { actor, attempt, .. } if *actor == ACTOR => Told::Transfer(*attempt),
        Body::Verdict {
            actor,
            attempt,
            verdict,
        } if *actor == ACTOR => Told::Verdict(*attempt, *verdict),
        Body::Located {
            actor,
            attempt,
            node,
        } if *actor == ACTOR => Told::Located(*attempt, *node),
        _ => Told::Other,
    }
}

/// A freeze of the actor towards a node.
fn freeze(to: u16) -> Event {
    Event::Freeze { actor: ACTOR, to }
}

/// A firing of the actor.
fn fire() -> Event {
    Event::Fire {
        actor: ACTOR,
        action: 0,
    }
}

/// Each act is told so, one after the other.
fn follow(rt: &impl Abort, alloc: Global, rows: &[(Act, Told)]) -> Result<(), Fail> {
    let mut world = World::new(rt, alloc)?;
    for (act, told) in rows {
        assert!(rt; world.act(alloc, *act)? == *told);
    }
    Ok(())
}

/// What a node's calls tell.
#[derive(Clone, Copy, PartialEq, Eq)]
struct NodeView {
    live: Option<ActorId>,
    next_live: Option<ActorId>,
    frozen: Option<(ActorId, u64, u16)>,
    next_frozen: Option<(ActorId, u64, u16)>,
    seen: Option<Seen>,
    hint: Option<Location>,
    due: Option<u64>,
    fires: bool,
}

fn view(node: &Node) -> NodeView {
    NodeView {
        live: node.live_at(0),
        next_live: node.live_at(1),
        frozen: node.frozen_at(0),
        next_frozen: node.frozen_at(1),
        seen: node.known_actor(ACTOR),
        hint: node.hint(ACTOR),
        due: node.next_due(),
        fires: node.enabled(&fire()),
    }
}

// The timer waits, fires at its moment, and waits again.
#[test]
fn calls_tell_of_a_live_actor(rt: HostRuntime) -> Result<(), Fail> {
    let alloc = rt.alloc();
    let mut node = first(&rt, alloc)?;
    let waits = NodeView {
        live: Some(ACTOR),
        next_live: None,
        frozen: None,
        next_frozen: None,
        seen: Some(Seen::Live),
        hint: Some(Location {
            attempt: 0,
            node: 1,
        }),
        due: Some(100),
        fires: false,
    };
    assert!(rt; view(&node) == waits);
    assert!(rt; node.step(alloc, Event::Tick { now: 100 }).is_ok());
    let ready = NodeView {
        due: None,
        fires: true,
        ..waits
    };
    assert!(rt; view(&node) == ready);
    assert!(rt; node.step(alloc, fire()).is_ok());
    let again = NodeView {
        due: Some(200),
        ..waits
    };
    assert!(rt; view(&node) == again);
    Ok(())
}

// The timer leaves for node 2, where it is made live.
#[test]
fn calls_tell_of_an_actor_that_left(rt: HostRuntime) -> Result<(), Fail> {
    let alloc = rt.alloc();
    let mut node = first(&rt, alloc)?;
    assert!(rt; node.step(alloc, freeze(2)).is_ok());
    let moving = view(&node);
    assert!(rt; moving.live == None && moving.seen == Some(Seen::Moving));
    assert!(rt; moving.frozen == Some((ACTOR, 1, 2)) && moving.next_frozen == None);
    let arrived = Event::Hint {
        actor: ACTOR,
        attempt: 1,
        node: 2,
    };
    assert!(rt; node.step(alloc, arrived).is_ok());
    let left = view(&node);
    assert!(rt; left.frozen == None && left.seen == Some(Seen::Away(2)));
    let there = Location {
        attempt: 1,
        node: 2,
    };
    assert!(rt; left.hint == Some(there));
    Ok(())
}

// Three meetings and a deployment; an event that is refused is not among the entries.
#[test]
fn journals_tell_the_entries(rt: HostRuntime) -> Result<(), Fail> {
    let alloc = rt.alloc();
    let mut node = first(&rt, alloc)?;
    assert!(rt; node.step(alloc, freeze(9)).is_err());
    assert_eq!(rt; node.journal().entries.len(), 4);
    let journal = node.into_journal();
    assert_eq!(rt; journal.spec.no, 1);
    assert_eq!(rt; journal.dropped, 0);
    let stamps = journal.entries.iter().map(|entry| entry.stamp);
    assert!(rt; stamps.eq([1, 2, 3, 4]));
    Ok(())
}

// Each entry uses one of the room that was made ahead, and a refused event none.
#[test]
fn room_made_ahead_is_used_up(rt: HostRuntime) -> Result<(), Fail> {
    let alloc = rt.alloc();
    let mut node = node(&rt, alloc, 1)?;
    assert_eq!(rt; node.spare(), 0);
    node.reserve(3)?;
    assert_eq!(rt; node.spare(), 3);
    assert!(rt; node.step(alloc, Event::Tick { now: 5 }).is_ok());
    assert!(rt; node.step(alloc, Event::Tick { now: 4 }).is_err());
    assert_eq!(rt; node.spare(), 2);
    node.reserve(1)?;
    assert_eq!(rt; node.spare(), 2);
    Ok(())
}

#[test]
fn steps_that_lack_something_are_refused(rt: HostRuntime) -> Result<(), Fail> {
    let rows = [
        (Act::Fire(1), Told::Refused(StepRefusal::NotEnabled)),
        (Act::Freeze(1, 9), Told::Refused(StepRefusal::NoNode)),
        (Act::Freeze(2, 1), Told::Refused(StepRefusal::NotHere)),
    ];
    follow(&rt, rt.alloc(), &rows)
}

#[test]
fn steps_of_moved_actors_are_refused(rt: HostRuntime) -> Result<(), Fail> {
    let rows = [
        (Act::Freeze(1, 2), Told::Transfer(1)),
        (Act::Look(1), Told::Sees(Some(Seen::Moving))),
        (Act::Freeze(1, 2), Told::Refused(StepRefusal::Moving)),
        (Act::Deliver(0), Told::Verdict(1, Verdict::Accepted)),
        (Act::Deliver(1), Told::Done),
        (Act::Look(1), Told::Sees(Some(Seen::Away(2)))),
        (Act::Look(2), Told::Sees(Some(Seen::Live))),
        (Act::Freeze(1, 2), Told::Refused(StepRefusal::NotHere)),
    ];
    follow(&rt, rt.alloc(), &rows)
}

// Attempt 3 comes to node 2 three times: first, again at once, and after the actor went on to node 3 and to node 1.
#[test]
fn late_transfers_are_answered(rt: HostRuntime) -> Result<(), Fail> {
    let rows = [
        (Act::Freeze(1, 2), Told::Transfer(1)),
        (Act::Deliver(0), Told::Verdict(1, Verdict::Accepted)),
        (Act::Deliver(1), Told::Done),
        (Act::Freeze(2, 1), Told::Transfer(2)),
        (Act::Deliver(2), Told::Verdict(2, Verdict::Accepted)),
        (Act::Deliver(3), Told::Done),
        (Act::Freeze(1, 2), Told::Transfer(3)),
        (Act::Deliver(4), Told::Verdict(3, Verdict::Accepted)),
        (Act::Deliver(5), Told::Done),
        (Act::Deliver(4), Told::Verdict(3, Verdict::Accepted)),
        (Act::Look(2), Told::Sees(Some(Seen::Live))),
        (Act::Freeze(2, 3), Told::Transfer(4)),
        (Act::Deliver(7), Told::Verdict(4, Verdict::Accepted)),
        (Act::Deliver(8), Told::Done),
        (Act::Freeze(3, 1), Told::Transfer(5)),
        (Act::Deliver(9), Told::Verdict(5, Verdict::Accepted)),
        (Act::Deliver(10), Told::Done),
        (Act::Deliver(4), Told::Located(4, 3)),
        (Act::Look(2), Told::Sees(Some(Seen::Away(3)))),
        (Act::Look(1), Told::Sees(Some(Seen::Live))),
    ];
    follow(&rt, rt.alloc(), &rows)
}
