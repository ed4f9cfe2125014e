//! The entries of the rows.

use cv_entry::{Head, head_read};
use cv_fixtures::text;
use cv_network::network_read;
use cv_protocol::{Body, Entry, Event, Frame};
use cv_rules::Attrs;
use cv_token::{ActorId, AppId, ConnId, OutOfMemory, Token};
use sqlite_items::Boxed;
use std::alloc::Global;
use std::test::Fail;

const NETWORK: &str =
    "{\"actors\":[[\"src\",\"std.Constant\",[1,5],null],[\"snk\",\"io.Print\",[],null]],\"connections\":[[0,\"token\",1,\"token\"]]}";

const HEAD: &str = "[\"node\",1,1,1,{\"node.name\":\"n\\\"1\",\"zone.id\":\"\"},0]";

fn actor(node: u16, seq: u32, actor: u16) -> ActorId {
    ActorId {
        app: AppId { node, seq },
        actor,
    }
}

fn conn(node: u16, seq: u32, place: u16) -> ConnId {
    ConnId {
        app: AppId { node, seq },
        place,
    }
}

/// The attributes of a head that has them.
fn attributes(alloc: Global) -> Result<Attrs, Fail> {
    let Some(Head { spec, dropped: _ }) = head_read(alloc, HEAD.as_bytes())? else {
        return Err("no head".into());
    };
    Ok(spec.attrs)
}

fn deploy(alloc: Global) -> Result<Event, Fail> {
    let net = network_read(alloc, NETWORK.as_bytes()).map_err(|_fault| "no network")?;
    Ok(Event::Deploy {
        name: text(alloc, "run")?,
        net: Boxed::new(alloc, net)?,
    })
}

fn ack() -> Frame {
    Frame {
        from: 2,
        to: 1,
        stamp: 9,
        body: Body::Ack {
            conn: conn(1, 1, 0),
            actor: actor(1, 1, 0),
            upto: 3,
        },
    }
}

fn token(alloc: Global) -> Result<Frame, OutOfMemory> {
    let token = Token::Text(text(alloc, "a")?);
    Ok(Frame {
        from: 1,
        to: 2,
        stamp: 14,
        body: Body::Token {
            conn: conn(1, 1, 0),
            actor: actor(1, 1, 1),
            n: 0,
            token,
        },
    })
}

/// The events of steps that take no memory, the second to the seventh behind the deployment.
fn steps() -> [Event; 6] {
    [
        Event::Tick {
            now: 4_611_686_018_427_387_903,
        },
        Event::Peek {
            actor: actor(2, 3, 65_535),
            port: 255,
        },
        Event::Fire {
            actor: actor(1, 1, 0),
            action: 0,
        },
        Event::Pass {
            conn: conn(1, 1, 0),
        },
        Event::Send {
            conn: conn(1, 4_294_967_295, 65_535),
        },
        Event::Rewind {
            conn: conn(1, 1, 3),
        },
    ]
}

/// The events of moves, and the end of an application.
fn moves() -> [Event; 5] {
    let actor = actor(1, 1, 2);
    [
        Event::Freeze { actor, to: 64 },
        Event::Resend { actor },
        Event::Withdraw { actor },
        Event::Hint {
            actor,
            attempt: 7,
            node: 3,
        },
        Event::Destroy {
            app: AppId { node: 1, seq: 1 },
        },
    ]
}

/// The event of a node that is met.
fn meet(alloc: Global) -> Result<Event, Fail> {
    Ok(Event::Meet {
        node: 64,
        attrs: attributes(alloc)?,
    })
}

/// An event of each sort but the last, a delivery, in the order of the node table.
fn events(alloc: Global) -> Result<Vec<Event>, Fail> {
    let mut events = Vec::new(alloc);
    events.push(meet(alloc)?)?;
    events.push(deploy(alloc)?)?;
    for event in steps() {
        events.push(event)?;
    }
    for event in moves() {
        events.push(event)?;
    }
    events.push(Event::Lose { frame: ack() })?;
    Ok(events)
}

/// The entry of a delivery, at the greatest stamp.
fn delivery(alloc: Global) -> Result<Entry, OutOfMemory> {
    let frame = token(alloc)?;
    Ok(Entry {
        stamp: 4_611_686_018_427_387_903,
        event: Event::Deliver { frame },
    })
}

/// An entry of each event, in the order of the node table; their stamps count from 1, and the last one is 2^62 - 1.
pub(crate) fn entries(alloc: Global) -> Result<Vec<Entry>, Fail> {
    let mut entries = Vec::new(alloc);
    let mut stamp: u64 = 1;
    for event in events(alloc)? {
        entries.push(Entry { stamp, event })?;
        stamp = stamp.saturating_add(1);
    }
    entries.push(delivery(alloc)?)?;
    Ok(entries)
}
