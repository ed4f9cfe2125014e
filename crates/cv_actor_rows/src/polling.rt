//! Polls, one after another.

use cv_actor::{Act, Live, Polled};
use cv_behave::Behave;
use cv_flow::FlowKind;
use cv_kinds::{ActorSpec, Connection, Kind};
use cv_protocol::Need;
use cv_queue::Offered;
use cv_token::{ActorId, AppId, Items, Text, Token};
use std::alloc::Global;
use std::process::Abort;
use std::test::Fail;

const APP: AppId = AppId { node: 1, seq: 1 };

/// Whole numbers as arguments.
fn numbers(alloc: Global, args: &[i64]) -> Result<Items, Fail> {
    let mut items = Items::new(alloc);
    for arg in args {
        items.push(Token::Int(*arg))?;
    }
    Ok(items)
}

/// Actor 0 of a network with these connections, at the start.
fn started(
    rt: &impl Abort,
    alloc: Global,
    kind: FlowKind,
    args: &[i64],
    connections: &[Connection],
) -> Result<Live, Fail> {
    let args = numbers(alloc, args)?;
    let spec = ActorSpec {
        path: Text::from_string(String::from_str(alloc, "it")?),
        kind: Kind::Flow(kind),
        args,
    };
    assert!(rt; connections.len() <= 9);
    assert!(rt; spec.kind.pause(&spec.args) < 1000);
    let id = ActorId { app: APP, actor: 0 };
    Ok(Live::start(alloc, id, &spec, connections, 0)?)
}

fn offer(rt: &impl Abort, live: &mut Live, port: u8, n: u64, token: Token) -> bool {
    match live.inp_mut(port) {
        Some(inp) => {
            assert!(rt; inp.received() < 100);
            inp.offer(n, token) == Offered::Taken
        }
        None => false,
    }
}

/// The first token of an inport is taken.
fn feed(rt: &impl Abort, live: &mut Live, port: u8, number: i64) {
    assert!(rt; offer(rt, live, port, 0, Token::Int(number)));
}

/// A poll at this time has this answer.
fn poll(
    rt: &impl Abort,
    alloc: Global,
    live: &mut Live,
    now: u64,
    wanted: Polled,
) -> Result<(), Fail> {
    assert!(rt; live.may_poll(now));
    let polled = live.poll(alloc, now)?;
    assert!(rt; polled == wanted);
    Ok(())
}

fn written(live: &Live) -> Option<u64> {
    Some(live.out(0)?.written())
}

const JOINED: [Connection; 3] = [
    Connection {
        from: 1,
        out: 0,
        to: 0,
        inp: 0,
    },
    Connection {
        from: 2,
        out: 0,
        to: 0,
        inp: 1,
    },
    Connection {
        from: 0,
        out: 0,
        to: 3,
        inp: 0,
    },
];

// A token on each inport of a join, whose outport has two places and more.
#[test]
fn a_join_holds_and_then_fires(rt: HostRuntime) -> Result<(), Fail> {
    let alloc = rt.alloc();
    let mut live = started(&rt, alloc, FlowKind::Join, &[], &JOINED)?;
    let idle = Polled::Waiting([Some(Need::Token(0, 1)), Some(Need::Token(1, 1)), None, None]);
    poll(&rt, alloc, &mut live, 0, idle)?;
    feed(&rt, &mut live, 0, 5);
    feed(&rt, &mut live, 1, 6);
    poll(&rt, alloc, &mut live, 0, Polled::Held(0))?;
    poll(&rt, alloc, &mut live, 0, Polled::Fired(0))?;
    assert_eq!(rt; written(&live), Some(1));
    poll(&rt, alloc, &mut live, 0, Polled::Held(1))?;
    poll(&rt, alloc, &mut live, 0, Polled::Fired(1))?;
    assert_eq!(rt; written(&live), Some(2));
    poll(&rt, alloc, &mut live, 0, idle)?;
    Ok(())
}

// A timer of 100 milliseconds and one step.
#[test]
fn a_timer_waits_until_it_is_due(rt: HostRuntime) -> Result<(), Fail> {
    let alloc = rt.alloc();
    let mut live = started(&rt, alloc, FlowKind::CountTimer, &[100, 1, 1], &[])?;
    assert_eq!(rt; live.due(), 100);
    let early = Polled::Waiting([Some(Need::Until(100)), None, None, None]);
    poll(&rt, alloc, &mut live, 99, early)?;
    poll(&rt, alloc, &mut live, 100, Polled::Fired(0))?;
    assert_eq!(rt; live.due(), 200);
    let done = Polled::Waiting([Some(Need::Guard), None, None, None]);
    poll(&rt, alloc, &mut live, 300, done)?;
    Ok(())
}

// A print that nothing feeds has no inport to lend, and waits for a token.
#[test]
fn a_void_inport_is_not_lent(rt: HostRuntime) -> Result<(), Fail> {
    let alloc = rt.alloc();
    let mut live = started(&rt, alloc, FlowKind::Print, &[], &[])?;
    assert!(rt; live.inp(0).is_none());
    assert!(rt; live.feed(0).is_none());
    assert!(rt; !offer(&rt, &mut live, 0, 0, Token::Int(5)));
    let idle = Polled::Waiting([Some(Need::Token(0, 1)), None, None, None]);
    poll(&rt, alloc, &mut live, 0, idle)?;
    Ok(())
}
