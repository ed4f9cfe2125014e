//! A constant at node 1 and a sink that moved to node 2: frames travel, and tokens arrive.

use cv_fixtures::{constant_to_print, node_spec, text};
use cv_io::OpenGate;
use cv_link::Item;
use cv_mesh::join_all;
use cv_node::Node;
use cv_node_fixtures::letters;
use cv_protocol::{Event, Frame, Sent, StepRefusal};
use cv_rules::Attrs;
use cv_station::Station;
use cv_token::{ActorId, AppId, OutOfMemory};
use sqlite_items::Boxed;
use std::alloc::Global;
use std::process::Abort;
use std::test::Fail;

const APP: AppId = AppId { node: 1, seq: 1 };

const SINK: ActorId = ActorId { app: APP, actor: 1 };

fn node(alloc: Global, no: u16) -> Result<Node, OutOfMemory> {
    Node::new(alloc, node_spec(alloc, no.clamp(1, 2), 1024))
}

/// Two stations whose rings are joined, with these items.
fn stations(alloc: Global, items: &[Item]) -> Result<Vec<Station>, OutOfMemory> {
    let mut nodes = Vec::new(alloc);
    nodes.push(node(alloc, 1)?)?;
    nodes.push(node(alloc, 2)?)?;
    join_all(alloc, nodes, items)
}

fn deployment(alloc: Global) -> Result<Event, OutOfMemory> {
    let net = Boxed::new(alloc, constant_to_print(alloc, 3)?)?;
    let name = text(alloc, "run")?;
    Ok(Event::Deploy { name, net })
}

/// Deploys the network on the node, and freezes the sink for node 2.
fn begin(alloc: Global, node: &mut Node) -> Result<Sent, StepRefusal> {
    node.step(alloc, deployment(alloc)?)?;
    let attrs = Attrs::new(alloc);
    node.step(alloc, Event::Meet { node: 2, attrs })?;
    node.step(alloc, Event::Freeze { actor: SINK, to: 2 })
}

/// The one frame that was sent.
fn frame_of(sent: Sent) -> Option<Frame> {
    match sent {
        Sent::One(frame) => Some(frame),
        _ => None,
    }
}

/// The sink begins its way to node 2.
fn start(rt: &impl Abort, alloc: Global, station: &mut Station) -> Result<(), Fail> {
    let sent = begin(alloc, &mut station.node)?;
    assert!(rt; station.peers.len() == 2);
    if let Some(frame) = frame_of(sent) {
        assert!(rt; station.peers[1].tx.push(frame).is_ok());
    }
    Ok(())
}

/// A round of the station: how many firings it made.
fn play(alloc: Global, station: &mut Station, quota: u32, round: u32) -> u32 {
    station.quota = quota;
    station.work(alloc, &OpenGate, round);
    station.fired
}

/// So many rounds of both stations, one after the other; how many firings each made.
fn rounds(alloc: Global, stations: &mut [Station], quota: u32, times: u32) -> (u32, u32) {
    let mut first = 0u32;
    let mut second = 0u32;
    for round in 1..=times.min(1000) {
        if let Some(station) = stations.get_mut(0) {
            first = first.saturating_add(play(alloc, station, quota, round));
        }
        if let Some(station) = stations.get_mut(1) {
            second = second.saturating_add(play(alloc, station, quota, round));
        }
    }
    (first, second)
}

/// What the journal of the station says.
fn told(alloc: Global, stations: &[Station], place: usize) -> Result<String, OutOfMemory> {
    match stations.get(place) {
        Some(station) => letters(alloc, &station.node),
        None => Ok(String::new(alloc)),
    }
}

/// After so many rounds both journals say that, and each node made so many firings.
fn check(
    rt: &impl Abort,
    alloc: Global,
    items: &[Item],
    wanted: (&str, &str, (u32, u32)),
) -> Result<(), Fail> {
    let mut stations = stations(alloc, items)?;
    assert!(rt; stations.len() == 2);
    start(rt, alloc, &mut stations[0])?;
    assert!(rt; rounds(alloc, &mut stations, 100, 8) == wanted.2);
    assert!(rt; told(alloc, &stations, 0)?.as_str() == wanted.0);
    assert!(rt; told(alloc, &stations, 1)?.as_str() == wanted.1);
    Ok(())
}

/// How many firings each node made after so many rounds.
fn fired(rt: &impl Abort, alloc: Global, quota: u32, times: u32) -> Result<(u32, u32), Fail> {
    let mut stations = stations(alloc, &[])?;
    assert!(rt; stations.len() == 2);
    start(rt, alloc, &mut stations[0])?;
    Ok(rounds(alloc, &mut stations, quota, times))
}

// The sink's state is the first frame of the link; then a token travels a round, as the window is one, and its
// acknowledgement comes back.
#[test]
fn tokens_arrive_at_the_other_node(rt: HostRuntime) -> Result<(), Fail> {
    let wanted = ("dmfFFFDSDSDSD", "DDpFDpFDpF", (3, 3));
    check(&rt, rt.alloc(), &[], wanted)
}

// The second frame is the first token: node 2 journals its loss, and nothing is sent again in a round.
#[test]
fn a_lost_frame_is_journalled(rt: HostRuntime) -> Result<(), Fail> {
    let item = Item::Lose {
        from: 1,
        to: 2,
        k: 2,
    };
    check(&rt, rt.alloc(), &[item], ("dmfFFFDS", "DL", (3, 0)))
}

// The first token comes twice: it is delivered twice, and fires once; both are answered.
#[test]
fn a_doubled_frame_is_delivered_twice(rt: HostRuntime) -> Result<(), Fail> {
    let item = Item::Twice {
        from: 1,
        to: 2,
        k: 2,
    };
    let wanted = ("dmfFFFDSDDSDSD", "DDDpFDpFDpF", (3, 3));
    check(&rt, rt.alloc(), &[item], wanted)
}

// With a quota of one firing a round: three rounds for three firings, and the sink fires in the rounds after.
#[test]
fn a_round_ends_at_its_quota(rt: HostRuntime) -> Result<(), Fail> {
    let alloc = rt.alloc();
    assert!(rt; fired(&rt, alloc, 1, 1)? == (1, 0));
    assert!(rt; fired(&rt, alloc, 1, 2)? == (2, 1));
    assert!(rt; fired(&rt, alloc, 0, 2)? == (0, 0));
    Ok(())
}
