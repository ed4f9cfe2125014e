//! A constant at node 1 and a sink at node 2: a frame is lost in a round, and a settle brings all tokens over.

ghost use Rattle.std.specs.Prelude.{◌≡◌, length, true, IfOk};
ghost use Rattle.cv_mesh.specs.Moving.{AreMeshed, Goes};

use cv_fixtures::{constant_to_print, node_spec};
use cv_io::OpenGate;
use cv_kinds::Network;
use cv_link::Item;
use cv_mesh::join_all;
use cv_node::Node;
use cv_node_fixtures::letters;
use cv_settle::settle;
use cv_station::Station;
use cv_token::{AppId, OutOfMemory};
use std::alloc::Global;
use std::process::Abort;
use std::test::Fail;

const APP: AppId = AppId { node: 1, seq: 1 };

/// A node of two; the source lives at the first one, the sink at the second one.
fn node(alloc: Global, no: u16, net: &Network) -> Result<Node, OutOfMemory>
    requires { length net.now.actors ≡ 2 }
{
    let spec = node_spec(alloc, no.clamp(1, 2), 1024);
    Node::open(alloc, spec, APP, net, &[1, 2])
}

/// The stations of both nodes, with these items.
fn stations(alloc: Global, items: &[Item]) -> Result<Vec<Station>, OutOfMemory>
    ensures { IfOk result (λ stations. AreMeshed stations.items) }
{
    let net = constant_to_print(alloc, 3)?;
    let mut nodes = Vec::new(alloc);
    nodes.push(node(alloc, 1, &net)?)?;
    nodes.push(node(alloc, 2, &net)?)?;
    let stations = join_all(alloc, nodes, items)?;
    Ok(stations)
}

/// A round of a station.
fn play(alloc: Global, station: &mut Station)
    ensures { Goes true station.old station.new }
{
    station.quota = 100;
    station.work(alloc, &OpenGate, 1);
}

/// A round of each station, one after the other.
fn play_each(alloc: Global, stations: &mut [Station])
    requires { AreMeshed stations.old }
    ensures { AreMeshed stations.new }
{
    for place in 0..stations.len() {
        play(alloc, &mut stations[place]);
    }
}

/// What both journals say after a round of each station, and a settle.
fn settled(rt: &impl Abort, alloc: Global, item: Item) -> Result<(String, String), Fail> {
    let items = [item];
    let mut stations = stations(alloc, &items)?;
    play_each(alloc, &mut stations);
    settle(alloc, &mut stations)?;
    assert!(rt; stations.len() == 2);
    Ok((
        letters(alloc, &stations[0].node)?,
        letters(alloc, &stations[1].node)?,
    ))
}

// The first token is lost in the round. It is sent again, and the others follow it, one a sweep as the window is one.
#[test]
fn a_lost_token_is_sent_again(rt: HostRuntime) -> Result<(), Fail> {
    let item = Item::Lose {
        from: 1,
        to: 2,
        k: 1,
    };
    let (one, two) = settled(&rt, rt.alloc(), item)?;
    assert_eq!(rt; one.as_str(), "FFSFRSDSDSD");
    assert_eq!(rt; two.as_str(), "LDDD");
    Ok(())
}

// The acknowledgement of the first token is lost: the token is sent once more, and acknowledged again.
#[test]
fn a_lost_acknowledgement_is_asked_for_again(rt: HostRuntime) -> Result<(), Fail> {
    let item = Item::Lose {
        from: 2,
        to: 1,
        k: 1,
    };
    let (one, two) = settled(&rt, rt.alloc(), item)?;
    assert_eq!(rt; one.as_str(), "FFSFLRSDSDSD");
    assert_eq!(rt; two.as_str(), "DpFDDD");
    Ok(())
}

// A cut loses what comes in its turn, the round and the first sweep; after that sweep the turn has ended.
#[test]
fn a_cut_ends_with_its_turn(rt: HostRuntime) -> Result<(), Fail> {
    let item = Item::Cut {
        from: 1,
        to: 2,
        k: 1,
    };
    let (one, two) = settled(&rt, rt.alloc(), item)?;
    assert_eq!(rt; one.as_str(), "FFSFRSRSDSDSD");
    assert_eq!(rt; two.as_str(), "LLDDD");
    Ok(())
}
