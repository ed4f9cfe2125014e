//! Stations of nodes, each joined to all others.

ghost use Rattle.std.specs.Prelude.{◌≡◌, [], IfOk, OnOk};
ghost use Rattle.cv_link.specs.Items.{link_of};
ghost use Rattle.cv_mesh.specs.Joining.{AreNew, Connects, ConnectsItself, Joins};

use cv_link::{Item, LinkItems, Pair};
use cv_node::Node;
use cv_station::{Peer, Station};
use cv_token::OutOfMemory;
use std::alloc::Global;

/// A station for each node, with a ring from each to each.
pub fn join_all(
    alloc: Global,
    nodes: Vec<Node>,
    items: &[Item],
) -> Result<Vec<Station>, OutOfMemory>
    ensures { IfOk result (λ stations. AreNew items.now nodes.items stations.items) }
{
    let mut stations = Vec::with_capacity(alloc, nodes.len())?;
    for node in nodes {
        join(alloc, &mut stations, node, items)?;
    }
    Ok(stations)
}

/// A node more, with rings to and from all that are there.
fn join(
    alloc: Global,
    stations: &mut Vec<Station>,
    node: Node,
    items: &[Item],
) -> Result<(), OutOfMemory>
    ensures { OnOk result (Joins items.now stations.old.items node stations.new.items) }
{
    let mut station = new_station(alloc, node);
    for place in 0..stations.len() {
        connect(alloc, &mut stations[place], &mut station, items)?;
    }
    connect_itself(alloc, &mut station, items)?;
    stations.push(station)?;
    Ok(())
}

/// A station of a node, without peers.
fn new_station(alloc: Global, node: Node) -> Station
    ensures node { result.node ≡ node }
    ensures peers { result.peers.items ≡ [] }
{
    Station {
        node,
        peers: Vec::new(alloc),
        quota: 0,
        fired: 0,
        failed: false,
    }
}

/// A ring from each of two stations to the other.
fn connect(
    alloc: Global,
    one: &mut Station,
    other: &mut Station,
    items: &[Item],
) -> Result<(), OutOfMemory>
    ensures { OnOk result (Connects items.now one.old other.old one.new other.new) }
{
    let here = one.node.journal().spec.no;
    let there = other.node.journal().spec.no;
    let forth = Pair::new(alloc, link(alloc, here, there, items)?)?;
    let back = Pair::new(alloc, link(alloc, there, here, items)?)?;
    one.peers.push(Peer {
        no: there,
        tx: forth.tx,
        rx: back.rx,
    })?;
    other.peers.push(Peer {
        no: here,
        tx: back.tx,
        rx: forth.rx,
    })?;
    Ok(())
}

/// The ring of a station to itself, where nothing is ever pushed.
fn connect_itself(alloc: Global, station: &mut Station, items: &[Item]) -> Result<(), OutOfMemory>
    ensures { OnOk result (ConnectsItself items.now station.old station.new) }
{
    let no = station.node.journal().spec.no;
    let ring = Pair::new(alloc, link(alloc, no, no, items)?)?;
    station.peers.push(Peer {
        no,
        tx: ring.tx,
        rx: ring.rx,
    })?;
    Ok(())
}

/// The items of the link from one node to another.
fn link(alloc: Global, from: u16, to: u16, items: &[Item]) -> Result<LinkItems, OutOfMemory>
    ensures { IfOk result (λ link. link ≡ link_of from to items.now) }
{
    let mut link = LinkItems::new(alloc, from, to);
    for item in items {
        link.add(*item)?;
    }
    Ok(link)
}
