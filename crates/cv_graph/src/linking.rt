//! Connections: what feeds each inport of the actors.

ghost use Rattle.std.specs.Prelude.{◌≡◌, ◌≤◌, ◌<◌, ◌++◌, ℕ, List, Some, IfOk, length, map, slice_get, ◌^◌};
ghost use Rattle.cv_expand.specs.Bodies.{Among};
ghost use Rattle.cv_expand.specs.declared.flat.Parts.{Parts};
ghost use Rattle.cv_graph.specs.declared.port.Port.{Port};
ghost use Rattle.cv_graph.specs.declared.port.Wire.{Wire};
ghost use Rattle.cv_graph.specs.declared.ways.Supply.{Supply};
ghost use Rattle.cv_graph.specs.Checks.{inport_checks, fed_checks};
ghost use Rattle.cv_graph.specs.Faults.{Judges};
ghost use Rattle.cv_graph.specs.Links.{way_of, supply_in, supplied, AreSupplied, Linked, links_at, links_from};
ghost use Rattle.cv_graph.specs.Ports.{actor_place, actor_places};
ghost use Rattle.cv_graph.specs.Tables.{feeder};
ghost use Rattle.cv_kinds.specs.Net.{most_actors};

use crate::fault::GraphFault;
use crate::port::{Port, Side, Wire};
use crate::ways::{Supply, Way};
use cv_behave::Behave;
use cv_expand::{Actor, Parts};
use cv_kinds::{Connection, find};
use cv_token::OutOfMemory;
use std::alloc::Global;
use std::collections::BTreeMap;

/// The way back from each join: to an actor or to `voidport`, or on from the join to its source.
pub fn ways_of(
    alloc: Global,
    actors: usize,
    feeders: &BTreeMap<Port, usize>,
    wires: &[Wire],
) -> Result<Vec<Way>, OutOfMemory>
    requires few { actors ≤ most_actors }
    requires small { (wire : Wire) (port : Port) → Among wires.now wire → wire.source ≡ Some port → port.place < actors → port.number < 2 ^ 8 }
    ensures { IfOk result (λ ways. ways.items ≡ map (way_of actors feeders.now) wires.now) }
{
    let mut ways = Vec::with_capacity(alloc, wires.len())?;
    for wire in wires {
        ways.push(way_of(actors, feeders, *wire))?;
    }
    Ok(ways)
}

/// The way back from a join.
fn way_of(actors: usize, feeders: &BTreeMap<Port, usize>, wire: Wire) -> Way
    requires few { actors ≤ most_actors }
    requires small { (port : Port) → wire.source ≡ Some port → port.place < actors → port.number < 2 ^ 8 }
    ensures { result ≡ way_of actors feeders.now wire }
{
    match wire.source {
        None => Way::Ended(Some(Supply::Void)),
        Some(port) if port.place < actors => Way::Ended(Some(Supply::Outport {
            actor: port.place as u16,
            port: port.number as u8,
        })),
        Some(port) => match feeders.get(&port) {
            Some(join) => Way::Back(*join),
            None => Way::Ended(None),
        },
    }
}

/// The connections by consumer and then inport, or the first inport that is not fed.
pub fn connections_of(
    alloc: Global,
    parts: &Parts,
    feeders: &BTreeMap<Port, usize>,
    ways: &[Way],
) -> Result<Vec<Connection>, GraphFault>
    requires few { length (parts.now).actors ≤ most_actors }
    requires supplied { AreSupplied parts.now (supplied feeders.now ways.now) }
    ensures judged { Judges parts.now (fed_checks (parts.now).actors) result }
    ensures links { IfOk result (λ connections. connections.items ≡ links_from (supplied feeders.now ways.now) 0 (actor_places parts.now)) }
{
    let mut connections = Vec::new(alloc);
    for (to, actor) in parts.actors.as_slice().iter().enumerate() {
        connections = connect_actor(actor, to, feeders, ways, connections)?;
    }
    Ok(connections)
}

/// The connections, and those of an actor's inports behind them.
fn connect_actor(
    actor: &Actor,
    to: usize,
    feeders: &BTreeMap<Port, usize>,
    ways: &[Way],
    connections: Vec<Connection>,
) -> Result<Vec<Connection>, GraphFault>
    requires { to < most_actors }
    ensures judged { (parts : Parts) → AreSupplied parts (supplied feeders.now ways.now) → slice_get parts.actors to ≡ Some actor.now → Judges parts (inport_checks actor.now (actor_place actor.now).inports) result }
    ensures links { IfOk result (λ all. all.items ≡ connections.items ++ links_at (supplied feeders.now ways.now) to 0 (actor_place actor.now).inports) }
{
    let mut connections = connections;
    for number in 0..inports_of(actor) {
        let supply = supply_of(feeders, ways, to, number);
        connections = link_inport(connections, to, number, supply, actor.at)?;
    }
    Ok(connections)
}

/// The connections, and the one that a supply makes behind them.
fn link_inport(
    connections: Vec<Connection>,
    to: usize,
    number: usize,
    supply: Option<Supply>,
    at: u32,
) -> Result<Vec<Connection>, GraphFault>
    requires to { to < most_actors }
    requires number { number < 2 ^ 8 }
    ensures { Linked connections.items to number supply at result }
{
    let mut connections = connections;
    match supply {
        None => return Err(GraphFault::Unfed { at }),
        Some(Supply::Void) => {}
        Some(Supply::Outport { actor, port }) => connections.push(Connection {
            from: actor,
            out: port,
            to: to as u16,
            inp: number as u8,
        })?,
    }
    Ok(connections)
}

/// What feeds the inport of that number of an actor.
fn supply_of(
    feeders: &BTreeMap<Port, usize>,
    ways: &[Way],
    actor: usize,
    number: usize,
) -> Option<Supply>
    ensures { result ≡ supplied feeders.now ways.now actor number }
{
    let port = Port {
        place: actor,
        side: Side::In,
        number,
    };
    match feeders.get(&port) {
        Some(join) => supply_in(ways, *join),
        None => None,
    }
}

/// What is at the end of the way back from the join of that number.
fn supply_in(ways: &[Way], join: usize) -> Option<Supply>
    ensures { result ≡ supply_in ways.now join }
{
    match ways.get(join) {
        Some(Way::Ended(supply)) => *supply,
        _ => None,
    }
}

/// How many inports an actor has.
fn inports_of(actor: &Actor) -> usize
    ensures count { result ≡ length (actor_place actor.now).inports }
    ensures few { result ≤ 3 }
{
    match find(actor.kind.as_str()) {
        Some(kind) => kind.inports() as usize,
        None => 0,
    }
}
