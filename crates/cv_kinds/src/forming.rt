//! Networks out of actors and connections, where these make one.

ghost use Rattle.std.specs.Prelude.{◌≡◌, ◌↔◌, All, IfOk, IfSome, IsSome, IsTrue, slice_get};
ghost use Rattle.std.specs.List.{IsDistinct};
ghost use Rattle.std.specs.Str.{bytes_eq};
ghost use Rattle.cv_kinds.specs.WellFormed.{IsSpec, IsWellFormed, path_list};
ghost use Rattle.cv_kinds.specs.Wired.{HasInport, HasOutport, IsBelow, HasPorts, Rising};

use crate::network::{ActorSpec, Connection, Network};
use crate::sorts::args_ok;
use cv_behave::Behave;
use cv_token::OutOfMemory;
use std::alloc::Global;
use std::collections::BTreeSet;

/// The most actors of a network.
const MOST_ACTORS: usize = 256;

/// The most connections of a network.
const MOST_CONNECTIONS: usize = 4096;

impl Network {
    /// The network of these actors and connections; None exactly where they make none.
    pub fn of(
        alloc: Global,
        actors: Vec<ActorSpec>,
        connections: Vec<Connection>,
    ) -> Result<Option<Network>, OutOfMemory>
        ensures made { IfOk result (λ found. IfSome found (λ net. net ≡ record { actors = actors.items; connections = connections.items })) }
        ensures exact { IfOk result (λ found. IsSome found ↔ IsWellFormed (record { actors = actors.items; connections = connections.items })) }
    {
        if !is_well_formed(alloc, actors.as_slice(), connections.as_slice())? {
            return Ok(None);
        }
        Ok(Some(Network::new(actors, connections)))
    }
}

/// Whether these actors and connections make a network.
fn is_well_formed(
    alloc: Global,
    actors: &[ActorSpec],
    connections: &[Connection],
) -> Result<bool, OutOfMemory>
    ensures { IfOk result (λ whole. IsTrue whole ↔ IsWellFormed (record { actors = actors.now; connections = connections.now })) }
{
    if actors.len() > MOST_ACTORS || connections.len() > MOST_CONNECTIONS {
        return Ok(false);
    }
    if !are_specs(actors) || !have_ports(actors, connections) || !rise(connections) {
        return Ok(false);
    }
    are_distinct(alloc, actors)
}

/// Whether each actor has arguments of its kind's row.
fn are_specs(actors: &[ActorSpec]) -> bool
    ensures { IsTrue result ↔ All IsSpec actors.now }
{
    actors.iter().all(|actor| is_spec(actor))
}

fn is_spec(actor: &ActorSpec) -> bool
    ensures { IsTrue result ↔ IsSpec actor.now }
{
    let _path = actor.path.as_str();
    args_ok(actor.kind, &actor.args)
}

/// Whether no two actors are at one path.
fn are_distinct(alloc: Global, actors: &[ActorSpec]) -> Result<bool, OutOfMemory>
    ensures { IfOk result (λ distinct. IsTrue distinct ↔ IsDistinct bytes_eq (path_list actors.now)) }
{
    let mut seen = BTreeSet::new(alloc);
    for actor in actors {
        let path = actor.path.as_str();
        if seen.contains(path) {
            return Ok(false);
        }
        seen.insert(String::from_str(alloc, path)?)?;
    }
    Ok(true)
}

/// Whether the ports of each connection are there.
fn have_ports(actors: &[ActorSpec], connections: &[Connection]) -> bool
    ensures { IsTrue result ↔ All (HasPorts actors.now) connections.now }
{
    connections
        .iter()
        .all(|connection| has_ports(actors, *connection))
}

fn has_ports(actors: &[ActorSpec], connection: Connection) -> bool
    ensures { IsTrue result ↔ HasPorts actors.now connection }
{
    has_outport(actors, connection.from, connection.out)
        && has_inport(actors, connection.to, connection.inp)
}

fn has_outport(actors: &[ActorSpec], actor: u16, port: u8) -> bool
    ensures { IsTrue result ↔ HasOutport (slice_get actors.now actor) port }
{
    match actors.get(usize::from(actor)) {
        Some(spec) => port < spec.kind.outports(),
        None => false,
    }
}

fn has_inport(actors: &[ActorSpec], actor: u16, port: u8) -> bool
    ensures { IsTrue result ↔ HasInport (slice_get actors.now actor) port }
{
    match actors.get(usize::from(actor)) {
        Some(spec) => port < spec.kind.inports(),
        None => false,
    }
}

/// Whether connections stand by consumer, then inport, no two at one inport.
fn rise(connections: &[Connection]) -> bool
    ensures { IsTrue result ↔ Rising connections.now }
{
    for i in 1..connections.len() {
        if !is_below(connections[i - 1], connections[i]) {
            return false;
        }
    }
    true
}

fn is_below(connection: Connection, other: Connection) -> bool
    ensures { IsTrue result ↔ IsBelow connection other }
{
    connection.to < other.to || connection.to == other.to && connection.inp < other.inp
}
