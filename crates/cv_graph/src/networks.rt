//! `network`: from the parts of a script to its network.

ghost use Rattle.std.specs.Prelude.{◌≡◌, ◌↔◌, ◌≤◌, ◌++◌, [], length, IfOk};
ghost use Rattle.cv_expand.specs.Bodies.{Among};
ghost use Rattle.cv_expand.specs.Flat.{IsFlat};
ghost use Rattle.cv_kinds.specs.declared.network.Connection.{Connection};
ghost use Rattle.cv_kinds.specs.Wired.{Rising};
ghost use Rattle.cv_graph.specs.Checks.{feed_checks, fed_checks, checks};
ghost use Rattle.cv_graph.specs.Faults.{Judges};
ghost use Rattle.cv_graph.specs.Meaning.{Connects, IsNetwork};
ghost use Rattle.cv_graph.specs.Ways.{AreEnded, AreWithin};
ghost use Rattle.cv_kinds.specs.Net.{most_connections};

use crate::actors::actors_of;
use crate::fault::GraphFault;
use crate::joining::join_feeds;
use crate::linking::{connections_of, ways_of};
use crate::placing::Places;
use crate::queues::check_queues;
use crate::ways::{Way, follow};
use cv_expand::{Flat, Parts};
use cv_kinds::{Connection, Network};
use std::alloc::Global;

/// The network of a script's parts, or their first fault: of the actors in order their kinds and arguments; of the joins
/// in order their ports; inports that are not fed; and actions that need more tokens than may wait.
pub fn network(alloc: Global, flat: &Flat) -> Result<Network, GraphFault>
    ensures judged { Judges flat.now (checks flat.now) result }
    ensures network { IfOk result (IsNetwork flat.now) }
{
    let parts = flat.parts();
    let actors = actors_of(alloc, parts)?;
    let connections = connections(alloc, parts)?;
    check_queues(parts, actors.as_slice())?;
    Ok(Network::new(actors, connections))
}

/// The connections of the actors, or the first fault of joins and inports.
fn connections(alloc: Global, parts: &Parts) -> Result<Vec<Connection>, GraphFault>
    requires { IsFlat parts.now }
    ensures judged { Judges parts.now (feed_checks [] (parts.now).feeds ++ fed_checks (parts.now).actors) result }
    ensures connections { IfOk result (λ all. (j : Connection) → Among all.items j ↔ Connects parts.now j) }
    ensures rising { IfOk result (λ all. Rising all.items) }
    ensures few { IfOk result (λ all. length all.items ≤ most_connections) }
{
    let table = Places::of(alloc, parts)?;
    let joined = join_feeds(alloc, parts, &table)?;
    let wires = joined.wires.as_slice();
    let ways = ways_of(alloc, parts.actors.len(), &joined.feeders, wires)?;
    let ends = follow_all(ways);
    connections_of(alloc, parts, &joined.feeders, ends.as_slice())
}

/// The ways at their ends.
fn follow_all(ways: Vec<Way>) -> Vec<Way>
    requires { AreWithin ways.items }
    ensures { AreEnded ways.items result.items }
{
    let mut ways = ways;
    follow(ways.as_mut_slice());
    ways
}
