//! Joins by numbers.

ghost use Rattle.std.specs.Prelude.{◌≡◌, ◌≢◌, ◌∷◌, ◌++◌, [], List, Some, IfOk, length, map};
ghost use Rattle.cv_expand.specs.Bodies.{Distinct};
ghost use Rattle.cv_graph.specs.declared.port.Port.{Port};
ghost use Rattle.cv_graph.specs.declared.port.Side.{Side};
ghost use Rattle.cv_graph.specs.declared.port.Wire.{Wire};
ghost use Rattle.cv_graph.specs.Checks.{source_there, target_there, feed_checks};
ghost use Rattle.cv_graph.specs.Faults.{Judges};
ghost use Rattle.cv_graph.specs.Ports.{Place, places, source_of, target_of};
ghost use Rattle.cv_graph.specs.Tables.{AreTabled, PortTold, IsEnd, IsAim, IsBehind, IsWire, AreWires, feeder, Indexed, Indexes};

use crate::fault::GraphFault;
use crate::placing::Places;
use crate::port::{Port, Side, Wire};
use cv_expand::path::copy_path;
use cv_expand::{Feed, Origin, Parts, Path, Step};
use cv_syntax::Target;
use cv_token::OutOfMemory;
use std::alloc::Global;
use std::collections::BTreeMap;

/// The joins by their ports, and the number of the join to each port.
#[derive(Drop)]
pub struct Joined {
    pub wires: Vec<Wire>,
    pub feeders: BTreeMap<Port, usize>,
}

/// All joins, or the first fault of their ports.
pub fn join_feeds(alloc: Global, parts: &Parts, table: &Places) -> Result<Joined, GraphFault>
    requires tabled { AreTabled (places parts.now) table.now }
    requires apart { Distinct (map (λ p. p.path) (places parts.now)) }
    ensures judged { Judges parts.now (feed_checks [] (parts.now).feeds) result }
    ensures wires { IfOk result (λ joined. AreWires parts.now (parts.now).feeds joined.wires.items) }
    ensures feeders { IfOk result (λ joined. Indexed joined.wires.items joined.feeders) }
{
    let mut wires = Vec::new(alloc);
    let mut feeders = BTreeMap::new(alloc);
    for feed in parts.feeds.as_slice() {
        let wire = wire_of(alloc, parts, table, feed)?;
        feeders = add_target(feeders, wire, wires.len(), feed.target_at)?;
        wires.push(wire)?;
    }
    Ok(Joined { wires, feeders })
}

/// The map with one more join, where there is none to its target.
pub(crate) fn add_target(
    feeders: BTreeMap<Port, usize>,
    wire: Wire,
    number: usize,
    at: u32,
) -> Result<BTreeMap<Port, usize>, GraphFault>
    ensures { (wires : List Wire) → Indexed wires feeders → number ≡ length wires → Indexes wires wire at result }
{
    let Some(port) = wire.target else {
        return Ok(feeders);
    };
    if feeder(&feeders, port).is_some() {
        return Err(GraphFault::FedTwice { at });
    }
    Ok(with_feeder(feeders, port, number)?)
}

/// The number of the join to a port.
fn feeder(feeders: &BTreeMap<Port, usize>, port: Port) -> Option<usize>
    ensures { result ≡ feeder feeders.now port }
{
    feeders.get(&port).copied()
}

/// The map with the number of the join to one more port.
fn with_feeder(
    feeders: BTreeMap<Port, usize>,
    port: Port,
    number: usize,
) -> Result<BTreeMap<Port, usize>, OutOfMemory>
    ensures same { IfOk result (λ more. feeder more port ≡ Some number) }
    ensures others { IfOk result (λ more. (other : Port) → other ≢ port → feeder more other ≡ feeder feeders other) }
{
    let mut feeders = feeders;
    feeders.insert(port, number)?;
    Ok(feeders)
}

/// A join by its ports.
fn wire_of(alloc: Global, parts: &Parts, table: &Places, feed: &Feed) -> Result<Wire, GraphFault>
    requires tabled { AreTabled (places parts.now) table.now }
    requires apart { Distinct (map (λ p. p.path) (places parts.now)) }
    ensures judged { Judges parts.now (source_there feed.now ∷ target_there feed.now ∷ []) result }
    ensures wire { IfOk result (IsWire parts.now feed.now) }
{
    let source = source_port(alloc, parts, table, feed)?;
    let target = target_port(alloc, parts, table, feed)?;
    Ok(Wire { source, target })
}

/// The port from which a join comes.
fn source_port(
    alloc: Global,
    parts: &Parts,
    table: &Places,
    feed: &Feed,
) -> Result<Option<Port>, GraphFault>
    requires tabled { AreTabled (places parts.now) table.now }
    requires apart { Distinct (map (λ p. p.path) (places parts.now)) }
    ensures judged { Judges parts.now (source_there feed.now ∷ []) result }
    ensures end { IfOk result (λ port. IsEnd (places parts.now) port (source_of feed.now)) }
    ensures own { IfOk result (IsBehind (length (parts.now).actors) Side.In) }
{
    let actors = parts.actors.len();
    match &feed.origin {
        Origin::Void => Ok(None),
        Origin::Own(name) => {
            let body = feed.body.as_slice();
            let port = port_from(alloc, table, body, Side::In, name.as_str(), actors, feed.at)?;
            Ok(Some(port))
        }
        Origin::Port(step, name) => {
            let path = further(alloc, &feed.body, step.copy(alloc)?)?;
            let port = port_from(
                alloc,
                table,
                path.as_slice(),
                Side::Out,
                name.as_str(),
                0,
                feed.at,
            )?;
            Ok(Some(port))
        }
    }
}

/// The port to which a join goes.
fn target_port(
    alloc: Global,
    parts: &Parts,
    table: &Places,
    feed: &Feed,
) -> Result<Option<Port>, GraphFault>
    requires tabled { AreTabled (places parts.now) table.now }
    requires apart { Distinct (map (λ p. p.path) (places parts.now)) }
    ensures judged { Judges parts.now (target_there feed.now ∷ []) result }
    ensures end { IfOk result (λ port. IsAim (places parts.now) port (target_of feed.now)) }
    ensures own { IfOk result (IsBehind (length (parts.now).actors) Side.Out) }
{
    let actors = parts.actors.len();
    match &feed.target {
        Target::Voidport => Ok(None),
        Target::Own(name) => {
            let body = feed.body.as_slice();
            let port = port_from(
                alloc,
                table,
                body,
                Side::Out,
                name.as_str(),
                actors,
                feed.target_at,
            )?;
            Ok(Some(port))
        }
        Target::Port(actor, name) => {
            let path = further(alloc, &feed.body, Step::Name(actor.copy(alloc)?))?;
            let port = port_from(
                alloc,
                table,
                path.as_slice(),
                Side::In,
                name.as_str(),
                0,
                feed.target_at,
            )?;
            Ok(Some(port))
        }
    }
}

/// The port of that path, side and name at a place from the first one on.
fn port_from(
    alloc: Global,
    table: &Places,
    path: &[Step],
    side: Side,
    name: &str,
    first: usize,
    at: u32,
) -> Result<Port, GraphFault>
    ensures { (ps : List Place) → AreTabled ps table.now → Distinct (map (λ p. p.path) ps) → PortTold ps path.now side name.now first at result }
{
    let Some(port) = table.port(alloc, path, side, name)? else {
        return Err(GraphFault::NoPort { at });
    };
    if port.place < first {
        return Err(GraphFault::NoPort { at });
    }
    Ok(port)
}

/// The path one step further.
fn further(alloc: Global, path: &Path, step: Step) -> Result<Path, OutOfMemory>
    ensures { IfOk result (λ longer. longer ≡ path.now ++ step ∷ []) }
{
    let mut longer = copy_path(alloc, path)?;
    longer.push(step)?;
    Ok(longer)
}
