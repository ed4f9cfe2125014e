//! A network run over several nodes, and the record of the run.

ghost use Rattle.std.specs.Prelude.{◌≡◌, ◌≤◌, IfOk};
ghost use Rattle.cv_kinds.specs.Wired.{IsWired};
ghost use Rattle.cv_spread.specs.Clusters.{IsRecordFor, opened_cluster};
ghost use Rattle.cv_spread.specs.Placing.{ItemsFit, most_run_nodes};
ghost use Rattle.cv_spread.specs.Spread.{IsSpreadRun};

use crate::nodes::{node_specs, places};
use cv_alone::RunEnd;
use cv_cluster::Cluster;
use cv_io::Gate;
use cv_kinds::Network;
use cv_link::Item;
use cv_merge::merge;
use cv_protocol::Record;
use cv_token::OutOfMemory;
use std::alloc::Global;
use std::thread::Threads;

/// Runs a network over the nodes 1 to `nodes`, with so many firings at most, where the items lose, repeat and cut what the nodes send
/// each other: how the run stopped, and its record.
pub fn run_spread<R: Threads + Sync, G: Gate>(
    rt: &R,
    alloc: Global,
    net: Network,
    nodes: u16,
    items: Vec<Item>,
    most: u32,
    gate: &G,
) -> Result<(RunEnd, Record), OutOfMemory>
    requires nodes { (2 ≤ nodes) × (nodes ≤ most_run_nodes) }
    requires items { ItemsFit nodes items.items }
    requires wired { IsWired net }
    ensures { IfOk result (λ run. IsSpreadRun net nodes items.items most run.0 run.1) }
{
    let mut cluster = open_cluster(alloc, net, nodes, items)?;
    let stop = cluster.run(rt, alloc, most, gate)?;
    let merged = record_of(alloc, cluster)?;
    Ok((stop, merged))
}

/// The cluster of the nodes 1 to `nodes` with the network's actors in their places.
fn open_cluster(
    alloc: Global,
    net: Network,
    nodes: u16,
    items: Vec<Item>,
) -> Result<Cluster, OutOfMemory>
    requires nodes { (2 ≤ nodes) × (nodes ≤ most_run_nodes) }
    requires items { ItemsFit nodes items.items }
    ensures { IfOk result (λ c. c ≡ opened_cluster nodes net items.items) }
{
    let actors = net.actors().len() as u16;
    let at = places(alloc, nodes, actors)?;
    let specs = node_specs(alloc, nodes)?;
    let mut cluster = Cluster::new(alloc, specs, items)?;
    cluster.open(alloc, net, at.as_slice())?;
    Ok(cluster)
}

/// The record of all journals of a cluster.
fn record_of(alloc: Global, cluster: Cluster) -> Result<Record, OutOfMemory>
    ensures { IfOk result (λ m. IsRecordFor cluster m) }
{
    cluster.honest();
    let journals = cluster.into_journals(alloc)?;
    merge(alloc, journals)
}
