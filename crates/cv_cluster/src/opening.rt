//! The nodes of a cluster are made, or open with the actors of a network in their places.

ghost use Rattle.std.specs.Prelude.{◌≡◌, true, length, map, IfOk};
ghost use Rattle.std.specs.List.{list_all};
ghost use Rattle.cv_protocol.specs.Rows.{is_node};
ghost use Rattle.cv_cluster.specs.Holding.{node_of, spec_of};
ghost use Rattle.cv_cluster.specs.Opening.{AllAreForNodes, is_for_node, new_node, opened_as, opened_node};

use cv_kinds::Network;
use cv_node::Node;
use cv_rules::NodeSpec;
use cv_station::Station;
use cv_token::{AppId, OutOfMemory};
use std::alloc::Global;

/// The application of a run.
const APP: AppId = AppId { node: 1, seq: 1 };

/// A node by each specification.
pub(crate) fn new_nodes(alloc: Global, specs: Vec<NodeSpec>) -> Result<Vec<Node>, OutOfMemory>
    requires { AllAreForNodes specs.items }
    ensures { IfOk result (λ nodes. nodes.items ≡ map new_node specs.items) }
{
    let mut nodes = Vec::with_capacity(alloc, specs.len())?;
    for spec in specs {
        nodes.push(new_node(alloc, spec)?)?;
    }
    Ok(nodes)
}

/// A node before its first entry.
fn new_node(alloc: Global, spec: NodeSpec) -> Result<Node, OutOfMemory>
    requires { is_for_node spec ≡ true }
    ensures { IfOk result (λ node. node ≡ new_node spec) }
{
    Node::new(alloc, spec)
}

/// A node of the station's specification with the actors of the network in their places.
fn open_node(
    alloc: Global,
    station: &Station,
    net: &Network,
    at: &[u16],
) -> Result<Node, OutOfMemory>
    requires spec { is_for_node (spec_of station.now) ≡ true }
    requires places { length at.now ≡ length net.now.actors }
    requires nodes { list_all is_node at.now ≡ true }
    ensures { IfOk result (λ node. node ≡ opened_as net.now at.now (spec_of station.now)) }
{
    let spec = station.node.journal().spec.copy(alloc)?;
    Node::open(alloc, spec, APP, net, at)
}

/// A node of each station's specification with the actors of the network in their places.
pub(crate) fn open_nodes(
    alloc: Global,
    stations: &[Station],
    net: &Network,
    at: &[u16],
) -> Result<Vec<Node>, OutOfMemory>
    requires specs { AllAreForNodes (map spec_of stations.now) }
    requires places { length at.now ≡ length net.now.actors }
    requires nodes { list_all is_node at.now ≡ true }
    ensures { IfOk result (λ nodes. nodes.items ≡ map (opened_as net.now at.now) (map spec_of stations.now)) }
{
    let mut nodes = Vec::new(alloc);
    for station in stations {
        nodes.push(open_node(alloc, station, net, at)?)?;
    }
    Ok(nodes)
}
