//! The nodes of a run, and where its actors live.

ghost use Rattle.std.specs.Prelude.{◌≡◌, ◌≤◌, map, IfOk};
ghost use Rattle.std.specs.List.{range_with_len};
ghost use Rattle.cv_spread.specs.Placing.{node_spec, node_specs, home_node, most_run_nodes};

use cv_rules::{Attrs, NodeSpec};
use cv_token::{OutOfMemory, Pair, Text};
use std::alloc::Global;

/// What the nodes 1 to `nodes` are from the start.
pub(crate) fn node_specs(alloc: Global, nodes: u16) -> Result<Vec<NodeSpec>, OutOfMemory>
    requires { nodes ≤ most_run_nodes }
    ensures { IfOk result (λ specs. specs.items ≡ node_specs nodes) }
{
    let mut specs = Vec::new(alloc);
    for earlier in 0..nodes {
        specs.push(node_spec(alloc, earlier + 1)?)?;
    }
    Ok(specs)
}

/// What a node is from the start.
fn node_spec(alloc: Global, no: u16) -> Result<NodeSpec, OutOfMemory>
    ensures { IfOk result (λ spec. spec ≡ node_spec no) }
{
    let key = Text::from_string(String::from_str(alloc, "node_name.name")?);
    let value = Text::from_string(format!(in alloc; "node{no}")?);
    let mut attrs = Attrs::new(alloc);
    attrs.push(Pair { key, value })?;
    Ok(NodeSpec {
        no,
        room: 1024,
        window: 1,
        attrs,
    })
}

/// The node of each of so many actors: they go to the nodes in turn.
pub(crate) fn places(alloc: Global, nodes: u16, actors: u16) -> Result<Vec<u16>, OutOfMemory>
    requires { (1 ≤ nodes) × (nodes ≤ most_run_nodes) }
    ensures { IfOk result (λ at. at.items ≡ map (home_node nodes) (range_with_len 0 actors)) }
{
    let mut at = Vec::new(alloc);
    for actor in 0..actors {
        at.push(actor % nodes + 1)?;
    }
    Ok(at)
}
