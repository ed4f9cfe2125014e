//! A network run on one node, and the record of the run.

ghost use Rattle.std.specs.Prelude.{◌≡◌, ◌<◌, ◌≤◌, ℕ, [], ◌∷◌, length, codes, Ok, IfOk, OnOk};
ghost use Rattle.cv_protocol.specs.NodeState.{opening};
ghost use Rattle.cv_node.specs.Counts.{journal_length};
ghost use Rattle.cv_alone.specs.Going.{EndsInFiring, GoesOn, is_own};
ghost use Rattle.cv_alone.specs.Recorded.{IsOneNodeRun, first_entry, first_spec};
ghost use Rattle.cv_alone.specs.Resting.{Quiet};
ghost use Rattle.cv_alone.specs.Turns.{StaysPatient, Turns};

use crate::sweep::{pass_all, poll_all, tick};
use cv_kinds::Network;
use cv_merge::merge;
use cv_node::Node;
use cv_protocol::{Event, Record};
use cv_rules::{Attrs, NodeSpec};
use cv_token::{OutOfMemory, Pair, Text};
use sqlite_items::Boxed;
use std::alloc::{AllocError, Global};

/// How a run ends.
#[derive(Debug, Clone, Copy, PartialEq, Eq)]
pub enum RunEnd {
    /// As many firings were made as were allowed.
    Spent,
    /// Nothing can fire and no token can move.
    Quiescent,
}

/// Runs a network on node 1, with so many firings at most: how the run stopped, and its record.
pub fn run_alone(alloc: Global, net: Network, most: u32) -> Result<(RunEnd, Record), OutOfMemory>
    ensures { IfOk result (λ run. IsOneNodeRun net most run.0 run.1) }
{
    let (actors, connections) = sizes(&net);
    let mut node = start_node(alloc, net)?;
    let stop = go_on(&mut node, alloc, actors, connections, most)?;
    let mut journals = Vec::new(alloc);
    journals.push(node.into_journal())?;
    let merged = merge(alloc, journals)?;
    Ok((stop, merged))
}

/// How many actors and connections the network has.
fn sizes(net: &Network) -> (u16, u16)
    ensures actors { result.0 ≡ length net.now.actors }
    ensures connections { result.1 ≡ length net.now.connections }
{
    let actors = net.actors().len() as u16;
    let connections = net.connections().len() as u16;
    (actors, connections)
}

/// A node with the network's one deployment.
fn start_node(alloc: Global, net: Network) -> Result<Node, OutOfMemory>
    ensures entries { IfOk result (λ node. node.entries ≡ first_entry net ∷ []) }
    ensures base { IfOk result (λ node. node.base ≡ opening first_spec) }
{
    let mut node = Node::new(alloc, first_spec(alloc)?)?;
    let name = Text::from_string(String::from_str(alloc, "run")?);
    let net = Boxed::new(alloc, net)?;
    match node.step(alloc, Event::Deploy { name, net }) {
        Ok(_sent) => Ok(node),
        Err(_cause) => Err(AllocError),
    }
}

/// The specification of node 1.
fn first_spec(alloc: Global) -> Result<NodeSpec, OutOfMemory>
    ensures { IfOk result (λ spec. spec ≡ first_spec) }
{
    let key = Text::from_string(String::from_str(alloc, "node_name.name")?);
    let value = Text::from_string(String::from_str(alloc, "node1")?);
    let mut attrs = Attrs::new(alloc);
    attrs.push(Pair { key, value })?;
    Ok(NodeSpec {
        no: 1,
        room: 1024,
        window: 1,
        attrs,
    })
}

/// Goes on until `most` firings were made or nothing of the network can happen any more.
fn go_on(
    node: &mut Node,
    alloc: Global,
    actors: u16,
    connections: u16,
    most: u32,
) -> Result<RunEnd, OutOfMemory>
    requires few { length node.old.entries ≤ journal_length }
    ensures spent { result ≡ Ok RunEnd.Spent → GoesOn is_own node.old node.new most }
    ensures quiescent { result ≡ Ok RunEnd.Quiescent → (fired : ℕ) × (fired < most) × GoesOn is_own node.old node.new fired }
    ensures quiet { result ≡ Ok RunEnd.Quiescent → Quiet node.new.state actors connections }
    ensures patient { OnOk result (StaysPatient actors connections node.old node.new) }
    ensures ends { result ≡ Ok RunEnd.Spent → 0 < most → EndsInFiring node.new.entries }
{
    let mut left = most;
    while left > 0 {
        let Some(fired) = turn(node, alloc, actors, connections, left)? else {
            return Ok(RunEnd::Quiescent);
        };
        left -= fired;
    }
    Ok(RunEnd::Spent)
}

/// Passes a token over each connection where one can pass, and polls each actor once; where nothing came of it, time goes on to the
/// earliest moment that an action waits for. Tells how many fired; None where nothing can happen any more.
fn turn(
    node: &mut Node,
    alloc: Global,
    actors: u16,
    connections: u16,
    most: u32,
) -> Result<Option<u32>, OutOfMemory>
    requires { 0 < most }
    ensures { IfOk result (λ fired. Turns node.old actors connections most fired node.new) }
{
    let passed = pass_all(node, alloc, connections)?;
    let swept = poll_all(node, alloc, actors, most)?;
    if passed || swept.changed {
        return Ok(Some(swept.fired));
    }
    let Some(moment) = swept.due else {
        return Ok(None);
    };
    tick(node, alloc, moment)?;
    Ok(Some(0))
}
