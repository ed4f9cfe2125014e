//! Networks: the actors that a script declares, and the connections between their ports.

ghost use Rattle.std.specs.Prelude.{◌≡◌, ◌≤◌, length, IfOk};
ghost use Rattle.cv_kinds.specs.WellFormed.{IsWellFormed};
ghost use Rattle.cv_kinds.specs.Net.{most_actors, most_connections};

use crate::kind::Kind;
use cv_token::{Items, OutOfMemory, Text, copy_items};
use std::alloc::Global;
use std::marker::Model;

/// An actor of a network: its path from the root, its kind, and its arguments in the order of the kind's row.
#[derive(Drop)]
pub struct ActorSpec {
    pub path: Text,
    pub kind: Kind,
    pub args: Items,
}

/// A connection from outport `out` of actor `from` to inport `inp` of actor `to`; actors by their places.
#[derive(Debug, Clone, Copy, PartialEq, Eq)]
pub struct Connection {
    pub from: u16,
    pub out: u8,
    pub to: u16,
    pub inp: u8,
}

/// A network: at most 256 actors, no two at one path, each with arguments of its kind's row, and at most 4,096 connections
/// of ports that are there, by consumer and then inport, no two to one inport. Contracts see it as the lists of both.
#[derive(Drop)]
pub struct Network {
    actors: Vec<ActorSpec>,
    connections: Vec<Connection>,
}

impl Model for Network {
    ghost use Rattle.std.specs.Coded.{codes};
    ghost use Rattle.cv_token.specs.contracts.token.Token as token;
    ghost use Rattle.cv_kinds.specs.Net.{Net};
    ghost use Rattle.cv_kinds.specs.WellFormed.{IsWellFormed};

    ghost Value = { Net };

    ghost coded = { Prim.hlevel (codes, token.the_row.coded) };

    ghost view = { λ n. record { actors = n.actors.items; connections = n.connections.items } };

    ghost invariant = { λ n. IsWellFormed (record { actors = n.actors.items; connections = n.connections.items }) };
}

impl ActorSpec {
    /// An equal specification.
    pub fn copy(&self, alloc: Global) -> Result<ActorSpec, OutOfMemory>
        ensures { IfOk result (λ spec. spec ≡ self.now) }
    {
        let path = self.path.copy(alloc)?;
        let args = copy_items(alloc, &self.args)?;
        Ok(ActorSpec {
            path,
            kind: self.kind,
            args,
        })
    }
}

impl Network {
    /// The network of these actors, in the order of their declarations, and of these connections, by consumer and
    /// then inport; it takes no memory.
    pub fn new(actors: Vec<ActorSpec>, connections: Vec<Connection>) -> Network
        requires { IsWellFormed (record { actors = actors.items; connections = connections.items }) }
        ensures actors { result.actors ≡ actors.items }
        ensures connections { result.connections ≡ connections.items }
    {
        Network {
            actors,
            connections,
        }
    }

    /// What holds of each network; it does nothing.
    pub fn well_formed(&self)
        ensures { IsWellFormed self.now }
    {
        let _ = &self.actors;
    }

    /// The actors, in the order of their declarations.
    pub fn actors(&self) -> &[ActorSpec]
        ensures value { result.now ≡ self.now.actors }
        ensures few { length result.now ≤ most_actors }
    {
        self.actors.as_slice()
    }

    /// The connections, by consumer and then inport. A connection's place is its position here.
    pub fn connections(&self) -> &[Connection]
        ensures value { result.now ≡ self.now.connections }
        ensures few { length result.now ≤ most_connections }
    {
        self.connections.as_slice()
    }

    /// An equal network.
    pub fn copy(&self, alloc: Global) -> Result<Network, OutOfMemory>
        ensures { IfOk result (λ net. net ≡ self.now) }
    {
        let actors = copy_actors(alloc, self.actors.as_slice())?;
        let connections = Vec::from_slice(alloc, self.connections.as_slice())?;
        Ok(Network {
            actors,
            connections,
        })
    }
}

fn copy_actors(alloc: Global, actors: &[ActorSpec]) -> Result<Vec<ActorSpec>, OutOfMemory>
    ensures { IfOk result (λ copies. copies.items ≡ actors.now) }
{
    let mut copies = Vec::with_capacity(alloc, actors.len())?;
    for actor in actors {
        copies.push(actor.copy(alloc)?)?;
    }
    Ok(copies)
}
