//! Connections of a network out of their trees.

ghost use Rattle.std.specs.Prelude.{◌≡◌, ◌<◌, ◌≤◌, ℕ, All, List, IfOk, MatchOption, Some, length, map, pos, slice_get};
ghost use Rattle.cv_kinds.specs.declared.network.Connection.{Connection};
ghost use Rattle.cv_kinds.specs.KindRow.{row_of};
ghost use Rattle.cv_kinds.specs.Table.{line_of};
ghost use Rattle.cv_kinds.specs.Wired.{HasInport, HasOutport, HasPorts};
ghost use Rattle.cv_network.specs.Written.{connection_token, inport_of, inport_token, outport_of, outport_token, port_token};
ghost use Rattle.cv_token.specs.declared.token.Token.TheVariants as tree;
ghost use Rattle.cv_kinds.specs.Net.{most_actors};

use cv_kinds::{ActorSpec, Connection, Kind, inport, outport};
use cv_token::{OutOfMemory, Token};
use std::alloc::Global;

/// The connections of these actors that have these trees. What other trees give is not said.
pub(crate) fn connections_of(
    alloc: Global,
    actors: &[ActorSpec],
    items: &[Token],
) -> Result<Option<Vec<Connection>>, OutOfMemory>
    ensures { (connections : List Connection) → length actors.now ≤ most_actors → All (HasPorts actors.now) connections → items.now ≡ map (connection_token actors.now) connections
        → IfOk result (λ found. MatchOption found ⊥ (λ list. list.items ≡ connections)) }
{
    let mut connections = Vec::with_capacity(alloc, items.len())?;
    for item in items {
        let Some(connection) = connection_of(actors, item) else {
            return Ok(None);
        };
        connections.push(connection)?;
    }
    Ok(Some(connections))
}

/// The connection that has this tree.
fn connection_of(actors: &[ActorSpec], token: &Token) -> Option<Connection>
    ensures { (connection : Connection) → length actors.now ≤ most_actors → HasPorts actors.now connection → token.now ≡ connection_token actors.now connection → result ≡ Some connection }
{
    let Token::List(parts) = token else {
        return None;
    };
    let parts = parts.as_slice();
    if parts.len() != 4 {
        return None;
    }
    connection_with(actors, &parts[0], &parts[1], &parts[2], &parts[3])
}

/// The connection of these ends.
fn connection_with(
    actors: &[ActorSpec],
    from: &Token,
    out: &Token,
    to: &Token,
    inp: &Token,
) -> Option<Connection>
    ensures { (connection : Connection) → length actors.now ≤ most_actors → HasPorts actors.now connection → from.now ≡ tree.Int (pos connection.from) → out.now ≡ outport_token actors.now connection
        → to.now ≡ tree.Int (pos connection.to) → inp.now ≡ inport_token actors.now connection → result ≡ Some connection }
{
    let from = read_place(from)?;
    let out = outport_in(actors, from, out)?;
    let to = read_place(to)?;
    let inp = inport_in(actors, to, inp)?;
    Some(Connection { from, out, to, inp })
}

/// The place of an actor.
fn read_place(token: &Token) -> Option<u16>
    ensures { (place : ℕ) → place ≤ most_actors → token.now ≡ tree.Int (pos place) → result ≡ Some place }
{
    match token {
        Token::Int(number) if *number >= 0 && *number <= 256 => Some(*number as u16),
        _ => None,
    }
}

/// The outport of that name of an actor.
fn outport_in(actors: &[ActorSpec], actor: u16, name: &Token) -> Option<u8>
    ensures { (port : ℕ) → HasOutport (slice_get actors.now actor) port → name.now ≡ outport_of port (slice_get actors.now actor) → result ≡ Some port }
{
    let spec = actors.get(usize::from(actor))?;
    outport_named(spec.kind, name)
}

/// The inport of that name of an actor.
fn inport_in(actors: &[ActorSpec], actor: u16, name: &Token) -> Option<u8>
    ensures { (port : ℕ) → HasInport (slice_get actors.now actor) port → name.now ≡ inport_of port (slice_get actors.now actor) → result ≡ Some port }
{
    let spec = actors.get(usize::from(actor))?;
    inport_named(spec.kind, name)
}

/// The outport of that name of a kind.
#[tactic(auto, using(crate::proofs::Ports::outport_known))]
fn outport_named(kind: Kind, name: &Token) -> Option<u8>
    ensures { (port : ℕ) → port < (row_of kind).outports → name.now ≡ port_token (line_of kind).outports port → result ≡ Some port }
{
    match name {
        Token::Text(name) => outport(kind, name.as_str()),
        _ => None,
    }
}

/// The inport of that name of a kind.
#[tactic(auto, using(crate::proofs::Ports::inport_known))]
fn inport_named(kind: Kind, name: &Token) -> Option<u8>
    ensures { (port : ℕ) → port < (row_of kind).inports → name.now ≡ port_token (line_of kind).inports port → result ≡ Some port }
{
    match name {
        Token::Text(name) => inport(kind, name.as_str()),
        _ => None,
    }
}
