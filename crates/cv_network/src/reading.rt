//! Networks out of their one text.

ghost use Rattle.std.specs.Prelude.{◌≡◌, IfOk, Some, map};
ghost use Rattle.cv_token.specs.declared.token.Token.TheVariants as tree;
ghost use Rattle.cv_token.specs.Spells.{Spells};
ghost use Rattle.cv_kinds.specs.Net.{Net};
ghost use Rattle.cv_kinds.specs.WellFormed.{IsWellFormed};
ghost use Rattle.cv_network.specs.Read.{Gives, IsRead, IsTextOf};
ghost use Rattle.cv_network.specs.Written.{actor_token, connection_token, network_token};

use crate::actors::actors_of;
use crate::connections::connections_of;
use crate::fault::NetFault;
use crate::writing::network_token;
use cv_kinds::Network;
use cv_token::{OutOfMemory, Token, are_equal, read_spelled};
use std::alloc::Global;

/// The network whose text the bytes are; `BadNetwork` exactly where they are the text of none.
pub fn network_read(alloc: Global, bytes: &[u8]) -> Result<Network, NetFault>
    ensures exact { IsRead bytes.now result }

    // A network is read from its text.
    ensures again { (net : Net) → IsTextOf bytes.now net → Gives net result }
{
    let Some(tree) = read_spelled(alloc, bytes)? else {
        return Err(NetFault::BadNetwork);
    };
    let Some(net) = network_of(alloc, &tree)? else {
        return Err(NetFault::BadNetwork);
    };
    Ok(net)
}

/// The network that has this tree; None exactly where none has it.
pub fn network_of(alloc: Global, token: &Token) -> Result<Option<Network>, OutOfMemory>
    ensures exact { IfOk result (Spells IsWellFormed network_token token.now) }

    // A network is found by its tree.
    ensures again { (net : Net) → IsWellFormed net → token.now ≡ network_token net → IfOk result (λ found. found ≡ Some net) }
{
    let Some(net) = candidate(alloc, token)? else {
        return Ok(None);
    };
    net.well_formed();
    if are_equal(token, &network_token(alloc, &net)?) {
        Ok(Some(net))
    } else {
        Ok(None)
    }
}

/// The network that has this tree, where one has it.
fn candidate(alloc: Global, token: &Token) -> Result<Option<Network>, OutOfMemory>
    ensures { (net : Net) → IsWellFormed net → token.now ≡ network_token net → IfOk result (λ found. found ≡ Some net) }
{
    let Token::Dict(pairs) = token else {
        return Ok(None);
    };
    let pairs = pairs.as_slice();
    if pairs.len() != 2 {
        return Ok(None);
    }
    network_with(alloc, &pairs[0].value, &pairs[1].value)
}

/// The network whose actors and connections have these trees, where one has.
fn network_with(
    alloc: Global,
    actors: &Token,
    connections: &Token,
) -> Result<Option<Network>, OutOfMemory>
    ensures { (net : Net) → IsWellFormed net → actors.now ≡ tree.List (map actor_token net.actors) → connections.now ≡ tree.List (map (connection_token net.actors) net.connections)
        → IfOk result (λ found. found ≡ Some net) }
{
    let (Token::List(actors), Token::List(connections)) = (actors, connections) else {
        return Ok(None);
    };
    let Some(actors) = actors_of(alloc, actors.as_slice())? else {
        return Ok(None);
    };
    let Some(connections) = connections_of(alloc, actors.as_slice(), connections.as_slice())? else {
        return Ok(None);
    };
    Network::of(alloc, actors, connections)
}
