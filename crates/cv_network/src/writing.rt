//! Networks as text.

ghost use Rattle.std.specs.Prelude.{◌≡◌, map, IfOk};
ghost use Rattle.cv_token.specs.declared.token.Token.TheVariants as tokens;
ghost use Rattle.cv_network.specs.Written.{network_spelling, network_token, actor_token, connection_token, port_token, outport_token, inport_token};

use cv_kinds::{ActorSpec, Connection, Network, name};
use cv_token::{Items, OutOfMemory, Pair, Pairs, Text, Token, copy_items, text};
use std::alloc::Global;

/// The text of a network, `{"actors":[[PATH,KIND,ARGUMENTS,null],..],"connections":[[FROM,OUTPORT,TO,INPORT],..]}`: actors
/// by their places, and ports by their names.
pub fn network_text(alloc: Global, net: &Network) -> Result<Text, OutOfMemory>
    ensures { IfOk result (λ text. text ≡ network_spelling net.now) }
{
    text(alloc, &network_token(alloc, net)?)
}

/// A network as a token.
pub fn network_token(alloc: Global, net: &Network) -> Result<Token, OutOfMemory>
    ensures { IfOk result (λ token. token ≡ network_token net.now) }
{
    let actor_list = actor_tokens(alloc, net.actors())?;
    let first = member(alloc, "actors", actor_list)?;
    let connection_list = connection_tokens(alloc, net.actors(), net.connections())?;
    let second = member(alloc, "connections", connection_list)?;
    let mut members = Pairs::new(alloc);
    members.push(first)?;
    members.push(second)?;
    Ok(Token::Dict(members))
}

/// A list under a key.
fn member(alloc: Global, key: &str, list: Items) -> Result<Pair<Token>, OutOfMemory>
    ensures { IfOk result (λ pair. pair ≡ record { key = key.now; value = tokens.List list }) }
{
    let key = own_text(alloc, key)?;
    Ok(Pair {
        key,
        value: Token::List(list),
    })
}

/// The actors, each as a list.
fn actor_tokens(alloc: Global, actors: &[ActorSpec]) -> Result<Items, OutOfMemory>
    ensures { IfOk result (λ tokens. tokens ≡ map actor_token actors.now) }
{
    let mut tokens = Items::new(alloc);
    for actor in actors {
        tokens.push(actor_token(alloc, actor)?)?;
    }
    Ok(tokens)
}

/// An actor: its path, its kind, its arguments, and null for its rule.
fn actor_token(alloc: Global, actor: &ActorSpec) -> Result<Token, OutOfMemory>
    ensures { IfOk result (λ token. token ≡ actor_token actor.now) }
{
    let mut parts = Items::new(alloc);
    parts.push(Token::Text(actor.path.copy(alloc)?))?;
    parts.push(Token::Text(own_text(alloc, name(actor.kind))?))?;
    parts.push(Token::List(copy_items(alloc, &actor.args)?))?;
    parts.push(Token::Null)?;
    Ok(Token::List(parts))
}

/// The connections, each as a list.
fn connection_tokens(
    alloc: Global,
    actors: &[ActorSpec],
    connections: &[Connection],
) -> Result<Items, OutOfMemory>
    ensures { IfOk result (λ tokens. tokens ≡ map (connection_token actors.now) connections.now) }
{
    let mut tokens = Items::new(alloc);
    for connection in connections {
        tokens.push(connection_token(alloc, actors, *connection)?)?;
    }
    Ok(tokens)
}

/// A connection: its producer's place and the outport's name, its consumer's place and the inport's name.
fn connection_token(
    alloc: Global,
    actors: &[ActorSpec],
    connection: Connection,
) -> Result<Token, OutOfMemory>
    ensures { IfOk result (λ token. token ≡ connection_token actors.now connection) }
{
    let mut parts = Items::new(alloc);
    parts.push(Token::Int(i64::from(connection.from)))?;
    parts.push(outport_token(alloc, actors, connection)?)?;
    parts.push(Token::Int(i64::from(connection.to)))?;
    parts.push(inport_token(alloc, actors, connection)?)?;
    Ok(Token::List(parts))
}

/// The name of the outport from which a connection comes.
fn outport_token(
    alloc: Global,
    actors: &[ActorSpec],
    connection: Connection,
) -> Result<Token, OutOfMemory>
    ensures { IfOk result (λ token. token ≡ outport_token actors.now connection) }
{
    match actors.get(connection.from as usize) {
        Some(actor) => port_token(alloc, actor.kind.line().outports, connection.out),
        None => Ok(Token::Null),
    }
}

/// The name of the inport to which a connection goes.
fn inport_token(
    alloc: Global,
    actors: &[ActorSpec],
    connection: Connection,
) -> Result<Token, OutOfMemory>
    ensures { IfOk result (λ token. token ≡ inport_token actors.now connection) }
{
    match actors.get(connection.to as usize) {
        Some(actor) => port_token(alloc, actor.kind.line().inports, connection.inp),
        None => Ok(Token::Null),
    }
}

/// The name of the port of that number.
fn port_token(alloc: Global, names: &[&str], number: u8) -> Result<Token, OutOfMemory>
    ensures { IfOk result (λ token. token ≡ port_token (map (λ text. text.now) names.now) number) }
{
    match names.get(number as usize) {
        Some(name) => Ok(Token::Text(own_text(alloc, name)?)),
        None => Ok(Token::Null),
    }
}

/// A text of its own.
fn own_text(alloc: Global, text: &str) -> Result<Text, OutOfMemory>
    ensures { IfOk result (λ own. own ≡ text.now) }
{
    Ok(Text::from_string(String::from_str(alloc, text)?))
}
