//! A text, and a small network.

ghost use Rattle.std.specs.Prelude.{◌≡◌, length, IfOk};

use cv_flow::FlowKind;
use cv_kinds::{ActorSpec, Connection, Kind, Network};
use cv_token::{Items, OutOfMemory, Text, Token};
use std::alloc::{AllocError, Global};

/// The source's outport feeds the print's inport.
const CONNECTION: Connection = Connection {
    from: 0,
    out: 0,
    to: 1,
    inp: 0,
};

/// A text with these characters.
pub fn text(alloc: Global, it: &str) -> Result<Text, OutOfMemory> {
    Ok(Text::from_string(String::from_str(alloc, it)?))
}

/// `src : std.Constant(data=7, n=tokens)`.
fn constant(alloc: Global, tokens: i64) -> Result<ActorSpec, OutOfMemory> {
    let mut args = Items::new(alloc);
    args.push(Token::Int(7))?;
    args.push(Token::Int(tokens))?;
    Ok(ActorSpec {
        path: text(alloc, "src")?,
        kind: Kind::Flow(FlowKind::Constant),
        args,
    })
}

/// `snk : io.Print()`.
fn print(alloc: Global) -> Result<ActorSpec, OutOfMemory> {
    Ok(ActorSpec {
        path: text(alloc, "snk")?,
        kind: Kind::Flow(FlowKind::Print),
        args: Items::new(alloc),
    })
}

/// `src : std.Constant(data=7, n=tokens)`, `snk : io.Print()`, `src.token > snk.token`.
pub fn constant_to_print(alloc: Global, tokens: i64) -> Result<Network, OutOfMemory>
    ensures { IfOk result (λ net. length net.actors ≡ 2) }
{
    let mut actors = Vec::new(alloc);
    actors.push(constant(alloc, tokens)?)?;
    actors.push(print(alloc)?)?;
    let mut connections = Vec::new(alloc);
    connections.push(CONNECTION)?;
    match Network::of(alloc, actors, connections)? {
        Some(net) => Ok(net),
        None => Err(AllocError),
    }
}
