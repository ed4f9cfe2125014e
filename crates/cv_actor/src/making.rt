//! The ports of an actor at the start.

ghost use Rattle.std.specs.Prelude.{◌≡◌, ◌≤◌, length, IfOk};
ghost use Rattle.cv_protocol.specs.Travel.{inlet_of, inlets_of, readers_of, outs_of};
ghost use Rattle.cv_kinds.specs.Net.{most_connections};

use cv_kinds::Connection;
use cv_protocol::Inlet;
use cv_queue::{InPort, OutPort, Readers, Subscription};
use cv_token::{ActorId, ConnId, OutOfMemory};
use std::alloc::Global;

/// How many tokens a port holds at most.
const QUEUE_LENGTH: u16 = 4;

/// The actor's inports, each with the connection that feeds it.
pub(crate) fn new_inlets(
    alloc: Global,
    id: ActorId,
    connections: &[Connection],
    count: u8,
) -> Result<Vec<Option<Inlet>>, OutOfMemory>
    requires { length connections.now ≤ most_connections }
    ensures { IfOk result (λ ins. ins.items ≡ inlets_of id.app connections.now id.actor 0 count) }
{
    let mut ins = Vec::with_capacity(alloc, usize::from(count))?;
    for port in 0..count {
        ins.push(new_inlet(alloc, id, connections, port)?)?;
    }
    Ok(ins)
}

/// One inport of the actor; None where nothing feeds it.
fn new_inlet(
    alloc: Global,
    id: ActorId,
    connections: &[Connection],
    port: u8,
) -> Result<Option<Inlet>, OutOfMemory>
    requires { length connections.now ≤ most_connections }
    ensures { IfOk result (λ inlet. inlet ≡ inlet_of id.app 0 connections.now id.actor port) }
{
    for (place, connection) in connections.iter().enumerate() {
        if connection.to == id.actor && connection.inp == port {
            return Ok(Some(Inlet {
                conn: ConnId {
                    app: id.app,
                    place: place as u16,
                },
                producer: ActorId {
                    app: id.app,
                    actor: connection.from,
                },
                port: InPort::new(alloc, QUEUE_LENGTH)?,
            }));
        }
    }
    Ok(None)
}

/// The actor's outports, each with its readers.
pub(crate) fn new_outs(
    alloc: Global,
    id: ActorId,
    connections: &[Connection],
    count: u8,
) -> Result<Vec<OutPort>, OutOfMemory>
    requires { length connections.now ≤ most_connections }
    ensures { IfOk result (λ outs. outs.items ≡ outs_of id.app connections.now id.actor 0 count) }
{
    let mut outs = Vec::with_capacity(alloc, usize::from(count))?;
    for port in 0..count {
        let readers = new_readers(alloc, id, connections, port)?;
        outs.push(OutPort::new(alloc, QUEUE_LENGTH, readers)?)?;
    }
    Ok(outs)
}

/// The readers of an outport of the actor, by rising connection.
fn new_readers(
    alloc: Global,
    id: ActorId,
    connections: &[Connection],
    port: u8,
) -> Result<Readers, OutOfMemory>
    requires { length connections.now ≤ most_connections }
    ensures { IfOk result (λ readers. readers ≡ readers_of id.app 0 connections.now id.actor port) }
{
    let mut readers = Readers::new(alloc);
    for (place, connection) in connections.iter().enumerate() {
        if connection.from == id.actor && connection.out == port {
            readers.push(Subscription {
                conn: ConnId {
                    app: id.app,
                    place: place as u16,
                },
                consumer: ActorId {
                    app: id.app,
                    actor: connection.to,
                },
                acked: 0,
            })?;
        }
    }
    Ok(readers)
}
