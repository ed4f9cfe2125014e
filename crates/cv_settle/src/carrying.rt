//! Tokens are carried over the connections of the live actors, each connection by itself.

ghost use Rattle.std.specs.Prelude.{◌≡◌, ◌<◌, length, true, is_err};
ghost use Rattle.cv_mesh.specs.Moving.{AreMeshed};
ghost use Rattle.cv_settle.specs.Settling.{Sweeps, is_carrying};

use crate::acting::act_at;
use crate::exchanging::exchange;
use cv_protocol::Event;
use cv_queue::Reader;
use cv_station::Station;
use cv_token::{ActorId, ConnId, OutOfMemory};
use std::alloc::Global;

/// How many tokens of a connection may be on their way at most.
const MOST_WINDOW: u16 = 64;

/// A connection of a live actor: its outport, and its place among the readers of that.
#[derive(Clone, Copy)]
struct Outlet {
    actor: ActorId,
    port: u8,
    place: u16,
}

/// How many readers an outport of a live actor has; None where there is no such port.
fn readers(station: &Station, actor: ActorId, port: u8) -> Option<u16> {
    let out = station.node.live(actor)?.out(port)?;
    Some(out.readers())
}

/// How far a connection came.
fn reader_of(station: &Station, outlet: Outlet) -> Option<Reader> {
    station
        .node
        .live(outlet.actor)?
        .out(outlet.port)?
        .reader(outlet.place)
}

/// Whether a connection came farther than that.
fn has_advanced(station: &Station, outlet: Outlet, before: Reader) -> bool {
    match reader_of(station, outlet) {
        Some(reader) => reader.acked != before.acked,
        None => false,
    }
}

/// What was sent and not acknowledged is to be sent again.
fn rewind(
    alloc: Global,
    stations: &mut [Station],
    at: usize,
    reader: Reader,
) -> Result<(), OutOfMemory>
    requires meshed { AreMeshed stations.old }
    requires place { at < length stations.old }
    ensures { Sweeps (is_err result) stations.old stations.new }
{
    if reader.sent == reader.acked {
        return Ok(());
    }
    act_at(alloc, stations, at, Event::Rewind { conn: reader.conn })?;
    Ok(())
}

/// How tokens are carried.
#[derive(Clone, Copy)]
enum Carrier {
    /// In frames, to a consumer on another node.
    Send,
    /// From port to port, to a consumer beside the producer.
    Pass,
}

impl Carrier {
    /// The event that carries a token of the connection.
    fn event(self, conn: ConnId) -> Event
        ensures { is_carrying result ≡ true }
    {
        match self {
            Carrier::Send => Event::Send { conn },
            Carrier::Pass => Event::Pass { conn },
        }
    }

    /// How many tokens are carried at once, at most: a window and more, or all that a queue can hold.
    fn most(self) -> u16 {
        match self {
            Carrier::Send => MOST_WINDOW,
            Carrier::Pass => u16::MAX,
        }
    }
}

/// Carries tokens of a connection until none can be carried; tells whether one was.
fn carry_tokens(
    alloc: Global,
    stations: &mut [Station],
    at: usize,
    conn: ConnId,
    carrier: Carrier,
) -> Result<bool, OutOfMemory>
    requires meshed { AreMeshed stations.old }
    requires place { at < length stations.old }
    ensures { Sweeps (is_err result) stations.old stations.new }
{
    for token in 0..carrier.most() {
        if !act_at(alloc, stations, at, carrier.event(conn))? {
            return Ok(token > 0);
        }
    }
    Ok(true)
}

/// Sends what the consumer on another node has not acknowledged, and has it delivered; tells whether a frame was lost.
fn resend(
    alloc: Global,
    stations: &mut [Station],
    at: usize,
    reader: Reader,
) -> Result<bool, OutOfMemory>
    requires meshed { AreMeshed stations.old }
    requires place { at < length stations.old }
    ensures { Sweeps (is_err result) stations.old stations.new }
{
    rewind(alloc, stations, at, reader)?;
    if !carry_tokens(alloc, stations, at, reader.conn, Carrier::Send)? {
        return Ok(false);
    }
    exchange(alloc, stations)
}

/// Carries tokens to the reader: passed where it lives beside the producer, and sent where it does not. Tells whether a frame was lost.
fn carry_to(
    alloc: Global,
    stations: &mut [Station],
    at: usize,
    reader: Reader,
) -> Result<bool, OutOfMemory>
    requires meshed { AreMeshed stations.old }
    requires place { at < length stations.old }
    ensures { Sweeps (is_err result) stations.old stations.new }
{
    if stations[at].node.live(reader.consumer).is_none() {
        return resend(alloc, stations, at, reader);
    }
    carry_tokens(alloc, stations, at, reader.conn, Carrier::Pass)?;
    Ok(false)
}

/// Carries tokens over a connection; tells whether it advanced or a frame was lost.
fn carry(
    alloc: Global,
    stations: &mut [Station],
    at: usize,
    outlet: Outlet,
) -> Result<bool, OutOfMemory>
    requires meshed { AreMeshed stations.old }
    requires place { at < length stations.old }
    ensures { Sweeps (is_err result) stations.old stations.new }
{
    let Some(reader) = reader_of(&stations[at], outlet) else {
        return Ok(false);
    };
    let lost = carry_to(alloc, stations, at, reader)?;
    Ok(lost || has_advanced(&stations[at], outlet, reader))
}

/// Carries tokens from an outport to its readers, of which there are so many; tells whether that had an effect.
fn carry_port(
    alloc: Global,
    stations: &mut [Station],
    at: usize,
    actor: ActorId,
    port: u8,
    readers: u16,
) -> Result<bool, OutOfMemory>
    requires meshed { AreMeshed stations.old }
    requires place { at < length stations.old }
    ensures { Sweeps (is_err result) stations.old stations.new }
{
    let mut moved = false;
    for place in 0..readers {
        let outlet = Outlet { actor, port, place };
        moved |= carry(alloc, stations, at, outlet)?;
    }
    Ok(moved)
}

/// Carries tokens from all outports of an actor; tells whether that had an effect.
fn carry_from(
    alloc: Global,
    stations: &mut [Station],
    at: usize,
    actor: ActorId,
) -> Result<bool, OutOfMemory>
    requires meshed { AreMeshed stations.old }
    requires place { at < length stations.old }
    ensures { Sweeps (is_err result) stations.old stations.new }
{
    let mut moved = false;
    for port in 0..u8::MAX {
        let Some(readers) = readers(&stations[at], actor, port) else {
            return Ok(moved);
        };
        moved |= carry_port(alloc, stations, at, actor, port, readers)?;
    }
    Ok(moved)
}

/// Carries tokens from all live actors of a node; tells whether that had an effect.
pub(crate) fn carry_all(
    alloc: Global,
    stations: &mut [Station],
    at: usize,
) -> Result<bool, OutOfMemory>
    requires meshed { AreMeshed stations.old }
    requires place { at < length stations.old }
    ensures { Sweeps (is_err result) stations.old stations.new }
{
    let mut moved = false;
    for place in 0..u32::MAX {
        let Some(actor) = stations[at].node.live_at(place) else {
            return Ok(moved);
        };
        moved |= carry_from(alloc, stations, at, actor)?;
    }
    Ok(moved)
}
