//! `Solo`: the machine of the one-runtime meaning.

ghost use Rattle.std.specs.Prelude.{◌≡◌, ◌==◌, ◌&&◌, ◌+◌, ◌<◌, ◌^◌, [], ◌++◌, length, vec_len, Some, None, false, map, replicate, drop, take, IfOk, OnOk, OnErr, Err, if◌then◌else◌, ◌≤◌, All};
ghost use Rattle.cv_solo.specs.OneRuntime.{opening, waiting, inputs_from, inputs_of, given_on, taken_on, stream_after, fire, ready_of, FiresOne};
ghost use Rattle.cv_solo.specs.Machine.{Machine};
ghost use Rattle.cv_solo.specs.Touching.{touching, changed_at_all};
ghost use Rattle.cv_solo.specs.Undoing.{undone, without_last};
ghost use Rattle.std.specs.Option.{option_copied};
ghost use Rattle.cv_behave.specs.KindRow.{has_counts, head_at, heads_of};
ghost use Rattle.cv_kinds.specs.KindRow.{row_of};

use crate::stream::Stream;
use crate::touching::{Places, places_by_actor};
use cv_behave::{Behave, Effect, Outs};
use cv_kinds::{ActorSpec, Connection, Network};
use cv_token::{Items, OutOfMemory, Token};
use std::alloc::{AllocError, Global};
use std::marker::Model;

/// Why a firing was refused.
#[derive(Debug, Clone, Copy, PartialEq, Eq)]
pub enum SoloFault {
    /// Tokens or guard lack, or there is no such actor or action.
    NotEnabled,
    OutOfMemory,
}

impl From<AllocError> for SoloFault {
    ghost use Rattle.std.specs.Prelude.{◌≡◌};
    ghost use Rattle.cv_solo.specs.declared.solo.SoloFault.TheVariants.{OutOfMemory};

    ghost from_gives = { λ _ e. e ≡ OutOfMemory };

    fn from(_error: AllocError) -> SoloFault {
        SoloFault::OutOfMemory
    }
}

/// One runtime over a network, with unbounded lists in place of queues.
#[derive(Drop)]
pub struct Solo {
    net: Network,
    slots: Vec<Items>,
    streams: Vec<Stream>,
    /// Of each actor, the places of the connections that touch it.
    places: Vec<Places>,
}

impl Model for Solo {
    ghost use Rattle.std.specs.Coded.{codes};
    ghost use Rattle.cv_token.specs.contracts.token.Token as token;
    ghost use Rattle.std.specs.Prelude.{length};
    ghost use Rattle.cv_solo.specs.Machine.{Machine, FitsNet};
    ghost use Rattle.cv_solo.specs.Touching.{AreTouching};

    ghost Value = { Machine };

    ghost coded = { Prim.hlevel (codes, token.the_row.coded) };

    ghost view = { λ s. record { net = s.net; runtime = record { slots = s.slots.items; streams = s.streams.items } } };

    ghost invariant = { λ s. record {
      fits : FitsNet s.net (length s.slots.items) (length s.streams.items);
      touching : AreTouching s.places.items s.net.connections (length s.net.actors);
    } };
}

impl Solo {
    /// The machine of a network before its first firing.
    pub fn new(alloc: Global, net: &Network) -> Result<Solo, OutOfMemory>
        ensures { IfOk result (λ s. s ≡ record { net = net.now; runtime = opening net.now }) }
    {
        let slots = starting_slots(alloc, net.actors())?;
        let streams = empty_streams(alloc, net.connections().len())?;
        let places = places_by_actor(alloc, net.actors().len(), net.connections())?;
        Ok(Solo {
            net: net.copy(alloc)?,
            slots,
            streams,
            places,
        })
    }

    /// Fires an action of an actor. Neither space nor priority nor time is looked at. What is refused changes nothing:
    /// NotEnabled comes exactly where tokens or guard lack or there is no such actor or action.
    pub fn fire(&mut self, alloc: Global, actor: u16, action: u8) -> Result<(), SoloFault>
        ensures net { self.new.net ≡ self.old.net }
        ensures fired { OnOk result (fire self.old.net self.old.runtime actor action ≡ Some self.new.runtime) }
        ensures not_enabled { result ≡ Err SoloFault.NotEnabled → fire self.old.net self.old.runtime actor action ≡ None }
        ensures only { fire self.old.net self.old.runtime actor action ≡ None → result ≡ Err SoloFault.NotEnabled }
        ensures err { OnErr result (self.new ≡ self.old) }
    {
        let Some(spec) = self.net.actors().get(actor as usize) else {
            return Err(SoloFault::NotEnabled)
        };
        fire_one(
            alloc,
            spec,
            self.net.connections(),
            self.places[actor as usize].as_slice(),
            &mut self.slots[actor as usize],
            &mut self.streams,
            actor,
            action,
        )
    }
}

impl Solo {
    /// The network.
    pub fn network(&self) -> &Network
        ensures { result.now ≡ self.now.net }
    {
        &self.net
    }

    /// What went over each connection, by its place.
    pub fn streams(&self) -> &[Stream]
        ensures { result.now ≡ self.now.runtime.streams }
    {
        self.streams.as_slice()
    }
}

/// Fires an action of an actor with these slots. It looks at no connection that does not touch the actor.
#[tactic(auto, using(crate::proofs::Touched::streams_touched, crate::proofs::Touched::touching_within))]
fn fire_one(
    alloc: Global,
    spec: &ActorSpec,
    connections: &[Connection],
    places: &[usize],
    slots: &mut Items,
    streams: &mut Vec<Stream>,
    actor: u16,
    action: u8,
) -> Result<(), SoloFault>
    requires by_connection { length connections.now ≡ vec_len streams.old }
    requires touching { places.now ≡ touching connections.now actor }
    ensures len { vec_len streams.new ≡ vec_len streams.old }
    ensures fired { OnOk result (FiresOne spec.now connections.now actor action slots.old streams.old.items slots.new streams.new.items) }
    ensures not_enabled { result ≡ Err SoloFault.NotEnabled → ready_of spec.now connections.now actor action slots.old streams.old.items ≡ false }
    ensures only { ready_of spec.now connections.now actor action slots.old streams.old.items ≡ false → result ≡ Err SoloFault.NotEnabled }
    ensures err { OnErr result ((slots.new ≡ slots.old) × (streams.new.items ≡ streams.old.items)) }
{
    if !is_ready(
        spec,
        connections,
        places,
        streams.as_slice(),
        slots,
        actor,
        action,
    ) {
        return Err(SoloFault::NotEnabled);
    }
    let heads = copied_heads(
        alloc,
        spec,
        connections,
        places,
        streams.as_slice(),
        actor,
        action,
    )?;
    let Effect { state, out } = spec.kind.effect(alloc, &spec.args, slots, action, &heads)?;
    advance_all(
        alloc,
        spec,
        actor,
        action,
        &out,
        connections,
        places,
        streams,
    )?;
    *slots = state;
    Ok(())
}

/// Whether the action is ready on the slots and on what waits at the inports.
fn is_ready(
    spec: &ActorSpec,
    connections: &[Connection],
    places: &[usize],
    streams: &[Stream],
    slots: &Items,
    actor: u16,
    action: u8,
) -> bool
    requires by_connection { length connections.now ≡ length streams.now }
    requires touching { places.now ≡ touching connections.now actor }
    ensures { result ≡ ready_of spec.now connections.now actor action slots.now streams.now }
{
    let head = guard_head(spec, connections, places, streams, actor);
    has_counts(spec, connections, places, streams, actor, action)
        && spec.kind.guard(&spec.args, slots, action, head)
}

/// The first token that waits at the guard port.
fn guard_head<'a>(
    spec: &ActorSpec,
    connections: &[Connection],
    places: &[usize],
    streams: &'a [Stream],
    actor: u16,
) -> Option<&'a Token>
    requires by_connection { length connections.now ≡ length streams.now }
    requires touching { places.now ≡ touching connections.now actor }
    ensures { option_copied result ≡ head_at (row_of spec.now.kind).guard_port (inputs_of spec.now connections.now streams.now actor) }
{
    let port = spec.kind.guard_port()?;
    waiting_tokens(connections, places, streams, actor, port).first()
}

/// What a firing did to a connection.
#[derive(Clone, Copy)]
pub(crate) struct Change {
    /// How many tokens it took.
    pub taken: u64,
    /// Whether it wrote one.
    pub gave: bool,
}

/// What a firing writes to the connections at these places and takes from them. Want of memory changes nothing.
#[cycle(advance)]
fn advance_all(
    alloc: Global,
    spec: &ActorSpec,
    actor: u16,
    action: u8,
    out: &Outs,
    connections: &[Connection],
    places: &[usize],
    streams: &mut Vec<Stream>,
) -> Result<(), OutOfMemory>
    requires by_connection { length connections.now ≡ vec_len streams.old }
    requires within { All (λ place. place < length connections.now) places.now }
    ensures len { vec_len streams.new ≡ vec_len streams.old }
    ensures after { OnOk result (streams.new.items ≡ changed_at_all (λ j s. stream_after spec.now actor action out.now j s) connections.now places.now streams.old.items) }
    ensures err { OnErr result (streams.new.items ≡ streams.old.items) }
{
    let Some((first, rest)) = places.split_first() else {
        return Ok(());
    };
    let place = *first;
    let change = advance(
        alloc,
        spec,
        actor,
        action,
        out,
        &connections[place],
        &mut streams[place],
    )?;
    let rest = advance_all(alloc, spec, actor, action, out, connections, rest, streams);
    if let Err(error) = rest {
        retreat(change, &mut streams[place]);
        return Err(error);
    }
    Ok(())
}

/// What a firing writes to a connection and takes from it. Want of memory changes nothing.
fn advance(
    alloc: Global,
    spec: &ActorSpec,
    actor: u16,
    action: u8,
    out: &Outs,
    connection: &Connection,
    stream: &mut Stream,
) -> Result<Change, OutOfMemory>
    ensures after { OnOk result (stream.new ≡ stream_after spec.now actor action out.now connection.now stream.old) }
    ensures back { IfOk result (λ change. (change.taken ≤ stream.new.took) × (undone change stream.new ≡ stream.old)) }
    ensures err { OnErr result (stream.new ≡ stream.old) }
{
    let taken = taken_from(spec, actor, action, connection, stream);
    let gave = give(alloc, actor, out, connection, &mut stream.wrote)?;
    stream.took += taken;
    Ok(Change { taken, gave })
}

/// Takes back what a firing did to a connection.
fn retreat(change: Change, stream: &mut Stream)
    requires { change.taken ≤ stream.old.took }
    ensures { stream.new ≡ undone change stream.old }
{
    if change.gave {
        let _last = stream.wrote.pop();
    }
    stream.took -= change.taken;
}

/// Writes to a connection the token that its outport is given, and tells whether there is one. Want of memory changes
/// nothing.
fn give(
    alloc: Global,
    actor: u16,
    out: &Outs,
    connection: &Connection,
    wrote: &mut Items,
) -> Result<bool, OutOfMemory>
    ensures after { OnOk result (wrote.new ≡ wrote.old ++ given_on out.now actor connection.now) }
    ensures back { IfOk result (λ gave. (if gave then without_last wrote.new else wrote.new) ≡ wrote.old) }
    ensures err { OnErr result (wrote.new ≡ wrote.old) }
{
    if connection.from != actor {
        return Ok(false);
    }
    match out.get(connection.out as usize) {
        Some(Some(token)) => {
            wrote.push(token.copy(alloc)?)?;
            Ok(true)
        }
        _ => Ok(false),
    }
}

/// How many tokens a firing takes from a connection.
fn taken_from(
    spec: &ActorSpec,
    actor: u16,
    action: u8,
    connection: &Connection,
    stream: &Stream,
) -> u64
    ensures taken { result ≡ taken_on spec.now actor action connection.now stream.now }
    ensures fits { stream.now.took + result < 2 ^ 64 }
{
    let took = stream.took;
    if connection.to != actor {
        return 0;
    }
    let waits = (stream.wrote.len() as u64).saturating_sub(took);
    u64::from(spec.kind.needs(&spec.args, action, connection.inp)).min(waits)
}

/// The slots of each actor at the start.
fn starting_slots(alloc: Global, actors: &[ActorSpec]) -> Result<Vec<Items>, OutOfMemory>
    ensures { IfOk result (λ slots. slots.items ≡ map (λ a. (row_of a.kind).start a.args) actors.now) }
{
    let mut slots = Vec::with_capacity(alloc, actors.len())?;
    for actor in actors {
        slots.push(actor.kind.start(alloc, &actor.args)?)?;
    }
    Ok(slots)
}

/// So many streams with nothing written.
fn empty_streams(alloc: Global, count: usize) -> Result<Vec<Stream>, OutOfMemory>
    ensures { IfOk result (λ streams. streams.items ≡ replicate count (record { wrote = []; took = 0 })) }
{
    let mut streams = Vec::with_capacity(alloc, count)?;
    for _ in 0..count {
        streams.push(Stream {
            wrote: Items::new(alloc),
            took: 0,
        })?;
    }
    Ok(streams)
}

/// The tokens that wait at an inport of an actor.
#[tactic(auto, using(crate::proofs::Touched::waiting_touched, crate::proofs::Touched::touching_within))]
fn waiting_tokens<'a>(
    connections: &[Connection],
    places: &[usize],
    streams: &'a [Stream],
    actor: u16,
    port: u8,
) -> &'a [Token]
    requires by_connection { length connections.now ≡ length streams.now }
    requires touching { places.now ≡ touching connections.now actor }
    ensures { result.now ≡ waiting connections.now streams.now actor port }
{
    for place in places {
        if feeds(&connections[*place], actor, port) {
            return left_of(&streams[*place]);
        }
    }
    &[]
}

/// Whether a connection feeds the inport.
pub(crate) fn feeds(connection: &Connection, actor: u16, port: u8) -> bool
    ensures { result ≡ ((connection.now.to == actor) && (connection.now.inp == port)) }
{
    connection.to == actor && connection.inp == port
}

/// The tokens of a stream that were not taken.
fn left_of(stream: &Stream) -> &[Token]
    ensures { result.now ≡ drop stream.now.took stream.now.wrote }
{
    let wrote = stream.wrote.as_slice();
    if stream.took < wrote.len() as u64 {
        wrote.split_at(stream.took as usize).1
    } else {
        &[]
    }
}

/// Whether each needed inport has its count.
#[tactic(auto, using(crate::proofs::Inputs::inputs_next))]
fn has_counts(
    spec: &ActorSpec,
    connections: &[Connection],
    places: &[usize],
    streams: &[Stream],
    actor: u16,
    action: u8,
) -> bool
    requires by_connection { length connections.now ≡ length streams.now }
    requires touching { places.now ≡ touching connections.now actor }
    ensures { result ≡ has_counts (row_of spec.now.kind) spec.now.args action 0 (inputs_from connections.now streams.now actor 0 (row_of spec.now.kind).inports) }
{
    for port in 0..spec.kind.inports() {
        let needed = spec.kind.needs(&spec.args, action, port);
        if waiting_tokens(connections, places, streams, actor, port).len() < needed as usize {
            return false;
        }
    }
    true
}

/// Copies of the needed tokens, port by port.
#[tactic(auto, using(crate::proofs::Inputs::inputs_next))]
fn copied_heads(
    alloc: Global,
    spec: &ActorSpec,
    connections: &[Connection],
    places: &[usize],
    streams: &[Stream],
    actor: u16,
    action: u8,
) -> Result<Items, OutOfMemory>
    requires by_connection { length connections.now ≡ length streams.now }
    requires touching { places.now ≡ touching connections.now actor }
    ensures { IfOk result (λ heads. heads ≡ heads_of (row_of spec.now.kind) spec.now.args action 0 (inputs_from connections.now streams.now actor 0 (row_of spec.now.kind).inports)) }
{
    let mut heads = Items::new(alloc);
    for port in 0..spec.kind.inports() {
        let needed = spec.kind.needs(&spec.args, action, port);
        copy_first(
            alloc,
            waiting_tokens(connections, places, streams, actor, port),
            needed,
            &mut heads,
        )?;
    }
    Ok(heads)
}

/// Adds copies of the first `count` tokens, or of all where there are fewer, to the end of `heads`.
fn copy_first(
    alloc: Global,
    tokens: &[Token],
    count: u16,
    heads: &mut Items,
) -> Result<(), OutOfMemory>
    ensures { OnOk result (heads.new ≡ heads.old ++ take count tokens.now) }
{
    for token in first_of(tokens, count as usize) {
        heads.push(token.copy(alloc)?)?;
    }
    Ok(())
}

/// The first `count` tokens, or all where there are fewer.
pub(crate) fn first_of(tokens: &[Token], count: usize) -> &[Token]
    ensures { result.now ≡ take count tokens.now }
{
    if count < tokens.len() {
        tokens.split_at(count).0
    } else {
        tokens
    }
}
