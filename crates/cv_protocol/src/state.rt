//! `ActorState`: an actor that is on its way from one node to another.

ghost use Rattle.std.specs.Prelude.{◌≡◌, length, slice_get, None, IfOk};
ghost use Rattle.std.specs.Option.{option_copied, option_map, unwrap_or};
ghost use Rattle.cv_protocol.specs.Actors.{Actor, IsShaped};

use cv_kinds::{ActorSpec, Kind};
use cv_queue::{InPort, OutPort};
use cv_token::{ActorId, ConnId, Items, OutOfMemory, Text, copy_items};
use std::alloc::Global;
use std::marker::Model;

/// An inport that a connection feeds.
#[derive(Drop)]
pub struct Inlet {
    pub conn: ConnId,
    /// The actor at the connection's other end.
    pub producer: ActorId,
    pub port: InPort,
}

/// Where an actor was made live, and by which attempt.
#[derive(Debug, Clone, Copy, PartialEq, Eq)]
pub struct Hint {
    pub actor: ActorId,
    pub attempt: u64,
    pub node: u16,
}

/// Hints, in order.
pub type Hints = sqlite_items::Items<Hint>;

/// An actor that travels. Contracts see it as the actor, how long it still waits, and the hints of those that are joined to it.
/// It has the ports of its kind's row.
#[derive(Drop)]
pub struct ActorState {
    id: ActorId,
    spec: ActorSpec,
    slots: Items,
    wait: u64,
    ins: Vec<Option<Inlet>>,
    outs: Vec<OutPort>,
    hints: Hints,
}

impl Model for ActorState {
    ghost use Rattle.std.specs.Prelude.{length};
    ghost use Rattle.cv_protocol.specs.Actors.{IsShaped, StateView, state_code};

    ghost Value = { StateView };

    ghost coded = { state_code };

    ghost view = { λ s. record {
      actor = record { id = s.id; spec = s.spec; slots = s.slots; ins = s.ins.items; outs = s.outs.items };
      wait = s.wait;
      hints = s.hints;
    } };

    ghost invariant = { λ s. IsShaped s.spec.kind (length s.ins.items) (length s.outs.items) };
}

/// The parts of a state.
#[derive(Drop)]
pub struct StateParts {
    pub id: ActorId,
    pub spec: ActorSpec,
    /// The slots, in the order of the kind's row.
    pub slots: Items,
    /// In milliseconds.
    pub wait: u64,
    pub ins: Vec<Option<Inlet>>,
    pub outs: Vec<OutPort>,
    pub hints: Hints,
}

impl ActorState {
    /// The state of these parts; it takes no memory.
    pub fn from_parts(parts: StateParts) -> ActorState
        requires { IsShaped parts.spec.kind (length parts.ins.items) (length parts.outs.items) }
        ensures actor { result.actor ≡ record {
          id = parts.id;
          spec = parts.spec;
          slots = parts.slots;
          ins = parts.ins.items;
          outs = parts.outs.items;
        } }
        ensures wait { result.wait ≡ parts.wait }
        ensures hints { result.hints ≡ parts.hints }
    {
        let StateParts {
            id,
            spec,
            slots,
            wait,
            ins,
            outs,
            hints,
        } = parts;
        ActorState {
            id,
            spec,
            slots,
            wait,
            ins,
            outs,
            hints,
        }
    }

    /// The parts of the state; it takes no memory.
    pub fn into_parts(self) -> StateParts
        ensures actor { self.actor ≡ record {
          id = result.id;
          spec = result.spec;
          slots = result.slots;
          ins = result.ins.items;
          outs = result.outs.items;
        } }
        ensures wait { result.wait ≡ self.wait }
        ensures hints { result.hints ≡ self.hints }
        ensures shaped { IsShaped result.spec.kind (length result.ins.items) (length result.outs.items) }
    {
        let ActorState {
            id,
            spec,
            slots,
            wait,
            ins,
            outs,
            hints,
        } = self;
        StateParts {
            id,
            spec,
            slots,
            wait,
            ins,
            outs,
            hints,
        }
    }

    /// The actor's identifier.
    pub fn id(&self) -> ActorId
        ensures { result ≡ self.now.actor.id }
    {
        self.id
    }

    /// Its path, kind, arguments and rule.
    pub fn spec(&self) -> &ActorSpec
        ensures { result.now ≡ self.now.actor.spec }
    {
        &self.spec
    }

    /// Its path from the root.
    pub fn path(&self) -> &Text
        ensures { result.now ≡ self.now.actor.spec.path }
    {
        &self.spec.path
    }

    /// Its kind.
    pub fn kind(&self) -> Kind
        ensures { result ≡ self.now.actor.spec.kind }
    {
        self.spec.kind
    }

    /// Its arguments, in the order of the kind's row.
    pub fn args(&self) -> &Items
        ensures { result.now ≡ self.now.actor.spec.args }
    {
        &self.spec.args
    }

    /// Its slots, in the order of the kind's row.
    pub fn slots(&self) -> &Items
        ensures { result.now ≡ self.now.actor.slots }
    {
        &self.slots
    }

    /// How many milliseconds it still waits.
    pub fn wait(&self) -> u64
        ensures { result ≡ self.now.wait }
    {
        self.wait
    }

    /// Its inports, None for one that nothing feeds.
    pub fn ins(&self) -> &[Option<Inlet>]
        ensures { result.now ≡ self.now.actor.ins }
    {
        self.ins.as_slice()
    }

    /// Its outports.
    pub fn outs(&self) -> &[OutPort]
        ensures { result.now ≡ self.now.actor.outs }
    {
        self.outs.as_slice()
    }

    /// The hints of the actors that are joined to it.
    pub fn hints(&self) -> &Hints
        ensures { result.now ≡ self.now.hints }
    {
        &self.hints
    }

    /// The inport of that number. None comes exactly where there is no such port or nothing feeds it.
    pub fn inp(&self, port: u8) -> Option<&InPort>
        ensures { option_copied result ≡ option_map (λ i. i.port) (unwrap_or (slice_get self.now.actor.ins port) None) }
    {
        match self.ins.get(usize::from(port)) {
            Some(Some(inlet)) => Some(&inlet.port),
            _ => None,
        }
    }

    /// The outport of that number. None comes exactly where there is no such port.
    pub fn out(&self, port: u8) -> Option<&OutPort>
        ensures { option_copied result ≡ slice_get self.now.actor.outs port }
    {
        self.outs.get(usize::from(port))
    }

    /// The connection that feeds the inport, and the actor at its other end; None as `inp`.
    pub fn feed(&self, port: u8) -> Option<(ConnId, ActorId)>
        ensures { result ≡ option_map (λ i. (i.conn, i.producer)) (unwrap_or (slice_get self.now.actor.ins port) None) }
    {
        match self.ins.get(usize::from(port)) {
            Some(Some(inlet)) => Some((inlet.conn, inlet.producer)),
            _ => None,
        }
    }

    /// An equal state of its own.
    pub fn copy(&self, alloc: Global) -> Result<ActorState, OutOfMemory>
        ensures { IfOk result (λ state. state ≡ self.now) }
    {
        let spec = self.spec.copy(alloc)?;
        let slots = copy_items(alloc, &self.slots)?;
        let ins = copy_inlets(alloc, self.ins.as_slice())?;
        let outs = copy_outs(alloc, self.outs.as_slice())?;
        let hints = Hints::from_slice(alloc, self.hints.as_slice())?;
        Ok(ActorState {
            id: self.id,
            spec,
            slots,
            wait: self.wait,
            ins,
            outs,
            hints,
        })
    }
}

/// A fed inport like this one; None for one that nothing feeds.
fn copy_inlet(alloc: Global, inlet: &Option<Inlet>) -> Result<Option<Inlet>, OutOfMemory>
    ensures { IfOk result (λ copied. copied ≡ inlet.now) }
{
    match inlet {
        Some(inlet) => {
            let port = inlet.port.copy(alloc)?;
            Ok(Some(Inlet {
                conn: inlet.conn,
                producer: inlet.producer,
                port,
            }))
        }
        None => Ok(None),
    }
}

/// Inports like these.
pub fn copy_inlets(alloc: Global, ins: &[Option<Inlet>]) -> Result<Vec<Option<Inlet>>, OutOfMemory>
    ensures { IfOk result (λ copies. copies.items ≡ ins.now) }
{
    let mut copies = Vec::with_capacity(alloc, ins.len())?;
    for inlet in ins {
        copies.push(copy_inlet(alloc, inlet)?)?;
    }
    Ok(copies)
}

/// Outports like these.
pub fn copy_outs(alloc: Global, outs: &[OutPort]) -> Result<Vec<OutPort>, OutOfMemory>
    ensures { IfOk result (λ copies. copies.items ≡ outs.now) }
{
    let mut copies = Vec::with_capacity(alloc, outs.len())?;
    for out in outs {
        copies.push(out.copy(alloc)?)?;
    }
    Ok(copies)
}
