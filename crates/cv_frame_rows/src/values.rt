//! The values of the rows.

use cv_behave::Behave;
use cv_flow::FlowKind;
use cv_kinds::{ActorSpec, Kind};
use cv_protocol::{ActorState, Hint, Hints, Inlet, StateParts};
use cv_queue::{InPort, OutPort, Readers, Subscription};
use cv_token::{ActorId, AppId, ConnId, Items, Text, Token};
use std::alloc::Global;
use std::process::Abort;
use std::test::Fail;

pub(crate) fn actor(node: u16, seq: u32, actor: u16) -> ActorId {
    ActorId {
        app: AppId { node, seq },
        actor,
    }
}

pub(crate) fn conn(node: u16, seq: u32, place: u16) -> ConnId {
    ConnId {
        app: AppId { node, seq },
        place,
    }
}

fn alone(alloc: Global, token: Token) -> Result<Items, Fail> {
    let mut items = Items::new(alloc);
    items.push(token)?;
    Ok(items)
}

/// The inport that took two tokens and holds the 7.
fn fed(rt: &impl Abort, alloc: Global) -> Result<Option<Inlet>, Fail> {
    let port = InPort::of(alloc, 4, 2, alone(alloc, Token::Int(7))?)?;
    assert!(rt; port.is_some());
    Ok(port.map(|port| Inlet {
        conn: conn(1, 1, 0),
        producer: actor(1, 1, 0),
        port,
    }))
}

/// The reader of the outport, which acknowledged two tokens.
fn readers(alloc: Global) -> Result<Readers, Fail> {
    let mut readers = Readers::new(alloc);
    readers.push(Subscription {
        conn: conn(1, 1, 1),
        consumer: actor(1, 1, 2),
        acked: 2,
    })?;
    Ok(readers)
}

/// The outport that wrote three tokens, of which the last one, a 5, is not acknowledged.
fn written(alloc: Global) -> Result<Option<OutPort>, Fail> {
    let tokens = alone(alloc, Token::Int(5))?;
    Ok(OutPort::of(alloc, 4, 3, tokens, readers(alloc)?)?)
}

/// The outports, of which there is one.
fn outports(alloc: Global) -> Result<Vec<OutPort>, Fail> {
    let mut outs = Vec::new(alloc);
    if let Some(out) = written(alloc)? {
        outs.push(out)?;
    }
    Ok(outs)
}

fn hint(actor: ActorId, attempt: u64, node: u16) -> Hint {
    Hint {
        actor,
        attempt,
        node,
    }
}

/// Where the two others live.
fn hints(alloc: Global) -> Result<Hints, Fail> {
    let mut hints = Hints::new(alloc);
    hints.push(hint(actor(1, 1, 0), 0, 1))?;
    hints.push(hint(actor(1, 1, 2), 3, 2))?;
    Ok(hints)
}

/// An identity that does not dump.
fn identity(alloc: Global) -> Result<ActorSpec, Fail> {
    let args = alone(alloc, Token::Bool(false))?;
    Ok(ActorSpec {
        path: Text::from_string(String::from_str(alloc, "mid")?),
        kind: Kind::Flow(FlowKind::Identity),
        args,
    })
}

/// An identity between two others.
pub(crate) fn state(rt: &impl Abort, alloc: Global) -> Result<ActorState, Fail> {
    let spec = identity(alloc)?;
    let ins = vec![in alloc; fed(rt, alloc)?]?;
    let outs = outports(alloc)?;
    let hints = hints(alloc)?;
    assert!(rt; ins.len() == usize::from(spec.kind.inports()));
    assert!(rt; outs.len() == usize::from(spec.kind.outports()));
    Ok(ActorState::from_parts(StateParts {
        id: actor(1, 1, 1),
        spec,
        slots: Items::new(alloc),
        wait: 0,
        ins,
        outs,
        hints,
    }))
}
