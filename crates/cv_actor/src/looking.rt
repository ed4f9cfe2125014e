//! What an action finds in the ports of its actor.

ghost use Rattle.std.specs.Prelude.{◌≡◌, ◌<◌, length, ◌^◌};
ghost use Rattle.std.specs.Option.{option_copied, option_map};
ghost use Rattle.cv_behave.specs.KindRow.{needed, given, head_at};
ghost use Rattle.cv_kinds.specs.KindRow.{row_of};
ghost use Rattle.cv_protocol.specs.Poll.{held_in, read_in, inputs, first_short, first_unread, first_crowded};

use cv_behave::Behave;
use cv_kinds::{ActorSpec, Kind};
use cv_protocol::{Inlet, Need};
use cv_queue::OutPort;
use cv_token::Token;

/// How many tokens an inport holds; one that nothing feeds has none.
fn held_in(inlet: &Option<Inlet>) -> u16
    ensures { result ≡ length (held_in inlet.now) }
{
    match inlet {
        Some(inlet) => inlet.port.len(),
        None => 0,
    }
}

/// How many of them are read.
fn read_in(inlet: &Option<Inlet>) -> u16
    ensures { result ≡ read_in inlet.now }
{
    match inlet {
        Some(inlet) => inlet.port.tentative(),
        None => 0,
    }
}

/// The lack of the first inport that holds fewer tokens than the action needs.
pub(crate) fn first_short(spec: &ActorSpec, action: u8, ins: &[Option<Inlet>]) -> Option<Need>
    requires { length ins.now < 2 ^ 8 }
    ensures { result ≡ first_short (needed (row_of spec.now.kind) spec.now.args action) 0 ins.now }
{
    for (port, inlet) in ins.iter().enumerate() {
        let count = spec.kind.needs(&spec.args, action, port as u8);
        if held_in(inlet) < count {
            return Some(Need::Token(port as u8, count));
        }
    }
    None
}

/// The first inport of which the action needs more tokens than are read.
pub(crate) fn first_unread(spec: &ActorSpec, action: u8, ins: &[Option<Inlet>]) -> Option<u8>
    requires { length ins.now < 2 ^ 8 }
    ensures { result ≡ first_unread (needed (row_of spec.now.kind) spec.now.args action) 0 ins.now }
{
    for (port, inlet) in ins.iter().enumerate() {
        if read_in(inlet) < spec.kind.needs(&spec.args, action, port as u8) {
            return Some(port as u8);
        }
    }
    None
}

/// The first outport that has no place for what the action gives it.
pub(crate) fn first_crowded(kind: Kind, action: u8, outs: &[OutPort]) -> Option<u8>
    requires { length outs.now < 2 ^ 8 }
    ensures { result ≡ first_crowded (given (row_of kind) action) 0 outs.now }
{
    for (port, out) in outs.iter().enumerate() {
        if out.space() < kind.gives(action, port as u8) {
            return Some(port as u8);
        }
    }
    None
}

/// The first token of the inport at which the kind's guards look.
pub(crate) fn guard_head(kind: Kind, ins: &[Option<Inlet>]) -> Option<&Token>
    ensures { option_copied result ≡ head_at (row_of kind).guard_port (inputs ins.now) }
{
    let port = kind.guard_port()?;
    match ins.get(usize::from(port)) {
        Some(Some(inlet)) => inlet.port.head(0),
        _ => None,
    }
}
