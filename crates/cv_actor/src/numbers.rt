//! Whether an actor's numbers stay below 2^62.

ghost use Rattle.std.specs.Prelude.{◌≡◌, ◌^◌, ◌<◌, ◌≤◌, length, None};
ghost use Rattle.cv_behave.specs.KindRow.{needed, given};
ghost use Rattle.cv_kinds.specs.KindRow.{row_of};
ghost use Rattle.cv_protocol.specs.Poll.{held_in, first_short, taken_from, without_needed, inlet_fits, all_inlets_fit, all_outs_fit, live_fits};
ghost use Rattle.cv_protocol.specs.Travel.{restore};
ghost use Rattle.cv_actor.specs.Room.{have_numbers};

use cv_behave::Behave;
use cv_kinds::{ActorSpec, Kind};
use cv_protocol::{ActorState, Inlet};
use cv_queue::OutPort;

/// Every number of a node stays below this one.
pub const LIMIT: u64 = 1 << 62;

/// Whether an inport's numbers are below the limit once `count` of its tokens were taken.
fn fits_taken(inlet: &Option<Inlet>, count: u16) -> bool
    requires { count ≤ length (held_in inlet.now) }
    ensures { result ≡ inlet_fits (taken_from count inlet.now) }
{
    match inlet {
        Some(inlet) => {
            let received = inlet.port.received();
            inlet.port.taken() + u64::from(count) < LIMIT && received < LIMIT
        }
        None => true,
    }
}

/// Whether all are, once the tokens were taken that the action needs.
pub(crate) fn all_fit_taken(spec: &ActorSpec, action: u8, ins: &[Option<Inlet>]) -> bool
    requires few { length ins.now < 2 ^ 8 }
    requires held { first_short (needed (row_of spec.now.kind) spec.now.args action) 0 ins.now ≡ None }
    ensures { result ≡ all_inlets_fit (without_needed (needed (row_of spec.now.kind) spec.now.args action) 0 ins.now) }
{
    for (port, inlet) in ins.iter().enumerate() {
        if !fits_taken(inlet, spec.kind.needs(&spec.args, action, port as u8)) {
            return false;
        }
    }
    true
}

/// Whether each outport has a number for what the action gives it.
pub(crate) fn have_numbers(kind: Kind, action: u8, outs: &[OutPort]) -> bool
    requires { length outs.now < 2 ^ 8 }
    ensures { result ≡ have_numbers (given (row_of kind) action) 0 outs.now }
{
    for (port, out) in outs.iter().enumerate() {
        if out.written() + u64::from(kind.gives(action, port as u8)) >= LIMIT {
            return false;
        }
    }
    true
}

/// Whether each outport has a number for one token more.
pub(crate) fn all_outs_fit(outs: &[OutPort]) -> bool
    ensures { result ≡ all_outs_fit outs.now }
{
    for out in outs {
        if out.written() >= LIMIT {
            return false;
        }
    }
    true
}

/// Whether an inport's numbers are below the limit.
fn inlet_fits(inlet: &Option<Inlet>) -> bool
    ensures { result ≡ inlet_fits inlet.now }
{
    match inlet {
        Some(inlet) => inlet.port.taken() < LIMIT && inlet.port.received() < LIMIT,
        None => true,
    }
}

/// Whether those of all inports are.
fn all_inlets_fit(ins: &[Option<Inlet>]) -> bool
    ensures { result ≡ all_inlets_fit ins.now }
{
    for inlet in ins {
        if !inlet_fits(inlet) {
            return false;
        }
    }
    true
}

/// Whether all numbers of an actor that travelled are below the limit once it lives again by this attempt.
pub fn fits_restored(state: &ActorState, attempt: u64, now: u64) -> bool
    requires { now < 2 ^ 62 }
    ensures { result ≡ live_fits (restore state.now attempt now) }
{
    if state.wait() >= LIMIT - now || attempt >= LIMIT {
        return false;
    }
    if !all_inlets_fit(state.ins()) {
        return false;
    }
    all_outs_fit(state.outs())
}
