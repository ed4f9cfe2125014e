//! What a firing takes from the inports and writes to the outports.

ghost use Rattle.std.specs.Prelude.{◌≡◌, ◌++◌, ◌<◌, ◌≤◌, drop, length, take, None, true, IfOk, IsSomeAnd, OnOk, ◌^◌};
ghost use Rattle.cv_behave.specs.KindRow.{needed, heads_of};
ghost use Rattle.cv_kinds.specs.KindRow.{row_of};
ghost use Rattle.cv_protocol.specs.Poll.{inputs, first_short, first_unread, read_in, taken_from, without_needed, with_given, with_token, first_given};
ghost use Rattle.cv_actor.specs.Polled.{read_more};
ghost use Rattle.cv_actor.specs.Room.{has_room, takes};

use cv_behave::{Behave, Outs};
use cv_kinds::ActorSpec;
use cv_protocol::Inlet;
use cv_queue::{InPort, OutPort};
use cv_token::{Items, OutOfMemory, Token};
use std::alloc::Global;

/// Adds copies of the first `count` tokens of an inport.
fn copy_first(
    alloc: Global,
    port: &InPort,
    count: u16,
    heads: &mut Items,
) -> Result<(), OutOfMemory>
    requires { count ≤ length port.now.held }
    ensures { OnOk result (heads.new ≡ heads.old ++ take count port.now.held) }
{
    for place in 0..count {
        let Some(token) = port.head(place) else {
            unreachable!()
        };
        heads.push(token.copy(alloc)?)?;
    }
    Ok(())
}

/// Copies of the tokens that the action needs, port by port.
pub(crate) fn copied_heads(
    alloc: Global,
    spec: &ActorSpec,
    action: u8,
    ins: &[Option<Inlet>],
) -> Result<Items, OutOfMemory>
    requires few { length ins.now < 2 ^ 8 }
    requires held { first_short (needed (row_of spec.now.kind) spec.now.args action) 0 ins.now ≡ None }
    ensures { IfOk result (λ heads. heads ≡ heads_of (row_of spec.now.kind) spec.now.args action 0 (inputs ins.now)) }
{
    let mut heads = Items::new(alloc);
    for (port, inlet) in ins.iter().enumerate() {
        if let Some(inlet) = inlet {
            let count = spec.kind.needs(&spec.args, action, port as u8);
            copy_first(alloc, &inlet.port, count, &mut heads)?;
        }
    }
    Ok(heads)
}

/// Reads the first `count` tokens of a fed inport that holds so many.
pub(crate) fn read(inlet: &mut Option<Inlet>, count: u16)
    requires { IsSomeAnd inlet.old (λ i. count ≤ length i.port.held) }
    ensures { inlet.new ≡ read_more count inlet.old }
{
    if let Some(inlet) = inlet {
        inlet.port.peek(count);
    }
}

/// Takes the first `count` tokens of an inport, which are read, and gives its other reads up.
fn take_read(inlet: &mut Option<Inlet>, count: u16)
    requires { count ≤ read_in inlet.old }
    ensures { inlet.new ≡ taken_from count inlet.old }
{
    if let Some(inlet) = inlet {
        inlet.port.commit(count);
    }
}

/// Takes the tokens that the action needs, which are read, and gives all other reads up.
pub(crate) fn take_needed(spec: &ActorSpec, action: u8, ins: &mut [Option<Inlet>])
    requires few { length ins.old < 2 ^ 8 }
    requires read { first_unread (needed (row_of spec.now.kind) spec.now.args action) 0 ins.old ≡ None }
    ensures { ins.new ≡ without_needed (needed (row_of spec.now.kind) spec.now.args action) 0 ins.old }
{
    for port in 0..ins.len() {
        take_read(
            &mut ins[port],
            spec.kind.needs(&spec.args, action, port as u8),
        );
    }
}

/// Writes the tokens that are given, one place per outport; each has room for what it is given.
pub(crate) fn write_given(out: Outs, outs: &mut [OutPort])
    requires { has_room out outs.old ≡ true }
    ensures { outs.new ≡ with_given out outs.old }
{
    let mut left = out;
    for port in 0..outs.len() {
        let token = next_given(&mut left);
        write(&mut outs[port], token);
    }
}

/// Takes out what the first of the outports that are left is given.
fn next_given(left: &mut Outs) -> Option<Token>
    ensures token { result ≡ first_given left.old }
    ensures rest { left.new ≡ drop 1 left.old }
{
    if left.is_empty() {
        None
    } else {
        left.remove(0)
    }
}

/// Writes the token that an outport is given.
fn write(out: &mut OutPort, token: Option<Token>)
    requires { takes out.old token ≡ true }
    ensures { out.new ≡ with_token out.old token }
{
    if let Some(token) = token {
        out.write(token);
    }
}
