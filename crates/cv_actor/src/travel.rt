//! What becomes of the ports of an actor that leaves a node, and comes to live again.

ghost use Rattle.std.specs.Prelude.{◌≡◌, ◌<◌, length, map, slice_get, IsSomeAnd};
ghost use Rattle.cv_protocol.specs.Travel.{cancelled, rewound_out};
ghost use Rattle.cv_actor.specs.Returning.{rewound_out_for, IsRewoundAt};

use cv_protocol::Inlet;
use cv_queue::OutPort;
use cv_token::ActorId;

/// Gives the tentative reads of an inport up.
fn cancel(inlet: &mut Option<Inlet>)
    ensures { inlet.new ≡ cancelled inlet.old }
{
    if let Some(inlet) = inlet {
        inlet.port.cancel();
    }
}

/// Gives all tentative reads up.
pub(crate) fn cancel_all(ins: &mut [Option<Inlet>])
    ensures { ins.new ≡ map cancelled ins.old }
{
    for place in 0..ins.len() {
        cancel(&mut ins[place]);
    }
}

/// Makes what the port's readers have not acknowledged unsent again.
fn rewind_readers(out: &mut OutPort)
    ensures { out.new ≡ rewound_out out.old }
{
    for number in 0..out.readers() {
        out.rewind(number);
    }
}

/// Makes what any reader has not acknowledged unsent again.
pub(crate) fn rewind_all(outs: &mut [OutPort])
    ensures { outs.new ≡ map rewound_out outs.old }
{
    for place in 0..outs.len() {
        rewind_readers(&mut outs[place]);
    }
}

/// Makes what the reader has not acknowledged unsent again, where it is at that actor.
fn rewind_at(out: &mut OutPort, number: u16, actor: ActorId)
    requires { number < length out.old.readers }
    ensures { IsSomeAnd (slice_get out.old.readers number) (IsRewoundAt out.old number actor out.new) }
{
    let Some(reader) = out.reader(number) else {
        unreachable!()
    };
    if reader.consumer != actor {
        return;
    }
    out.rewind(number);
}

/// Makes what the port's readers at that actor have not acknowledged unsent again.
fn rewind_readers_at(out: &mut OutPort, actor: ActorId)
    ensures { out.new ≡ rewound_out_for actor out.old }
{
    for number in 0..out.readers() {
        rewind_at(out, number, actor);
    }
}

/// Makes what any reader at that actor has not acknowledged unsent again.
pub(crate) fn rewind_all_towards(outs: &mut [OutPort], actor: ActorId)
    ensures { outs.new ≡ map (rewound_out_for actor) outs.old }
{
    for place in 0..outs.len() {
        rewind_readers_at(&mut outs[place], actor);
    }
}
