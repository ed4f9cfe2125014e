//! Which actors stand at the other ends of an actor's connections.

ghost use Rattle.std.specs.Prelude.{◌≡◌};
ghost use Rattle.cv_protocol.specs.Rows.{any_feeds, any_is_read, any_reads};

use cv_protocol::Inlet;
use cv_queue::OutPort;
use cv_token::ActorId;

/// Whether the actor feeds one of these inports.
pub(crate) fn feeds_any(actor: ActorId, ins: &[Option<Inlet>]) -> bool
    ensures { result ≡ any_feeds actor ins.now }
{
    for inlet in ins {
        if let Some(inlet) = inlet {
            if inlet.producer == actor {
                return true;
            }
        }
    }
    false
}

/// Whether the actor reads the outport.
fn reads(actor: ActorId, out: &OutPort) -> bool
    ensures { result ≡ any_reads actor out.now.readers }
{
    for number in 0..out.readers() {
        let Some(reader) = out.reader(number) else {
            unreachable!()
        };
        if reader.consumer == actor {
            return true;
        }
    }
    false
}

/// Whether the actor reads one of these outports.
pub(crate) fn reads_any(actor: ActorId, outs: &[OutPort]) -> bool
    ensures { result ≡ any_is_read actor outs.now }
{
    for out in outs {
        if reads(actor, out) {
            return true;
        }
    }
    false
}
