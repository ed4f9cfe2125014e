//! A token that moves between two ports of one actor.

ghost use Rattle.std.specs.Prelude.{◌≡◌, Some, IfOk, OnOk, OnErr};
ghost use Rattle.cv_actor.specs.Passing.{MayPass, can_pass, in_passed, out_passed};

use cv_endpoint::local_move;
use cv_protocol::Inlet;
use cv_queue::OutPort;
use cv_token::OutOfMemory;
use std::alloc::Global;

/// Passes the reader's first token that is not acknowledged on to the inport. It answers false exactly where there is no such
/// token or the inport is full; then nothing changes, as at want of memory.
pub(crate) fn pass(
    alloc: Global,
    out: &mut OutPort,
    reader: u16,
    inlet: &mut Option<Inlet>,
) -> Result<bool, OutOfMemory>
    requires { MayPass reader (Some out.old) inlet.old }
    ensures answer { IfOk result (λ moved. moved ≡ can_pass reader (Some out.old) inlet.old) }
    ensures out_after { OnOk result (out.new ≡ out_passed reader out.old inlet.old) }
    ensures in_after { OnOk result (inlet.new ≡ in_passed reader out.old inlet.old) }
    ensures err { OnErr result ((out.new ≡ out.old) × (inlet.new ≡ inlet.old)) }
{
    match inlet {
        Some(inlet) => local_move(alloc, out, reader, &mut inlet.port),
        None => unreachable!(),
    }
}
