//! States and frames out of their one text.

ghost use Rattle.std.specs.Prelude.{◌≡◌, Some, IfOk};
ghost use Rattle.cv_token.specs.Spells.{Spells};
ghost use Rattle.cv_protocol.specs.Actors.{StateView};
ghost use Rattle.cv_protocol.specs.declared.frame.Frame.{Frame};
ghost use Rattle.cv_frame.specs.Texts.{frame_spelling, state_spelling};
ghost use Rattle.cv_frame.specs.Values.{IsFrame, IsState};

use crate::frames::frame_of;
use crate::states::state_of;
use cv_protocol::{ActorState, Frame};
use cv_token::{ActorId, OutOfMemory, read_spelled};
use std::alloc::Global;

/// The state of that actor whose text the bytes are; None exactly where they are the text of no state that travels.
pub fn state_read(
    alloc: Global,
    actor: ActorId,
    bytes: &[u8],
) -> Result<Option<ActorState>, OutOfMemory>
    ensures exact { IfOk result (Spells (λ s. IsState s × (s.actor.id ≡ actor)) state_spelling bytes.now) }

    // A state that travels is read from its text.
    ensures again { (s : StateView) → IsState s → s.actor.id ≡ actor → bytes.now ≡ state_spelling s
        → IfOk result (λ found. found ≡ Some s) }
{
    let Some(tree) = read_spelled(alloc, bytes)? else {
        return Ok(None);
    };
    state_of(alloc, actor, &tree)
}

/// The frame whose text the bytes are; None exactly where they are the text of no frame that travels.
pub fn frame_read(alloc: Global, bytes: &[u8]) -> Result<Option<Frame>, OutOfMemory>
    ensures exact { IfOk result (Spells IsFrame frame_spelling bytes.now) }

    // A frame that travels is read from its text.
    ensures again { (f : Frame) → IsFrame f → bytes.now ≡ frame_spelling f → IfOk result (λ found. found ≡ Some f) }
{
    let Some(tree) = read_spelled(alloc, bytes)? else {
        return Ok(None);
    };
    frame_of(alloc, &tree)
}
