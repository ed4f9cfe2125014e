//! The one text of a state and of a frame, and a frame's bytes on the wire.

ghost use Rattle.std.specs.Prelude.{◌≡◌, ◌≤◌, IfOk, length};
ghost use Rattle.cv_frame.specs.Texts.{state_spelling, frame_spelling, framed, most_bytes};

use crate::trees::{frame_tree, state_tree};
use cv_protocol::{ActorState, Frame};
use cv_token::{OutOfMemory, Text, text};
use std::alloc::Global;

/// The text of a state.
pub fn state_text(alloc: Global, state: &ActorState) -> Result<Text, OutOfMemory>
    ensures { IfOk result (λ t. t ≡ state_spelling state.now) }
{
    text(alloc, &state_tree(alloc, state)?)
}

/// The text of a frame.
pub fn frame_text(alloc: Global, frame: &Frame) -> Result<Text, OutOfMemory>
    ensures { IfOk result (λ t. t ≡ frame_spelling frame.now) }
{
    text(alloc, &frame_tree(alloc, frame)?)
}

/// The bytes of a frame: its text behind the text's length. A frame whose text has over 1,048,576 bytes has none; where
/// the length passes four bytes, their greatest number stands for it, and no reader takes that.
pub fn encode(alloc: Global, frame: &Frame) -> Result<Vec<u8>, OutOfMemory>
    ensures { IfOk result (λ bytes. length (frame_spelling frame.now) ≤ most_bytes
        → bytes.items ≡ framed (frame_spelling frame.now)) }
{
    let text = frame_text(alloc, frame)?;
    let bytes = text.as_str().as_bytes();
    let len = u32::try_from(bytes.len()).unwrap_or(u32::MAX);
    let mut whole = Vec::from_slice(alloc, &len.to_be_bytes())?;
    whole.extend_from_slice(bytes)?;
    Ok(whole)
}
