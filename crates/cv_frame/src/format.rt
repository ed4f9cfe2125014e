//! Frames as a format of streams.

ghost use Rattle.std.specs.Prelude.{◌≡◌, ◌+◌, ◌<◌, ◌^◌, ◌++◌, length, MatchOption};
ghost use Rattle.std.specs.Int.{w32, to_be_bytes};

use crate::flaw::Flaw;
use crate::reading::frame_read;
use crate::stamps::is_far;
use cv_feed::{Format, Judged};
use cv_protocol::Frame;
use std::alloc::{AllocError, Global};

/// The most bytes of a frame's text.
pub const MOST_TEXT: usize = 1_048_576;

/// The frames of a stream.
pub struct Wire;

/// The length that four bytes tell, and what stands behind them.
fn length_of(bytes: &[u8]) -> Option<(usize, &[u8])>
    ensures { MatchOption result (length bytes.now < 4) (λ x. (x.0 < 2 ^ 32) × (bytes.now ≡ to_be_bytes w32 x.0 ++ x.1.now)) }
{
    let (head, rest) = bytes.split_at_checked(4)?;
    let len = u32::from_be_bytes([head[0], head[1], head[2], head[3]]);
    Some((len as usize, rest))
}

impl Format for Wire {
    type Message = Frame;

    type Fault = Flaw;

    ghost use Rattle.std.specs.Prelude.{◌+◌};
    ghost use Rattle.cv_frame.specs.Texts.{most_bytes};
    ghost use Rattle.cv_frame.specs.Wire as wire;
    ghost use Rattle.cv_frame.specs.laws.Streams as laws;

    ghost Spells = { wire.IsReadable };

    ghost Stands = { wire.Stands };

    ghost Due = { wire.Stands };

    ghost most = { 4 + most_bytes };

    fn judge(alloc: Global, bytes: &[u8]) -> Result<Judged<Frame, Flaw>, AllocError> {
        let Some((len, rest)) = length_of(bytes) else {
            return Ok(Judged::Need(4));
        };
        if len > MOST_TEXT {
            return Ok(Judged::Fault(Flaw::FrameTooLong));
        }
        if rest.len() < len {
            return Ok(Judged::Need(4 + len));
        }
        let text = &rest[..len];
        match frame_read(alloc, text)? {
            Some(frame) => Ok(Judged::Message(frame, 4 + len)),
            None if is_far(alloc, text)? => Ok(Judged::Fault(Flaw::StampTooFar)),
            None => Ok(Judged::Fault(Flaw::BadFrame)),
        }
    }

    ghost one = { laws.one };

    ghost some = { laws.some };

    ghost stuck = { laws.stuck };
}
