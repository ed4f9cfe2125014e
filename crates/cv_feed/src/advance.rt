//! Reading the whole messages at the front of a stream.

ghost use Rattle.std.specs.Prelude.{◌≡◌, ℕ, ◌<◌, ◌≤◌, List, ◌++◌, None, drop, length, IfOk, IfSome, OnErr};
ghost use Rattle.cv_feed.specs.Streams.{HasNone, Waits, Takes};

use crate::format::{Format, Judged};
use std::alloc::{AllocError, Global};
use std::collections::VecDeque;

/// How far a stream was read.
#[derive(Drop)]
pub(crate) struct Reach<F> {
    /// Where the bytes behind the last message begin.
    pub(crate) at: usize,
    /// How many bytes are needed from there on before more can be said, where no fault stands there.
    pub(crate) need: usize,
    /// The fault that stands there.
    pub(crate) fault: Option<F>,
}

/// Adds the whole messages at the front of the bytes to the waiting ones.
pub(crate) fn advance<T: Format>(
    alloc: Global,
    bytes: &[u8],
    waiting: &mut VecDeque<T::Message>,
) -> Result<Reach<T::Fault>, AllocError>
    ensures place { IfOk result (λ r. r.at ≤ length bytes.now) }
    ensures messages { IfOk result (λ r. Takes T.Spells waiting.old.items waiting.new.items bytes.now (drop r.at bytes.now)) }
    ensures none { IfOk result (λ r. HasNone T.Spells (drop r.at bytes.now)) }
    ensures told { IfOk result (λ r. IfSome r.fault (λ f. T.Stands f (drop r.at bytes.now))) }
    ensures bounded { IfOk result (λ r. r.need ≤ T.most) }
    ensures waits { IfOk result (λ r. r.fault ≡ None → (length (drop r.at bytes.now) < r.need)
        × Waits T.Spells T.Due r.need (drop r.at bytes.now)) }
    ensures refused { OnErr result ((ms : List T.Message) × (waiting.new.items ≡ waiting.old.items ++ ms)) }
{
    let mut at = 0;
    loop {
        match T::judge(alloc, &bytes[at..])? {
            Judged::Message(message, len) => {
                waiting.push_back(message)?;
                at += len;
            }
            Judged::Fault(fault) => {
                return Ok(Reach {
                    at,
                    need: 0,
                    fault: Some(fault),
                });
            }
            Judged::Need(need) => {
                return Ok(Reach {
                    at,
                    need,
                    fault: None,
                });
            }
        }
    }
}
