//! `Act`: actors that are polled.

ghost use Rattle.std.specs.Prelude.{◌≡◌, ◌+◌, ◌^◌, ◌<◌, true, IfOk, OnErr};
ghost use Rattle.cv_protocol.specs.Actors.{LiveState};
ghost use Rattle.cv_protocol.specs.Poll.{poll, row_at, all_outs_fit};
ghost use Rattle.cv_actor.specs.Acted.{HasDone};

use crate::live::Live;
use crate::outlook::Outlook;
use cv_protocol::Need;
use cv_token::OutOfMemory;
use std::alloc::Global;

/// What a poll answers.
#[derive(Debug, Clone, Copy, PartialEq, Eq)]
pub enum Polled {
    /// That action fired.
    Fired(u8),
    /// Tokens of that inport were read.
    Held(u8),
    /// Each action lacks something, and nothing changed; the lacks stand in the order of the actions.
    Waiting([Option<Need>; 4]),
}

/// An actor that is polled.
pub trait Act {
    ghost live: { Self → LiveState };

    /// Looks at the actions in the order of their priority. The first that lacks nothing fires; where tokens are
    /// first to be read, they are. Want of memory changes nothing.
    fn poll(&mut self, alloc: Global, now: u64) -> Result<Polled, OutOfMemory>
        requires moment { now + (row_at (live self.old)).pause (live self.old).actor.spec.args < 2 ^ 62 }
        requires writable { all_outs_fit (live self.old).actor.outs ≡ true }
        ensures ok { IfOk result (λ polled. HasDone (live self.old) now (poll (live self.old) now) polled (live self.new)) }
        ensures err { OnErr result (live self.new ≡ live self.old) };
}

impl Act for Live {
    ghost live = { λ l. l };

    fn poll(&mut self, alloc: Global, now: u64) -> Result<Polled, OutOfMemory> {
        match self.outlook(now) {
            Outlook::Fires(action) => {
                self.fire(alloc, now, action)?;
                Ok(Polled::Fired(action))
            }
            Outlook::Reads(port, count) => {
                self.peek(port, count);
                Ok(Polled::Held(port))
            }
            Outlook::Waits(lacks) => Ok(Polled::Waiting(lacks)),
        }
    }
}
