//! The stamp of the next entry.

ghost use Rattle.std.specs.Prelude.{◌≡◌, ◌+◌, nat_lt, not, true};
ghost use Rattle.cv_protocol.specs.Poll.{limit};
ghost use Rattle.cv_protocol.specs.Rows.{frame_to};

use crate::state::State;
use cv_actor::LIMIT;
use cv_protocol::{Body, Frame};

impl State {
    /// Whether the next stamp would reach the limit.
    pub(crate) fn is_spent(&self) -> bool
        ensures { result ≡ not (nat_lt (self.now.stamp + 1) limit) }
    {
        self.stamp + 1 >= LIMIT
    }

    /// One more entry was made.
    pub(crate) fn step_on(&mut self)
        requires { nat_lt (self.old.stamp + 1) limit ≡ true }
        ensures { self.new ≡ record self.old { stamp = self.old.stamp + 1 } }
    {
        self.stamp += 1;
    }

    /// A frame from here with the stamp of the last entry.
    pub(crate) fn frame(&self, to: u16, body: Body) -> Frame
        ensures { result ≡ frame_to self.now self.now.stamp to body }
    {
        Frame {
            from: self.spec.no,
            to,
            stamp: self.stamp,
            body,
        }
    }
}
