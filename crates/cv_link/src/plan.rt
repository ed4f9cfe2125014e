//! The plan of losses of one link.

ghost use Rattle.std.specs.Prelude.{◌≡◌};
ghost use Rattle.cv_link.specs.Plan.{new_plan, counted, turned, Tells};

use crate::items::LinkItems;
use cv_protocol::Frame;
use std::marker::Model;

/// What becomes of a frame that was taken.
#[derive(Drop)]
pub enum Taken {
    /// It is delivered.
    Deliver(Frame),
    /// It is delivered, and delivered again.
    Twice(Frame),
    /// It is lost.
    Lost(Frame),
}

/// The plan of losses of one link, which counts the frames that are taken from it. Contracts see a `PlanView`.
#[derive(Drop)]
pub struct Plan {
    items: LinkItems,
    // The number of the next frame.
    next: u64,
    // The number of the first frame of this turn.
    since: u64,
}

impl Model for Plan {
    ghost use Rattle.std.specs.Prelude.{◌≤◌};
    ghost use Rattle.cv_link.specs.Plan.{PlanView, plan_code};

    ghost Value = { PlanView };

    ghost coded = { plan_code };

    ghost view = { λ p. record { items = p.items; next = p.next; since = p.since } };

    ghost invariant = { λ p. p.since ≤ p.next };
}

impl Plan {
    /// The plan before the first frame.
    pub fn new(items: LinkItems) -> Plan
        ensures { result ≡ new_plan items }
    {
        Plan {
            items,
            next: 1,
            since: 1,
        }
    }

    /// Counts the frame and tells what becomes of it.
    pub fn judge(&mut self, frame: Frame) -> Taken
        ensures told { Tells self.old frame result }
        ensures after { self.new ≡ counted self.old }
    {
        let k = self.next;
        self.next = k.saturating_add(1);
        if self.items.loses(k) || self.items.cuts_within(self.since, k) {
            Taken::Lost(frame)
        } else if self.items.doubles(k) {
            Taken::Twice(frame)
        } else {
            Taken::Deliver(frame)
        }
    }

    /// Ends the turn, and with it a cut.
    pub fn turn(&mut self)
        ensures { self.new ≡ turned self.old }
    {
        self.since = self.next;
    }
}
