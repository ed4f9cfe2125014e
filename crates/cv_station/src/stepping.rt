//! One step of the node, with what it sends pushed.

ghost use Rattle.std.specs.Prelude.{◌≡◌, ℕ, ◌+◌, ◌<◌, ◌≤◌, length, false, true, is_err, Some, IfErr, OnOk, OnErr};
ghost use Rattle.cv_protocol.specs.NodeRow.{cause_of};
ghost use Rattle.cv_node.specs.Counts.{is_firing};
ghost use Rattle.cv_station.specs.Acts.{is_work};
ghost use Rattle.cv_station.specs.Going.{Gets, Goes, Received, Stepped};

use crate::copying::copy_frame;
use crate::pushing::push_sent;
use crate::station::Station;
use cv_link::Taken;
use cv_protocol::{Event, StepRefusal};
use cv_token::OutOfMemory;
use std::alloc::{AllocError, Global};

impl Station {
    /// How many entries the node's journal has.
    pub fn entries(&self) -> usize
        ensures { result ≡ length self.now.node.entries }
    {
        self.node.journal().entries.len()
    }

    /// Does the event, and pushes the frames that it sends. A refused event changes nothing; while the node has room made ahead, a Tick
    /// is refused only with its cause.
    pub fn step(&mut self, alloc: Global, event: Event) -> Result<(), StepRefusal>
        ensures done { OnOk result (Stepped self.old event self.new) }
        ensures ready { (moment : ℕ) → event ≡ Event.Tick moment → 0 < self.old.node.spare → IfErr result (λ e. cause_of self.old.node.state event ≡ Some e) }
        ensures err { OnErr result (self.new ≡ self.old) }
    {
        let own = self.node.journal().spec.no;
        match self.node.step(alloc, event) {
            Ok(sent) => {
                push_sent(&mut self.peers, own, sent);
                Ok(())
            }
            Err(cause) => Err(cause),
        }
    }

    /// Does an event of a frame, which is refused only where memory is wanting.
    fn get(&mut self, alloc: Global, event: Event) -> Result<(), OutOfMemory>
        ensures { Gets self.old event (is_err result) self.new }
    {
        match self.step(alloc, event) {
            Ok(()) => Ok(()),
            Err(_cause) => Err(AllocError),
        }
    }

    /// The steps of a frame of which this was told.
    pub(crate) fn receive(&mut self, alloc: Global, told: Taken) -> Result<(), OutOfMemory>
        ensures { Received self.old told (is_err result) self.new }
    {
        match told {
            Taken::Deliver(frame) => self.get(alloc, Event::Deliver { frame }),
            Taken::Twice(frame) => {
                let copy = copy_frame(alloc, &frame)?;
                self.get(alloc, Event::Deliver { frame })?;
                self.get(alloc, Event::Deliver { frame: copy })
            }
            Taken::Lost(frame) => self.get(alloc, Event::Lose { frame }),
        }
    }

    /// Does an event of the node's own where there is room for its entry; tells whether. One that is refused changes nothing.
    pub(crate) fn act(
        &mut self,
        alloc: Global,
        event: Event,
        most: usize,
    ) -> Result<bool, OutOfMemory>
        requires work { is_work event ≡ true }
        requires no_firing { is_firing event ≡ false }
        ensures { Goes most self.old (is_err result) self.new }
    {
        if self.entries() >= most {
            return Ok(false);
        }
        match self.step(alloc, event) {
            Ok(()) => Ok(true),
            Err(StepRefusal::StampSpent | StepRefusal::OutOfMemory) => Err(AllocError),
            Err(_cause) => Ok(false),
        }
    }
}
