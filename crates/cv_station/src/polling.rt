//! Live actors are polled.

ghost use Rattle.std.specs.Prelude.{◌≡◌, is_err};
ghost use Rattle.cv_station.specs.Going.{Goes};

use crate::station::Station;
use cv_actor::Polled;
use cv_token::{ActorId, OutOfMemory};
use std::alloc::{AllocError, Global};

impl Station {
    /// Polls the actor until it fires or waits, as long as there are firings and entries left.
    fn poll(&mut self, alloc: Global, actor: ActorId, most: usize) -> Result<(), OutOfMemory>
        ensures { Goes most self.old (is_err result) self.new }
    {
        while self.fired < self.quota && self.entries() < most {
            match self.node.poll(alloc, actor) {
                Ok(Polled::Held(_port)) => {}
                Ok(Polled::Fired(_action)) => {
                    self.fired += 1;
                    return Ok(());
                }
                Ok(Polled::Waiting(_lacks)) => return Ok(()),
                Err(_cause) => return Err(AllocError),
            }
        }
        Ok(())
    }

    /// Polls each live actor.
    #[tactic(auto, using(crate::proofs::Goes::goes_none, crate::proofs::Goes::goes_then))]
    pub(crate) fn poll_all(&mut self, alloc: Global, most: usize) -> Result<(), OutOfMemory>
        ensures { Goes most self.old (is_err result) self.new }
    {
        for place in 0..u32::MAX {
            let Some(actor) = self.node.live_at(place) else {
                return Ok(());
            };
            self.poll(alloc, actor, most)?;
        }
        Ok(())
    }
}
