//! Rounds: every actor in order, and of each the first action that is ready.

ghost use Rattle.std.specs.Prelude.{◌≡◌, ℕ, ◌≤◌, min, length, Some, None, MatchOption, IfOk, OnErr};
ghost use Rattle.cv_solo.specs.OneRuntime.{fire};
ghost use Rattle.cv_solo.specs.PlainNetwork.{Begins, actions_of, first_ready, round_firings};

use crate::solo::{Solo, SoloFault};
use cv_kinds::actions;
use cv_token::OutOfMemory;
use std::alloc::{AllocError, Global};

impl Solo {
    /// A round: fires each actor in order once where an action of it is ready, the first that is, `most` firings at most,
    /// and answers how many. After want of memory the firings so far stand.
    pub fn round(&mut self, alloc: Global, most: u32) -> Result<u32, OutOfMemory>
        ensures net { self.new.net ≡ self.old.net }
        ensures fired { IfOk result (λ fired. (fired ≡ min most (length (round_firings self.old.net self.old.runtime))) × Begins self.old.net self.old.runtime fired self.new.runtime) }
        ensures err { OnErr result ((n : ℕ) × (n ≤ most) × Begins self.old.net self.old.runtime n self.new.runtime) }
    {
        let mut fired = 0;
        for actor in 0..self.actor_count() {
            if fired == most {
                return Ok(fired);
            }
            if self.turn(alloc, actor)?.is_some() {
                fired += 1;
            }
        }
        Ok(fired)
    }

    /// A turn of an actor: fires its first action that is ready, and tells which; None where none is.
    fn turn(&mut self, alloc: Global, actor: u16) -> Result<Option<u8>, OutOfMemory>
        ensures net { self.new.net ≡ self.old.net }
        ensures first { IfOk result (λ done. done ≡ first_ready self.old.net self.old.runtime actor) }
        ensures fired { IfOk result (λ done. MatchOption done (self.new ≡ self.old) (λ action. fire self.old.net self.old.runtime actor action ≡ Some self.new.runtime)) }
        ensures err { OnErr result (self.new ≡ self.old) }
    {
        for action in 0..self.action_count(actor) {
            match self.fire(alloc, actor, action) {
                Ok(()) => return Ok(Some(action)),
                Err(SoloFault::NotEnabled) => {}
                Err(SoloFault::OutOfMemory) => return Err(AllocError),
            }
        }
        Ok(None)
    }

    /// How many actors there are.
    fn actor_count(&self) -> u16
        ensures { result ≡ length self.now.net.actors }
    {
        self.network().actors().len() as u16
    }

    /// How many actions an actor has.
    fn action_count(&self, actor: u16) -> u8
        ensures { result ≡ actions_of self.now.net actor }
    {
        match self.network().actors().get(actor as usize) {
            Some(spec) => actions(spec.kind),
            None => 0,
        }
    }
}
