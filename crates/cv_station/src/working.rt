//! A worker's round.

ghost use Rattle.std.specs.Prelude.{◌≡◌, ◌+◌, ◌≤◌, List, length, is_err};
ghost use Rattle.cv_node.specs.Counts.{journal_length};
ghost use Rattle.cv_station.specs.Acts.{Act, Round};
ghost use Rattle.cv_station.specs.Going.{Goes, GoesInRound};

use crate::station::Station;
use cv_io::Gate;
use cv_node::JOURNAL_LENGTH;
use cv_token::OutOfMemory;
use std::alloc::{AllocError, Global};
use std::thread::yield_now;

/// How many steps a worker makes in a round at most.
const MOST_STEPS: usize = 2_048;

/// After so many turns in a row in which nothing happened a worker leaves.
const IDLE_TURNS: u32 = 64;

impl Station {
    /// What a worker does with the station in its round of that number: it polls the live actors, and then delivers what comes, polls
    /// them again and carries tokens, until nothing happened for a while or 2,048 steps were made.
    pub fn work<G: Gate>(&mut self, alloc: Global, gate: &G, round: u32)
        ensures works { (acts : List Act) × Round self.old acts self.new }
        ensures fired { self.new.fired ≤ self.old.quota }
        ensures steps { length self.new.node.entries ≤ length self.old.node.entries + 2048 }
        ensures few { length self.old.node.entries ≤ journal_length → length self.new.node.entries ≤ journal_length }
    {
        let no = self.node.journal().spec.no;
        gate.pass(no, round, self.told_length());
        self.fired = 0;
        self.failed = self.go_on(alloc).is_err();
        gate.leave(no, round, self.told_length());
    }

    /// How many entries the journal has, as a gate is told.
    fn told_length(&self) -> u32 {
        self.entries().min(u32::MAX as usize) as u32
    }

    /// Polls the actors, before anything is delivered, and goes on turn after turn. Where the journal might be filled it's want of memory.
    fn go_on(&mut self, alloc: Global) -> Result<(), OutOfMemory>
        ensures { GoesInRound self.old (is_err result) self.new }
    {
        let start = self.entries();
        if start > JOURNAL_LENGTH - MOST_STEPS {
            return Err(AllocError);
        }
        let most = start + MOST_STEPS;
        self.poll_all(alloc, most)?;
        self.turns(alloc, most)
    }

    /// Turn after turn, until nothing happened for a while or there are `most` entries.
    #[tactic(auto, using(crate::proofs::Goes::goes_none, crate::proofs::Goes::goes_then))]
    fn turns(&mut self, alloc: Global, most: usize) -> Result<(), OutOfMemory>
        ensures { Goes most self.old (is_err result) self.new }
    {
        let mut idle = 0;
        while idle < IDLE_TURNS && self.entries() < most {
            let before = self.entries();
            self.turn(alloc, most)?;
            if self.entries() == before {
                idle += 1;
                yield_now();
            } else {
                idle = 0;
            }
        }
        Ok(())
    }

    /// Delivers what came, polls the actors, and carries tokens.
    #[tactic(auto, using(crate::proofs::Goes::goes_none, crate::proofs::Goes::goes_then))]
    fn turn(&mut self, alloc: Global, most: usize) -> Result<(), OutOfMemory>
        ensures { Goes most self.old (is_err result) self.new }
    {
        self.deliver_all(alloc, most)?;
        self.poll_all(alloc, most)?;
        self.carry_all(alloc, most)
    }
}
