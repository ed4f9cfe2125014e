//! A run: turn after turn.

ghost use Rattle.std.specs.Prelude.{◌≡◌, ◌≤◌, ℕ, IfOk, OnOk, OnErr};
ghost use Rattle.cv_cluster.specs.Cluster.{GoesOn, Stops};
ghost use Rattle.cv_cluster.specs.Turns.{BringsOn, firings_by};

use crate::cluster::Cluster;
use cv_alone::RunEnd;
use cv_io::Gate;
use cv_token::OutOfMemory;
use std::alloc::Global;
use std::thread::Threads;

/// What a turn of a run came to.
#[derive(Debug, Clone, Copy, PartialEq, Eq)]
pub(crate) enum Turn {
    /// A round with so many firings.
    Fired(u32),
    /// A round without firings, and a settle.
    Settled,
    /// After a settle a round without firings; then time went on.
    Ticked,
    /// After a settle a round without firings, and no action waits for a moment.
    Rested,
}

impl Cluster {
    /// A round; where it fires nothing a settle, and where that was done before, time goes on.
    fn turn<R: Threads + Sync, G: Gate>(
        &mut self,
        rt: &R,
        alloc: Global,
        most: u32,
        gate: &G,
        settled: bool,
    ) -> Result<Turn, OutOfMemory>
        ensures goes { (fired : ℕ) × (fired ≤ most) × GoesOn self.old self.new fired × IfOk result (λ turn. firings_by turn ≡ fired) }
        ensures on { IfOk result (BringsOn settled self.old.nodes self.new.nodes) }
        ensures fine { OnOk result (self.new.failed ≡ self.old.failed) }
    {
        let fired = self.round(rt, alloc, most, gate)?;
        if fired > 0 {
            return Ok(Turn::Fired(fired));
        }
        if !settled {
            self.settle(alloc)?;
            return Ok(Turn::Settled);
        }
        if self.tick(alloc)? {
            self.honest();
            return Ok(Turn::Ticked);
        }
        Ok(Turn::Rested)
    }

    /// Goes on until `most` firings were made, or nothing can happen any more: a round without firings is followed by a settle, and where
    /// the round after that fires nothing either, time goes on, unless no action waits for a moment.
    pub fn run<R: Threads + Sync, G: Gate>(
        &mut self,
        rt: &R,
        alloc: Global,
        most: u32,
        gate: &G,
    ) -> Result<RunEnd, OutOfMemory>
        ensures stops { IfOk result (λ stop. Stops self.old most stop self.new) }
        ensures err { OnErr result ((fired : ℕ) × (fired ≤ most) × GoesOn self.old self.new fired) }
        ensures fine { OnOk result (self.new.failed ≡ self.old.failed) }
    {
        let mut left = most;
        let mut settled = false;
        while left > 0 {
            match self.turn(rt, alloc, left, gate, settled)? {
                Turn::Fired(fired) => {
                    left -= fired;
                    settled = false;
                }
                Turn::Settled => settled = true,
                Turn::Ticked => settled = false,
                Turn::Rested => return Ok(RunEnd::Quiescent),
            }
        }
        Ok(RunEnd::Spent)
    }
}
