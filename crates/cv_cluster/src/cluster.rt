//! `Cluster`: nodes with rings between them.

ghost use Rattle.std.specs.Prelude.{◌≡◌, ◌≤◌, ◌↔◌, ℕ, true, false, map, length, Ok, IfOk, OnOk, OnErr};
ghost use Rattle.cv_merge.specs.Lanes.{Ascends};
ghost use Rattle.cv_cluster.specs.Cluster.{AreAtOneMoment, GoesOn, IsHonest, NothingIsSpent, length_of, node_number};
ghost use Rattle.cv_cluster.specs.Opening.{AllAmong, AllAreForNodes, AllItemsFit, AllUnused, Opens, is_among, new_node};
ghost use Rattle.cv_cluster.specs.Ticking.{IsAsBefore, SomeWakes, Ticks};

use crate::finding::{journals, length_at};
use crate::opening::{new_nodes, open_nodes};
use crate::rounds::work_round;
use crate::ticking::{due_in, tick_all};
use cv_io::Gate;
use cv_kinds::Network;
use cv_link::Item;
use cv_mesh::join_all;
use cv_protocol::Journal;
use cv_rules::NodeSpec;
use cv_station::Station;
use cv_token::OutOfMemory;
use std::alloc::{AllocError, Global};
use std::marker::Model;
use std::thread::Threads;

/// The nodes of a run, in the order of their numbers, with rings between them.
#[derive(Drop)]
pub struct Cluster {
    stations: Vec<Station>,
    items: Vec<Item>,
    /// Whether memory was wanting in one of the rounds or settles so far.
    failed: bool,
    /// How many rounds there were.
    round: u32,
}

impl Model for Cluster {
    ghost use Rattle.std.specs.Prelude.{map};
    ghost use Rattle.cv_cluster.specs.Cluster.{ClusterView, cluster_code};
    ghost use Rattle.cv_cluster.specs.Holding.{Holds, node_of};

    ghost Value = { ClusterView };

    ghost coded = { cluster_code };

    ghost view = { λ c. record {
      items = c.items.items;
      nodes = map node_of c.stations.items;
      failed = c.failed;
    } };

    ghost invariant = { λ c. Holds c.items.items c.failed c.stations.items };
}

impl Cluster {
    /// The cluster of new nodes by these specifications, with the items of the links between them.
    pub fn new(
        alloc: Global,
        specs: Vec<NodeSpec>,
        items: Vec<Item>,
    ) -> Result<Cluster, OutOfMemory>
        requires rising { Ascends (map (λ s. s.no) specs.items) }
        requires nodes { AllAreForNodes specs.items }
        requires items { AllItemsFit specs.items items.items }
        ensures { IfOk result (λ c. c ≡ record { items = items.items; nodes = map new_node specs.items; failed = false }) }
    {
        let nodes = new_nodes(alloc, specs)?;
        let stations = join_all(alloc, nodes, &items)?;
        Ok(Cluster {
            stations,
            items,
            failed: false,
            round: 0,
        })
    }

    /// Opens all nodes with the actors of the network in their places, as application 1 of node 1. `at` has the number of a node for each
    /// actor. It is made before any other step.
    pub fn open(&mut self, alloc: Global, net: Network, at: &[u16]) -> Result<(), OutOfMemory>
        requires unused { AllUnused self.old.nodes }
        requires places { length at.now ≡ length net.actors }
        requires among { AllAmong at.now self.old.nodes }
        ensures ok { OnOk result (Opens self.old net at.now self.new) }
        ensures err { OnErr result (self.new ≡ self.old) }
    {
        net.well_formed();
        let nodes = open_nodes(alloc, &self.stations, &net, at)?;
        let stations = join_all(alloc, nodes, &self.items)?;
        self.stations = stations;
        Ok(())
    }

    /// Lends each node to a worker of its own, for at most so many firings of all of them; tells how many there were.
    pub fn round<R: Threads + Sync, G: Gate>(
        &mut self,
        rt: &R,
        alloc: Global,
        most: u32,
        gate: &G,
    ) -> Result<u32, OutOfMemory>
        ensures goes { (fired : ℕ) × (fired ≤ most) × GoesOn self.old self.new fired × IfOk result (λ n. n ≡ fired) }
        ensures fine { OnOk result (self.new.failed ≡ self.old.failed) }
    {
        self.round = self.round.saturating_add(1);
        let outcome = work_round(rt, alloc, &mut self.stations, self.round, most, gate);
        if outcome.failed {
            self.failed = true;
            return Err(AllocError);
        }
        Ok(outcome.fired)
    }

    /// Resends, sends and delivers until no connection can advance, with no firing.
    pub fn settle(&mut self, alloc: Global) -> Result<(), OutOfMemory>
        ensures goes { GoesOn self.old self.new 0 }
        ensures fine { OnOk result (self.new.failed ≡ self.old.failed) }
    {
        match cv_settle::settle(alloc, &mut self.stations) {
            Ok(()) => Ok(()),
            Err(cause) => {
                self.failed = true;
                Err(cause)
            }
        }
    }

    /// Lets time go on at all nodes to the least moment that an action waits for; false where none waits for one. Then nothing changes, and
    /// nothing but the room made ahead where memory is wanting: it is made at each node before the first one ticks.
    pub fn tick(&mut self, alloc: Global) -> Result<bool, OutOfMemory>
        ensures goes { GoesOn self.old self.new 0 }
        ensures answers { IfOk result (λ b. (b ≡ true) ↔ SomeWakes self.old.nodes) }
        ensures ticks { result ≡ Ok true → Ticks self.old self.new }
        ensures still { result ≡ Ok false → self.new ≡ self.old }
        ensures err { OnErr result (IsAsBefore self.old self.new) }
        ensures fine { OnOk result (self.new.failed ≡ self.old.failed) }
    {
        let Some(moment) = due_in(&self.stations) else {
            return Ok(false);
        };
        tick_all(alloc, &mut self.stations, moment)?;
        Ok(true)
    }

    /// The journals of all nodes.
    pub fn into_journals(self, alloc: Global) -> Result<Vec<Journal>, OutOfMemory>
        ensures entries { IfOk result (λ js. map (λ j. j.entries.items) js.items ≡ map (λ n. n.entries) self.nodes) }
        ensures specs { IfOk result (λ js. map (λ j. j.spec) js.items ≡ map (λ n. n.base.spec) self.nodes) }
    {
        journals(alloc, self.stations)
    }

    /// How many entries the journal of that node has.
    pub fn length(&self, node: u16) -> u32
        requires { is_among (map node_number self.now.nodes) node ≡ true }
        ensures { result ≡ length_of self.now.nodes node }
    {
        length_at(&self.stations, node)
    }

    /// Each journal is a local run, each frame that came was sent, and what became of those of a link is what the items say.
    pub fn honest(&self)
        ensures { IsHonest self.now }
    {
        let _ = &self.stations;
    }

    /// No node of a run ever refuses an event for a number: no stamp, count, attempt or moment reaches its limit.
    pub fn unspent(&self)
        ensures { NothingIsSpent self.now.nodes }
    {
        let _ = &self.stations;
    }

    /// All nodes are at one moment between the calls.
    pub fn at_one_moment(&self)
        ensures { AreAtOneMoment self.now.nodes }
    {
        let _ = &self.stations;
    }
}
