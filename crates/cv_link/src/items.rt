//! What the words plan: moves of actors, and faults of links.

ghost use Rattle.std.specs.Prelude.{◌≡◌, ◌≤◌, ◌↔◌, IsTrue, OnOk, OnErr};
ghost use Rattle.std.specs.FinSet as set;
ghost use Rattle.cv_link.specs.Items.{no_items, with_item, is_between, HasWithin};

use crate::numbers::Numbers;
use cv_token::OutOfMemory;
use std::alloc::Global;
use std::marker::Model;

/// One thing that the words plan. The `k`-th frame of a link is the `k`-th that node `to` takes from node `from` in a whole run,
/// counted from 1.
#[derive(Debug, Clone, Copy, PartialEq, Eq)]
pub enum Item {
    /// The actor, by its place in the network, moves to that node once there were `after` firings.
    Move { actor: u16, node: u16, after: u32 },
    /// The `k`-th frame is lost.
    Lose { from: u16, to: u16, k: u32 },
    /// The `k`-th frame comes twice.
    Twice { from: u16, to: u16, k: u32 },
    /// The `k`-th frame is lost, and so are those that are taken in the same turn after it.
    Cut { from: u16, to: u16, k: u32 },
}

/// The items of the link from one node to another. Contracts see a `LinkView`.
#[derive(Drop)]
pub struct LinkItems {
    from: u16,
    to: u16,
    lose: Numbers,
    twice: Numbers,
    cut: Numbers,
}

impl Model for LinkItems {
    ghost use Rattle.cv_link.specs.Items.{LinkView, link_code};

    ghost Value = { LinkView };

    ghost coded = { link_code };

    ghost view = { λ l. record { from = l.from; to = l.to; lose = l.lose; twice = l.twice; cut = l.cut } };
}

impl LinkItems {
    /// The link from a node to another, without an item.
    pub fn new(alloc: Global, from: u16, to: u16) -> LinkItems
        ensures { result ≡ no_items from to }
    {
        LinkItems {
            from,
            to,
            lose: Numbers::new(alloc),
            twice: Numbers::new(alloc),
            cut: Numbers::new(alloc),
        }
    }

    /// Takes the item in where it is one of this link.
    pub fn add(&mut self, item: Item) -> Result<(), OutOfMemory>
        ensures ok { OnOk result (self.new ≡ with_item self.old item) }
        ensures err { OnErr result (self.new ≡ self.old) }
    {
        match item {
            Item::Lose { from, to, k } if self.is_between(from, to) => self.lose.add(u64::from(k)),
            Item::Twice { from, to, k } if self.is_between(from, to) => self
                .twice
                .add(u64::from(k)),
            Item::Cut { from, to, k } if self.is_between(from, to) => self.cut.add(u64::from(k)),
            _ => Ok(()),
        }
    }

    // Whether an item loses the `k`-th frame.
    pub(crate) fn loses(&self, k: u64) -> bool
        ensures { result ≡ set.contains self.now.lose k }
    {
        self.lose.contains(k)
    }

    // Whether an item doubles the `k`-th frame.
    pub(crate) fn doubles(&self, k: u64) -> bool
        ensures { result ≡ set.contains self.now.twice k }
    {
        self.twice.contains(k)
    }

    // Whether an item cuts the link at one of these frames.
    pub(crate) fn cuts_within(&self, from: u64, to: u64) -> bool
        requires { from ≤ to }
        ensures { IsTrue result ↔ HasWithin self.now.cut from to }
    {
        self.cut.any_within(from, to)
    }

    // Whether the link is the one between these nodes.
    fn is_between(&self, from: u16, to: u16) -> bool
        ensures { result ≡ is_between self.now from to }
    {
        self.from == from && self.to == to
    }
}
