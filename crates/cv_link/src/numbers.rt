//! `Numbers`: a set of frame numbers.

ghost use Rattle.std.specs.Prelude.{◌≡◌, ◌≤◌, ◌↔◌, IsTrue, OnOk, OnErr};
ghost use Rattle.std.specs.Ordering.{nat_cmp};
ghost use Rattle.std.specs.FinSet as set;
ghost use Rattle.std.specs.Coded.{coded_ℕ};
ghost use Rattle.cv_link.specs.Items.{HasWithin};

use cv_token::OutOfMemory;
use std::alloc::Global;
use std::collections::BTreeSet;
use std::marker::Model;

/// A set of numbers.
#[derive(Drop)]
pub(crate) struct Numbers {
    numbers: BTreeSet<u64>,
}

impl Model for Numbers {
    ghost Value = { set.FinSet nat_cmp };

    ghost coded = { set.code coded_ℕ };

    ghost view = { λ n. set.from_list n.numbers.keys };
}

impl Numbers {
    pub(crate) fn new(alloc: Global) -> Numbers
        ensures { result ≡ set.empty }
    {
        Numbers {
            numbers: BTreeSet::new(alloc),
        }
    }

    pub(crate) fn add(&mut self, n: u64) -> Result<(), OutOfMemory>
        ensures ok { OnOk result (self.new ≡ set.insert self.old n) }
        ensures err { OnErr result (self.new ≡ self.old) }
    {
        self.numbers.insert(n)?;
        Ok(())
    }

    pub(crate) fn contains(&self, n: u64) -> bool
        ensures { result ≡ set.contains self.now n }
    {
        self.numbers.contains(&n)
    }

    /// Whether some number is there that is at least `from` and at most `to`.
    pub(crate) fn any_within(&self, from: u64, to: u64) -> bool
        requires { from ≤ to }
        ensures { IsTrue result ↔ HasWithin self.now from to }
    {
        self.numbers.range(from..=to).next().is_some()
    }
}
