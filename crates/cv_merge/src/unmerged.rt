//! `Unmerged`: what is left of one journal.

ghost use Rattle.std.specs.Prelude.{◌≡◌, [], ◌∷◌, MatchOption, option_map};
ghost use Rattle.cv_merge.specs.Choice.{first_stamp};

use cv_protocol::Entry;
use std::collections::VecDeque;
use std::marker::Model;

/// The entries of a node that are left.
#[derive(Drop)]
pub struct Unmerged {
    node: u16,
    entries: VecDeque<Entry>,
}

impl Model for Unmerged {
    ghost use Rattle.cv_merge.specs.Lanes.{Lane, lane_code};

    ghost Value = { Lane };

    ghost coded = { lane_code };

    ghost view = { λ s. record { node = s.node; entries = s.entries.items } };
}

impl Unmerged {
    /// The whole journal of a node.
    pub fn new(node: u16, entries: Vec<Entry>) -> Unmerged
        ensures { result ≡ record { node = node; entries = entries.items } }
    {
        Unmerged {
            node,
            entries: VecDeque::from_vec(entries),
        }
    }

    pub fn node(&self) -> u16
        ensures { result ≡ self.now.node }
    {
        self.node
    }

    /// The stamp of the first entry that is left.
    pub fn first_stamp(&self) -> Option<u64>
        ensures { result ≡ first_stamp self.now.entries }
    {
        let entry = self.entries.front()?;
        Some(entry.stamp)
    }

    /// Takes the first entry that is left.
    pub fn take(&mut self) -> Option<Entry>
        ensures entries { MatchOption result (self.old.entries ≡ []) (λ entry. self.old.entries ≡ entry ∷ self.new.entries) }
        ensures node { self.new.node ≡ self.old.node }
    {
        self.entries.pop_front()
    }
}
