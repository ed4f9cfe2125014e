//! The one text of an entry and of a journal's head.

ghost use Rattle.std.specs.Prelude.{◌≡◌, IfOk};
ghost use Rattle.cv_protocol.specs.Journals.{entry_of};
ghost use Rattle.cv_entry.specs.Texts.{entry_spelling, head_of, head_spelling, whole};

use crate::trees::{entry_tree, head_tree};
use cv_protocol::{Entry, Journal, Step};
use cv_rules::NodeSpec;
use cv_token::{OutOfMemory, Text, text};
use std::alloc::Global;

/// The first line of a journal, without its line feed.
pub fn head_text(alloc: Global, journal: &Journal) -> Result<Text, OutOfMemory>
    ensures { IfOk result (λ t. t ≡ head_spelling (head_of journal.now)) }
{
    text(alloc, &head_tree(alloc, &journal.spec, journal.dropped)?)
}

/// The first line of a node's journal of which nothing is left out, without its line feed.
pub fn node_text(alloc: Global, spec: &NodeSpec) -> Result<Text, OutOfMemory>
    ensures { IfOk result (λ t. t ≡ head_spelling (whole spec.now)) }
{
    text(alloc, &head_tree(alloc, spec, 0)?)
}

/// The line of an entry, without its line feed.
pub fn entry_text(alloc: Global, entry: &Entry) -> Result<Text, OutOfMemory>
    ensures { IfOk result (λ t. t ≡ entry_spelling entry.now) }
{
    text(alloc, &entry_tree(alloc, entry.stamp, &entry.event)?)
}

/// The line of a step's entry, without its line feed.
pub fn step_text(alloc: Global, step: &Step) -> Result<Text, OutOfMemory>
    ensures { IfOk result (λ t. t ≡ entry_spelling (entry_of step.now)) }
{
    text(alloc, &entry_tree(alloc, step.stamp, &step.event)?)
}
