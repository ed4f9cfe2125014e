//! The record of several journals: all entries, by their stamps and then by their nodes.
#![tactic(auto)]

mod choosing;
pub mod law;
mod merging;
mod unmerged;

pub use law::{record_is_sorted, sent_before};
pub use merging::merge;
