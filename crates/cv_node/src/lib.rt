//! One node with its journal: each step is a row of its state and an entry.
#![tactic(auto)]

pub mod node;
pub mod seen;

pub use node::{JOURNAL_LENGTH, Node};
pub use seen::Seen;
