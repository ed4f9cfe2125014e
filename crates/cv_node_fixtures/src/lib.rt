//! What rows of nodes end with: a node's journal, a letter for each entry.
#![tactic(auto)]

mod journals;

pub use journals::letters;
