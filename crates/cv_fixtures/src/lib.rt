//! What rows of several crates begin with: a text, a network of a constant and a print, and the configuration of a node.
#![tactic(auto)]

mod networks;
mod specs;

pub use networks::{constant_to_print, text};
pub use specs::node_spec;
