//! Deployment rules: which attributes of a node an actor asks for.
#![tactic(auto)]

pub mod attrs;
pub mod meeting;
pub mod rule;

pub use attrs::{Attrs, NodeSpec, is_key};
pub use meeting::meets;
pub use rule::{Fields, Rule};
