//! Kahn's law: what a connection carries when only deterministic actors lead to it, whatever the order of firings.
#![tactic(auto)]

pub mod law;

pub use law::{agree, prefix, slots, taken, whole};
