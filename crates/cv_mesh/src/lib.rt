//! Stations of the nodes of a cluster with rings between them: made, joined, looked at, and what they keep whatever they do.
#![tactic(auto)]

pub mod joining;
pub mod looking;
pub mod turning;

pub use joining::join_all;
pub use looking::look_all;
pub use turning::end_turns;
