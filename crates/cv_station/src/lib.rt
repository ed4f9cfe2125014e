//! A node with its ends of the rings to the other nodes, and what a worker does with it in a round.
#![tactic(auto)]

mod carrying;
pub mod copying;
mod delivering;
mod polling;
mod pushing;
pub mod station;
mod stepping;
mod working;

pub use copying::copy_frame;
pub use station::{Peer, Station};
