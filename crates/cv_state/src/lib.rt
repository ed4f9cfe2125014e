//! What a node is, and the rows of the node table that change it.
#![tactic(auto)]

mod acks;
mod apply;
mod arriving;
mod causes;
mod coming;
mod deliver;
mod deploy;
mod destroy;
mod frames;
mod hints;
mod judging;
pub mod known;
pub mod law;
mod leaving;
pub mod moves;
mod near;
mod noting;
mod opening;
mod outlet;
mod pass;
mod ports;
mod releasing;
mod stamps;
pub mod state;
mod tokens;
mod verdicts;
mod waking;

pub use known::Known;
pub use law::opens_in_places;
pub use moves::Moves;
pub use state::State;
