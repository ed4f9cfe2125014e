//! A cluster: nodes with rings between them, each lent to a worker of its own for a round.
#![tactic(auto)]

mod cluster;
mod finding;
mod opening;
mod rounds;
mod running;
mod sharing;
mod ticking;

pub use cluster::Cluster;
