//! A network run over several nodes, each with a worker of its own, and the record of the run.
#![tactic(auto)]

mod nodes;
mod spread;

pub use spread::run_spread;
