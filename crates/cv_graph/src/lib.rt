//! From the parts of a script to its network: kinds, arguments and ports are looked up, and joins are followed through
//! components.
#![tactic(auto)]

mod actors;
mod arguments;
pub mod fault;
mod joining;
mod linking;
pub mod networks;
pub mod placing;
pub mod port;
mod queues;
mod values;
pub mod ways;

pub use fault::GraphFault;
pub use networks::network;
