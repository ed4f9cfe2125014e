//! From the bytes of a script to the network that it stands for, or to its first fault.
#![tactic(auto)]

pub mod compiling;
pub mod fault;
pub mod placing;
pub mod reading;
mod telling;

pub use compiling::compile;
pub use fault::{Code, Fault, NoNetwork};
