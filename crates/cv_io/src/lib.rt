//! The outside as traits: sources and sinks of bytes, each with a count of faults, and the gate of the workers.
#![tactic(auto)]

pub mod adapter;
pub mod gate;
pub mod memory;
pub mod sink;
pub mod source;
pub mod transfer;

pub use adapter::{StdSink, StdSource};
pub use gate::{Gate, OpenGate};
pub use memory::{MemSink, MemSource};
pub use sink::{Sink, Took};
pub use source::{Got, Source};
pub use transfer::{ReadAll, WriteFault, read_all, write_all};

#[cfg(test)]
mod tests;
