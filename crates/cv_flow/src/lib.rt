//! The kinds of flow: sources, sinks, and what stands between them.
#![tactic(auto)]

mod asking;
mod counting;
pub mod kind;
pub mod laws;
mod listing;
mod passing;
mod routing;

pub use kind::FlowKind;
