//! The kinds that calculate: each takes one token of each inport and gives one.
#![tactic(auto)]

mod json;
pub mod kind;
pub mod laws;
mod math;
mod texts;

pub use kind::CalcKind;
