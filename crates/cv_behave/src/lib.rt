//! What a kind of actor does, row by row: the trait `Behave`, and what the rows of both families share.
#![tactic(auto)]

pub mod behave;
pub mod building;
pub mod shape;
pub mod values;

pub use behave::{Behave, Effect, Outs};
