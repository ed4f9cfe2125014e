//! A network run on one node: its tokens pass and its actors fire until enough firings were made or nothing can happen.
#![tactic(auto)]

mod alone;
mod sweep;

pub use alone::{RunEnd, run_alone};
