//! The top call: all that the program does, from its words and its source to its sink.
#![tactic(auto)]

mod end;
mod generating;
mod nodes;
mod running;
mod told;
mod top;
mod tracing;

pub use end::{Cut, End, Outcome};
pub use top::calvin;
