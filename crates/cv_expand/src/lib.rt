//! Scripts with their components inlined: the actors, component instances and joins that a script stands for.
#![tactic(auto)]

mod arguments;
mod checking;
mod components;
mod constants;
mod copying;
mod declarations;
pub mod expanding;
pub mod fault;
pub mod flat;
mod joins;
pub mod named;
pub mod path;
mod putting;
mod rules;
mod setting;
mod walking;

pub use expanding::expand;
pub use fault::ExpandFault;
pub use flat::{Actor, Argument, Feed, Flat, Given, Instance, Origin, Parts};
pub use named::Named;
pub use path::{Path, Step, path_text};
