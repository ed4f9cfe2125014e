//! The words of a command line, read by hand.
#![tactic(auto)]

pub mod items;
mod numbers;
pub mod options;
pub mod runs;
pub mod words;

pub use items::{LinkItem, Stray, What};
pub use runs::RunWords;
pub use words::{Command, Task, read_command};

#[cfg(test)]
mod tests;
