//! The lines of a journal as text: what the node is, and its entries.
#![tactic(auto)]

mod attrs;
mod carried;
mod events;
mod fields;
pub mod head;
mod moves;
pub mod reading;
mod steps;
mod trees;
pub mod writing;

pub use head::Head;
pub use reading::{entry_read, head_read};
pub use writing::{entry_text, head_text, node_text, step_text};
