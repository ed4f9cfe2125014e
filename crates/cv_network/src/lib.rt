//! Networks as text and back.
#![tactic(auto)]

mod actors;
mod connections;
pub mod fault;
pub mod reading;
pub mod writing;

pub use fault::NetFault;
pub use reading::{network_of, network_read};
pub use writing::{network_text, network_token};
