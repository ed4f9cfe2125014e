//! Frames and travelling states as bytes.
#![tactic(auto)]

pub mod fault;
pub mod feed;
pub mod flaw;
pub mod format;
pub mod frames;
pub mod laws;
mod listing;
pub mod parts;
mod ports;
pub mod reading;
mod stamps;
mod states;
pub mod trees;
pub mod writing;

pub use fault::FrameFault;
pub use feed::Feed;
pub use laws::{any_cut, no_frame_at_a_fault, one_fault, one_reading};
pub use reading::{frame_read, state_read};
pub use writing::{encode, frame_text, state_text};
