//! Messages out of a stream of bytes that comes in pieces, for any kind of message.
#![tactic(auto)]

mod advance;
pub mod feed;
pub mod format;
pub mod laws;

pub use feed::Feed;
pub use format::{Format, Judged, Refusal};
pub use laws::{any_cut, one_reading};
