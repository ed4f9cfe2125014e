//! HTTP requests out of a stream of bytes that comes in pieces, and responses as bytes.
#![tactic(auto)]

pub mod fault;
pub mod feed;
mod fields;
mod format;
mod front;
pub mod laws;
pub mod length;
pub mod request;
pub mod response;
pub mod window;

pub use fault::HttpFault;
pub use feed::Feed;
pub use laws::{any_cut, no_request_at_a_fault, one_fault, one_reading, windows};
pub use length::MOST_BODY;
pub use request::{Body, Request};
pub use response::respond;
pub use window::{MOST_FIELDS, MOST_HEAD, MOST_LINES};
