//! The ports of actors: queues of tokens with the positions of those who read and write them.
#![tactic(auto)]

pub mod in_port;
pub mod out_port;
pub mod reader;
mod slots;

pub use in_port::{InPort, Offered};
pub use out_port::OutPort;
pub use reader::{MOST_READERS, Reader, Readers, Subscription};
