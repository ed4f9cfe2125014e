//! The two ends of a connection: what its producer sends and how its consumer answers.
#![tactic(auto)]

pub mod ends;
pub mod law;

pub use ends::{Answer, local_move, next_to_send, on_ack, on_nack, on_token};
pub use law::{acknowledged_is_received, held_until_done, received_in_order};
