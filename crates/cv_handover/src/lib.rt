//! What holds of every record of nodes that run by the node table, whatever frames are lost, repeated or late: one owner, and
//! streams in order.
#![tactic(auto)]

pub mod law;

pub use law::{
    always_agrees, as_one_runtime, as_the_rounds, attempts_are_one, one_owner, records_rise,
    step_law, streams_in_order,
};
