//! What nodes say and do: the events of a node, the frames between nodes, the states that travel, and the table of rows by
//! which each step is judged.
#![tactic(auto)]

pub mod event;
pub mod frame;
pub mod law;
pub mod moving;
pub mod poll;
pub mod refusal;
pub mod state;

pub use event::{Entry, Event, Journal, NodeSpecs, Record, Sent, Step, Steps};
pub use frame::{Body, Frame, Frames, Verdict};
pub use law::{causes_are_exact, stamps_rise};
pub use moving::{Application, Frozen, Judged, Location};
pub use poll::Need;
pub use refusal::StepRefusal;
pub use state::{ActorState, Hint, Hints, Inlet, StateParts, copy_inlets, copy_outs};
