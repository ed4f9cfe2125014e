//! The kinds of actors, each by its row and its line of the table, and the network that a script stands for.
#![tactic(auto)]

pub mod arguments;
mod duration;
mod forming;
pub mod kind;
pub mod laws;
pub mod names;
pub mod network;
pub mod sorts;
pub mod table;

pub use arguments::{ArgFault, ArgList, Argument, Given, check_args};
pub use kind::{Kind, actions, deterministic};
pub use names::{KINDS, find, inport, name, outport};
pub use network::{ActorSpec, Connection, Network};
pub use sorts::{args_ok, state_ok};
pub use table::{Line, Param, Preset, Slot, Sort};
