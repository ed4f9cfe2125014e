//! Tables of a node, kept in the order of their keys: values by actor, by application,
//! by connection and by node.
#![tactic(auto)]

pub mod actors;
pub mod apps;
pub mod conns;
mod entries;
pub mod nodes;

pub use actors::{ActorTable, Change};
pub use apps::AppTable;
pub use conns::ConnTable;
pub use nodes::NodeTable;
