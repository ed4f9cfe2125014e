//! Links between nodes: a ring for each ordered pair of nodes, and the plan by which frames of it are lost or come twice.
#![tactic(auto)]

pub mod items;
pub mod law;
mod numbers;
pub mod plan;
pub mod ring;

pub use items::{Item, LinkItems};
pub use law::{ends_stay_ends, frames_are_judged_as_planned};
pub use plan::{Plan, Taken};
pub use ring::{Pair, Rx, Tx};
