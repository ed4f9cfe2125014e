//! Numbers that stay few: in a run without moves no stamp, count or attempt of a node is above the number of steps, so none reaches
//! the limit before as many steps were made; and moments that stay low, since no actor waits longer than a duration.
#![tactic(auto)]

pub mod law;

pub use law::{moments_stay_low, numbers_stay_few};
