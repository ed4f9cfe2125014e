//! A settle: on one thread tokens are sent and delivered between all stations, until no connection advances.
#![tactic(auto)]

mod acting;
mod carrying;
mod exchanging;
pub mod settling;

pub use settling::settle;
