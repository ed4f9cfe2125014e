//! The one-runtime meaning of a network: a plain machine that fires what it is told.
#![tactic(auto)]

pub mod laws;
pub mod printing;
pub mod round;
pub mod solo;
pub mod stream;
mod touching;

pub use solo::{Solo, SoloFault};
pub use stream::Stream;
