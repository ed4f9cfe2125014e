//! Live actors: their ports, what they may do at a moment, and what a firing makes of them.
#![tactic(auto)]

pub mod act;
pub mod finding;
mod firing;
mod joined;
pub mod law;
pub mod live;
mod looking;
mod making;
pub mod numbers;
pub mod outlook;
mod passing;
pub mod rewinding;
mod travel;

pub use act::{Act, Polled};
pub use finding::{Spot, reader_among};
pub use law::comes_back_as_it_left;
pub use live::{Live, capture, restore};
pub use numbers::{LIMIT, fits_restored};
pub use outlook::{Outlook, Sight};
pub use rewinding::Rewinding;
