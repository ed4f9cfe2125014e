//! Journals as text and back.
#![tactic(auto)]

mod entries;
pub mod fault;
pub mod law;
mod lines;
pub mod merged;
pub mod reading;
pub mod writing;

pub use fault::LineFault;
pub use law::one_first_bad;
pub use merged::record_text;
pub use reading::read;
pub use writing::write;
