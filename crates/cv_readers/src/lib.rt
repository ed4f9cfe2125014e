//! Readers of words: where they stop, and the readers of one word.
#![tactic(auto)]

pub mod heads;
pub mod name;
pub mod stop;

pub use heads::{
    first_of, is_mark, is_reserved, lower, open_mark, place_of, skip_mark, stands, take_bare,
    take_mark, take_name, take_reserved, take_text,
};
pub use name::Name;
pub use stop::Stop;
