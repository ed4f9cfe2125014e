//! Tokens: the values that travel between actors, and the one text of each.
#![tactic(auto)]

pub mod depth;
pub mod equality;
pub mod fault;
pub mod fitting;
mod found;
pub mod identifiers;
pub mod naming;
pub mod pairs;
pub mod reading;
mod room;
pub mod token;
pub mod utf8;
mod values;
pub mod writing;

pub use equality::{are_equal, are_equal_items, are_equal_pairs};
pub use fault::TokenFault;
pub use fitting::{MOST_BYTES, MOST_DEPTH, fits};
pub use found::token_from;
pub use identifiers::{ActorId, AppId, ConnId};
pub use naming::{actor_id, app_id, node_id};
pub use pairs::{Pair, PairsOf};
pub use reading::{read, read_spelled, read_tree};
pub use token::{Items, OutOfMemory, Pairs, Token, copy_items, copy_pairs};
pub use utf8::Text;
pub use writing::{spells, text};
