//! Words written so that they are read again, each with a space behind it, and scripts printed so.
#![tactic(auto)]

mod pieces;
mod print_rules;
mod print_statements;
mod print_values;
pub mod printing;
mod separated;
pub mod writing;

pub use printing::print;
pub use writing::{
    push_fraction, push_int, push_mark, push_name, push_reserved, push_text, reads_again,
};
