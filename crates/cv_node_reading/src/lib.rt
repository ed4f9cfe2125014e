//! A second, plain reading of the node table: lists without bound, which rows of random events hold against the nodes.
#![tactic(auto)]

pub mod arrivals;
pub mod beings;
pub mod letters;
pub mod reading;
pub mod rows;
