//! Rows of single calls of a node: what they tell, steps that are refused, and transfers that come late.
#![tactic(auto)]

#[cfg(test)]
mod moving;
