//! Rows of rules and attributes: each call that takes memory, once.
#![tactic(auto)]

#[cfg(test)]
mod copies;
