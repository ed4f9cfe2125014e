//! Rows of settles: what journals say after one.
#![tactic(auto)]

#[cfg(test)]
mod settles;
