//! Rows of the record of several journals.
#![tactic(auto)]

#[cfg(test)]
mod merging;
