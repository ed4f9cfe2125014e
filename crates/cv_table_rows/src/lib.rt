//! Rows of tables: each call with ample memory.
#![tactic(auto)]

#[cfg(test)]
mod tables;
