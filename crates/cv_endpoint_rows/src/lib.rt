//! Rows of a connection's ends: windows, answers, and moves in one place.
#![tactic(auto)]

#[cfg(test)]
mod ends;
