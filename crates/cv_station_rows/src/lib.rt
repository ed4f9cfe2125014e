//! Rows of two stations whose rounds are made one after the other, on one thread.
#![tactic(auto)]

#[cfg(test)]
mod rounds;
