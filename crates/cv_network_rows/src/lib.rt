//! Rows of networks as text: each text is written out by hand.
#![tactic(auto)]

#[cfg(test)]
mod reading;
