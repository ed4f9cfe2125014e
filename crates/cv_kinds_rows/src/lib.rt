//! Rows of kinds: what arguments each kind takes, and what the plain machine answers where an actor cannot fire.
#![tactic(auto)]

#[cfg(test)]
mod arguments;
#[cfg(test)]
mod firing;
