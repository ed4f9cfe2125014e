//! Rows of tokens: vectors of RFC 8259, the bounds, and each public call once.
#![tactic(auto)]

#[cfg(test)]
mod bounds;
#[cfg(test)]
mod copies;
#[cfg(test)]
mod outcomes;
#[cfg(test)]
mod reading;
