//! Rows of links: frames that are lost, come twice or are cut, and rings.
#![tactic(auto)]

#[cfg(test)]
mod links;
