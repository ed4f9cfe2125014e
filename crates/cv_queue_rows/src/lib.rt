//! Rows of ports: offers, positions and acknowledgements, and each call with ample memory.
#![tactic(auto)]

#[cfg(test)]
mod ports;
