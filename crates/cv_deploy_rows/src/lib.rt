//! Rows of scripts that are compiled: the text of each network, and each fault with its place.
#![tactic(auto)]

#[cfg(test)]
mod compiled;
#[cfg(test)]
mod faults;
#[cfg(test)]
mod networks;
#[cfg(test)]
mod sizes;
