//! Rows of scripts that are expanded: what each stands for, and each fault with its place, by the rules of the walk.
#![tactic(auto)]

#[cfg(test)]
mod faults;
#[cfg(test)]
mod listing;
#[cfg(test)]
mod wholes;
