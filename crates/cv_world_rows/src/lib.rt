//! Random events of small networks on a few nodes, followed by a second reading of the node table.
#![tactic(auto)]

#[cfg(test)]
mod matching;
#[cfg(test)]
mod stepping;
#[cfg(test)]
mod worlds;
