//! Rows of runs over two nodes with gates: the workers of a round are at work at once, and a frame is delivered in the round in which it
//! was sent.
#![tactic(auto)]

#[cfg(test)]
mod meeting;
#[cfg(test)]
mod relaying;
#[cfg(test)]
mod turning;
