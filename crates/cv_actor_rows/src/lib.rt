//! Rows of single actors: what each poll answers, step by step.
#![tactic(auto)]

#[cfg(test)]
mod offering;
#[cfg(test)]
mod polling;
