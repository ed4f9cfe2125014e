//! Rows of entries and journals as text: each line is written out by hand.
#![tactic(auto)]

#[cfg(test)]
mod entries;
#[cfg(test)]
mod journals;
#[cfg(test)]
mod values;
