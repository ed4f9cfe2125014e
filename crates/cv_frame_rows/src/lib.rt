//! Rows of frames and states as bytes: each text is written out by hand.
#![tactic(auto)]

#[cfg(test)]
mod feeding;
#[cfg(test)]
mod reading;
#[cfg(test)]
mod values;
#[cfg(test)]
mod writing;
