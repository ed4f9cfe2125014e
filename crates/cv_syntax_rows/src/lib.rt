//! Rows of the grammar: small scripts, what each is read as, and how each is printed.
#![tactic(auto)]

#[cfg(test)]
mod printed;
#[cfg(test)]
mod scripts;
