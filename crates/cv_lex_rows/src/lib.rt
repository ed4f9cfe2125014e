//! Rows of lexemes and words: small texts, worked out by hand from the rules.
#![tactic(auto)]

#[cfg(test)]
mod small_texts;
