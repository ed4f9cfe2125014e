//! A name of a script, with its place.

use cv_lex::NameText;

/// A name, and the place of its first byte in the source.
#[derive(Drop)]
pub struct Name {
    pub text: NameText,
    pub at: u32,
}
