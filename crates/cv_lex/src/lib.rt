//! The lexemes of a script, and the words that they are.
#![tactic(auto)]

pub mod classes;
pub mod escapes;
pub mod fronts;
pub mod lexeme;
pub mod lexing;
pub mod name_text;
pub mod numbers;
pub mod saying;
pub mod spans;
pub mod word;
pub mod wording;

pub use lexeme::{LexFault, Lexeme, Sort};
pub use lexing::{before_a_space, lex, one_spelling};
pub use name_text::NameText;
pub use saying::one_saying;
pub use word::{Mark, Placed, Reserved, Word};
pub use wording::words;
