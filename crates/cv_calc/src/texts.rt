//! Texts and truth values.

ghost use Rattle.std.specs.Prelude.{◌≡◌, ◌++◌, IfOk};
ghost use Rattle.cv_token.specs.declared.token.Token.TheVariants as token;
ghost use Rattle.cv_behave.specs.Values.{fitted};
ghost use Rattle.cv_calc.specs.Values.{joined_of, begins_character, character_count, length_of, negated_of};

use cv_behave::values::fit;
use cv_token::{OutOfMemory, Text, Token};
use std::alloc::Global;

fn join_texts(alloc: Global, a: &Text, b: &Text) -> Result<Token, OutOfMemory>
    ensures { IfOk result (λ t. t ≡ fitted (token.Text (a.now ++ b.now))) }
{
    let mut bytes = String::from_str(alloc, a.as_str())?;
    bytes.push_str(b.as_str())?;
    Ok(fit(Token::Text(Text::from_string(bytes))))
}

/// Two Texts joined, or null where that does not fit.
pub(crate) fn join(alloc: Global, a: &Token, b: &Token) -> Result<Token, OutOfMemory>
    ensures { IfOk result (λ t. t ≡ joined_of a.now b.now) }
{
    match (a, b) {
        (Token::Text(x), Token::Text(y)) => join_texts(alloc, x, y),
        _ => Ok(Token::Null),
    }
}

/// Whether the byte begins a character of UTF-8.
fn begins(byte: u8) -> bool
    ensures { result ≡ begins_character byte }
{
    byte < 128 || byte >= 192
}

/// The number of characters.
fn characters(text: &str) -> usize
    ensures { result ≡ character_count text.now }
{
    text.as_bytes().iter().filter(|byte| begins(**byte)).count()
}

/// The number of characters of a Text.
pub(crate) fn character_length(a: &Token) -> Token
    ensures { result ≡ length_of a.now }
{
    match a {
        Token::Text(text) => match i64::try_from(characters(text.as_str())) {
            Ok(count) => Token::Int(count),
            Err(_) => Token::Null,
        },
        _ => Token::Null,
    }
}

/// The other Bool.
pub(crate) fn negate(a: &Token) -> Token
    ensures { result ≡ negated_of a.now }
{
    match a {
        Token::Bool(truth) => Token::Bool(!*truth),
        _ => Token::Null,
    }
}
