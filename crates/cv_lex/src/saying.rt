//! What stands between the quotes of a text, with the characters of its escapes.

ghost use Rattle.std.specs.Prelude.{◌≡◌, ◌↔◌, ℕ, ◌+◌, ◌<◌, ◌≤◌, ◌++◌, List, Ok, length, drop, string_bytes, IfOk};
ghost use Rattle.std.specs.Str.{IsCharBoundary};
ghost use Rattle.cv_lex.specs.Texts.{said, said_from, with_bytes};
ghost use Rattle.cv_lex.specs.Pieces.{Says};
ghost use Rattle.cv_lex.specs.Saying.{SaysText};

use crate::classes::plain_bytes;
use crate::escapes::escape_of;
use cv_token::{OutOfMemory, Text};
use std::alloc::Global;

/// Adds what the front says: the bytes before the next `\`, or an escape. Answers how many bytes that
/// took, or `None` where the escape is bad.
fn say_front(text: &mut String, rest: &str) -> Result<Option<usize>, OutOfMemory>
    requires { 0 < length rest.now }
    ensures { IfOk result (λ taken. Says (string_bytes text.old) (string_bytes text.new) rest.now taken) }
{
    let bytes = rest.as_bytes();
    let plain = plain_bytes(bytes);
    if plain > 0 {
        text.push_str(&rest[..plain])?;
        return Ok(Some(plain));
    }
    match escape_of(bytes.split_at(1).1) {
        None => Ok(None),
        Some(escape) => {
            text.push(escape.code)?;
            Ok(Some(escape.len + 1))
        }
    }
}

/// What stands between the quotes of a text. A bad escape, which no lexeme has, makes it empty.
pub fn unescape(alloc: Global, inside: &str) -> Result<Text, OutOfMemory>
    ensures { IfOk result (λ text. text ≡ said inside.now) }
{
    let mut text = String::new(alloc);
    let mut rest = inside;
    while !rest.is_empty() {
        match say_front(&mut text, rest)? {
            None => return Ok(Text::from_string(String::new(alloc))),
            Some(taken) => rest = rest.split_at(taken).1,
        }
    }
    Ok(Text::from_string(text))
}

/// What is read from the bytes between the quotes of a text is what they say, form by form, and they say one text at most.
pub fn one_saying()
    ensures same { (inside text : List ℕ) → (said_from 0 0 inside ≡ Ok text) ↔ SaysText inside text }
    ensures one { (inside first second : List ℕ) → SaysText inside first → SaysText inside second → first ≡ second }
{}
