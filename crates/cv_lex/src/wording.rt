//! Lexemes turned into words.

ghost use Rattle.std.specs.Prelude.{◌≡◌, ◌<◌, ◌≤◌, length, map, IfOk, All};
ghost use Rattle.cv_lex.specs.Cuts.{IsCut, IsNamed};
ghost use Rattle.cv_lex.specs.Spelling.{SpellsLexemes};
ghost use Rattle.cv_lex.specs.Shapes.{IsInLimits, IsName};
ghost use Rattle.cv_lex.specs.Words.{name_word, reserved_of, bytes_of, inside_of, placed_word};

use crate::lexeme::{Lexeme, Sort};
use crate::name_text::NameText;
use crate::numbers::int_value;
use crate::saying::unescape;
use crate::word::{Placed, Word, mark_of, reserved_of};
use cv_token::{OutOfMemory, Text};
use std::alloc::Global;

/// A text of its own.
fn own_text(alloc: Global, part: &str) -> Result<Text, OutOfMemory>
    ensures { IfOk result (λ text. text ≡ part.now) }
{
    Ok(Text::from_string(String::from_str(alloc, part)?))
}

/// The word of a name.
fn name_word(alloc: Global, name: &str) -> Result<Word, OutOfMemory>
    requires { IsName name.now }
    ensures { IfOk result (λ word. word ≡ name_word name.now (reserved_of name.now)) }
{
    match reserved_of(name) {
        Some(word) => Ok(Word::Reserved(word)),
        None => Ok(Word::Name(NameText::new(own_text(alloc, name)?))),
    }
}

/// The part of the source that a lexeme is.
fn part_of<'a>(source: &'a str, lexeme: &Lexeme) -> &'a str
    requires { IsCut source.now lexeme.now }
    ensures part { result.now ≡ bytes_of source.now lexeme.now }
    ensures some { 0 < length result.now }
{
    let from = lexeme.at as usize;
    let to = from + lexeme.len as usize;
    &source[from..to]
}

/// The part of the source between the quotes of a text.
fn inside_of<'a>(source: &'a str, lexeme: &Lexeme) -> &'a str
    requires cut { IsCut source.now lexeme.now }
    requires quotes { 2 ≤ lexeme.now.len }
    ensures { result.now ≡ inside_of source.now lexeme.now }
{
    let from = lexeme.at as usize;
    let to = from + lexeme.len as usize;
    &source[from + 1..to - 1]
}

/// The word that a lexeme of the source is.
fn word_of(alloc: Global, source: &str, lexeme: &Lexeme) -> Result<Word, OutOfMemory>
    requires cut { IsCut source.now lexeme.now }
    requires named { IsNamed source.now lexeme.now }
    ensures { IfOk result (λ word. word ≡ (placed_word source.now lexeme.now).word) }
{
    let part = part_of(source, lexeme);
    match lexeme.sort {
        Sort::Name => name_word(alloc, part),
        Sort::Int => Ok(Word::Int(int_value(part.as_bytes()).unwrap_or(0))),
        Sort::Fraction => Ok(Word::Fraction(own_text(alloc, part)?)),
        Sort::Text => Ok(Word::Text(unescape(alloc, inside_of(source, lexeme))?)),
        Sort::Mark => Ok(Word::Mark(mark_of(part.as_bytes()))),
    }
}

/// The words that the lexemes of a source are, with their places.
pub fn words(alloc: Global, source: &str, found: &[Lexeme]) -> Result<Vec<Placed>, OutOfMemory>
    requires { SpellsLexemes 0 source.now found.now }
    ensures words { IfOk result (λ words. words.items ≡ map (placed_word source.now) found.now) }

    // So each integer has its number, and each text says characters: what a word of another lexeme
    // would be does not matter.
    ensures fit { All (λ lexeme. IsInLimits lexeme.sort (bytes_of source.now lexeme)) found.now }
{
    let mut words = Vec::new(alloc);
    for lexeme in found {
        let word = word_of(alloc, source, lexeme)?;
        words.push(Placed {
            word,
            at: lexeme.at,
        })?;
    }
    Ok(words)
}
