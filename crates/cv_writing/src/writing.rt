//! Words as text.

ghost use Rattle.std.specs.Prelude.{◌≡◌, ◌++◌, ℕ, List, [], ◌∷◌, string_bytes, OnOk};
ghost use Rattle.cv_lex.specs.declared.lexeme.Lexeme.{Lexeme};
ghost use Rattle.cv_lex.specs.declared.word.Word.TheVariants as words;
ghost use Rattle.cv_lex.specs.Spelling.{SpellsLexemes};
ghost use Rattle.cv_writing.specs.Written.{mark_bytes, reserved_bytes, written, words_in, ReadsAs};

use crate::pieces::{push_quoted, push_space, push_word};
use cv_lex::{Mark, Reserved};
use cv_token::OutOfMemory;
use itoa::Buffer;

/// A name.
pub fn push_name(out: &mut String, name: &str) -> Result<(), OutOfMemory>
    ensures { OnOk result (string_bytes out.new ≡ string_bytes out.old ++ written (words.Name name.now ∷ [])) }
{
    push_word(out, name)
}

/// The letters of a reserved name.
fn reserved_text(name: Reserved) -> &'static str
    ensures { result.now ≡ reserved_bytes name }
{
    match name {
        Reserved::Component => "component",
        Reserved::Define => "define",
        Reserved::Rule => "rule",
        Reserved::Apply => "apply",
        Reserved::Voidport => "voidport",
        Reserved::True => "true",
        Reserved::False => "false",
        Reserved::Null => "null",
    }
}

/// A reserved name.
pub fn push_reserved(out: &mut String, name: Reserved) -> Result<(), OutOfMemory>
    ensures { OnOk result (string_bytes out.new ≡ string_bytes out.old ++ written (words.Reserved name ∷ [])) }
{
    push_word(out, reserved_text(name))
}

/// An integer, in decimal.
pub fn push_int(out: &mut String, number: i64) -> Result<(), OutOfMemory>
    ensures { OnOk result (string_bytes out.new ≡ string_bytes out.old ++ written (words.Int number ∷ [])) }
{
    let mut buffer = Buffer::new();
    push_word(out, buffer.format(number))
}

/// A number with a fraction, by its letters.
pub fn push_fraction(out: &mut String, digits: &str) -> Result<(), OutOfMemory>
    ensures { OnOk result (string_bytes out.new ≡ string_bytes out.old ++ written (words.Fraction digits.now ∷ [])) }
{
    push_word(out, digits)
}

/// A text in quotes.
pub fn push_text(out: &mut String, text: &str) -> Result<(), OutOfMemory>
    ensures { OnOk result (string_bytes out.new ≡ string_bytes out.old ++ written (words.Text text.now ∷ [])) }
{
    push_quoted(out, text)?;
    push_space(out)
}

/// The letters of a mark.
fn mark_text(mark: Mark) -> &'static str
    ensures { result.now ≡ mark_bytes mark }
{
    match mark {
        Mark::OpenParen => "(",
        Mark::CloseParen => ")",
        Mark::OpenBrace => "{",
        Mark::CloseBrace => "}",
        Mark::OpenBracket => "[",
        Mark::CloseBracket => "]",
        Mark::Comma => ",",
        Mark::Colon => ":",
        Mark::Dot => ".",
        Mark::Equals => "=",
        Mark::Greater => ">",
        Mark::Ampersand => "&",
        Mark::Bar => "|",
        Mark::Tilde => "~",
        Mark::Arrow => "->",
    }
}

/// A mark.
pub fn push_mark(out: &mut String, mark: Mark) -> Result<(), OutOfMemory>
    ensures { OnOk result (string_bytes out.new ≡ string_bytes out.old ++ written (words.Mark mark ∷ [])) }
{
    push_word(out, mark_text(mark))
}

/// The words of a source, written with a space behind each, are read as the same words.
pub fn reads_again()
    ensures { (source : List ℕ) (found : List Lexeme) → SpellsLexemes 0 source found → ReadsAs (written (words_in source found)) (words_in source found) }
{}
