//! The words that lexemes are: what a parser reads.

ghost use Rattle.std.specs.Prelude.{◌≡◌, ◌<◌, length};
ghost use Rattle.cv_lex.specs.Words.{mark_of, reserved_of};

use crate::name_text::NameText;
use cv_token::Text;

/// The marks.
#[derive(Debug, Clone, Copy, PartialEq, Eq)]
pub enum Mark {
    OpenParen,
    CloseParen,
    OpenBrace,
    CloseBrace,
    OpenBracket,
    CloseBracket,
    Comma,
    Colon,
    Dot,
    Equals,
    Greater,
    Ampersand,
    Bar,
    Tilde,
    Arrow,
}

/// The names that a script keeps for itself.
#[derive(Debug, Clone, Copy, PartialEq, Eq)]
pub enum Reserved {
    Component,
    Define,
    Rule,
    Apply,
    Voidport,
    True,
    False,
    Null,
}

/// A lexeme with what it says. A reserved name is no `Name`.
#[derive(Drop)]
pub enum Word {
    Name(NameText),
    Reserved(Reserved),
    Int(i64),
    /// The letters of the number, as written.
    Fraction(Text),
    Text(Text),
    Mark(Mark),
}

/// A word and the place of its first byte.
#[derive(Drop)]
pub struct Placed {
    pub word: Word,
    pub at: u32,
}

/// The mark that the bytes of a mark's lexeme spell; the first of them tells it, since `-` begins only `->`.
pub fn mark_of(bytes: &[u8]) -> Mark
    requires { 0 < length bytes.now }
    ensures { result ≡ mark_of bytes.now }
{
    match bytes[0] {
        b'(' => Mark::OpenParen,
        b')' => Mark::CloseParen,
        b'{' => Mark::OpenBrace,
        b'}' => Mark::CloseBrace,
        b'[' => Mark::OpenBracket,
        b']' => Mark::CloseBracket,
        b',' => Mark::Comma,
        b':' => Mark::Colon,
        b'.' => Mark::Dot,
        b'=' => Mark::Equals,
        b'>' => Mark::Greater,
        b'&' => Mark::Ampersand,
        b'|' => Mark::Bar,
        b'~' => Mark::Tilde,
        _ => Mark::Arrow,
    }
}

/// The reserved name that a name is, if it is one.
pub fn reserved_of(name: &str) -> Option<Reserved>
    ensures { result ≡ reserved_of name.now }
{
    match name {
        "component" => Some(Reserved::Component),
        "define" => Some(Reserved::Define),
        "rule" => Some(Reserved::Rule),
        "apply" => Some(Reserved::Apply),
        "voidport" => Some(Reserved::Voidport),
        "true" => Some(Reserved::True),
        "false" => Some(Reserved::False),
        "null" => Some(Reserved::Null),
        _ => None,
    }
}
