//! What stands at the front of a text: white space or a comment, a lexeme, or what is wrong there.

ghost use Rattle.std.specs.Prelude.{◌≡◌, ◌+◌, ◌<◌, ◌≤◌, ◌^◌, length, false};
ghost use Rattle.cv_lex.specs.Fronts.{front_of, name_front, fraction_len, int_front, number_front, minus_front, slash_front, text_front, quote_front, IsWithin};
ghost use Rattle.cv_lex.specs.Spans.{closing};

use crate::classes::{
    byte_at, digits, is_blank_byte, is_digit, is_mark_byte, is_name_start, line_bytes, name_bytes,
};
use crate::escapes::bad_escape;
use crate::lexeme::{LexFault, Sort};
use crate::numbers::int_value;
use crate::spans::{closing_place, place_of};

/// What stands at the front of a text. The number says how many bytes belong to it behind the first.
#[derive(Debug, Clone, Copy, PartialEq, Eq)]
pub enum Front {
    Blank(usize),
    Lexeme(Sort, usize),
    Flaw(LexFault),
}

/// The name that a letter or `_` begins.
fn name_front(bytes: &[u8], at: u32) -> Front
    requires { 0 < length bytes.now }
    ensures value { result ≡ name_front at bytes.now }
    ensures within { IsWithin (length bytes.now) result }
{
    let more = name_bytes(bytes.split_at(1).1);
    if more < 64 {
        Front::Lexeme(Sort::Name, more)
    } else {
        Front::Flaw(LexFault::LongName { at })
    }
}

/// How many bytes a dot and digits have at the front; 0 where they do not stand there.
fn fraction_len(bytes: &[u8]) -> usize
    ensures value { result ≡ fraction_len bytes.now }
    ensures within { result ≤ length bytes.now }
{
    if bytes.is_empty() || bytes[0] != b'.' {
        return 0;
    }
    let digits = digits(bytes.split_at(1).1);
    if digits == 0 { 0 } else { digits + 1 }
}

/// The integer that has `more` bytes behind its first.
fn int_front(bytes: &[u8], at: u32, more: usize) -> Front
    requires { more < length bytes.now }
    ensures value { result ≡ int_front at bytes.now more }
    ensures within { IsWithin (length bytes.now) result }
{
    match int_value(bytes.split_at(more + 1).0) {
        Some(_) => Front::Lexeme(Sort::Int, more),
        None => Front::Flaw(LexFault::WideNumber { at }),
    }
}

/// The number that a digit begins, or a `-` before a digit.
fn number_front(bytes: &[u8], at: u32) -> Front
    requires { 0 < length bytes.now }
    ensures value { result ≡ number_front at bytes.now }
    ensures within { IsWithin (length bytes.now) result }
{
    let more = digits(bytes.split_at(1).1);
    let fraction = fraction_len(bytes.split_at(more + 1).1);
    if fraction == 0 {
        int_front(bytes, at, more)
    } else {
        Front::Lexeme(Sort::Fraction, more + fraction)
    }
}

/// What a `-` begins.
fn minus_front(bytes: &[u8], at: u32) -> Front
    requires { 0 < length bytes.now }
    ensures value { result ≡ minus_front at bytes.now }
    ensures within { IsWithin (length bytes.now) result }
{
    let next = byte_at(bytes, 1);
    if is_digit(next) {
        number_front(bytes, at)
    } else if next == b'>' {
        Front::Lexeme(Sort::Mark, 1)
    } else {
        Front::Flaw(LexFault::BadChar { at })
    }
}

/// What a `/` begins.
fn slash_front(bytes: &[u8], at: u32) -> Front
    requires { 0 < length bytes.now }
    ensures value { result ≡ slash_front at bytes.now }
    ensures within { IsWithin (length bytes.now) result }
{
    let next = byte_at(bytes, 1);
    if next == b'/' {
        return Front::Blank(line_bytes(bytes.split_at(2).1) + 1);
    }
    if next != b'*' {
        return Front::Flaw(LexFault::BadChar { at });
    }
    match place_of(bytes.split_at(2).1, b"*/") {
        Some(place) => Front::Blank(place + 3),
        None => Front::Flaw(LexFault::OpenComment { at }),
    }
}

/// The text that a quote begins, by the bytes behind the quote.
fn text_front(inside: &[u8], at: u32) -> Front
    requires { at + length inside.now < 2 ^ 31 }
    ensures value { result ≡ text_front at inside.now (closing 0 false inside.now) }
    ensures within { IsWithin (length inside.now + 1) result }
{
    match closing_place(inside) {
        None => Front::Flaw(LexFault::OpenText { at }),
        Some(place) => match bad_escape(inside.split_at(place).0) {
            None => Front::Lexeme(Sort::Text, place + 1),
            Some(bad) => Front::Flaw(LexFault::BadEscape {
                at: at + (bad as u32 + 1),
            }),
        },
    }
}

/// What a quote begins.
fn quote_front(bytes: &[u8], at: u32) -> Front
    requires some { 0 < length bytes.now }
    requires small { at + length bytes.now ≤ 2 ^ 31 }
    ensures value { result ≡ quote_front at bytes.now }
    ensures within { IsWithin (length bytes.now) result }
{
    if !bytes.starts_with(b"\"\"\"") {
        return text_front(bytes.split_at(1).1, at);
    }
    match place_of(bytes.split_at(3).1, b"\"\"\"") {
        Some(place) => Front::Blank(place + 5),
        None => Front::Flaw(LexFault::OpenComment { at }),
    }
}

/// What stands at the front of a text that is not empty; `at` is its place.
pub fn at_front(bytes: &[u8], at: u32) -> Front
    requires some { 0 < length bytes.now }
    requires small { at + length bytes.now ≤ 2 ^ 31 }
    ensures value { result ≡ front_of at bytes.now }
    ensures within { IsWithin (length bytes.now) result }
{
    let first = bytes[0];
    if is_blank_byte(first) {
        Front::Blank(0)
    } else if is_name_start(first) {
        name_front(bytes, at)
    } else if is_digit(first) {
        number_front(bytes, at)
    } else if first == b'-' {
        minus_front(bytes, at)
    } else if first == b'"' {
        quote_front(bytes, at)
    } else if first == b'/' {
        slash_front(bytes, at)
    } else if is_mark_byte(first) {
        Front::Lexeme(Sort::Mark, 0)
    } else {
        Front::Flaw(LexFault::BadChar { at })
    }
}
