//! Whether a token is within the bounds of those that are sent; no memory is taken.

ghost use Rattle.std.specs.Prelude.{◌≡◌, ◌==◌, ◌↔◌, ◌&&◌, if◌then◌else◌, ◌≤◌, true, IsTrue, OnSome, length, map};
ghost use Rattle.std.specs.Bool.{OnTrue};
ghost use Rattle.cv_token.specs.Bounds.{Fits, left, most_bytes};
ghost use Rattle.cv_token.specs.Forms.{on_values};
ghost use Rattle.cv_token.specs.Shape.{is_token, all_true, all_members, are_rising};
ghost use Rattle.cv_token.specs.Spelling.{spelling, behind_commas, members};

use crate::depth::nests_within;
use crate::room::{left_after_quoted, pay};
use crate::token::{Items, Pairs, Token};
use itoa::Buffer;

/// How deep lists and dictionaries of a token that is sent may nest.
pub const MOST_DEPTH: u32 = 16;

/// How many bytes the text of a token that is sent may have.
pub const MOST_BYTES: usize = 1024;

/// Whether lists and dictionaries nest at most 16 deep, and the compact text has at most 1,024
/// bytes.
pub fn fits(token: &Token) -> bool
    ensures { IsTrue result ↔ Fits token.now }
{
    nests_within(token, MOST_DEPTH) && is_short(token)
}

/// Whether the compact text has at most 1,024 bytes.
pub(crate) fn is_short(token: &Token) -> bool
    ensures short { IsTrue result ↔ (length (spelling token.now) ≤ most_bytes) }
    ensures known { OnTrue result (is_token token.now ≡ true) }
{
    left_after(MOST_BYTES, token).is_some()
}

/// How many bytes the brackets round this many items take, where each item counts with a comma.
fn brackets(count: usize) -> usize
    ensures { result ≡ (if count == 0 then 2 else 1) }
{
    if count == 0 { 2 } else { 1 }
}

/// What is left of the room once the token's text is written into it, where it is enough.
#[cycle(pays)]
fn left_after(room: usize, token: &Token) -> Option<usize>
    ensures value { result ≡ left room (length (spelling token.now)) }
    ensures known { OnSome result (is_token token.now ≡ true) }
{
    match token {
        Token::Null => pay(room, 4),
        Token::Bool(true) => pay(room, 4),
        Token::Bool(false) => pay(room, 5),
        Token::Int(number) => pay(room, Buffer::new().format(*number).len()),
        Token::Text(text) => left_after_quoted(room, text.as_str()),
        Token::List(items) => left_after_items(pay(room, brackets(items.len()))?, items),
        Token::Dict(pairs) => left_after_pairs(pay(room, brackets(pairs.len()))?, pairs),
    }
}

#[cycle(pays)]
fn left_after_items(room: usize, items: &Items) -> Option<usize>
    ensures value { result ≡ left room (length (behind_commas (map spelling items.now))) }
    ensures known { OnSome result (all_true (map is_token items.now) ≡ true) }
{
    let mut room = room;
    for item in items.as_slice() {
        room = left_after(pay(room, 1)?, item)?;
    }
    Some(room)
}

#[cycle(pays)]
fn left_after_pairs(room: usize, pairs: &Pairs) -> Option<usize>
    ensures value { result
        ≡ left room (length (behind_commas (members (on_values spelling pairs.now)))) }
    ensures known { OnSome result ((are_rising (on_values is_token pairs.now)
        && all_members (on_values is_token pairs.now)) ≡ true) }
{
    let mut room = room;
    for pair in pairs.as_slice() {
        room = left_after_quoted(pay(room, 2)?, pair.key.as_str())?;
        room = left_after(room, &pair.value)?;
    }
    Some(room)
}
