//! Whether two tokens are the same tree.

ghost use Rattle.std.specs.Prelude.{◌≡◌, ◌↔◌, IsTrue};

use crate::token::{Items, Pairs, Token};

/// Whether two tokens are the same tree: 1 is not `true`, and dictionaries are equal by members.
#[cycle(equal)]
pub fn are_equal(a: &Token, b: &Token) -> bool
    ensures { IsTrue result ↔ (a.now ≡ b.now) }
{
    match (a, b) {
        (Token::Null, Token::Null) => true,
        (Token::Bool(x), Token::Bool(y)) => *x == *y,
        (Token::Int(x), Token::Int(y)) => *x == *y,
        (Token::Text(x), Token::Text(y)) => x.equals(y),
        (Token::List(x), Token::List(y)) => are_equal_items(x, y),
        (Token::Dict(x), Token::Dict(y)) => are_equal_pairs(x, y),
        _ => false,
    }
}

/// Whether two lists have the same tokens in the same order.
#[cycle(equal)]
pub fn are_equal_items(a: &Items, b: &Items) -> bool
    ensures { IsTrue result ↔ (a.now ≡ b.now) }
{
    let xs = a.as_slice();
    let ys = b.as_slice();
    if xs.len() != ys.len() {
        return false;
    }
    for i in 0..xs.len() {
        if !are_equal(&xs[i], &ys[i]) {
            return false;
        }
    }
    true
}

/// Whether two dictionaries have the same pairs.
#[cycle(equal)]
pub fn are_equal_pairs(a: &Pairs, b: &Pairs) -> bool
    ensures { IsTrue result ↔ (a.now ≡ b.now) }
{
    let xs = a.as_slice();
    let ys = b.as_slice();
    if xs.len() != ys.len() {
        return false;
    }
    for i in 0..xs.len() {
        if !xs[i].key.equals(&ys[i].key) || !are_equal(&xs[i].value, &ys[i].value) {
            return false;
        }
    }
    true
}
