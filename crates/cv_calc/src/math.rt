//! Arithmetic of 64 signed bits, and comparisons.

ghost use Rattle.std.specs.Prelude.{◌≡◌, ◌-ℤ◌, ◌*ℤ◌};
ghost use Rattle.cv_behave.specs.Values.{number, sum_of};
ghost use Rattle.cv_calc.specs.Values.{difference_of, product_of, quotient as quotient_or_null, quotient_of, remainder as remainder_or_null, remainder_of, order_of, ordered, compared as comparison_by, comparison_of};

use cv_behave::values::{add, same};
use cv_token::Token;
use std::cmp::Ordering;

fn subtract(a: i64, b: i64) -> Token
    ensures { result ≡ number (a -ℤ b) }
{
    match a.checked_sub(b) {
        Some(rest) => Token::Int(rest),
        None => Token::Null,
    }
}

fn multiply(a: i64, b: i64) -> Token
    ensures { result ≡ number (a *ℤ b) }
{
    match a.checked_mul(b) {
        Some(product) => Token::Int(product),
        None => Token::Null,
    }
}

fn divide(a: i64, b: i64) -> Token
    ensures { result ≡ quotient_or_null a b }
{
    if b == 0 {
        return Token::Null;
    }
    match a.checked_div(b) {
        Some(quotient) => Token::Int(quotient),
        None => Token::Null,
    }
}

/// -2^63 by -1 leaves 0.
fn left_over(a: i64, b: i64) -> Token
    ensures { result ≡ remainder_or_null a b }
{
    if b == 0 {
        Token::Null
    } else {
        Token::Int(a.wrapping_rem(b))
    }
}

/// The sum of two Ints.
pub(crate) fn sum(a: &Token, b: &Token) -> Token
    ensures { result ≡ sum_of a.now b.now }
{
    match (a, b) {
        (Token::Int(x), Token::Int(y)) => add(*x, *y),
        _ => Token::Null,
    }
}

/// The first of two Ints less the second.
pub(crate) fn difference(a: &Token, b: &Token) -> Token
    ensures { result ≡ difference_of a.now b.now }
{
    match (a, b) {
        (Token::Int(x), Token::Int(y)) => subtract(*x, *y),
        _ => Token::Null,
    }
}

/// The product of two Ints.
pub(crate) fn product(a: &Token, b: &Token) -> Token
    ensures { result ≡ product_of a.now b.now }
{
    match (a, b) {
        (Token::Int(x), Token::Int(y)) => multiply(*x, *y),
        _ => Token::Null,
    }
}

/// The quotient of two Ints, cut towards zero.
pub(crate) fn quotient(a: &Token, b: &Token) -> Token
    ensures { result ≡ quotient_of a.now b.now }
{
    match (a, b) {
        (Token::Int(x), Token::Int(y)) => divide(*x, *y),
        _ => Token::Null,
    }
}

/// What that quotient leaves of the first Int; it has the sign of the first.
pub(crate) fn remainder(a: &Token, b: &Token) -> Token
    ensures { result ≡ remainder_of a.now b.now }
{
    match (a, b) {
        (Token::Int(x), Token::Int(y)) => left_over(*x, *y),
        _ => Token::Null,
    }
}

/// How two Ints or two Texts stand; a text goes by its bytes.
fn order(a: &Token, b: &Token) -> Option<Ordering>
    ensures { result ≡ order_of a.now b.now }
{
    match (a, b) {
        (Token::Int(x), Token::Int(y)) => Some((*x).cmp(y)),
        (Token::Text(x), Token::Text(y)) => Some(x.as_str().cmp(&y.as_str())),
        _ => None,
    }
}

fn by_order(op: &str, order: Ordering) -> Token
    ensures { result ≡ ordered op.now (Some order) }
{
    if op == "<" {
        Token::Bool(order.is_lt())
    } else if op == "<=" {
        Token::Bool(order.is_le())
    } else if op == ">" {
        Token::Bool(order.is_gt())
    } else if op == ">=" {
        Token::Bool(order.is_ge())
    } else {
        Token::Null
    }
}

fn compare_by(op: &str, a: &Token, b: &Token) -> Token
    ensures { result ≡ comparison_by op.now a.now b.now }
{
    if op == "=" {
        Token::Bool(same(a, b))
    } else if op == "!=" {
        Token::Bool(!same(a, b))
    } else {
        match order(a, b) {
            Some(order) => by_order(op, order),
            None => Token::Null,
        }
    }
}

/// Whether the comparison of that name holds.
pub(crate) fn compare(op: &Token, a: &Token, b: &Token) -> Token
    ensures { result ≡ comparison_of op.now a.now b.now }
{
    match op {
        Token::Text(op) => compare_by(op.as_str(), a, b),
        _ => Token::Null,
    }
}
