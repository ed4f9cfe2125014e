//! What rows compute on tokens.

ghost use Rattle.std.specs.Prelude.{◌≡◌, ◌+ℤ◌, IfOk, pos};
ghost use Rattle.std.specs.Option.{option_copied, option_map, unwrap_or};
ghost use Rattle.cv_token.specs.Shape.{has_64_bits};
ghost use Rattle.cv_token.specs.declared.token.Token.TheVariants as token;
ghost use Rattle.cv_behave.specs.Values.{item_of, is_true, is_number, is_int, number, next_number, sum_of, grown, fallen, fitted, has_fit, are_same};

use cv_token::{Items, OutOfMemory, Token, are_equal, fits};
use std::alloc::Global;

/// Whether the slot is true; one that is missing or no Bool is not.
pub fn is_set(items: &Items, at: usize) -> bool
    ensures { result ≡ is_true (item_of items.now at) }
{
    match items.get(at) {
        Some(Token::Bool(truth)) => *truth,
        _ => false,
    }
}

/// Whether the slot is this number; one that is missing or no Int is not.
pub fn is_at(items: &Items, at: usize, wanted: u32) -> bool
    ensures { result ≡ is_number wanted (item_of items.now at) }
{
    match items.get(at) {
        Some(Token::Int(number)) => *number == i64::from(wanted),
        _ => false,
    }
}

/// Whether the slot is an Int.
pub fn is_whole(items: &Items, at: usize) -> bool
    ensures { result ≡ is_int (item_of items.now at) }
{
    match items.get(at) {
        Some(Token::Int(_number)) => true,
        _ => false,
    }
}

/// The sum, or null past 64 signed bits.
pub fn add(a: i64, b: i64) -> Token
    ensures { result ≡ number (a +ℤ b) }
{
    match a.checked_add(b) {
        Some(sum) => Token::Int(sum),
        None => Token::Null,
    }
}

/// The number after that of the slot, or null where the slot is no number or the next is past 64 signed bits.
pub fn next_number(items: &Items, at: usize) -> Token
    ensures { result ≡ next_number (item_of items.now at) }
{
    match items.get(at) {
        Some(Token::Int(number)) => add(*number, 1),
        _ => Token::Null,
    }
}

/// The slot after a firing: a positive number falls by one, another value stays. The only error is want of memory.
pub fn count_down(alloc: Global, items: &Items, at: usize) -> Result<Token, OutOfMemory>
    ensures { IfOk result (λ t. t ≡ fallen (item_of items.now at)) }
{
    match items.get(at) {
        Some(Token::Int(left)) if *left > 0 => Ok(Token::Int(*left - 1)),
        Some(token) => token.copy(alloc),
        None => Ok(Token::Null),
    }
}

/// The token, or null where it does not fit: it nests over 16 deep, or its text has over 1,024 bytes.
pub fn fit(token: Token) -> Token
    ensures { result ≡ fitted token }
{
    if fits(&token) { token } else { Token::Null }
}

/// Whether two tokens are one tree.
pub fn same(a: &Token, b: &Token) -> bool
    ensures { result ≡ are_same a.now b.now }
{
    are_equal(a, b)
}
