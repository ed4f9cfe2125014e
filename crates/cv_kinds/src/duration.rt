//! Durations: milliseconds, from the seconds that a script gives.

ghost use Rattle.std.specs.Prelude.{◌≡◌, ◌≤◌, ◌^◌, ◌<◌, ◌+◌, ◌-◌, ◌*◌, length, position, min, option_map, true, IfSome};
ghost use Rattle.cv_kinds.specs.Arguments.{fraction, is_digit, is_point, milliseconds_of, nothing_but, number_of, of_parts, seconds, signed_fraction, thousandths, within_longest};

use crate::arguments::Given;
use cv_token::Token;

/// The most milliseconds that a duration has.
const LONGEST: u64 = 2_147_483_647;

/// What a number above all durations counts as.
const ABOVE: u64 = LONGEST + 1;

/// The milliseconds that a value stands for, where it is a duration: a number of seconds, or one with a point and at most
/// three decimals.
pub fn milliseconds_of(value: &Given) -> Option<u32>
    ensures { result ≡ milliseconds_of value.now }
{
    match value {
        Given::Token(token) => seconds(token),
        Given::Fraction(text) => signed_fraction(text.as_str().as_bytes()),
    }
}

/// So many milliseconds, where they are no more than a duration has.
fn within_longest(time: u64) -> Option<u32>
    ensures { result ≡ within_longest time }
{
    if time <= LONGEST {
        Some(time as u32)
    } else {
        None
    }
}

/// The milliseconds of that many seconds.
fn seconds(token: &Token) -> Option<u32>
    ensures { result ≡ seconds token.now }
{
    match token {
        Token::Int(count) => {
            if *count < 0 || *count > 2_147_483 {
                return None;
            }
            within_longest(*count as u64 * 1000)
        }
        _ => None,
    }
}

/// The milliseconds of a text `DIGITS.DIGITS`, which may have a sign before it: behind a sign only 0 is a duration.
fn signed_fraction(text: &[u8]) -> Option<u32>
    ensures { result ≡ signed_fraction text.now }
{
    match text {
        [b'-', digits @ ..] => zero_only(fraction(digits)?),
        _ => fraction(text),
    }
}

fn zero_only(time: u32) -> Option<u32>
    ensures { result ≡ nothing_but time }
{
    if time == 0 { Some(0) } else { None }
}

/// The milliseconds of a text `DIGITS.DIGITS`.
fn fraction(text: &[u8]) -> Option<u32>
    ensures { result ≡ fraction text.now }
{
    match point_in(text) {
        Some(point) => of_parts(&text[..point], &text[point + 1..]),
        None => None,
    }
}

/// Where the first point stands.
fn point_in(text: &[u8]) -> Option<usize>
    ensures value { result ≡ position is_point text.now }
    ensures within { IfSome result (λ point. point < length text.now) }
{
    text.iter().position(|byte| *byte == b'.')
}

/// The milliseconds of the digits before a point and those behind it.
fn of_parts(before: &[u8], behind: &[u8]) -> Option<u32>
    ensures { result ≡ of_parts before.now behind.now }
{
    let whole = number_of(before)?;
    let decimals = number_of(behind)?;
    let part = thousandths(behind.len(), decimals)?;
    within_longest(whole * 1000 + part)
}

/// The thousandths that so many decimals stand for.
fn thousandths(count: usize, decimals: u64) -> Option<u64>
    requires { decimals ≤ 2 ^ 31 }
    ensures value { result ≡ thousandths count decimals }
    ensures few { IfSome result (λ part. part ≤ 2 ^ 40) }
{
    match count {
        1 => Some(decimals * 100),
        2 => Some(decimals * 10),
        3 => Some(decimals),
        _ => None,
    }
}

/// The number that digits write; one above all durations counts as the least of these.
fn number_of(digits: &[u8]) -> Option<u64>
    ensures value { result ≡ option_map (λ n. min n ABOVE) (number_of digits.now) }
    ensures few { IfSome result (λ n. n ≤ 2 ^ 31) }
{
    if digits.is_empty() {
        return None;
    }
    let mut number = 0;
    for digit in digits {
        if !is_digit(*digit) {
            return None;
        }
        number = with_digit(number, *digit);
    }
    Some(number)
}

fn is_digit(byte: u8) -> bool
    ensures { result ≡ is_digit byte }
{
    byte >= b'0' && byte <= b'9'
}

/// The number with a digit more.
fn with_digit(number: u64, digit: u8) -> u64
    requires few { number ≤ 2 ^ 31 }
    requires digit { is_digit digit ≡ true }
    ensures { result ≡ min (number * 10 + (digit - 48)) ABOVE }
{
    (number * 10 + u64::from(digit - b'0')).min(ABOVE)
}
