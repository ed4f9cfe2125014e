//! The number that a length field tells.

ghost use Rattle.std.specs.Prelude.{◌≡◌, ◌+◌, ◌≤◌, min, true};
ghost use Rattle.std.specs.List.{list_all};
ghost use Rattle.std.specs.Char.{is_ascii_digit};
ghost use Rattle.std.specs.Str.Parse.{digits_value};
ghost use Rattle.cv_http.specs.Fields.{number_of};

use crate::fault::HttpFault;

/// The most bytes of a body.
pub const MOST_BODY: usize = 1_048_576;

/// The most digits of a length.
pub const MOST_DIGITS: usize = 20;

/// The value of decimal digits, counted up to one past the longest body.
fn cap_value(digits: &[u8]) -> usize
    requires { list_all is_ascii_digit digits.now ≡ true }
    ensures { result ≡ min (digits_value 10 digits.now) (MOST_BODY + 1) }
{
    let mut value = 0;
    for digit in digits {
        value = (value * 10 + usize::from(*digit - b'0')).min(MOST_BODY + 1);
    }
    value
}

/// Whether each byte is a digit.
fn are_digits(value: &[u8]) -> bool
    ensures { result ≡ list_all is_ascii_digit value.now }
{
    value.iter().all(|b| b.is_ascii_digit())
}

/// The length that the value of a length field tells.
#[tactic(auto, unfolding(crate::specs::Fields::number_of))]
pub(crate) fn number_of(value: &[u8]) -> Result<usize, HttpFault>
    ensures { result ≡ number_of value.now }
{
    if value.is_empty() || value.len() > MOST_DIGITS || !are_digits(value) {
        return Err(HttpFault::BadLength);
    }
    let number = cap_value(value);
    if number > MOST_BODY {
        return Err(HttpFault::BodyTooLong);
    }
    Ok(number)
}
