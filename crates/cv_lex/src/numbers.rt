//! The numbers that digits spell.

ghost use Rattle.std.specs.Prelude.{◌≡◌, ◌<◌, length};
ghost use Rattle.cv_lex.specs.Numbers.{number_of, at_most, below_zero, from_zero, int_of};

/// The number that decimal digits spell, if it is at most `most`.
pub fn digits_value(digits: &[u8], most: u64) -> Option<u64>
    ensures { result ≡ at_most most (number_of digits.now) }
{
    let mut value: u128 = 0;
    for digit in digits {
        value = value * 10 + u128::from(digit.saturating_sub(b'0'));
        if value > u128::from(most) {
            return None;
        }
    }
    Some(value as u64)
}

/// The number that digits behind a `-` spell, if it has 64 signed bits.
fn below_zero(digits: &[u8]) -> Option<i64>
    ensures { result ≡ below_zero digits.now }
{
    let size = digits_value(digits, 1 << 63)?;
    Some(-i128::from(size) as i64)
}

/// The number that digits with no sign spell, if it has 64 signed bits.
fn from_zero(digits: &[u8]) -> Option<i64>
    ensures { result ≡ from_zero digits.now }
{
    let size = digits_value(digits, (1 << 63) - 1)?;
    Some(size as i64)
}

/// The integer that an optional `-` and digits spell, if it has 64 signed bits.
pub fn int_value(bytes: &[u8]) -> Option<i64>
    requires { 0 < length bytes.now }
    ensures { result ≡ int_of bytes.now }
{
    if bytes[0] == b'-' {
        below_zero(bytes.split_at(1).1)
    } else {
        from_zero(bytes)
    }
}
