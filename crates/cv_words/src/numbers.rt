//! Numbers in words.

ghost use Rattle.std.specs.Prelude.{◌≡◌, ◌≤◌, IfSome, length, true};
ghost use Rattle.std.specs.List.{list_all};
ghost use Rattle.cv_words.specs.Numbers.{is_digit, is_number, number_of, number_within};

/// The number that a word writes, where it is one of 1 to 9 digits from `least` to `most`.
pub fn read_within(word: &[u8], least: u32, most: u32) -> Option<u32>
    ensures number { result ≡ number_within least most word.now }
    ensures least { IfSome result (λ n. least ≤ n) }
    ensures most { IfSome result (λ n. n ≤ most) }
{
    if !is_number(word) {
        return None;
    }
    let number = number_of(word);
    if least <= number && number <= most {
        Some(number)
    } else {
        None
    }
}

/// Whether a word is 1 to 9 digits.
fn is_number(word: &[u8]) -> bool
    ensures { result ≡ is_number word.now }
{
    !word.is_empty() && word.len() <= 9 && are_digits(word)
}

/// Whether each byte is a digit.
fn are_digits(word: &[u8]) -> bool
    ensures { result ≡ list_all is_digit word.now }
{
    word.iter().all(|byte| is_digit(*byte))
}

/// Whether a byte is a digit.
fn is_digit(byte: u8) -> bool
    ensures { result ≡ is_digit byte }
{
    b'0' <= byte && byte <= b'9'
}

/// The number that digits write.
fn number_of(digits: &[u8]) -> u32
    requires few { length digits.now ≤ 9 }
    requires digits { list_all is_digit digits.now ≡ true }
    ensures { result ≡ number_of digits.now }
{
    let mut number = 0;
    for digit in digits {
        number = number * 10 + u32::from(*digit - b'0');
    }
    number
}
