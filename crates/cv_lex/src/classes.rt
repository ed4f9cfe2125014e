//! Which bytes a lexeme may begin with and go on with.

ghost use Rattle.std.specs.Prelude.{◌≡◌, ◌≤◌, length, slice_index};
ghost use Rattle.std.specs.List.{prefix_len};
ghost use Rattle.cv_lex.specs.Bytes.{is_blank_byte, is_name_start, is_name_byte, is_digit, is_mark_byte, is_plain, is_in_line};

/// White space: a space, a tab, a carriage return or a line feed.
pub fn is_blank_byte(byte: u8) -> bool
    ensures { result ≡ is_blank_byte byte }
{
    byte == b' ' || byte == b'\t' || byte == b'\r' || byte == b'\n'
}

/// What a name begins with: a letter of ASCII or `_`.
pub fn is_name_start(byte: u8) -> bool
    ensures { result ≡ is_name_start byte }
{
    byte.is_ascii_alphabetic() || byte == b'_'
}

/// What a name goes on with: a letter or digit of ASCII, or `_`.
pub fn is_name_byte(byte: u8) -> bool
    ensures { result ≡ is_name_byte byte }
{
    is_name_start(byte) || is_digit(byte)
}

/// A decimal digit.
pub fn is_digit(byte: u8) -> bool
    ensures { result ≡ is_digit byte }
{
    byte.is_ascii_digit()
}

/// The marks of one byte.
pub fn is_mark_byte(byte: u8) -> bool
    ensures { result ≡ is_mark_byte byte }
{
    byte == b'('
        || byte == b')'
        || byte == b'.'
        || byte == b','
        || byte == b':'
        || byte == b'{'
        || byte == b'}'
        || byte == b'['
        || byte == b']'
        || byte == b'='
        || byte == b'>'
        || byte == b'&'
        || byte == b'|'
        || byte == b'~'
}

/// The byte at a place, or 0 where the text has ended.
pub fn byte_at(bytes: &[u8], place: usize) -> u8
    ensures { result ≡ slice_index bytes.now place }
{
    bytes.get(place).copied().unwrap_or(0)
}

/// How many bytes at the front may stand in a name.
pub fn name_bytes(bytes: &[u8]) -> usize
    ensures value { result ≡ prefix_len is_name_byte bytes.now }
    ensures within { result ≤ length bytes.now }
{
    bytes.iter().take_while(|b| is_name_byte(**b)).count()
}

/// How many digits stand at the front.
pub fn digits(bytes: &[u8]) -> usize
    ensures value { result ≡ prefix_len is_digit bytes.now }
    ensures within { result ≤ length bytes.now }
{
    bytes.iter().take_while(|b| is_digit(**b)).count()
}

/// How many bytes stand before the next `\`, or before the end.
pub fn plain_bytes(bytes: &[u8]) -> usize
    ensures value { result ≡ prefix_len is_plain bytes.now }
    ensures within { result ≤ length bytes.now }
{
    bytes.iter().take_while(|b| **b != b'\\').count()
}

/// How many bytes stand before the next line feed, or before the end.
pub fn line_bytes(bytes: &[u8]) -> usize
    ensures value { result ≡ prefix_len is_in_line bytes.now }
    ensures within { result ≤ length bytes.now }
{
    bytes.iter().take_while(|b| **b != b'\n').count()
}
