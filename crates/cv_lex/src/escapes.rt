//! The escapes of a quoted text: those of JSON.

ghost use Rattle.std.specs.Prelude.{◌≡◌, ℕ, ◌+◌, ◌-◌, ◌<◌, ◌≤◌, ◌⊎◌, length, slice_index, IfSome, OnSome, Some};
ghost use Rattle.cv_lex.specs.Texts.{hex_digit, hex4, is_high, is_low, pair_with, pair_of, unit_escape, short_escape, escape_of, said_from, bad_of};
ghost use Rattle.cv_lex.specs.Pieces.{SaysPiece};

/// The character that an escape says, and how many bytes it takes behind the `\`.
#[derive(Debug, Clone, Copy, PartialEq, Eq)]
pub struct Escape {
    pub code: char,
    pub len: usize,
}

/// The value of a hexadecimal digit.
fn hex_digit(byte: u8) -> Option<u32>
    ensures value { result ≡ hex_digit byte }
    ensures within { IfSome result (λ digit. digit < 16) }
    ensures ascii { OnSome result (byte < 128) }
{
    match byte {
        b'0'..=b'9' => Some(u32::from(byte) - 48),
        b'A'..=b'F' => Some(u32::from(byte) - 55),
        b'a'..=b'f' => Some(u32::from(byte) - 87),
        _ => None,
    }
}

/// The number that four hexadecimal digits at the front spell.
fn hex4(bytes: &[u8]) -> Option<u32>
    ensures value { result ≡ hex4 bytes.now }
    ensures within { IfSome result (λ unit. (unit < 0x10000) × (4 ≤ length bytes.now)) }
    ensures ascii { OnSome result (slice_index bytes.now 3 < 128) }
{
    if bytes.len() < 4 {
        return None;
    }
    let a = hex_digit(bytes[0])?;
    let b = hex_digit(bytes[1])?;
    let c = hex_digit(bytes[2])?;
    let d = hex_digit(bytes[3])?;
    Some(a * 4096 + b * 256 + c * 16 + d)
}

/// The first half of a pair of surrogates.
fn is_high(unit: u32) -> bool
    ensures { result ≡ is_high unit }
{
    0xD800 <= unit && unit < 0xDC00
}

/// The second half of a pair of surrogates.
fn is_low(unit: u32) -> bool
    ensures { result ≡ is_low unit }
{
    0xDC00 <= unit && unit < 0xE000
}

/// The character of a pair of surrogates.
fn pair_with(high: u32, low: u32) -> Option<Escape>
    requires low { 0xD800 ≤ high }
    requires high { high < 0xDC00 }
    ensures value { result ≡ pair_with high (Some low) }
    ensures len { IfSome result (λ escape. escape.len ≡ 11) }
{
    if !is_low(low) {
        return None;
    }
    let code = char::from_u32(0x10000 + (high - 0xD800) * 0x400 + (low - 0xDC00))?;
    Some(Escape { code, len: 11 })
}

/// The pair that a first half begins, by the bytes behind it.
fn pair_of(high: u32, behind: &[u8]) -> Option<Escape>
    requires low { 0xD800 ≤ high }
    requires high { high < 0xDC00 }
    ensures value { result ≡ pair_of high behind.now }
    ensures within { IfSome result (λ escape. (escape.len ≡ 11) × (6 ≤ length behind.now)) }
    ensures ascii { OnSome result (slice_index behind.now 5 < 128) }
{
    if !behind.starts_with(b"\\u") {
        return None;
    }
    let low = hex4(behind.split_at(2).1)?;
    pair_with(high, low)
}

/// The escape of a unit of sixteen bits, by the bytes behind it: half a pair alone says no character.
fn unit_escape(unit: u32, behind: &[u8]) -> Option<Escape>
    requires { unit < 0x10000 }
    ensures value { result ≡ unit_escape unit behind.now }
    ensures within { IfSome result (λ escape. (escape.len ≡ 5)
        ⊎ ((escape.len ≡ 11) × (6 ≤ length behind.now) × (slice_index behind.now 5 < 128))) }
{
    if is_high(unit) {
        return pair_of(unit, behind);
    }
    if is_low(unit) {
        return None;
    }
    let code = char::from_u32(unit)?;
    Some(Escape { code, len: 5 })
}

/// The character that a letter behind `\` says.
fn short_escape(byte: u8) -> Option<char>
    ensures value { result ≡ short_escape byte }
    ensures ascii { OnSome result (byte < 128) }
{
    match byte {
        b'"' | b'\\' | b'/' => Some(char::from(byte)),
        b'b' => Some('\u{8}'),
        b'f' => Some('\u{C}'),
        b'n' => Some('\n'),
        b'r' => Some('\r'),
        b't' => Some('\t'),
        _ => None,
    }
}

/// The escape that the bytes behind a `\` begin.
pub fn escape_of(bytes: &[u8]) -> Option<Escape>
    ensures value { result ≡ escape_of bytes.now }
    ensures within { IfSome result (λ escape. (0 < escape.len) × (escape.len ≤ length bytes.now)) }
    ensures ascii { IfSome result (λ escape. slice_index bytes.now (escape.len - 1) < 128) }
{
    if bytes.is_empty() {
        return None;
    }
    if bytes[0] == b'u' {
        let behind = bytes.split_at(1).1;
        let unit = hex4(behind)?;
        unit_escape(unit, behind.split_at(4).1)
    } else {
        let code = short_escape(bytes[0])?;
        Some(Escape { code, len: 1 })
    }
}

/// How many bytes the first byte or escape has; an escape may be bad.
fn piece_len(bytes: &[u8]) -> Option<usize>
    requires { 0 < length bytes.now }
    ensures step { (at : ℕ) → SaysPiece at bytes.now result }
    ensures within { IfSome result (λ n. (0 < n) × (n ≤ length bytes.now)) }
{
    if bytes[0] == b'\\' {
        let escape = escape_of(bytes.split_at(1).1)?;
        Some(escape.len + 1)
    } else {
        Some(1)
    }
}

/// The place of the first bad escape between the quotes of a text.
pub fn bad_escape(inside: &[u8]) -> Option<usize>
    ensures value { result ≡ bad_of (said_from 0 0 inside.now) }
    ensures within { IfSome result (λ place. place < length inside.now) }
{
    let mut rest = inside;
    let mut at = 0;
    while !rest.is_empty() {
        match piece_len(rest) {
            None => return Some(at),
            Some(n) => {
                rest = rest.split_at(n).1;
                at += n;
            }
        }
    }
    None
}
