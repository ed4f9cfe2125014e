//! How far quoted texts and comments go.

ghost use Rattle.std.specs.Prelude.{◌≡◌, ◌+◌, ◌<◌, ◌≤◌, length, false, IfSome};
ghost use Rattle.cv_lex.specs.Spans.{ends_text, hides_next, closing, place_of};

/// A quote that no `\` hides ends a text.
fn ends_text(hidden: bool, byte: u8) -> bool
    ensures { result ≡ ends_text hidden byte }
{
    !hidden && byte == b'"'
}

/// A `\` that no `\` hides hides the byte behind it, and no other.
fn hides_next(hidden: bool, byte: u8) -> bool
    ensures { result ≡ hides_next hidden byte }
{
    !hidden && byte == b'\\'
}

/// The place of the quote that ends the text which begins here, behind its first quote.
pub fn closing_place(bytes: &[u8]) -> Option<usize>
    ensures value { result ≡ closing 0 false bytes.now }
    ensures within { IfSome result (λ n. n < length bytes.now) }
{
    let mut hidden = false;
    for (i, byte) in bytes.iter().enumerate() {
        if ends_text(hidden, *byte) {
            return Some(i);
        }
        hidden = hides_next(hidden, *byte);
    }
    None
}

/// The first place at which a part stands.
pub fn place_of(bytes: &[u8], part: &[u8]) -> Option<usize>
    ensures value { result ≡ place_of 0 part.now bytes.now }
    ensures within { IfSome result (λ n. n + length part.now ≤ length bytes.now) }
{
    let mut rest = bytes;
    let mut at = 0;
    while !rest.is_empty() {
        if rest.starts_with(part) {
            return Some(at);
        }
        rest = rest.split_at(1).1;
        at += 1;
    }
    None
}
