//! What is left of a room of bytes once a text is written into it; no memory is taken.

ghost use Rattle.std.specs.Prelude.{◌≡◌, length};
ghost use Rattle.json.specs.Print.{quoted, escape_byte};
ghost use Rattle.cv_token.specs.Bounds.{left};

/// What is left of `room` once `amount` is taken, where it is enough.
pub(crate) fn pay(room: usize, amount: usize) -> Option<usize>
    ensures { result ≡ left room amount }
{
    if amount <= room {
        Some(room - amount)
    } else {
        None
    }
}

/// How many bytes stand in a quoted text for one of its bytes.
#[tactic(auto, unfolding(json::specs::Print::escape_byte))]
fn escape_len(byte: u8) -> usize
    ensures { result ≡ length (escape_byte byte) }
{
    match byte {
        b'"' | b'\\' | 8 | 9 | 10 | 12 | 13 => 2,
        0..32 => 6,
        _ => 1,
    }
}

/// What is left once the text is written in quotes, with its escapes.
pub(crate) fn left_after_quoted(room: usize, text: &str) -> Option<usize>
    ensures { result ≡ left room (length (quoted text.now)) }
{
    let mut room = pay(room, 2)?;
    for byte in text.as_bytes() {
        room = pay(room, escape_len(*byte))?;
    }
    Some(room)
}
