//! Texts of frames whose stamps are too far.

ghost use Rattle.std.specs.Prelude.{◌≡◌, ◌≢◌, ℕ, ◌<◌, ◌^◌, ◌↔◌, List, ◌∷◌, ◌++◌, All, IfOk, IsTrue, MatchOption, codes};
ghost use Rattle.std.specs.Fmt.{decimal};
ghost use Rattle.cv_frame.specs.Wire.{IsFarText};

use crate::parts::COUNTS;
use crate::reading::frame_read;
use cv_token::OutOfMemory;
use itoa::Buffer;
use std::alloc::Global;

/// What stands before and behind the last such byte.
fn split_last(bytes: &[u8], byte: u8) -> Option<(&[u8], &[u8])>
    ensures { MatchOption result (All (λ x. x ≢ byte) bytes.now)
        (λ p. (bytes.now ≡ p.0.now ++ byte ∷ p.1.now) × All (λ x. x ≢ byte) p.1.now) }
{
    let mut at = bytes.len();
    while at > 0 {
        at -= 1;
        if bytes[at] == byte {
            return Some((&bytes[..at], &bytes[at + 1..]));
        }
    }
    None
}

/// The number of 64 bits that the digits write, with no zero before it.
fn number_of(digits: &[u8]) -> Option<u64>
    ensures { MatchOption result ((n : ℕ) → n < 2 ^ 64 → digits.now ≢ decimal n) (λ n. (n < 2 ^ 64) × (digits.now ≡ decimal n)) }
{
    let Ok(text) = std::str::from_utf8(digits) else {
        return None;
    };
    let Ok(number) = text.parse::<u64>() else {
        return None;
    };
    if Buffer::new().format(number).as_bytes() == digits {
        Some(number)
    } else {
        None
    }
}

/// A text with the stamp 0.
fn with_stamp_0(alloc: Global, before: &[u8], behind: &[u8]) -> Result<Vec<u8>, OutOfMemory>
    ensures { IfOk result (λ text. text.items ≡ before.now ++ codes ":0," ++ behind.now) }
{
    let mut text = Vec::from_slice(alloc, before)?;
    text.extend_from_slice(b":0,")?;
    text.extend_from_slice(behind)?;
    Ok(text)
}

/// Whether a text is a frame's but for its stamp, which is from 2^62 to 2^64 - 1.
pub(crate) fn is_far(alloc: Global, text: &[u8]) -> Result<bool, OutOfMemory>
    ensures { IfOk result (λ far. IsTrue far ↔ IsFarText text.now) }
{
    let Some((front, behind)) = split_last(text, b',') else {
        return Ok(false);
    };
    let Some((before, digits)) = split_last(front, b':') else {
        return Ok(false);
    };
    let Some(stamp) = number_of(digits) else {
        return Ok(false);
    };
    if stamp < COUNTS {
        return Ok(false);
    }
    let near = with_stamp_0(alloc, before, behind)?;
    Ok(frame_read(alloc, &near)?.is_some())
}
