//! Bytes line by line.

ghost use Rattle.std.specs.Prelude.{◌≡◌, ◌<◌, ◌∷◌, ◌++◌, length, position, IfSome, MatchOption};
ghost use Rattle.cv_record.specs.Faults.{is_feed, IsWithinLine};

/// The first line, and what stands behind its line feed.
#[derive(Clone, Copy)]
pub(crate) struct Split<'a> {
    pub(crate) line: &'a [u8],
    pub(crate) behind: &'a [u8],
}

/// Where the first line feed stands.
fn feed_in(bytes: &[u8]) -> Option<usize>
    ensures value { result ≡ position is_feed bytes.now }
    ensures within { IfSome result (λ at. at < length bytes.now) }
{
    bytes.iter().position(|byte| *byte == b'\n')
}

/// The first line of the bytes; None where no line feed stands in them.
pub(crate) fn split_line(bytes: &[u8]) -> Option<Split<'_>>
    ensures { MatchOption result (IsWithinLine bytes.now)
        (λ s. IsWithinLine s.line.now × (bytes.now ≡ s.line.now ++ 10 ∷ s.behind.now)) }
{
    let at = feed_in(bytes)?;
    Some(Split {
        line: &bytes[..at],
        behind: &bytes[at + 1..],
    })
}
