//! The window of a head: how much of a request is looked at for its head.

ghost use Rattle.std.specs.Prelude.{◌≡◌, ◌≤◌, length, take, if◌then◌else◌, ◌==◌, ◌||◌};
ghost use Rattle.cv_http.specs.Windows.{window, is_full};

/// The most bytes of a head, with the empty lines before it.
pub const MOST_HEAD: usize = 16_384;

/// The most lines of a head: empty lines before it, the request line, its fields and the empty line at its end.
pub const MOST_LINES: usize = 66;

/// The most fields of a head.
pub const MOST_FIELDS: usize = 64;

/// How many bytes the window has, and whether no more can come into it.
#[derive(Clone, Copy)]
pub(crate) struct Window {
    pub(crate) len: usize,
    pub(crate) full: bool,
}

/// How many lines the byte ends.
fn line_feeds(byte: u8) -> usize
    ensures { result ≡ (if byte == 10 then 1 else 0) }
{
    if byte == b'\n' { 1 } else { 0 }
}

/// Whether a window of so many bytes and lines is full.
fn is_full(len: usize, lines: usize) -> bool
    ensures { result ≡ (len == MOST_HEAD || lines == MOST_LINES) }
{
    len == MOST_HEAD || lines == MOST_LINES
}

/// The window of the bytes.
pub(crate) fn window_of(bytes: &[u8]) -> Window
    ensures within { result.len ≤ length bytes.now }
    ensures window { take result.len bytes.now ≡ window bytes.now }
    ensures full { result.full ≡ is_full bytes.now }
{
    let mut len = 0;
    let mut lines = 0;
    while len < bytes.len() && !is_full(len, lines) {
        lines += line_feeds(bytes[len]);
        len += 1;
    }
    Window {
        len,
        full: is_full(len, lines),
    }
}
