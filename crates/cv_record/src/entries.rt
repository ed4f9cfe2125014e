//! The entries and the journal at the front of bytes.

ghost use Rattle.std.specs.Prelude.{◌≡◌, ◌≢◌, ℕ, ◌<◌, List, ◌++◌, All, IfOk, MatchOption, flat_map};
ghost use Rattle.cv_entry.specs.declared.head.Head.{Head};
ghost use Rattle.cv_entry.specs.Texts.{head_spelling};
ghost use Rattle.cv_entry.specs.Values.{IsEntry, IsHead};
ghost use Rattle.cv_record.specs.Faults.{BeginsWithNoEntry};
ghost use Rattle.cv_record.specs.Journals.{IsJournal, entry_line, journal_text, line, view_of};

use crate::lines::{Split, split_line};
use cv_entry::{entry_read, head_read};
use cv_protocol::{Entry, Journal};
use cv_token::OutOfMemory;
use std::alloc::Global;

/// The entries at the front of bytes, and what stands behind them.
#[derive(Drop)]
struct Entries<'a> {
    entries: Vec<Entry>,
    rest: &'a [u8],
}

/// As many entries as have lines at the front of the bytes.
fn read_entries(alloc: Global, bytes: &[u8]) -> Result<Entries<'_>, OutOfMemory>
    ensures { IfOk result (λ p. All IsEntry p.entries.items × (bytes.now ≡ flat_map entry_line p.entries.items ++ p.rest.now)
        × BeginsWithNoEntry p.rest.now) }
{
    let mut entries = Vec::new(alloc);
    let mut rest = bytes;
    while let Some(Split { line, behind }) = split_line(rest) {
        let Some(entry) = entry_read(alloc, line)? else {
            break;
        };
        entries.push(entry)?;
        rest = behind;
    }
    Ok(Entries { entries, rest })
}

/// The journal at the front of bytes, and what stands behind it.
pub(crate) struct Part<'a> {
    pub(crate) journal: Journal,
    pub(crate) rest: &'a [u8],
}

/// The journal of a node above that number, with as many entries as have lines; None where the bytes begin with the first
/// line of no such journal.
pub(crate) fn read_journal(
    alloc: Global,
    bytes: &[u8],
    above: u16,
) -> Result<Option<Part<'_>>, OutOfMemory>
    ensures { IfOk result (λ found. MatchOption found
        ((h : Head) (more : List ℕ) → IsHead h → h.dropped ≡ 0 → above < h.spec.no → bytes.now ≢ line (head_spelling h) ++ more)
        (λ p. IsJournal (view_of p.journal) × (above < p.journal.spec.no)
        × (bytes.now ≡ journal_text (view_of p.journal) ++ p.rest.now) × BeginsWithNoEntry p.rest.now)) }
{
    let Some(Split { line, behind }) = split_line(bytes) else {
        return Ok(None);
    };
    let Some(head) = head_read(alloc, line)? else {
        return Ok(None);
    };
    if head.dropped != 0 || head.spec.no <= above {
        return Ok(None);
    }
    let Entries { entries, rest } = read_entries(alloc, behind)?;
    let journal = Journal {
        spec: head.spec,
        dropped: 0,
        entries,
    };
    Ok(Some(Part { journal, rest }))
}
