//! Entries and heads of journals out of their one text.

ghost use Rattle.std.specs.Prelude.{◌≡◌, Some, IfOk};
ghost use Rattle.cv_token.specs.Spells.{Spells};
ghost use Rattle.cv_protocol.specs.declared.event.Entry.{Entry};
ghost use Rattle.cv_entry.specs.declared.head.Head.{Head};
ghost use Rattle.cv_entry.specs.Texts.{entry_spelling, head_spelling};
ghost use Rattle.cv_entry.specs.Values.{IsEntry, IsHead};

use crate::events::{entry_of, head_of};
use crate::head::Head;
use cv_protocol::Entry;
use cv_token::{OutOfMemory, read_spelled};
use std::alloc::Global;

/// The entry whose line this is, without a line feed; None exactly where it is the spelling of no entry.
pub fn entry_read(alloc: Global, line: &[u8]) -> Result<Option<Entry>, OutOfMemory>
    ensures exact { IfOk result (Spells IsEntry entry_spelling line.now) }

    // An entry that has a spelling is read from it.
    ensures again { (e : Entry) → IsEntry e → line.now ≡ entry_spelling e → IfOk result (λ found. found ≡ Some e) }
{
    let Some(tree) = read_spelled(alloc, line)? else {
        return Ok(None);
    };
    entry_of(alloc, &tree)
}

/// What stands before a journal's entries, of whose first line this is the text without a line feed; None exactly where
/// it is the spelling of no such thing.
pub fn head_read(alloc: Global, line: &[u8]) -> Result<Option<Head>, OutOfMemory>
    ensures exact { IfOk result (Spells IsHead head_spelling line.now) }

    // A head that has a spelling is read from it.
    ensures again { (h : Head) → IsHead h → line.now ≡ head_spelling h → IfOk result (λ found. found ≡ Some h) }
{
    let Some(tree) = read_spelled(alloc, line)? else {
        return Ok(None);
    };
    head_of(alloc, &tree)
}
