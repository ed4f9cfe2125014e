//! Journals to text.

ghost use Rattle.std.specs.Prelude.{◌≡◌, ◌++◌, ◌∷◌, [], map, IfOk, OnOk};
ghost use Rattle.cv_record.specs.Journals.{view_of, line, journal_text, journals_text};

use cv_entry::{entry_text, head_text};
use cv_protocol::Journal;
use cv_token::{OutOfMemory, Text};
use std::alloc::Global;

/// Puts a line behind the bytes.
fn push_line(bytes: &mut Vec<u8>, text: &Text) -> Result<(), OutOfMemory>
    ensures { OnOk result (bytes.new.items ≡ bytes.old.items ++ line text.now) }
{
    bytes.extend_from_slice(text.as_str().as_bytes())?;
    bytes.push(b'\n')?;
    Ok(())
}

/// Puts the lines of a journal behind the bytes.
fn push_journal(alloc: Global, bytes: &mut Vec<u8>, journal: &Journal) -> Result<(), OutOfMemory>
    ensures { OnOk result (bytes.new.items ≡ bytes.old.items ++ journal_text (view_of journal.now)) }
{
    push_line(bytes, &head_text(alloc, journal)?)?;
    for entry in &journal.entries {
        push_line(bytes, &entry_text(alloc, entry)?)?;
    }
    Ok(())
}

/// The text of the journals.
pub fn write(alloc: Global, journals: &[Journal]) -> Result<Vec<u8>, OutOfMemory>
    ensures { IfOk result (λ bytes. bytes.items ≡ journals_text (map view_of journals.now)) }
{
    let mut bytes = Vec::new(alloc);
    for journal in journals {
        push_journal(alloc, &mut bytes, journal)?;
    }
    Ok(bytes)
}
