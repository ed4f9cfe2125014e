//! Journals out of text.

ghost use Rattle.std.specs.Prelude.{◌≡◌, ℕ, List, map, IfOk, IfErr, MatchResult};
ghost use Rattle.cv_record.specs.declared.fault.LineFault.TheVariants as fault;
ghost use Rattle.cv_record.specs.Faults.{IsFirstBad, IsRefusedBy, IsTold};
ghost use Rattle.cv_record.specs.Journals.{AreJournals, JournalView, journals_text, view_of};

use crate::entries::{Part, read_journal};
use crate::fault::LineFault;
use cv_protocol::Journal;
use std::alloc::Global;

/// The journals of a text. Where it is no text of journals, the first line that is not of the form is told: a node's first
/// line, with a number above those before and nothing left out; or behind one an entry's.
pub fn read(alloc: Global, bytes: &[u8]) -> Result<Vec<Journal>, LineFault>
    ensures exact { IfOk result (λ found. AreJournals (map view_of found.items)
        × (bytes.now ≡ journals_text (map view_of found.items))) }

    // Journals that have a text are read from it.
    ensures again { (js : List JournalView) → AreJournals js → bytes.now ≡ journals_text js
        → MatchResult result (λ found. map view_of found.items ≡ js) (λ f. f ≡ fault.OutOfMemory) }
    ensures told { IfErr result (λ f. IsTold f bytes.now) }

    // Bytes with a first line that is not of the form are refused by just that line.
    ensures only { (number : ℕ) → IsFirstBad number bytes.now → MatchResult result (λ found. ⊥) (λ f. IsRefusedBy number f) }
{
    let mut journals = Vec::new(alloc);
    let mut rest = bytes;
    let mut line = 1;
    let mut above = 0;
    while !rest.is_empty() {
        let Some(
            Part {
                journal,
                rest: behind,
            },
        ) = read_journal(alloc, rest, above)?
        else {
            return Err(LineFault::BadLine { line });
        };
        line += 1 + journal.entries.len() as u64;
        above = journal.spec.no;
        rest = behind;
        journals.push(journal)?;
    }
    Ok(journals)
}
