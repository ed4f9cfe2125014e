//! Laws of the record of local runs. The functions do nothing: their clauses are laws.

ghost use Rattle.cv_merge.specs.Laws.{RecordIsSorted, SentBefore};

/// The record of local runs is sorted by stamps, and then by nodes.
pub fn record_is_sorted()
    ensures { RecordIsSorted }
{}

/// Where each frame that a journal got is sent somewhere in its sender's journal, each frame of the record was sent by an earlier
/// step: stamps alone order the two.
pub fn sent_before()
    ensures { SentBefore }
{}
