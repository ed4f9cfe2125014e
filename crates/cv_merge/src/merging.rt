//! `merge`: the record of several journals.

ghost use Rattle.std.specs.Prelude.{◌≡◌, map, IfOk};
ghost use Rattle.cv_protocol.specs.Journals.{IsRecordOf};
ghost use Rattle.cv_merge.specs.Lanes.{Ascends, entries_at, journal_at, lane_of, lanes_of, numbers};

use crate::choosing::next_step;
use crate::unmerged::Unmerged;
use cv_protocol::{Journal, NodeSpecs, Record, Steps};
use cv_rules::NodeSpec;
use cv_token::OutOfMemory;
use std::alloc::Global;

/// All entries of the journals, ordered by their stamps, and then by their nodes; each journal's stay in their own order.
pub fn merge(alloc: Global, journals: Vec<Journal>) -> Result<Record, OutOfMemory>
    requires { Ascends (map (λ j. j.spec.no) journals.items) }
    ensures specs { IfOk result (λ merged. merged.specs ≡ map (λ j. j.spec) journals.items) }
    ensures entries { IfOk result (λ merged. IsRecordOf (journal_at journals.items) merged.entries) }
{
    let (specs, mut sources) = open_all(alloc, journals)?;
    let entries = drain(alloc, &mut sources)?;
    Ok(Record { specs, entries })
}

/// What the nodes are, and all entries of each journal.
fn open_all(
    alloc: Global,
    journals: Vec<Journal>,
) -> Result<(NodeSpecs, Vec<Unmerged>), OutOfMemory>
    ensures specs { IfOk result (λ all. all.0 ≡ map (λ j. j.spec) journals.items) }
    ensures sources { IfOk result (λ all. all.1.items ≡ lanes_of journals.items) }
{
    let mut specs = NodeSpecs::new(alloc);
    let mut sources = Vec::with_capacity(alloc, journals.len())?;
    for journal in journals {
        let (spec, source) = open(journal);
        sources.push(source)?;
        specs.push(spec)?;
    }
    Ok((specs, sources))
}

/// What the node is, and all entries of its journal.
fn open(journal: Journal) -> (NodeSpec, Unmerged)
    ensures spec { result.0 ≡ journal.spec }
    ensures source { result.1 ≡ lane_of journal }
{
    let Journal {
        spec,
        dropped: _,
        entries,
    } = journal;
    let source = Unmerged::new(spec.no, entries);
    (spec, source)
}

/// The record of what is left of the journals.
fn drain(alloc: Global, sources: &mut [Unmerged]) -> Result<Steps, OutOfMemory>
    requires { Ascends (numbers sources.old) }
    ensures { IfOk result (λ steps. IsRecordOf (entries_at sources.old) steps) }
{
    let mut steps = Steps::new(alloc);
    while let Some(step) = next_step(sources) {
        steps.push(step)?;
    }
    Ok(steps)
}
