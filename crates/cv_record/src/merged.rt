//! The journals in a record, to text.

ghost use Rattle.std.specs.Prelude.{◌≡◌, ◌++◌, [], map, flat_map, string_bytes, IfOk, OnOk};
ghost use Rattle.cv_entry.specs.Texts.{head_spelling, whole};
ghost use Rattle.cv_protocol.specs.Journals.{entries_of, own_entry};
ghost use Rattle.cv_record.specs.Journals.{entry_line, journal_in, journal_text, journals_in, journals_text, line};

use cv_entry::{node_text, step_text};
use cv_protocol::{Record, Step};
use cv_rules::NodeSpec;
use cv_token::{OutOfMemory, Text};
use std::alloc::Global;

/// Puts a line behind the text.
fn push_line(text: &mut String, words: &Text) -> Result<(), OutOfMemory>
    ensures { OnOk result (string_bytes text.new ≡ string_bytes text.old ++ line words.now) }
{
    text.push_str(words.as_str())?;
    text.push_str("\n")?;
    Ok(())
}

/// Puts the line of a step behind the text, where it is a step of that node.
fn push_step(alloc: Global, text: &mut String, step: &Step, node: u16) -> Result<(), OutOfMemory>
    ensures { OnOk result (string_bytes text.new ≡ string_bytes text.old ++ flat_map entry_line (own_entry node step.now)) }
{
    if step.node == node {
        push_line(text, &step_text(alloc, step)?)?;
    }
    Ok(())
}

/// Puts the lines of a node's journal behind the text.
fn push_node(
    alloc: Global,
    text: &mut String,
    steps: &[Step],
    spec: &NodeSpec,
) -> Result<(), OutOfMemory>
    ensures { OnOk result (string_bytes text.new ≡ string_bytes text.old ++ journal_text (journal_in steps.now spec.now)) }
{
    push_line(text, &node_text(alloc, spec)?)?;
    for step in steps {
        push_step(alloc, text, step, spec.no)?;
    }
    Ok(())
}

/// The text of the journals in a record.
pub fn record_text(alloc: Global, merged: &Record) -> Result<String, OutOfMemory>
    ensures { IfOk result (λ text. string_bytes text ≡ journals_text (journals_in merged.now)) }
{
    let mut text = String::new(alloc);
    for spec in merged.specs.as_slice() {
        push_node(alloc, &mut text, merged.entries.as_slice(), spec)?;
    }
    Ok(text)
}
