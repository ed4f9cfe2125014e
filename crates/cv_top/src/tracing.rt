//! `trace`: a run, and its journals as text.

ghost use Rattle.std.specs.Prelude.{◌≡◌, None, string_bytes, IfOk};
ghost use Rattle.cv_alone.specs.declared.alone.RunEnd.{RunEnd};
ghost use Rattle.cv_kinds.specs.Wired.{IsWired};
ghost use Rattle.cv_top.specs.Ran.{IsRightTrace, end_at};
ghost use Rattle.cv_words.specs.Items.{stray_in};

use crate::end::{Answer, End};
use crate::nodes::run_on_nodes;
use cv_io::Gate;
use cv_kinds::Network;
use cv_record::record_text;
use cv_token::OutOfMemory;
use cv_words::RunWords;
use std::alloc::Global;
use std::thread::Threads;

/// Runs a network as the words ask; the text is that of the journals.
pub fn trace<R: Threads + Sync, G: Gate>(
    rt: &R,
    alloc: Global,
    net: Network,
    words: &RunWords,
    gate: &G,
) -> Result<Answer, OutOfMemory>
    requires wired { IsWired net }
    requires fits { stray_in words.now.nodes words.now.items ≡ None }
    ensures { IfOk result (λ answer. (stop : RunEnd) × (answer.end ≡ end_at stop) × IsRightTrace words.now net stop answer.merged (string_bytes answer.text)) }
{
    let (stop, merged) = run_on_nodes(rt, alloc, net, words, gate)?;
    let text = record_text(alloc, &merged)?;
    Ok(Answer {
        end: End::at(stop),
        merged,
        text,
    })
}
