//! What is written to the sink.

ghost use Rattle.std.specs.Prelude.{◌≡◌, ◌⊎◌, ℕ, List, IfOk, string_bytes, vec_len};
ghost use Rattle.cv_top.specs.Answers.{status_of, IsTold, IsAnswered};
ghost use Rattle.cv_top.specs.Causes.{IsCause, EndsAs, end_of, line_of, plan_line, script_line};
ghost use Rattle.cv_top.specs.Devices.{Reading};

use crate::end::{End, Outcome, Refusal, empty_record};
use cv_deploy::Code;
use cv_io::{Sink, write_all};
use cv_protocol::Record;
use cv_token::OutOfMemory;
use cv_words::LinkItem;
use std::alloc::Global;

/// Writes the text of an answer; the outcome has the answer's end and record, or those of the sink's failure.
pub fn tell<K: Sink>(alloc: Global, sink: &mut K, end: End, merged: Record, text: &str) -> Outcome
    ensures told { IsTold (record { old = K.written sink.old; new = K.written sink.new; before = K.faults sink.old; now = K.faults sink.new }) end merged text.now result.end result.merged }
    ensures status { result.status ≡ status_of result.end }
    ensures cuts { vec_len result.cuts ≡ 0 }
{
    match write_all(sink, text.as_bytes()) {
        Ok(()) => Outcome::new(alloc, end, merged),
        Err(_) => Outcome::new(alloc, End::WriteFault, empty_record(alloc)),
    }
}

/// Writes the line of a refusal. Where memory is refused to the line, the call ends by want of memory.
pub fn tell_refusal<K: Sink>(alloc: Global, sink: &mut K, refusal: Refusal) -> Outcome
    ensures told { (words : List (List ℕ)) (r : Reading) → IsCause words r refusal → IsAnswered words r (record { old = K.written sink.old; new = K.written sink.new; before = K.faults sink.old; now = K.faults sink.new }) result.end result.merged }
    ensures ends { EndsAs refusal result.end }
    ensures status { result.status ≡ status_of result.end }
    ensures cuts { vec_len result.cuts ≡ 0 }
{
    match refusal {
        Refusal::Usage => tell_line(alloc, sink, refusal, "usage\n"),
        Refusal::ReadFault => tell_line(alloc, sink, refusal, "read\n"),
        Refusal::TooLong => tell_line(alloc, sink, refusal, "long\n"),
        Refusal::OutOfMemory => tell_line(alloc, sink, refusal, "memory\n"),
        Refusal::Script { line, col, code } => match script_line(alloc, line, col, code) {
            Ok(text) => tell_line(alloc, sink, refusal, text.as_str()),
            Err(_) => tell_line(alloc, sink, Refusal::OutOfMemory, "memory\n"),
        },
        Refusal::Plan { stray } => match plan_line(alloc, stray.item) {
            Ok(text) => tell_line(alloc, sink, refusal, text.as_str()),
            Err(_) => tell_line(alloc, sink, Refusal::OutOfMemory, "memory\n"),
        },
    }
}

/// Writes this line of a refusal.
#[tactic(auto, using(crate::proofs::Refusals::refusal_told))]
fn tell_line<K: Sink>(alloc: Global, sink: &mut K, refusal: Refusal, line: &str) -> Outcome
    requires { line.now ≡ line_of refusal }
    ensures told { (words : List (List ℕ)) (r : Reading) → IsCause words r refusal → IsAnswered words r (record { old = K.written sink.old; new = K.written sink.new; before = K.faults sink.old; now = K.faults sink.new }) result.end result.merged }
    ensures ends { (result.end ≡ end_of refusal) ⊎ (result.end ≡ End.WriteFault) }
    ensures status { result.status ≡ status_of result.end }
    ensures cuts { vec_len result.cuts ≡ 0 }
{
    tell(alloc, sink, refusal.end(), empty_record(alloc), line)
}

/// The line of a script's fault: its place and its code.
fn script_line(alloc: Global, line: u32, col: u32, code: Code) -> Result<String, OutOfMemory>
    ensures { IfOk result (λ text. string_bytes text ≡ script_line line col code) }
{
    let number = line.to_string(alloc)?;
    let place = col.to_string(alloc)?;
    let mut text = String::from_str(alloc, "script ")?;
    text.push_str(number.as_str())?;
    text.push_str(":")?;
    text.push_str(place.as_str())?;
    text.push_str(" ")?;
    text.push_str(code.word())?;
    text.push_str("\n")?;
    Ok(text)
}

/// The line of an item that names a node that does not run.
fn plan_line(alloc: Global, item: LinkItem) -> Result<String, OutOfMemory>
    ensures { IfOk result (λ text. string_bytes text ≡ plan_line item) }
{
    let word = item.text(alloc)?;
    let mut text = String::from_str(alloc, "plan ")?;
    text.push_str(word.as_str())?;
    text.push_str("\n")?;
    Ok(text)
}
