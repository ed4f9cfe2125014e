//! `calvin`: the call that the program makes.

ghost use Rattle.std.specs.Prelude.{◌≡◌, ◌⊎◌, ℕ, List, map, string_bytes, vec_len, Some, None, IfErr};
ghost use Rattle.cv_deploy.specs.declared.fault.Fault.{Fault};
ghost use Rattle.cv_deploy.specs.Faults.{HasFault, Means};
ghost use Rattle.cv_kinds.specs.Net.{Net};
ghost use Rattle.cv_words.specs.declared.items.Stray.{Stray};
ghost use Rattle.cv_words.specs.declared.words.Command.TheVariants.{Script as AsksScript};
ghost use Rattle.cv_words.specs.declared.words.Task.{Task};
ghost use Rattle.cv_top.specs.Answers.{status_of, IsAnswered, IsDecided, IsTaskDecided, IsGenAnswer};
ghost use Rattle.cv_top.specs.Causes.{IsToldWithin, IsScriptRead, DoneOrFailed, FaultOrFailed, PlanOrFailed, UnlessRefused, RefusedBy};
ghost use Rattle.cv_words.specs.Asked.{command_of, stray_of};

use crate::end::{Answer, End, Outcome, Refusal, empty_record};
use crate::generating::generated_script;
use crate::running::do_task;
use crate::told::{tell, tell_refusal};
use cv_io::{Gate, ReadAll, Sink, Source, read_all};
use cv_words::{Command, Task, read_command};
use std::alloc::Global;
use std::thread::Threads;

/// A script has at most so many bytes.
pub const SCRIPT_LIMIT: usize = 1 << 20;

/// Does what the words ask for: reads a script from the source, runs it, and writes its text to the sink. The order is
/// words, reading, length, script, items, run, writing. A run of several nodes has a worker in a thread for each node, which
/// the gate may hold before each round.
#[tactic(auto, using(crate::proofs::Refusals::success_told))]
pub fn calvin<R: Threads + Sync, S: Source, K: Sink, G: Gate>(
    rt: &R,
    alloc: Global,
    words: &[String],
    source: &mut S,
    sink: &mut K,
    gate: &G,
) -> Outcome
    // The call ends as the words and the bytes of the source are to be answered: with a run of the script that the bytes
    // mean, or with a refusal that has its cause. The sink got the text of just that answer; where it failed, the front
    // of that text, and then the call ends in WriteFault. The record is that of the run, else it is empty.
    ensures answered { IsAnswered (map string_bytes words.now) (record { left = S.left source.old; rest = S.left source.new; before = S.faults source.old; now = S.faults source.new }) (record { old = K.written sink.old; new = K.written sink.new; before = K.faults sink.old; now = K.faults sink.new }) result.end result.merged }
    ensures status { result.status ≡ status_of result.end }
    ensures cuts { vec_len result.cuts ≡ 0 }

    // Words that ask for a command and bytes that mean a network end as the command does, unless memory runs out or the
    // source or the sink fails. Where the words have an item of a node that does not run, they end in the first such item.
    // Bytes that have a fault end in that fault.
    ensures complete { (task : Task) (bytes : List ℕ) (net : Net) → command_of (map string_bytes words.now) ≡ Some (AsksScript task) → stray_of task ≡ None → IsToldWithin (S.left source.old) bytes → Means bytes net → DoneOrFailed result.end }
    ensures planned { (task : Task) (stray : Stray) (bytes : List ℕ) (net : Net) → command_of (map string_bytes words.now) ≡ Some (AsksScript task) → stray_of task ≡ Some stray → IsToldWithin (S.left source.old) bytes → Means bytes net → PlanOrFailed stray result.end }
    ensures faulty { (task : Task) (bytes : List ℕ) (fault : Fault) → command_of (map string_bytes words.now) ≡ Some (AsksScript task) → IsToldWithin (S.left source.old) bytes → HasFault bytes fault → FaultOrFailed fault result.end }
{
    match answer(rt, alloc, words, source, gate) {
        Ok(answer) => {
            let Answer { end, merged, text } = answer;
            tell(alloc, sink, end, merged, text.as_str())
        }
        Err(refusal) => tell_refusal(alloc, sink, refusal),
    }
}

/// What the words and the source are answered with.
fn answer<R: Threads + Sync, S: Source, G: Gate>(
    rt: &R,
    alloc: Global,
    words: &[String],
    source: &mut S,
    gate: &G,
) -> Result<Answer, Refusal>
    ensures decided { IsDecided (map string_bytes words.now) (record { left = S.left source.old; rest = S.left source.new; before = S.faults source.old; now = S.faults source.new }) result }
    ensures complete { (task : Task) (bytes : List ℕ) (net : Net) → command_of (map string_bytes words.now) ≡ Some (AsksScript task) → stray_of task ≡ None → IsToldWithin (S.left source.old) bytes → Means bytes net → UnlessRefused result DoneOrFailed }
    ensures planned { (task : Task) (stray : Stray) (bytes : List ℕ) (net : Net) → command_of (map string_bytes words.now) ≡ Some (AsksScript task) → stray_of task ≡ Some stray → IsToldWithin (S.left source.old) bytes → Means bytes net → RefusedBy result (PlanOrFailed stray) }
    ensures faulty { (task : Task) (bytes : List ℕ) (fault : Fault) → command_of (map string_bytes words.now) ≡ Some (AsksScript task) → IsToldWithin (S.left source.old) bytes → HasFault bytes fault → RefusedBy result (FaultOrFailed fault) }
{
    match read_command(words) {
        Some(Command::Script(task)) => do_source(rt, alloc, source, task, gate),
        Some(Command::Gen { number }) => generate(alloc, number),
        None => Err(Refusal::Usage),
    }
}

/// Does what the task asks with the script that the source gives.
fn do_source<R: Threads + Sync, S: Source, G: Gate>(
    rt: &R,
    alloc: Global,
    source: &mut S,
    task: Task,
    gate: &G,
) -> Result<Answer, Refusal>
    ensures decided { IsTaskDecided task (record { left = S.left source.old; rest = S.left source.new; before = S.faults source.old; now = S.faults source.new }) result }
    ensures complete { (bytes : List ℕ) (net : Net) → stray_of task ≡ None → IsToldWithin (S.left source.old) bytes → Means bytes net → UnlessRefused result DoneOrFailed }
    ensures planned { (stray : Stray) (bytes : List ℕ) (net : Net) → stray_of task ≡ Some stray → IsToldWithin (S.left source.old) bytes → Means bytes net → RefusedBy result (PlanOrFailed stray) }
    ensures faulty { (bytes : List ℕ) (fault : Fault) → IsToldWithin (S.left source.old) bytes → HasFault bytes fault → RefusedBy result (FaultOrFailed fault) }
{
    let bytes = read_script(alloc, source)?;
    do_task(rt, alloc, bytes.as_slice(), task, gate)
}

/// Reads a script to the source's end.
fn read_script<S: Source>(alloc: Global, source: &mut S) -> Result<Vec<u8>, Refusal>
    ensures { IsScriptRead (record { left = S.left source.old; rest = S.left source.new; before = S.faults source.old; now = S.faults source.new }) result }
{
    match read_all(alloc, source, SCRIPT_LIMIT) {
        Ok(bytes) => Ok(bytes),
        Err(ReadAll::ReadFault) => Err(Refusal::ReadFault),
        Err(ReadAll::TooLong) => Err(Refusal::TooLong),
        Err(ReadAll::OutOfMemory) => Err(Refusal::OutOfMemory),
    }
}

/// The script of so many chains.
fn generate(alloc: Global, number: u32) -> Result<Answer, Refusal>
    ensures { IsGenAnswer number result }
{
    match generated_script(alloc, number) {
        Ok(text) => Ok(Answer {
            end: End::Done,
            merged: empty_record(alloc),
            text,
        }),
        Err(_) => Err(Refusal::OutOfMemory),
    }
}
