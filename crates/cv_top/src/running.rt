//! What is done with the network of a script: a run on nodes or in rounds, its journals, or the network's text.

ghost use Rattle.std.specs.Prelude.{◌≡◌, ◌≤◌, ◌^◌, ℕ, List, ◌++◌, length, Some, None, string_bytes, IfOk, IfErr, OnOk};
ghost use Rattle.cv_deploy.specs.declared.fault.Fault.{Fault};
ghost use Rattle.cv_deploy.specs.Faults.{HasFault, Means};
ghost use Rattle.cv_kinds.specs.Net.{Net};
ghost use Rattle.cv_kinds.specs.Wired.{IsWired};
ghost use Rattle.cv_network.specs.Written.{network_token};
ghost use Rattle.cv_alone.specs.declared.alone.RunEnd.{RunEnd};
ghost use Rattle.cv_solo.specs.OneRuntime.{Runtime, opening, solo, solo_from};
ghost use Rattle.cv_solo.specs.PlainNetwork.{IsPlainRun};
ghost use Rattle.cv_token.specs.Spelling.{spelling};
ghost use Rattle.cv_top.specs.declared.end.End.TheVariants as end;
ghost use Rattle.cv_top.specs.Causes.{IsPlanned, IsRefusalOf, DoneOrFailed, FaultOrFailed, PlanOrFailed, UnlessRefused, RefusedBy, refusal_of, with_feed};
ghost use Rattle.cv_words.specs.Asked.{stray_of};
ghost use Rattle.cv_words.specs.Items.{stray_in};
ghost use Rattle.cv_words.specs.declared.items.Stray.{Stray};
ghost use Rattle.cv_top.specs.Printed.{firing_of, firings_of, last_lines, end_word, IsTextWhereDefined};
ghost use Rattle.cv_top.specs.Ran.{IsDoneFor, IsEmptyRecord, IsRight, IsRightRun, IsRightRounds, RoundsEnd, end_at};

use crate::end::{Answer, End, Refusal, empty_record};
use crate::nodes::run_on_nodes;
use crate::tracing::trace;
use cv_alone::RunEnd;
use cv_deploy::{NoNetwork, compile};
use cv_io::Gate;
use cv_kinds::Network;
use cv_network::network_text;
use cv_protocol::{Event, Step};
use cv_solo::{Solo, SoloFault};
use cv_token::{AppId, OutOfMemory};
use cv_words::{RunWords, Task};
use std::alloc::{AllocError, Global};
use std::thread::Threads;

/// The application of a run.
const RUN: AppId = AppId { node: 1, seq: 1 };

/// Does what the task asks with the network that the bytes of a script mean.
pub fn do_task<R: Threads + Sync, G: Gate>(
    rt: &R,
    alloc: Global,
    bytes: &[u8],
    task: Task,
    gate: &G,
) -> Result<Answer, Refusal>
    requires { length bytes.now ≤ 2 ^ 31 }
    ensures done { IfOk result (λ answer. IsDoneFor task bytes.now answer.end answer.merged (string_bytes answer.text)) }
    ensures cause { IfErr result (IsRefusalOf task bytes.now) }
    ensures complete { (net : Net) → Means bytes.now net → stray_of task ≡ None → UnlessRefused result DoneOrFailed }
    ensures planned { (net : Net) (stray : Stray) → Means bytes.now net → stray_of task ≡ Some stray → RefusedBy result (PlanOrFailed stray) }
    ensures faulty { (fault : Fault) → HasFault bytes.now fault → RefusedBy result (FaultOrFailed fault) }
{
    match compile(alloc, bytes) {
        Ok(net) => do_planned(rt, alloc, net, task, gate),
        Err(none) => Err(refusal_of(none)),
    }
}

/// Does what the task asks with a network, where each of its items names nodes that run.
fn do_planned<R: Threads + Sync, G: Gate>(
    rt: &R,
    alloc: Global,
    net: Network,
    task: Task,
    gate: &G,
) -> Result<Answer, Refusal>
    requires { IsWired net }
    ensures done { IfOk result (λ answer. (stray_of task ≡ None) × IsRight task net answer.end answer.merged (string_bytes answer.text)) }
    ensures refused { IfErr result (IsPlanned task) }
{
    if let Some(stray) = task.stray() {
        return Err(Refusal::Plan { stray });
    }
    do_with(rt, alloc, net, task, gate).map_err(|_| Refusal::OutOfMemory)
}

/// Does what the task asks with a network.
fn do_with<R: Threads + Sync, G: Gate>(
    rt: &R,
    alloc: Global,
    net: Network,
    task: Task,
    gate: &G,
) -> Result<Answer, OutOfMemory>
    requires wired { IsWired net }
    requires fits { stray_of task ≡ None }
    ensures { IfOk result (λ answer. IsRight task net answer.end answer.merged (string_bytes answer.text)) }
{
    match task {
        Task::Run(words) => run(rt, alloc, net, &words, gate),
        Task::Trace(words) => trace(rt, alloc, net, &words, gate),
        Task::Solo { firings } => run_in_rounds(alloc, &net, firings),
        Task::Compile => print_network(alloc, &net),
    }
}

/// The text of a network.
fn print_network(alloc: Global, net: &Network) -> Result<Answer, OutOfMemory>
    ensures { IfOk result (λ answer. (answer.end ≡ end.Done) × IsEmptyRecord answer.merged × (string_bytes answer.text ≡ with_feed (spelling (network_token net.now)))) }
{
    let json = network_text(alloc, net)?;
    let mut text = String::from_str(alloc, json.as_str())?;
    text.push('\n')?;
    Ok(Answer {
        end: End::Done,
        merged: empty_record(alloc),
        text,
    })
}

/// The refusal for bytes that stand for no network.
fn refusal_of(none: NoNetwork) -> Refusal
    ensures { result ≡ refusal_of none }
{
    match none {
        NoNetwork::Script(fault) => Refusal::Script {
            line: fault.line,
            col: fault.col,
            code: fault.code,
        },
        NoNetwork::OutOfMemory => Refusal::OutOfMemory,
    }
}

/// Runs a network by the one runtime in rounds, with so many firings at most.
fn run_in_rounds(alloc: Global, net: &Network, most: u32) -> Result<Answer, OutOfMemory>
    ensures { IfOk result (λ answer. (stop : RunEnd) × (answer.end ≡ end_at stop) × IsRightRounds net.now most stop answer.merged (string_bytes answer.text)) }
{
    let mut solo = Solo::new(alloc, net)?;
    let (stop, fired) = make_rounds(alloc, &mut solo, most)?;
    let prints = solo.print(alloc)?;
    let text = with_last_lines(alloc, prints.as_str(), fired as usize, stop)?;
    Ok(Answer {
        end: End::at(stop),
        merged: empty_record(alloc),
        text,
    })
}

/// Fires the rounds of a new machine, until so many firings were made or no action is ready: how it stopped, and how many
/// firings were made.
fn make_rounds(alloc: Global, solo: &mut Solo, most: u32) -> Result<(RunEnd, u32), OutOfMemory>
    requires { solo.old.runtime ≡ opening solo.old.net }
    ensures net { solo.new.net ≡ solo.old.net }
    ensures made { IfOk result (λ run. (firings : List (ℕ × ℕ)) × IsPlainRun solo.old.net most firings solo.new.runtime × (length firings ≡ run.1) × RoundsEnd solo.old.net most run.0 firings solo.new.runtime) }
{
    let mut fired = 0;
    while fired < most {
        let more = solo.round(alloc, most - fired)?;
        if more == 0 {
            return Ok((RunEnd::Quiescent, fired));
        }
        fired += more;
    }
    Ok((RunEnd::Spent, fired))
}

/// Runs a network as the words ask; the text is that of its streams.
fn run<R: Threads + Sync, G: Gate>(
    rt: &R,
    alloc: Global,
    net: Network,
    words: &RunWords,
    gate: &G,
) -> Result<Answer, OutOfMemory>
    requires wired { IsWired net }
    requires fits { stray_in words.now.nodes words.now.items ≡ None }
    ensures { IfOk result (λ answer. (stop : RunEnd) × (answer.end ≡ end_at stop) × IsRightRun words.now net stop answer.merged (string_bytes answer.text)) }
{
    let (stop, merged) = run_on_nodes(rt, alloc, net.copy(alloc)?, words, gate)?;
    let text = print_run(alloc, &net, merged.entries.as_slice(), stop)?;
    Ok(Answer {
        end: End::at(stop),
        merged,
        text,
    })
}

/// The text of a run: the lines of its prints, the number of its firings, and its end.
fn print_run(
    alloc: Global,
    net: &Network,
    steps: &[Step],
    stop: RunEnd,
) -> Result<String, OutOfMemory>
    ensures { IfOk result (λ text. IsTextWhereDefined net.now (firings_of steps.now) stop (string_bytes text)) }
{
    let solo = replay(alloc, net, steps)?;
    let prints = solo.print(alloc)?;
    let count = firing_count(steps);
    with_last_lines(alloc, prints.as_str(), count, stop)
}

/// The lines of the prints with the last two lines.
fn with_last_lines(
    alloc: Global,
    lines: &str,
    count: usize,
    stop: RunEnd,
) -> Result<String, OutOfMemory>
    ensures { IfOk result (λ text. string_bytes text ≡ lines.now ++ last_lines count stop) }
{
    let number = count.to_string(alloc)?;
    let mut text = String::from_str(alloc, lines)?;
    text.push_str("firings ")?;
    text.push_str(number.as_str())?;
    text.push_str("\nend ")?;
    text.push_str(end_word(stop))?;
    text.push_str("\n")?;
    Ok(text)
}

/// The word of an end.
fn end_word(stop: RunEnd) -> &'static str
    ensures { result.now ≡ end_word stop }
{
    match stop {
        RunEnd::Spent => "spent",
        RunEnd::Quiescent => "quiescent",
    }
}

/// The one runtime after the recorded firings.
fn replay(alloc: Global, net: &Network, steps: &[Step]) -> Result<Solo, OutOfMemory>
    ensures { IfOk result (λ s. (s.net ≡ net.now) × ((r : Runtime) → solo net.now (firings_of steps.now) ≡ Some r → s.runtime ≡ r)) }
{
    let mut solo = Solo::new(alloc, net)?;
    for step in steps {
        replay_step(alloc, &mut solo, step)?;
    }
    Ok(solo)
}

/// Fires what a step fired, if it is a firing. What is not allowed is passed over.
fn replay_step(alloc: Global, solo: &mut Solo, step: &Step) -> Result<(), OutOfMemory>
    ensures net { solo.new.net ≡ solo.old.net }
    ensures goes_on { OnOk result ((rest : List (ℕ × ℕ)) (r : Runtime) → solo_from solo.old.net solo.old.runtime (firing_of step.now.event ++ rest) ≡ Some r → solo_from solo.old.net solo.new.runtime rest ≡ Some r) }
{
    let Event::Fire { actor, action } = &step.event else {
        return Ok(())
    };
    if actor.app != RUN {
        return Ok(());
    }
    match solo.fire(alloc, actor.actor, *action) {
        Err(SoloFault::OutOfMemory) => Err(AllocError),
        _ => Ok(()),
    }
}

/// How many firings the steps have.
fn firing_count(steps: &[Step]) -> usize
    ensures { result ≡ length (firings_of steps.now) }
{
    let mut count = 0;
    for step in steps {
        count += firings_in(step);
    }
    count
}

/// Whether a step is a firing of the run's application, as a number.
fn firings_in(step: &Step) -> usize
    ensures count { result ≡ length (firing_of step.now.event) }
    ensures one { result ≤ 1 }
{
    match &step.event {
        Event::Fire { actor, action: _ } if actor.app == RUN => 1,
        _ => 0,
    }
}
