//! One sweep over the connections of a network, and one over its actors.

ghost use Rattle.std.specs.Prelude.{◌≡◌, ◌≤◌, ◌<◌, ◌-◌, ◌^◌, ℕ, None, Ok, true, false, length, MatchBool, IfOk, OnOk};
ghost use Rattle.cv_protocol.specs.declared.event.Event.TheVariants as event;
ghost use Rattle.cv_protocol.specs.declared.event.Sent.TheVariants as sent;
ghost use Rattle.cv_protocol.specs.NodeRow.{row};
ghost use Rattle.cv_node.specs.Counts.{journal_length};
ghost use Rattle.cv_node.specs.Journalled.{IsReplay, MakesStep};
ghost use Rattle.cv_node.specs.Polls.{HasPolled};
ghost use Rattle.cv_alone.specs.Going.{EndsInFiring, GoesOn, Polls, is_prompt};
ghost use Rattle.cv_alone.specs.Resting.{AllWait, actor_id, conn_id, earlier, until_from, until_in};

use cv_actor::Polled;
use cv_node::{JOURNAL_LENGTH, Node};
use cv_protocol::{Event, Need, StepRefusal};
use cv_token::{ActorId, AppId, ConnId, OutOfMemory};
use std::alloc::{AllocError, Global};

/// The application of the run.
const APP: AppId = AppId { node: 1, seq: 1 };

/// What a sweep over the actors did.
#[derive(Debug, Clone, Copy, PartialEq, Eq)]
pub struct Swept {
    /// Whether an actor fired or read.
    pub changed: bool,
    pub fired: u32,
    /// The earliest moment that an action waits for.
    pub due: Option<u64>,
}

/// Tells want of memory where the journal is full.
fn check_room(node: &Node) -> Result<(), OutOfMemory>
    ensures few { OnOk result (length node.now.entries < journal_length) }
    ensures replays { IsReplay node.now.base node.now.state node.now.entries }
{
    if node.journal().entries.len() >= JOURNAL_LENGTH {
        return Err(AllocError);
    }
    Ok(())
}

/// Passes a token over the connection, where one can pass; false where none can, and then nothing changed.
pub(crate) fn pass(node: &mut Node, alloc: Global, place: u16) -> Result<bool, OutOfMemory>
    ensures passed { IfOk result (λ passed. MatchBool passed (MakesStep node.old (event.Pass (conn_id place)) sent.Nothing node.new) ((node.new ≡ node.old) × (row node.old.state (event.Pass (conn_id place)) ≡ None))) }
    ensures few { OnOk result (length node.old.entries < journal_length) }
{
    check_room(node)?;
    let conn = ConnId { app: APP, place };
    match node.step(alloc, Event::Pass { conn }) {
        Ok(_sent) => Ok(true),
        Err(StepRefusal::StampSpent | StepRefusal::OutOfMemory) => Err(AllocError),
        Err(_cause) => Ok(false),
    }
}

/// Passes a token over each connection, where one can pass, and tells whether one did.
pub(crate) fn pass_all(
    node: &mut Node,
    alloc: Global,
    connections: u16,
) -> Result<bool, OutOfMemory>
    ensures ok { IfOk result (λ _. GoesOn is_prompt node.old node.new 0) }
    ensures none { result ≡ Ok false → (node.new ≡ node.old) × ((place : ℕ) → place < connections → row node.old.state (event.Pass (conn_id place)) ≡ None) }
    ensures more { result ≡ Ok true → length node.old.entries < length node.new.entries }
{
    let mut passed = false;
    for place in 0..connections {
        passed |= pass(node, alloc, place)?;
    }
    Ok(passed)
}

/// The earlier one of two moments, where there are any.
fn earlier(due: Option<u64>, other: Option<u64>) -> Option<u64>
    ensures { result ≡ earlier due other }
{
    match (due, other) {
        (Some(due), Some(other)) => Some(due.min(other)),
        (Some(due), None) => Some(due),
        (None, other) => other,
    }
}

/// The moment that an action waits for.
fn until_in(lack: Option<Need>) -> Option<u64>
    ensures { result ≡ until_in lack }
{
    match lack {
        Some(Need::Until(moment)) => Some(moment),
        _ => None,
    }
}

/// The earliest of a moment and those that the actions wait for.
fn until_from(due: Option<u64>, lacks: &[Option<Need>]) -> Option<u64>
    ensures { result ≡ until_from due lacks.now }
{
    let mut due = due;
    for lack in lacks {
        due = earlier(due, until_in(*lack));
    }
    due
}

/// Polls an actor once.
fn poll(node: &mut Node, alloc: Global, place: u16, swept: &mut Swept) -> Result<(), OutOfMemory>
    requires { swept.old.fired < 2 ^ 32 - 1 }
    ensures polled { OnOk result (Polls node.old (actor_id place) swept.old swept.new node.new) }
    ensures few { OnOk result (length node.old.entries < journal_length) }
{
    check_room(node)?;
    let actor = ActorId {
        app: APP,
        actor: place,
    };
    match node.poll(alloc, actor) {
        Ok(Polled::Fired(_action)) => {
            swept.changed = true;
            swept.fired += 1;
        }
        Ok(Polled::Held(_port)) => swept.changed = true,
        Ok(Polled::Waiting(lacks)) => swept.due = until_from(swept.due, &lacks),
        Err(_cause) => return Err(AllocError),
    }
    Ok(())
}

/// Polls each actor once, until so many fired.
pub(crate) fn poll_all(
    node: &mut Node,
    alloc: Global,
    actors: u16,
    most: u32,
) -> Result<Swept, OutOfMemory>
    requires { 0 < most }
    ensures ok { IfOk result (λ swept. (swept.fired ≤ most) × GoesOn is_prompt node.old node.new swept.fired) }
    ensures none { IfOk result (λ swept. swept.changed ≡ false → (node.new ≡ node.old) × (swept.fired ≡ 0) × AllWait node.old.state actors swept.due) }
    ensures more { IfOk result (λ swept. swept.changed ≡ true → length node.old.entries < length node.new.entries) }
    ensures ends { IfOk result (λ swept. swept.fired ≡ most → EndsInFiring node.new.entries) }
{
    let mut swept = Swept {
        changed: false,
        fired: 0,
        due: None,
    };
    for place in 0..actors {
        if swept.fired == most {
            return Ok(swept);
        }
        poll(node, alloc, place, &mut swept)?;
    }
    Ok(swept)
}

/// Lets time go on to that moment.
pub(crate) fn tick(node: &mut Node, alloc: Global, moment: u64) -> Result<(), OutOfMemory>
    ensures ticked { OnOk result (MakesStep node.old (event.Tick moment) sent.Nothing node.new) }
    ensures few { OnOk result (length node.old.entries < journal_length) }
    ensures replays { IsReplay node.old.base node.old.state node.old.entries }
{
    check_room(node)?;
    match node.step(alloc, Event::Tick { now: moment }) {
        Ok(_sent) => Ok(()),
        Err(_cause) => Err(AllocError),
    }
}
