//! Events, entries and heads, out of their trees.

ghost use Rattle.std.specs.Prelude.{◌≡◌, ◌≢◌, IfOk, MatchOption};
ghost use Rattle.cv_token.specs.Spells.{Spells};
ghost use Rattle.cv_protocol.specs.declared.event.Event.{Event};
ghost use Rattle.cv_entry.specs.Trees.{entry_tree, event_tree, head_tree};
ghost use Rattle.cv_entry.specs.Values.{IsEntry, IsEvent, IsHead};
ghost use Rattle.cv_entry.specs.laws.Plain.{HasFrame, IsMove, IsStep, IsTold};

use crate::attrs::attrs_of;
use crate::carried::{deliver_event, deploy_event, lose_event, meet_event};
use crate::fields::room_of;
use crate::head::Head;
use crate::moves::{freeze_event, hint_event, resend_event, withdraw_event};
use crate::steps::{
    destroy_event, fire_event, pass_event, peek_event, rewind_event, send_event, tick_event,
};
use cv_frame::frames::behind;
use cv_frame::parts::{count_of, node_of, parts_of};
use cv_protocol::{Entry, Event};
use cv_rules::NodeSpec;
use cv_token::{OutOfMemory, Token};
use std::alloc::Global;

/// An event of time, a firing, a connection or the end of an application.
fn step_event(token: &Token) -> Option<Event>
    ensures { MatchOption result ((e : Event) → IsStep e → IsEvent e → token.now ≢ event_tree e) (λ e. IsEvent e × (token.now ≡ event_tree e)) }
{
    let fired = fire_event(token).or(peek_event(token));
    let moved = pass_event(token).or(send_event(token));
    let timed = rewind_event(token).or(tick_event(token));
    fired.or(moved).or(timed).or(destroy_event(token))
}

/// An event of a move.
fn move_event(token: &Token) -> Option<Event>
    ensures { MatchOption result ((e : Event) → IsMove e → IsEvent e → token.now ≢ event_tree e) (λ e. IsEvent e × (token.now ≡ event_tree e)) }
{
    let left = freeze_event(token).or(hint_event(token));
    left.or(resend_event(token)).or(withdraw_event(token))
}

/// An event that carries a frame.
fn frame_event(alloc: Global, token: &Token) -> Result<Option<Event>, OutOfMemory>
    ensures { IfOk result (λ found. MatchOption found
        ((e : Event) → HasFrame e → IsEvent e → token.now ≢ event_tree e) (λ e. IsEvent e × (token.now ≡ event_tree e))) }
{
    match deliver_event(alloc, token)? {
        Some(event) => Ok(Some(event)),
        None => lose_event(alloc, token),
    }
}

/// An event that carries attributes or a network.
fn told_event(alloc: Global, token: &Token) -> Result<Option<Event>, OutOfMemory>
    ensures { IfOk result (λ found. MatchOption found
        ((e : Event) → IsTold e → IsEvent e → token.now ≢ event_tree e) (λ e. IsEvent e × (token.now ≡ event_tree e))) }
{
    match meet_event(alloc, token)? {
        Some(event) => Ok(Some(event)),
        None => deploy_event(alloc, token),
    }
}

/// An event.
fn event_of(alloc: Global, token: &Token) -> Result<Option<Event>, OutOfMemory>
    ensures { IfOk result (Spells IsEvent event_tree token.now) }
{
    if let Some(event) = frame_event(alloc, token)? {
        return Ok(Some(event));
    }
    match step_event(token).or(move_event(token)) {
        Some(event) => Ok(Some(event)),
        None => told_event(alloc, token),
    }
}

/// An entry.
pub(crate) fn entry_of(alloc: Global, token: &Token) -> Result<Option<Entry>, OutOfMemory>
    ensures { IfOk result (Spells IsEntry entry_tree token.now) }
{
    let Some(parts) = parts_of(token, 2) else {
        return Ok(None);
    };
    let Some(stamp) = count_of(&parts[0]) else {
        return Ok(None);
    };
    let Some(event) = event_of(alloc, &parts[1])? else {
        return Ok(None);
    };
    Ok(Some(Entry { stamp, event }))
}

/// What stands before a journal's entries.
pub(crate) fn head_of(alloc: Global, token: &Token) -> Result<Option<Head>, OutOfMemory>
    ensures { IfOk result (Spells IsHead head_tree token.now) }
{
    let Some(rest) = behind(token, "node", 6) else {
        return Ok(None);
    };
    let Some(no) = node_of(&rest[0]) else {
        return Ok(None);
    };
    let Some(room) = room_of(&rest[1]) else {
        return Ok(None);
    };
    let Some(window) = node_of(&rest[2]) else {
        return Ok(None);
    };
    let Some(dropped) = count_of(&rest[4]) else {
        return Ok(None);
    };
    let Some(attrs) = attrs_of(alloc, &rest[3])? else {
        return Ok(None);
    };
    let spec = NodeSpec {
        no,
        room,
        window,
        attrs,
    };
    Ok(Some(Head { spec, dropped }))
}
