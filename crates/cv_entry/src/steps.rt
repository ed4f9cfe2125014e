//! Events of time, firings and connections, out of their trees.

ghost use Rattle.std.specs.Prelude.{◌≡◌, ◌≢◌, ℕ, MatchOption};
ghost use Rattle.cv_token.specs.declared.identifiers.ActorId.{ActorId};
ghost use Rattle.cv_token.specs.declared.identifiers.AppId.{AppId};
ghost use Rattle.cv_token.specs.declared.identifiers.ConnId.{ConnId};
ghost use Rattle.cv_protocol.specs.declared.event.Event.TheVariants as event;
ghost use Rattle.cv_entry.specs.Trees.{event_tree};
ghost use Rattle.cv_entry.specs.Values.{IsEvent};

use crate::fields::{Choice, choice_behind, conn_behind};
use cv_frame::frames::behind;
use cv_frame::parts::{app_of, count_of};
use cv_protocol::Event;
use cv_token::Token;

pub(crate) fn tick_event(token: &Token) -> Option<Event>
    ensures { MatchOption result
        ((now : ℕ) → IsEvent (event.Tick now) → token.now ≢ event_tree (event.Tick now))
        (λ e. IsEvent e × (token.now ≡ event_tree e)) }
{
    let rest = behind(token, "tick", 2)?;
    let now = count_of(&rest[0])?;
    Some(Event::Tick { now })
}

pub(crate) fn peek_event(token: &Token) -> Option<Event>
    ensures { MatchOption result
        ((actor : ActorId) (port : ℕ) → IsEvent (event.Peek actor port) → token.now ≢ event_tree (event.Peek actor port))
        (λ e. IsEvent e × (token.now ≡ event_tree e)) }
{
    let Choice { actor, place } = choice_behind(token, "peek")?;
    Some(Event::Peek { actor, port: place })
}

pub(crate) fn fire_event(token: &Token) -> Option<Event>
    ensures { MatchOption result
        ((actor : ActorId) (action : ℕ) → IsEvent (event.Fire actor action) → token.now ≢ event_tree (event.Fire actor action))
        (λ e. IsEvent e × (token.now ≡ event_tree e)) }
{
    let Choice { actor, place } = choice_behind(token, "fire")?;
    Some(Event::Fire {
        actor,
        action: place,
    })
}

pub(crate) fn pass_event(token: &Token) -> Option<Event>
    ensures { MatchOption result
        ((conn : ConnId) → IsEvent (event.Pass conn) → token.now ≢ event_tree (event.Pass conn))
        (λ e. IsEvent e × (token.now ≡ event_tree e)) }
{
    let conn = conn_behind(token, "pass")?;
    Some(Event::Pass { conn })
}

pub(crate) fn send_event(token: &Token) -> Option<Event>
    ensures { MatchOption result
        ((conn : ConnId) → IsEvent (event.Send conn) → token.now ≢ event_tree (event.Send conn))
        (λ e. IsEvent e × (token.now ≡ event_tree e)) }
{
    let conn = conn_behind(token, "send")?;
    Some(Event::Send { conn })
}

pub(crate) fn rewind_event(token: &Token) -> Option<Event>
    ensures { MatchOption result
        ((conn : ConnId) → IsEvent (event.Rewind conn) → token.now ≢ event_tree (event.Rewind conn))
        (λ e. IsEvent e × (token.now ≡ event_tree e)) }
{
    let conn = conn_behind(token, "rewind")?;
    Some(Event::Rewind { conn })
}

pub(crate) fn destroy_event(token: &Token) -> Option<Event>
    ensures { MatchOption result
        ((app : AppId) → IsEvent (event.Destroy app) → token.now ≢ event_tree (event.Destroy app))
        (λ e. IsEvent e × (token.now ≡ event_tree e)) }
{
    let rest = behind(token, "destroy", 2)?;
    let app = app_of(&rest[0])?;
    Some(Event::Destroy { app })
}
