//! Events of moves, out of their trees.

ghost use Rattle.std.specs.Prelude.{◌≡◌, ◌≢◌, ℕ, MatchOption};
ghost use Rattle.cv_token.specs.declared.identifiers.ActorId.{ActorId};
ghost use Rattle.cv_protocol.specs.declared.event.Event.TheVariants as event;
ghost use Rattle.cv_entry.specs.Trees.{event_tree};
ghost use Rattle.cv_entry.specs.Values.{IsEvent};

use crate::fields::actor_behind;
use cv_frame::frames::behind;
use cv_frame::parts::{actor_of, count_of, node_of};
use cv_protocol::Event;
use cv_token::Token;

pub(crate) fn freeze_event(token: &Token) -> Option<Event>
    ensures { MatchOption result
        ((actor : ActorId) (to : ℕ) → IsEvent (event.Freeze actor to) → token.now ≢ event_tree (event.Freeze actor to))
        (λ e. IsEvent e × (token.now ≡ event_tree e)) }
{
    let rest = behind(token, "freeze", 3)?;
    let actor = actor_of(&rest[0])?;
    let to = node_of(&rest[1])?;
    Some(Event::Freeze { actor, to })
}

pub(crate) fn resend_event(token: &Token) -> Option<Event>
    ensures { MatchOption result
        ((actor : ActorId) → IsEvent (event.Resend actor) → token.now ≢ event_tree (event.Resend actor))
        (λ e. IsEvent e × (token.now ≡ event_tree e)) }
{
    let actor = actor_behind(token, "resend")?;
    Some(Event::Resend { actor })
}

pub(crate) fn withdraw_event(token: &Token) -> Option<Event>
    ensures { MatchOption result
        ((actor : ActorId) → IsEvent (event.Withdraw actor) → token.now ≢ event_tree (event.Withdraw actor))
        (λ e. IsEvent e × (token.now ≡ event_tree e)) }
{
    let actor = actor_behind(token, "withdraw")?;
    Some(Event::Withdraw { actor })
}

pub(crate) fn hint_event(token: &Token) -> Option<Event>
    ensures { MatchOption result
        ((actor : ActorId) (attempt node : ℕ) → IsEvent (event.Hint actor attempt node) → token.now ≢ event_tree (event.Hint actor attempt node))
        (λ e. IsEvent e × (token.now ≡ event_tree e)) }
{
    let rest = behind(token, "hint", 4)?;
    let actor = actor_of(&rest[0])?;
    let attempt = count_of(&rest[1])?;
    let node = node_of(&rest[2])?;
    Some(Event::Hint {
        actor,
        attempt,
        node,
    })
}
