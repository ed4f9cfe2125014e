//! What stands behind the name of an event that takes no memory.

ghost use Rattle.std.specs.Prelude.{◌≡◌, ◌≢◌, ℕ, [], ◌∷◌, MatchOption};
ghost use Rattle.cv_token.specs.declared.identifiers.ActorId.{ActorId};
ghost use Rattle.cv_token.specs.declared.identifiers.ConnId.{ConnId};
ghost use Rattle.cv_token.specs.declared.token.Token.TheVariants as tree;
ghost use Rattle.cv_token.specs.Spells.{Spells};
ghost use Rattle.cv_frame.specs.Trees.{number, word, actor_tree, conn_tree};
ghost use Rattle.cv_frame.specs.Values.{IsActor, IsConn};
ghost use Rattle.cv_entry.specs.Values.{IsPlace, IsRoom};

use cv_frame::frames::behind;
use cv_frame::parts::{actor_of, conn_of, number_below};
use cv_token::{ActorId, ConnId, Token};

/// The number of an inport or an action.
fn read_port(token: &Token) -> Option<u8>
    ensures { Spells IsPlace number token.now result }
{
    Some(number_below(1 << 8, token)? as u8)
}

/// How many actors a node takes.
pub(crate) fn room_of(token: &Token) -> Option<u16>
    ensures { Spells IsRoom number token.now result }
{
    Some(number_below(1 << 16, token)? as u16)
}

/// A connection behind a name.
pub(crate) fn conn_behind(token: &Token, name: &str) -> Option<ConnId>
    ensures { MatchOption result
        ((conn : ConnId) → IsConn conn → token.now ≢ tree.List (word name.now ∷ conn_tree conn ∷ []))
        (λ conn. IsConn conn × (token.now ≡ tree.List (word name.now ∷ conn_tree conn ∷ []))) }
{
    let rest = behind(token, name, 2)?;
    conn_of(&rest[0])
}

/// An actor behind a name.
pub(crate) fn actor_behind(token: &Token, name: &str) -> Option<ActorId>
    ensures { MatchOption result
        ((actor : ActorId) → IsActor actor → token.now ≢ tree.List (word name.now ∷ actor_tree actor ∷ []))
        (λ actor. IsActor actor × (token.now ≡ tree.List (word name.now ∷ actor_tree actor ∷ []))) }
{
    let rest = behind(token, name, 2)?;
    actor_of(&rest[0])
}

/// An inport or an action of an actor.
pub(crate) struct Choice {
    pub(crate) actor: ActorId,
    pub(crate) place: u8,
}

/// An actor and one of its inports or actions behind a name.
pub(crate) fn choice_behind(token: &Token, name: &str) -> Option<Choice>
    ensures { MatchOption result
        ((actor : ActorId) (n : ℕ) → IsActor actor → IsPlace n → token.now ≢ tree.List (word name.now ∷ actor_tree actor ∷ number n ∷ []))
        (λ x. IsActor x.actor × IsPlace x.place
        × (token.now ≡ tree.List (word name.now ∷ actor_tree x.actor ∷ number x.place ∷ []))) }
{
    let rest = behind(token, name, 3)?;
    let actor = actor_of(&rest[0])?;
    let place = read_port(&rest[1])?;
    Some(Choice { actor, place })
}
