//! Frames, out of their trees.

ghost use Rattle.std.specs.Prelude.{◌≡◌, ◌≢◌, ℕ, ◌+◌, ◌↔◌, List, [], ◌∷◌, length, Some, None, codes, IfOk, IsTrue, MatchOption};
ghost use Rattle.cv_token.specs.declared.identifiers.ActorId.{ActorId};
ghost use Rattle.cv_token.specs.declared.identifiers.AppId.{AppId};
ghost use Rattle.cv_token.specs.declared.identifiers.ConnId.{ConnId};
ghost use Rattle.cv_token.specs.declared.token.Token.{Token};
ghost use Rattle.cv_token.specs.declared.token.Token.TheVariants as tree;
ghost use Rattle.cv_token.specs.Spells.{Spells};
ghost use Rattle.cv_protocol.specs.Actors.{StateView};
ghost use Rattle.cv_protocol.specs.declared.frame.Body.{Body};
ghost use Rattle.cv_protocol.specs.declared.frame.Body.TheVariants as body;
ghost use Rattle.cv_protocol.specs.declared.frame.Verdict.{Verdict};
ghost use Rattle.cv_frame.specs.Trees.{number, word, actor_tree, body_tree, conn_tree, frame_tree, member, verdict_number};
ghost use Rattle.cv_frame.specs.Values.{IsActor, IsBody, IsConn, IsCount, IsFrame, IsPlain};

use crate::parts::{actor_of, app_of, conn_of, count_of, is_word, node_of, parts_of};
use crate::states::state_of;
use cv_protocol::{Body, Frame, Verdict};
use cv_token::{ActorId, ConnId, OutOfMemory, Pair, Token, fits};
use sqlite_items::Boxed;
use std::alloc::Global;

/// What stands behind a word in a list of so many.
pub fn behind<'a>(token: &'a Token, text: &str, count: usize) -> Option<&'a [Token]>
    ensures { MatchOption result ((ts : List Token) → length ts + 1 ≡ count → token.now ≢ tree.List (word text.now ∷ ts))
        (λ ts. (length ts.now + 1 ≡ count) × (token.now ≡ tree.List (word text.now ∷ ts.now))) }
{
    let (first, rest) = parts_of(token, count)?.split_first()?;
    if is_word(first, text) {
        Some(rest)
    } else {
        None
    }
}

/// A connection, an actor and a count.
struct Receipt {
    conn: ConnId,
    actor: ActorId,
    count: u64,
}

/// What an answer to a token says, behind its word.
fn receipt_of(token: &Token, text: &str) -> Option<Receipt>
    ensures { MatchOption result
        ((conn : ConnId) (actor : ActorId) (n : ℕ) → IsConn conn → IsActor actor → IsCount n
        → token.now ≢ tree.List (word text.now ∷ conn_tree conn ∷ actor_tree actor ∷ number n ∷ []))
        (λ x. IsConn x.conn × IsActor x.actor × IsCount x.count
        × (token.now ≡ tree.List (word text.now ∷ conn_tree x.conn ∷ actor_tree x.actor ∷ number x.count ∷ []))) }
{
    let rest = behind(token, text, 4)?;
    let conn = conn_of(&rest[0])?;
    let actor = actor_of(&rest[1])?;
    let count = count_of(&rest[2])?;
    Some(Receipt { conn, actor, count })
}

fn token_body(alloc: Global, token: &Token) -> Result<Option<Body>, OutOfMemory>
    ensures { IfOk result (λ found. MatchOption found
        ((conn : ConnId) (actor : ActorId) (n : ℕ) (t : Token) → IsBody (body.Token conn actor n t) → token.now ≢ body_tree (body.Token conn actor n t))
        (λ b. IsBody b × (token.now ≡ body_tree b))) }
{
    let Some(rest) = behind(token, "token", 5) else {
        return Ok(None);
    };
    let Some(conn) = conn_of(&rest[0]) else {
        return Ok(None);
    };
    let Some(actor) = actor_of(&rest[1]) else {
        return Ok(None);
    };
    let Some(n) = count_of(&rest[2]) else {
        return Ok(None);
    };
    if !fits(&rest[3]) {
        return Ok(None);
    }
    let token = rest[3].copy(alloc)?;
    Ok(Some(Body::Token {
        conn,
        actor,
        n,
        token,
    }))
}

fn ack_body(token: &Token) -> Option<Body>
    ensures { MatchOption result
        ((conn : ConnId) (actor : ActorId) (n : ℕ) → IsBody (body.Ack conn actor n) → token.now ≢ body_tree (body.Ack conn actor n))
        (λ b. IsBody b × (token.now ≡ body_tree b)) }
{
    let Receipt { conn, actor, count } = receipt_of(token, "ack")?;
    Some(Body::Ack {
        conn,
        actor,
        upto: count,
    })
}

fn nack_body(token: &Token) -> Option<Body>
    ensures { MatchOption result
        ((conn : ConnId) (actor : ActorId) (n : ℕ) → IsBody (body.Nack conn actor n) → token.now ≢ body_tree (body.Nack conn actor n))
        (λ b. IsBody b × (token.now ≡ body_tree b)) }
{
    let Receipt { conn, actor, count } = receipt_of(token, "nack")?;
    Some(Body::Nack {
        conn,
        actor,
        upto: count,
    })
}

fn transfer_body(alloc: Global, token: &Token) -> Result<Option<Body>, OutOfMemory>
    ensures { IfOk result (λ found. MatchOption found
        ((actor : ActorId) (n : ℕ) (state : StateView) → IsBody (body.Transfer actor n state) → token.now ≢ body_tree (body.Transfer actor n state))
        (λ b. IsBody b × (token.now ≡ body_tree b))) }
{
    let Some(rest) = behind(token, "transfer", 4) else {
        return Ok(None);
    };
    let Some(actor) = actor_of(&rest[0]) else {
        return Ok(None);
    };
    let Some(attempt) = count_of(&rest[1]) else {
        return Ok(None);
    };
    let Some(state) = state_of(alloc, actor, &rest[2])? else {
        return Ok(None);
    };
    let state = Boxed::new(alloc, state)?;
    Ok(Some(Body::Transfer {
        actor,
        attempt,
        state,
    }))
}

fn verdict_of(token: &Token) -> Option<Verdict>
    ensures { MatchOption result ((v : Verdict) → token.now ≢ number (verdict_number v)) (λ v. token.now ≡ number (verdict_number v)) }
{
    match count_of(token)? {
        0 => Some(Verdict::Accepted),
        1 => Some(Verdict::Unfit),
        2 => Some(Verdict::Full),
        3 => Some(Verdict::Gone),
        4 => Some(Verdict::Cancelled),
        _ => None,
    }
}

fn verdict_body(token: &Token) -> Option<Body>
    ensures { MatchOption result
        ((actor : ActorId) (n : ℕ) (v : Verdict) → IsBody (body.Verdict actor n v) → token.now ≢ body_tree (body.Verdict actor n v))
        (λ b. IsBody b × (token.now ≡ body_tree b)) }
{
    let rest = behind(token, "verdict", 4)?;
    let actor = actor_of(&rest[0])?;
    let attempt = count_of(&rest[1])?;
    let verdict = verdict_of(&rest[2])?;
    Some(Body::Verdict {
        actor,
        attempt,
        verdict,
    })
}

fn cancel_body(token: &Token) -> Option<Body>
    ensures { MatchOption result
        ((actor : ActorId) (n : ℕ) → IsBody (body.Cancel actor n) → token.now ≢ body_tree (body.Cancel actor n))
        (λ b. IsBody b × (token.now ≡ body_tree b)) }
{
    let rest = behind(token, "cancel", 3)?;
    let actor = actor_of(&rest[0])?;
    let attempt = count_of(&rest[1])?;
    Some(Body::Cancel { actor, attempt })
}

fn located_body(token: &Token) -> Option<Body>
    ensures { MatchOption result
        ((actor : ActorId) (n node : ℕ) → IsBody (body.Located actor n node) → token.now ≢ body_tree (body.Located actor n node))
        (λ b. IsBody b × (token.now ≡ body_tree b)) }
{
    let rest = behind(token, "located", 4)?;
    let actor = actor_of(&rest[0])?;
    let attempt = count_of(&rest[1])?;
    let node = node_of(&rest[2])?;
    Some(Body::Located {
        actor,
        attempt,
        node,
    })
}

fn destroy_body(token: &Token) -> Option<Body>
    ensures { MatchOption result
        ((app : AppId) → IsBody (body.Destroy app) → token.now ≢ body_tree (body.Destroy app))
        (λ b. IsBody b × (token.now ≡ body_tree b)) }
{
    let rest = behind(token, "destroy", 2)?;
    let app = app_of(&rest[0])?;
    Some(Body::Destroy { app })
}

/// A body that holds no token and no state.
fn plain_body(token: &Token) -> Option<Body>
    ensures { MatchOption result ((b : Body) → IsPlain b → IsBody b → token.now ≢ body_tree b) (λ b. IsBody b × (token.now ≡ body_tree b)) }
{
    let answer = ack_body(token).or(nack_body(token));
    let moved = verdict_body(token).or(cancel_body(token));
    let told = located_body(token).or(destroy_body(token));
    answer.or(moved).or(told)
}

/// What a frame says.
fn body_of(alloc: Global, token: &Token) -> Result<Option<Body>, OutOfMemory>
    ensures { IfOk result (Spells IsBody body_tree token.now) }
{
    let found = token_body(alloc, token)?;
    if found.is_some() {
        return Ok(found);
    }
    let found = transfer_body(alloc, token)?;
    if found.is_some() {
        return Ok(found);
    }
    Ok(plain_body(token))
}

/// Whether a member has that key.
fn has_key(pair: &Pair<Token>, key: &str) -> bool
    ensures { IsTrue result ↔ (pair.now.key ≡ key.now) }
{
    pair.key.as_str() == key
}

/// The members of a frame's tree.
#[derive(Clone, Copy)]
struct Members<'a> {
    body: &'a Token,
    from: &'a Token,
    stamp: &'a Token,
    to: &'a Token,
}

fn members_of(token: &Token) -> Option<Members<'_>>
    ensures { MatchOption result
        ((b f s t : Token) → token.now ≢ tree.Dict (member (codes "body") b ∷ member (codes "from") f ∷ member (codes "stamp") s ∷ member (codes "to") t ∷ []))
        (λ m. token.now ≡ tree.Dict (member (codes "body") m.body.now ∷ member (codes "from") m.from.now
        ∷ member (codes "stamp") m.stamp.now ∷ member (codes "to") m.to.now ∷ [])) }
{
    let Token::Dict(pairs) = token else {
        return None;
    };
    let [body, from, stamp, to] = pairs.as_slice() else {
        return None;
    };
    if has_key(body, "body")
        && has_key(from, "from")
        && has_key(stamp, "stamp")
        && has_key(to, "to")
    {
        Some(Members {
            body: &body.value,
            from: &from.value,
            stamp: &stamp.value,
            to: &to.value,
        })
    } else {
        None
    }
}

/// A frame, out of its tree.
pub fn frame_of(alloc: Global, token: &Token) -> Result<Option<Frame>, OutOfMemory>
    ensures { IfOk result (Spells IsFrame frame_tree token.now) }
{
    let Some(members) = members_of(token) else {
        return Ok(None);
    };
    let Some(from) = node_of(members.from) else {
        return Ok(None);
    };
    let Some(stamp) = count_of(members.stamp) else {
        return Ok(None);
    };
    let Some(to) = node_of(members.to) else {
        return Ok(None);
    };
    let Some(body) = body_of(alloc, members.body)? else {
        return Ok(None);
    };
    Ok(Some(Frame {
        from,
        to,
        stamp,
        body,
    }))
}
