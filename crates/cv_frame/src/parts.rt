//! What stands in a token tree: its parts, numbers, words and identifiers.

ghost use Rattle.std.specs.Prelude.{◌≡◌, ◌≢◌, ℕ, ◌<◌, ◌≤◌, ◌^◌, ◌↔◌, List, [], ◌∷◌, IsTrue, MatchOption, length};
ghost use Rattle.cv_token.specs.declared.token.Token.{Token};
ghost use Rattle.cv_token.specs.declared.token.Token.TheVariants as tree;
ghost use Rattle.cv_token.specs.Spells.{Spells};
ghost use Rattle.cv_frame.specs.Trees.{number, word, app_tree, actor_tree, conn_tree};
ghost use Rattle.cv_frame.specs.Values.{IsCount, IsNode, IsApp, IsActor, IsConn};

use cv_token::{ActorId, AppId, ConnId, Token};

/// One more than the greatest count.
pub(crate) const COUNTS: u64 = 1 << 62;

/// The elements of a list of so many.
pub fn parts_of(token: &Token, count: usize) -> Option<&[Token]>
    ensures { MatchOption result ((ts : List Token) → length ts ≡ count → token.now ≢ tree.List ts)
        (λ ts. (length ts.now ≡ count) × (token.now ≡ tree.List ts.now)) }
{
    match token {
        Token::List(items) if items.len() == count => Some(items.as_slice()),
        _ => None,
    }
}

/// Whether a token is that word.
pub fn is_word(token: &Token, text: &str) -> bool
    ensures { IsTrue result ↔ (token.now ≡ word text.now) }
{
    match token {
        Token::Text(found) => found.as_str() == text,
        _ => false,
    }
}

/// Whether a token is null.
pub fn is_null(token: &Token) -> bool
    ensures { IsTrue result ↔ (token.now ≡ tree.Null) }
{
    match token {
        Token::Null => true,
        _ => false,
    }
}

/// A number below a limit.
pub fn number_below(limit: u64, token: &Token) -> Option<u64>
    requires { limit ≤ 2 ^ 62 }
    ensures { Spells (λ n. n < limit) number token.now result }
{
    match token {
        Token::Int(n) if *n >= 0 && (*n as u64) < limit => Some(*n as u64),
        _ => None,
    }
}

/// A count of tokens, attempts or stamps.
pub fn count_of(token: &Token) -> Option<u64>
    ensures { Spells IsCount number token.now result }
{
    number_below(COUNTS, token)
}

/// The number of a node.
pub fn node_of(token: &Token) -> Option<u16>
    ensures { Spells IsNode number token.now result }
{
    let n = number_below(65, token)?;
    if n == 0 { None } else { Some(n as u16) }
}

/// `[node,seq]`.
pub fn app_of(token: &Token) -> Option<AppId>
    ensures { Spells IsApp app_tree token.now result }
{
    let parts = parts_of(token, 2)?;
    let node = node_of(&parts[0])?;
    let seq = number_below(1 << 32, &parts[1])? as u32;
    Some(AppId { node, seq })
}

/// `[node,seq,actor]`.
pub fn actor_of(token: &Token) -> Option<ActorId>
    ensures { Spells IsActor actor_tree token.now result }
{
    let parts = parts_of(token, 3)?;
    let node = node_of(&parts[0])?;
    let seq = number_below(1 << 32, &parts[1])? as u32;
    let actor = number_below(1 << 16, &parts[2])? as u16;
    let app = AppId { node, seq };
    Some(ActorId { app, actor })
}

/// `[node,seq,place]`.
pub fn conn_of(token: &Token) -> Option<ConnId>
    ensures { Spells IsConn conn_tree token.now result }
{
    let parts = parts_of(token, 3)?;
    let node = node_of(&parts[0])?;
    let seq = number_below(1 << 32, &parts[1])? as u32;
    let place = number_below(1 << 16, &parts[2])? as u16;
    let app = AppId { node, seq };
    Some(ConnId { app, place })
}
