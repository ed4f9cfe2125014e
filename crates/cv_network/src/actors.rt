//! Actors of a network out of their trees.

ghost use Rattle.std.specs.Prelude.{◌≡◌, All, List, IfOk, MatchOption, Some, map};
ghost use Rattle.cv_kinds.specs.declared.network.ActorSpec.{ActorSpec};
ghost use Rattle.cv_kinds.specs.WellFormed.{IsSpec};
ghost use Rattle.cv_kinds.specs.Table.{line_of};
ghost use Rattle.cv_token.specs.declared.token.Token.TheVariants as tree;
ghost use Rattle.cv_network.specs.Written.{actor_token};

use cv_kinds::{ActorSpec, find};
use cv_token::{OutOfMemory, Token, copy_items};
use std::alloc::Global;

/// The actors that have these trees. What other trees give is not said.
pub(crate) fn actors_of(
    alloc: Global,
    items: &[Token],
) -> Result<Option<Vec<ActorSpec>>, OutOfMemory>
    ensures { (specs : List ActorSpec) → All IsSpec specs → items.now ≡ map actor_token specs
        → IfOk result (λ found. MatchOption found ⊥ (λ actors. actors.items ≡ specs)) }
{
    let mut actors = Vec::with_capacity(alloc, items.len())?;
    for item in items {
        let Some(actor) = actor_of(alloc, item)? else {
            return Ok(None);
        };
        actors.push(actor)?;
    }
    Ok(Some(actors))
}

/// The actor that has this tree.
fn actor_of(alloc: Global, token: &Token) -> Result<Option<ActorSpec>, OutOfMemory>
    ensures { (spec : ActorSpec) → IsSpec spec → token.now ≡ actor_token spec → IfOk result (λ found. found ≡ Some spec) }
{
    let Token::List(parts) = token else {
        return Ok(None);
    };
    let parts = parts.as_slice();
    if parts.len() != 4 {
        return Ok(None);
    }
    spec_of(alloc, &parts[0], &parts[1], &parts[2])
}

/// The actor of this path, kind and arguments.
fn spec_of(
    alloc: Global,
    path: &Token,
    kind: &Token,
    args: &Token,
) -> Result<Option<ActorSpec>, OutOfMemory>
    ensures { (spec : ActorSpec) → path.now ≡ tree.Text spec.path → kind.now ≡ tree.Text (line_of spec.kind).name → args.now ≡ tree.List spec.args
        → IfOk result (λ found. found ≡ Some spec) }
{
    let (Token::Text(path), Token::Text(kind), Token::List(args)) = (path, kind, args) else {
        return Ok(None);
    };
    let Some(kind) = find(kind.as_str()) else {
        return Ok(None);
    };
    let path = path.copy(alloc)?;
    let args = copy_items(alloc, args)?;
    Ok(Some(ActorSpec { path, kind, args }))
}
