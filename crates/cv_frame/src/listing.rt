//! Lists of parts that are read alike.

ghost use Rattle.std.specs.Prelude.{◌≡◌, ◌≢◌, List, map, All, IfOk, MatchOption};
ghost use Rattle.cv_token.specs.declared.token.Token.{Token};
ghost use Rattle.cv_token.specs.declared.token.Token.TheVariants as tree;
ghost use Rattle.cv_token.specs.Spells.{Spells};

use cv_token::{OutOfMemory, Token};
use std::alloc::Global;

/// What is read from a token tree: `Travels` says which values are, `shape` the tree of each.
pub(crate) trait Part: Sized + Drop {
    ghost Travels: { Self → Type 0 };

    ghost shape: { Self → Token };

    /// The value that has this tree; None where no value that travels has it.
    fn read(alloc: Global, token: &Token) -> Result<Option<Self>, OutOfMemory>
        ensures { IfOk result (Spells Travels shape token.now) };
}

/// The values whose trees a list has; None where it is no list of such trees.
pub(crate) fn all_of<P: Part>(alloc: Global, token: &Token) -> Result<Option<Vec<P>>, OutOfMemory>
    ensures { IfOk result (λ found. MatchOption found
        ((xs : List P) → All P.Travels xs → token.now ≢ tree.List (map P.shape xs))
        (λ v. All P.Travels v.items × (token.now ≡ tree.List (map P.shape v.items)))) }
{
    let Token::List(items) = token else {
        return Ok(None);
    };
    let mut found = Vec::with_capacity(alloc, items.len())?;
    for item in items.as_slice() {
        let Some(part) = P::read(alloc, item)? else {
            return Ok(None);
        };
        found.push(part)?;
    }
    Ok(Some(found))
}
