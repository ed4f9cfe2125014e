//! How deep lists and dictionaries nest, without memory.

ghost use Rattle.std.specs.Prelude.{◌≤◌, ◌↔◌, IsTrue, map};
ghost use Rattle.cv_token.specs.Forms.{on_values};
ghost use Rattle.cv_token.specs.Shape.{depth as depth_of, greatest, greatest_value};

use crate::token::{Items, Pairs, Token};

/// Whether lists and dictionaries nest at most `most` deep.
#[cycle(nests)]
pub fn nests_within(token: &Token, most: u32) -> bool
    ensures { IsTrue result ↔ (depth_of token.now ≤ most) }
{
    match token {
        Token::List(items) => most > 0 && items_nest_within(items, most - 1),
        Token::Dict(pairs) => most > 0 && pairs_nest_within(pairs, most - 1),
        _ => true,
    }
}

#[cycle(nests)]
fn items_nest_within(items: &Items, most: u32) -> bool
    ensures { IsTrue result ↔ (greatest (map depth_of items.now) ≤ most) }
{
    for item in items.as_slice() {
        if !nests_within(item, most) {
            return false;
        }
    }
    true
}

#[cycle(nests)]
fn pairs_nest_within(pairs: &Pairs, most: u32) -> bool
    ensures { IsTrue result ↔ (greatest_value (on_values depth_of pairs.now) ≤ most) }
{
    for pair in pairs.as_slice() {
        if !nests_within(&pair.value, most) {
            return false;
        }
    }
    true
}
