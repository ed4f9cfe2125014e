//! The attributes of a node, out of their tree.

ghost use Rattle.std.specs.Prelude.{◌≡◌, IfOk};
ghost use Rattle.cv_token.specs.Spells.{Spells};
ghost use Rattle.cv_entry.specs.Trees.{attr_member, attrs_tree};
ghost use Rattle.cv_entry.specs.Values.{AreAttrs, IsAttr};

use cv_rules::{Attrs, is_key};
use cv_token::{OutOfMemory, Pair, Text, Token};
use std::alloc::Global;

/// An attribute.
fn attr_of(alloc: Global, pair: &Pair<Token>) -> Result<Option<Pair<Text>>, OutOfMemory>
    ensures { IfOk result (Spells IsAttr attr_member pair.now) }
{
    let Token::Text(value) = &pair.value else {
        return Ok(None);
    };
    let key = pair.key.as_str();
    if !is_key(key) {
        return Ok(None);
    }
    let key = Text::from_string(String::from_str(alloc, key)?);
    let value = Text::from_string(String::from_str(alloc, value.as_str())?);
    Ok(Some(Pair { key, value }))
}

/// Attributes.
pub(crate) fn attrs_of(alloc: Global, token: &Token) -> Result<Option<Attrs>, OutOfMemory>
    ensures { IfOk result (Spells AreAttrs attrs_tree token.now) }
{
    let Token::Dict(pairs) = token else {
        return Ok(None);
    };
    let mut attrs = Attrs::new(alloc);
    for pair in pairs.as_slice() {
        let Some(attr) = attr_of(alloc, pair)? else {
            return Ok(None);
        };
        attrs.push(attr)?;
    }
    Ok(Some(attrs))
}
