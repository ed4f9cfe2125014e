//! The one text of a token: its compact JSON.

ghost use Rattle.std.specs.Prelude.{◌≡◌, ◌≤◌, ◌↔◌, true, IfOk, OnOk, Ok, Some, IsTrue, length};
ghost use Rattle.cv_token.specs.Reading.{reading, tree_of};
ghost use Rattle.cv_token.specs.Shape.{depth, is_token};
ghost use Rattle.cv_token.specs.Spelling.{spelling};
ghost use Rattle.cv_token.specs.Bounds.{most_bytes, most_depth, most_json_depth};

use crate::token::{OutOfMemory, Token};
use crate::utf8::Text;
use crate::values::value_of;
use std::alloc::Global;

/// The compact JSON text of a token (RFC 8259): no space, and in a text the escapes `\"`, `\\`,
/// `\b`, `\f`, `\n`, `\r`, `\t`, and `\u00` with two lower-case digits for the others below 32.
pub fn text(alloc: Global, token: &Token) -> Result<Text, OutOfMemory>
    ensures spelled { IfOk result (λ t. t ≡ spelling token.now) }

    // The text is read as this token: by `read` within its bounds, by `read_tree` as far as JSON nests.
    ensures read_back { IfOk result (λ t. depth token.now ≤ most_depth → length t ≤ most_bytes
        → reading t ≡ Ok token.now) }
    ensures tree_back { IfOk result (λ t. depth token.now ≤ most_json_depth → tree_of t ≡ Some token.now) }
    ensures known { OnOk result (is_token token.now ≡ true) }
{
    let text = value_of(alloc, token)?.to_string(alloc)?;
    Ok(Text::from_string(text))
}

/// Whether the bytes are the text of the token.
pub fn spells(alloc: Global, token: &Token, bytes: &[u8]) -> Result<bool, OutOfMemory>
    ensures exact { IfOk result (λ yes. IsTrue yes ↔ (bytes.now ≡ spelling token.now)) }
    ensures known { OnOk result (is_token token.now ≡ true) }
{
    let text = text(alloc, token)?;
    Ok(text.as_str().as_bytes() == bytes)
}
