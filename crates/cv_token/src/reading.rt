//! Reading a token from JSON.

ghost use Rattle.std.specs.Prelude.{◌≡◌, ◌≤◌, nat_le, if◌then◌else◌, Ok, Err, Some, IfOk, OnOk, IfSome};
ghost use Rattle.serde_json.specs.Data.{depth as data_depth};
ghost use Rattle.serde_json.specs.View.{view};
ghost use Rattle.cv_token.specs.declared.token.Token.{Token};
ghost use Rattle.cv_token.specs.Bounds.{Fits, most_depth, most_json_depth};
ghost use Rattle.cv_token.specs.Reading.{Answers, json_of, reading, short_token, tree_of};
ghost use Rattle.cv_token.specs.Shape.{depth};
ghost use Rattle.cv_token.specs.Spelling.{spelling};
ghost use Rattle.cv_token.specs.Spells.{IsTree, Spells};
ghost use Rattle.cv_token.specs.Taken.{Parses, Reads};

use crate::fault::TokenFault;
use crate::fitting::{MOST_DEPTH, is_short};
use crate::found::{token_from, value_within};
use crate::token::{OutOfMemory, Token};
use crate::writing::spells;
use serde_json::{Category, Value};
use std::alloc::{AllocError, Global};

/// The JSON value of the bytes.
fn parse(alloc: Global, bytes: &[u8]) -> Result<Value, TokenFault>
    ensures value { Parses result (json_of bytes.now) }
    ensures nests { IfOk result (λ v. data_depth (view v) ≤ most_json_depth) }
{
    match Value::from_slice(alloc, bytes) {
        Ok(value) => Ok(value),
        Err(error) => match error.classify() {
            Category::Memory => Err(TokenFault::OutOfMemory),
            _ => Err(TokenFault::NotJson),
        },
    }
}

/// Refuses what nests over 16 deep. No memory is taken, so want of it is no answer.
fn check_depth(value: &Value) -> Result<(), TokenFault>
    ensures exact { result ≡ (if nat_le (data_depth (view value.now)) most_depth then Ok tt else Err TokenFault.TooDeep) }
    ensures shallow { OnOk result (data_depth (view value.now) ≤ most_depth) }
{
    if !value_within(value, MOST_DEPTH) {
        return Err(TokenFault::TooDeep);
    }
    Ok(())
}

/// Refuses what has over 1,024 bytes as text. No memory is taken, so want of it is no answer.
fn check_size(token: Token) -> Result<Token, TokenFault>
    ensures exact { result ≡ short_token token }
    ensures within { depth token ≤ most_depth → IfOk result Fits }
{
    if !is_short(&token) {
        return Err(TokenFault::TooLarge);
    }
    Ok(token)
}

fn read_within(alloc: Global, bytes: &[u8]) -> Result<Token, TokenFault>
    ensures exact { Answers result (reading bytes.now) }
    ensures within { IfOk result Fits }
{
    let value = parse(alloc, bytes)?;
    check_depth(&value)?;
    let token = token_from(alloc, &value)?;
    check_size(token)
}

/// The token of a JSON text. Of equal keys the last counts. Of several faults the first of
/// `TokenFault`'s order is told; they are those of the value that is read, so a member that a later
/// equal key replaces has none.
pub fn read(alloc: Global, bytes: &[u8]) -> Result<Token, TokenFault>
    ensures exact { Answers result (reading bytes.now) }
    ensures within { IfOk result Fits }

    // A token that fits is read from its text.
    ensures again { (token : Token) → Fits token → bytes.now ≡ spelling token
        → Answers result (Ok token) }
{
    read_within(alloc, bytes)
}

fn tree(alloc: Global, bytes: &[u8]) -> Result<Token, TokenFault>
    ensures exact { Reads result (tree_of bytes.now) }
    ensures nests { IfOk result (λ t. depth t ≤ most_json_depth) }
{
    let value = parse(alloc, bytes)?;
    token_from(alloc, &value)
}

/// The token of a JSON text without the bounds on depth and size; `None` where the bytes are no
/// JSON, or a number is no integer of 64 signed bits.
pub fn read_tree(alloc: Global, bytes: &[u8]) -> Result<Option<Token>, OutOfMemory>
    ensures exact { IfOk result (λ tree. tree ≡ tree_of bytes.now) }

    // A token is read from its text as far as JSON nests.
    ensures again { (token : Token) → IsTree token → bytes.now ≡ spelling token
        → IfOk result (λ tree. tree ≡ Some token) }
    ensures nests { IfOk result (λ tree. IfSome tree (λ token. depth token ≤ most_json_depth)) }
{
    match tree(alloc, bytes) {
        Ok(token) => Ok(Some(token)),
        Err(fault) => match fault {
            TokenFault::OutOfMemory => Err(AllocError),
            _ => Ok(None),
        },
    }
}

/// The token whose one text the bytes are; `None` where they are no token's text.
pub fn read_spelled(alloc: Global, bytes: &[u8]) -> Result<Option<Token>, OutOfMemory>
    ensures { IfOk result (Spells IsTree spelling bytes.now) }
{
    let Some(token) = read_tree(alloc, bytes)? else {
        return Ok(None);
    };
    if spells(alloc, &token, bytes)? {
        Ok(Some(token))
    } else {
        Ok(None)
    }
}
