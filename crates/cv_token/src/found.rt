//! The token of a JSON value.

ghost use Rattle.std.specs.Prelude.{◌≤◌, ◌↔◌, IsTrue};
ghost use Rattle.serde_json.specs.Data.{depth as data_depth, items_depth, members_depth};
ghost use Rattle.serde_json.specs.View.{view, items_view, members_view};
ghost use Rattle.cv_token.specs.Forms.{token_of, tokens_of, pairs_of};
ghost use Rattle.cv_token.specs.Taken.{Converts};

use crate::fault::TokenFault;
use crate::pairs::{Pair, PairsOf};
use crate::token::{Items, Pairs, Token};
use crate::utf8::Text;
use serde_json::{Map, Value};
use std::alloc::Global;

/// Whether arrays and objects nest at most `most` deep.
#[cycle(within)]
pub(crate) fn value_within(value: &Value, most: u32) -> bool
    ensures { IsTrue result ↔ (data_depth (view value.now) ≤ most) }
{
    match value {
        Value::Array(values) => most > 0 && values_within(values, most - 1),
        Value::Object(members) => most > 0 && members_within(members, most - 1),
        _ => true,
    }
}

#[cycle(within)]
fn values_within(values: &Vec<Value>, most: u32) -> bool
    ensures { IsTrue result ↔ (items_depth (items_view values.now.items) ≤ most) }
{
    for value in values {
        if !value_within(value, most) {
            return false;
        }
    }
    true
}

#[cycle(within)]
fn members_within(members: &Map<String, Value>, most: u32) -> bool
    ensures { IsTrue result ↔ (members_depth (members_view members.now.entries) ≤ most) }
{
    for (_name, value) in members.iter() {
        if !value_within(value, most) {
            return false;
        }
    }
    true
}

/// The token of a value, or `BadNumber` where a number of it is no integer of 64 signed bits.
#[cycle(found)]
pub fn token_from(alloc: Global, value: &Value) -> Result<Token, TokenFault>
    ensures { Converts result (token_of (view value.now)) }
{
    match value {
        Value::Null => Ok(Token::Null),
        Value::Bool(truth) => Ok(Token::Bool(*truth)),
        Value::Number(number) => match number.as_i64() {
            Some(integer) => Ok(Token::Int(integer)),
            None => Err(TokenFault::BadNumber),
        },
        Value::String(string) => {
            let copy = String::from_str(alloc, string.as_str())?;
            Ok(Token::Text(Text::from_string(copy)))
        }
        Value::Array(values) => Ok(Token::List(items_from(alloc, values)?)),
        Value::Object(members) => Ok(Token::Dict(pairs_from(alloc, members)?)),
    }
}

#[cycle(found)]
fn items_from(alloc: Global, values: &Vec<Value>) -> Result<Items, TokenFault>
    ensures { Converts result (tokens_of (items_view values.now.items)) }
{
    let mut items = Items::new(alloc);
    for value in values {
        items.push(token_from(alloc, value)?)?;
    }
    Ok(items)
}

#[cycle(found)]
fn pairs_from(alloc: Global, members: &Map<String, Value>) -> Result<Pairs, TokenFault>
    ensures { Converts result (pairs_of (members_view members.now.entries)) }
{
    let mut pairs = sqlite_items::Items::new(alloc);
    for (name, value) in members.iter() {
        let key = Text::from_string(String::from_str(alloc, name.as_str())?);
        let value = token_from(alloc, value)?;
        pairs.push(Pair { key, value })?;
    }
    Ok(PairsOf::from_items(pairs))
}
