//! The JSON value of a token.

ghost use Rattle.std.specs.Prelude.{◌≡◌, ◌&&◌, true, IfOk, OnOk, map};
ghost use Rattle.serde_json.specs.View.{view, items_of, items_view, members_view};
ghost use Rattle.cv_token.specs.Forms.{data_of, on_values, members_from};
ghost use Rattle.cv_token.specs.Shape.{is_token, all_true, all_members, are_rising};

use crate::token::{Items, OutOfMemory, Pairs, Token};
use serde_json::{Map, Number, Value};
use std::alloc::Global;

#[cycle(value)]
pub(crate) fn value_of(alloc: Global, token: &Token) -> Result<Value, OutOfMemory>
    ensures value { IfOk result (λ v. view v ≡ data_of token.now) }
    ensures known { OnOk result (is_token token.now ≡ true) }
{
    match token {
        Token::Null => Ok(Value::Null),
        Token::Bool(truth) => Ok(Value::Bool(*truth)),
        Token::Int(number) => Ok(Value::Number(Number::from(*number))),
        Token::Text(text) => Ok(Value::String(String::from_str(alloc, text.as_str())?)),
        Token::List(items) => Ok(Value::Array(values_of(alloc, items)?)),
        Token::Dict(pairs) => Ok(Value::Object(members_of(alloc, pairs)?)),
    }
}

#[cycle(value)]
fn values_of(alloc: Global, items: &Items) -> Result<Vec<Value>, OutOfMemory>
    ensures value { IfOk result (λ v. items_view v.items ≡ items_of (map data_of items.now)) }
    ensures known { OnOk result (all_true (map is_token items.now) ≡ true) }
{
    let mut values = Vec::new(alloc);
    for item in items.as_slice() {
        values.push(value_of(alloc, item)?)?;
    }
    Ok(values)
}

#[cycle(value)]
fn members_of(alloc: Global, pairs: &Pairs) -> Result<Map<String, Value>, OutOfMemory>
    ensures value { IfOk result (λ m. members_view m.entries
        ≡ members_from (on_values data_of pairs.now)) }
    ensures known { OnOk result ((are_rising (on_values is_token pairs.now)
        && all_members (on_values is_token pairs.now)) ≡ true) }
{
    let mut members = Map::new(alloc);
    for pair in pairs.as_slice() {
        let name = String::from_str(alloc, pair.key.as_str())?;
        drop(members.insert(name, value_of(alloc, &pair.value)?)?);
    }
    Ok(members)
}
