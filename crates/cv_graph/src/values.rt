//! The token that a literal stands for.

ghost use Rattle.std.specs.Prelude.{◌≡◌, IfOk, map};
ghost use Rattle.serde_json.specs.Data.{no_members};
ghost use Rattle.serde_json.specs.View.{view, items_of, items_view, members_view};
ghost use Rattle.cv_token.specs.Forms.{on_values};
ghost use Rattle.cv_graph.specs.Values.{data_of, put_all, literal_token};

use cv_syntax::{Literal, Literals, Pairs};
use cv_token::{OutOfMemory, Token, TokenFault, token_from};
use serde_json::{Map, Number, Value};
use std::alloc::{AllocError, Global};

/// The token of a literal; None where it stands for none.
pub fn token_of(alloc: Global, literal: &Literal) -> Result<Option<Token>, OutOfMemory>
    ensures { IfOk result (λ found. found ≡ literal_token literal.now) }
{
    let value = value_of(alloc, literal)?;
    match token_from(alloc, &value) {
        Ok(token) => Ok(Some(token)),
        Err(TokenFault::OutOfMemory) => Err(AllocError),
        Err(_) => Ok(None),
    }
}

/// The JSON value of a literal; of equal keys the last counts.
#[cycle(value)]
fn value_of(alloc: Global, literal: &Literal) -> Result<Value, OutOfMemory>
    ensures { IfOk result (λ v. view v ≡ data_of literal.now) }
{
    match literal {
        Literal::Null => Ok(Value::Null),
        Literal::Bool(truth) => Ok(Value::Bool(*truth)),
        Literal::Int(number) => Ok(Value::Number(Number::from(*number))),
        Literal::Text(text) => Ok(Value::String(String::from_str(alloc, text.as_str())?)),
        Literal::List(literals) => Ok(Value::Array(values_of(alloc, literals)?)),
        Literal::Dict(pairs) => Ok(Value::Object(members_of(alloc, pairs)?)),
    }
}

#[cycle(value)]
fn values_of(alloc: Global, literals: &Literals) -> Result<Vec<Value>, OutOfMemory>
    ensures { IfOk result (λ v. items_view v.items ≡ items_of (map data_of literals.now)) }
{
    let mut values = Vec::new(alloc);
    for literal in literals.as_slice() {
        values.push(value_of(alloc, literal)?)?;
    }
    Ok(values)
}

#[cycle(value)]
fn members_of(alloc: Global, pairs: &Pairs) -> Result<Map<String, Value>, OutOfMemory>
    ensures { IfOk result (λ m. members_view m.entries ≡ put_all (on_values data_of pairs.now) no_members) }
{
    let mut members = Map::new(alloc);
    for pair in pairs.as_slice() {
        let name = String::from_str(alloc, pair.key.as_str())?;
        drop(members.insert(name, value_of(alloc, &pair.value)?)?);
    }
    Ok(members)
}
