//! Tokens and their JSON text.

ghost use Rattle.std.specs.Prelude.{◌≡◌, true, IfOk};
ghost use Rattle.cv_behave.specs.Values.{has_fit};
ghost use Rattle.cv_calc.specs.Values.{text_of, parsed_of, token_or_null, value_at, element_at, got_of};
ghost use Rattle.cv_token.specs.Reading.{reading};

use cv_behave::building::copy_at;
use cv_behave::values::fit;
use cv_token::{Items, OutOfMemory, Pairs, Token, TokenFault, read, text};
use std::alloc::{AllocError, Global};

/// The compact text of a token, or null where that does not fit.
pub(crate) fn text_token(alloc: Global, a: &Token) -> Result<Token, OutOfMemory>
    ensures { IfOk result (λ t. t ≡ text_of a.now) }
{
    let text = text(alloc, a)?;
    Ok(fit(Token::Text(text)))
}

/// The token of a JSON text, or null where it is none's.
#[tactic(auto, using(cv_behave::proofs::Fitting::from_bounds, cv_behave::proofs::Fitting::null_fits))]
fn read_or_null(alloc: Global, bytes: &[u8]) -> Result<Token, OutOfMemory>
    ensures value { IfOk result (λ t. t ≡ token_or_null (reading bytes.now)) }
    ensures fits { IfOk result (λ t. has_fit t ≡ true) }
{
    match read(alloc, bytes) {
        Ok(token) => Ok(token),
        Err(fault) => match fault {
            TokenFault::OutOfMemory => Err(AllocError),
            _ => Ok(Token::Null),
        },
    }
}

/// The token of a Text, or null where the Text is none's.
#[tactic(auto, using(cv_behave::proofs::Fitting::fitted_itself))]
pub(crate) fn parse(alloc: Global, a: &Token) -> Result<Token, OutOfMemory>
    ensures { IfOk result (λ t. t ≡ parsed_of a.now) }
{
    match a {
        Token::Text(text) => read_or_null(alloc, text.as_str().as_bytes()),
        _ => Ok(Token::Null),
    }
}

/// A copy of the value of a key, or null.
fn value_of_key(alloc: Global, key: &str, pairs: &Pairs) -> Result<Token, OutOfMemory>
    ensures { IfOk result (λ t. t ≡ value_at key.now pairs.now) }
{
    for pair in pairs.as_slice() {
        if key == pair.key.as_str() {
            return pair.value.copy(alloc);
        }
    }
    Ok(Token::Null)
}

/// A copy of the element at a place, or null.
fn element(alloc: Global, place: i64, items: &Items) -> Result<Token, OutOfMemory>
    ensures { IfOk result (λ t. t ≡ element_at place items.now) }
{
    if place < 0 {
        Ok(Token::Null)
    } else {
        copy_at(alloc, items, place as usize)
    }
}

/// The value of a Text key in a Dict, or the element at an Int place of a List.
pub(crate) fn get(alloc: Global, key: &Token, container: &Token) -> Result<Token, OutOfMemory>
    ensures { IfOk result (λ t. t ≡ got_of key.now container.now) }
{
    match (key, container) {
        (Token::Text(key), Token::Dict(pairs)) => value_of_key(alloc, key.as_str(), pairs),
        (Token::Int(place), Token::List(items)) => element(alloc, *place, items),
        _ => Ok(Token::Null),
    }
}
