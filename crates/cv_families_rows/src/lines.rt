//! What a line of a row asks for, and what comes of it.

use cv_behave::{Behave, Effect};
use cv_token::{Items, Token, read_tree, text};
use std::alloc::Global;
use std::test::Fail;

/// The line, with as many letters as each mark like `@3;` says in its place.
pub(crate) fn expanded(alloc: Global, line: &str) -> Result<String, Fail> {
    let mut whole = String::new(alloc);
    let mut is_first = true;
    for piece in line.split('@') {
        if is_first {
            whole.push_str(piece)?;
            is_first = false;
        } else {
            let (count, more) = piece.split_once(';').ok_or("a count")?;
            for _i in 0..count.parse::<u32>().ok().ok_or("a number")? {
                whole.push_str("a")?;
            }
            whole.push_str(more)?;
        }
    }
    Ok(whole)
}

/// The list that is written in JSON.
pub(crate) fn list(alloc: Global, written: &str) -> Result<Items, Fail> {
    match read_tree(alloc, written.as_bytes())? {
        Some(Token::List(items)) => Ok(items),
        _ => Err(Fail::from("a list")),
    }
}

/// The state afterwards and what each outport is given, `-` for nothing.
fn told(alloc: Global, effect: Effect) -> Result<String, Fail> {
    let Effect { state, out } = effect;
    let state = text(alloc, &Token::List(state))?;
    let mut told = String::from_str(alloc, state.as_str())?;
    for given in out.as_slice() {
        told.push_str(" ")?;
        match given {
            Some(token) => told.push_str(text(alloc, token)?.as_str())?,
            None => told.push_str("-")?,
        }
    }
    Ok(told)
}

/// What the action does, or `no` where its guard does not hold; the line has arguments, state, action and heads.
pub(crate) fn fired<K: Behave>(alloc: Global, kind: &K, line: &str) -> Result<String, Fail> {
    let (args, more) = line.split_once(' ').ok_or("arguments")?;
    let (state, more) = more.split_once(' ').ok_or("a state")?;
    let (action, heads) = more.split_once(' ').ok_or("an action")?;
    let args = list(alloc, args)?;
    let state = list(alloc, state)?;
    let heads = list(alloc, heads)?;
    let action = action.parse::<u8>().ok().ok_or("a number")?;
    if !kind.guard(&args, &state, action, heads.get(0)) {
        return Ok(String::from_str(alloc, "no")?);
    }
    told(alloc, kind.effect(alloc, &args, &state, action, &heads)?)
}
