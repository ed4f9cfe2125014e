//! The kinds that make lists and take them apart.

ghost use Rattle.std.specs.Prelude.{◌≡◌, [], ◌∷◌, IfOk, drop};
ghost use Rattle.cv_token.specs.declared.token.Token.TheVariants as token;
ghost use Rattle.cv_behave.specs.KindRow.{effect_of};
ghost use Rattle.cv_behave.specs.Values.{item_of, list_of};
ghost use Rattle.cv_flow.specs.Rows.{batch, unbatch, unzip, zip};
ghost use Rattle.cv_flow.specs.Values.{alone, elements, first_of_two, second_of_two, taken_apart, without_first};

use cv_behave::Effect;
use cv_behave::building::{copy_at, giving, giving_two, item, one_slot, two_slots};
use cv_behave::values::fit;
use cv_token::{Items, OutOfMemory, Token, copy_items, fits};
use std::alloc::Global;

/// `flow.Batch`: the list of the tokens.
pub(crate) fn batching(
    alloc: Global,
    args: &Items,
    state: &Items,
    heads: &Items,
) -> Result<Effect, OutOfMemory>
    ensures { IfOk result (λ e. e ≡ effect_of batch args.now state.now 0 heads.now) }
{
    let list = fit(Token::List(copy_items(alloc, heads)?));
    giving(alloc, Items::new(alloc), Some(list))
}

/// `flow.Zip`: the list of two tokens.
pub(crate) fn zipping(
    alloc: Global,
    args: &Items,
    state: &Items,
    heads: &Items,
) -> Result<Effect, OutOfMemory>
    ensures { IfOk result (λ e. e ≡ effect_of zip args.now state.now 0 heads.now) }
{
    let a = copy_at(alloc, heads, 0)?;
    let b = copy_at(alloc, heads, 1)?;
    let pair = fit(Token::List(two_slots(alloc, a, b)?));
    giving(alloc, Items::new(alloc), Some(pair))
}

/// The elements of a list of two, or null and null.
fn halves(alloc: Global, pair: &Token) -> Result<(Token, Token), OutOfMemory>
    ensures { IfOk result (λ two. two
        ≡ (first_of_two (list_of pair.now), second_of_two (list_of pair.now))) }
{
    match pair {
        Token::List(items) => match items.as_slice() {
            [a, b] => Ok((a.copy(alloc)?, b.copy(alloc)?)),
            _ => Ok((Token::Null, Token::Null)),
        },
        _ => Ok((Token::Null, Token::Null)),
    }
}

/// `flow.Unzip`: the two elements of a pair.
pub(crate) fn unzipping(
    alloc: Global,
    args: &Items,
    state: &Items,
    heads: &Items,
) -> Result<Effect, OutOfMemory>
    ensures { IfOk result (λ e. e ≡ effect_of unzip args.now state.now 0 heads.now) }
{
    let null = Token::Null;
    let (a, b) = halves(alloc, item(heads, 0, &null))?;
    giving_two(alloc, Items::new(alloc), Some(a), Some(b))
}

/// A list of the token alone, or of null where that does not fit.
fn list_alone(alloc: Global, x: &Token) -> Result<Token, OutOfMemory>
    ensures { IfOk result (λ list. list ≡ token.List (alone x.now)) }
{
    let list = Token::List(one_slot(alloc, x.copy(alloc)?)?);
    if fits(&list) {
        Ok(list)
    } else {
        Ok(Token::List(one_slot(alloc, Token::Null)?))
    }
}

/// The list to give out: the token where it is a List.
fn list_from(alloc: Global, x: &Token) -> Result<Token, OutOfMemory>
    ensures { IfOk result (λ list. list ≡ token.List (taken_apart x.now (list_of x.now))) }
{
    match x {
        Token::List(_items) => x.copy(alloc),
        _ => list_alone(alloc, x),
    }
}

/// The items but the first.
fn without_one(alloc: Global, items: &Items) -> Result<Items, OutOfMemory>
    ensures { IfOk result (λ rest. rest ≡ without_first items.now) }
{
    let mut rest = copy_items(alloc, items)?;
    if !rest.is_empty() {
        let _first = rest.remove(0);
    }
    Ok(rest)
}

/// What is left of a list without its first element.
fn tail(alloc: Global, list: &Token) -> Result<Token, OutOfMemory>
    ensures { IfOk result (λ rest. rest ≡ token.List (without_first (elements (list_of list.now)))) }
{
    match list {
        Token::List(items) => Ok(Token::List(without_one(alloc, items)?)),
        _ => Ok(Token::List(Items::new(alloc))),
    }
}

/// The first element of a list, or null.
fn front(alloc: Global, list: &Token) -> Result<Token, OutOfMemory>
    ensures { IfOk result (λ t. t ≡ item_of (elements (list_of list.now)) 0) }
{
    match list {
        Token::List(items) => copy_at(alloc, items, 0),
        _ => Ok(Token::Null),
    }
}

/// `flow.Unbatch`: the elements of the lists, one by one.
pub(crate) fn unbatching(
    alloc: Global,
    args: &Items,
    state: &Items,
    action: u8,
    heads: &Items,
) -> Result<Effect, OutOfMemory>
    ensures { IfOk result (λ e. e ≡ effect_of unbatch args.now state.now action heads.now) }
{
    let null = Token::Null;
    if action == 0 {
        let rest = item(state, 0, &null);
        let first = front(alloc, rest)?;
        giving(alloc, one_slot(alloc, tail(alloc, rest)?)?, Some(first))
    } else {
        let rest = list_from(alloc, item(heads, 0, &null))?;
        giving(alloc, one_slot(alloc, rest)?, None)
    }
}
