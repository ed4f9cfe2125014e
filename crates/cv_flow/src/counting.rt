//! The sources, and the kinds that count.

ghost use Rattle.std.specs.Prelude.{◌≡◌, [], ◌∷◌, IfOk};
ghost use Rattle.cv_behave.specs.KindRow.{effect_of};
ghost use Rattle.cv_behave.specs.Values.{grown, item_of, list_of, sum_of};
ghost use Rattle.cv_flow.specs.Rows.{constant, count_timer, counter, sequence, sum, tally};
ghost use Rattle.cv_flow.specs.Values.{element};

use crate::passing::{one_less, pass};
use cv_behave::Effect;
use cv_behave::building::{copy_at, giving, item, one_slot, two_slots};
use cv_behave::values::{add, count_down, next_number};
use cv_token::{Items, OutOfMemory, Token};
use std::alloc::Global;

/// `std.Constant`: its argument, n times or for ever.
pub(crate) fn repeating(
    alloc: Global,
    args: &Items,
    state: &Items,
    heads: &Items,
) -> Result<Effect, OutOfMemory>
    ensures { IfOk result (λ e. e ≡ effect_of constant args.now state.now 0 heads.now) }
{
    pass(alloc, one_less(alloc, state)?, args, 0)
}

/// `std.Counter`: the numbers from its argument on.
pub(crate) fn counting(
    alloc: Global,
    args: &Items,
    state: &Items,
    heads: &Items,
) -> Result<Effect, OutOfMemory>
    ensures { IfOk result (λ e. e ≡ effect_of counter args.now state.now 0 heads.now) }
{
    pass(alloc, one_slot(alloc, next_number(state, 0))?, state, 0)
}

/// `std.CountTimer`: the same in time, n times or for ever.
pub(crate) fn ticking(
    alloc: Global,
    args: &Items,
    state: &Items,
    heads: &Items,
) -> Result<Effect, OutOfMemory>
    ensures { IfOk result (λ e. e ≡ effect_of count_timer args.now state.now 0 heads.now) }
{
    let left = count_down(alloc, state, 1)?;
    pass(
        alloc,
        two_slots(alloc, next_number(state, 0), left)?,
        state,
        0,
    )
}

/// A copy of a List's element at a place, or null.
fn element_of(alloc: Global, place: &Token, list: &Token) -> Result<Token, OutOfMemory>
    ensures { IfOk result (λ t. t ≡ element place.now (list_of list.now)) }
{
    match (place, list) {
        (Token::Int(i), Token::List(items)) => if *i < 0 {
            Ok(Token::Null)
        } else {
            copy_at(alloc, items, *i as usize)
        },
        _ => Ok(Token::Null),
    }
}

/// `std.Sequence`: the elements of its argument.
pub(crate) fn enumerating(
    alloc: Global,
    args: &Items,
    state: &Items,
    heads: &Items,
) -> Result<Effect, OutOfMemory>
    ensures { IfOk result (λ e. e ≡ effect_of sequence args.now state.now 0 heads.now) }
{
    let null = Token::Null;
    let token = element_of(alloc, item(state, 0, &null), item(args, 0, &null))?;
    giving(alloc, one_slot(alloc, next_number(state, 0))?, Some(token))
}

/// The sum of two Ints, or null where there is none of 64 bits.
fn total(a: &Token, b: &Token) -> Token
    ensures { result ≡ sum_of a.now b.now }
{
    match (a, b) {
        (Token::Int(x), Token::Int(y)) => add(*x, *y),
        _ => Token::Null,
    }
}

/// The state of one slot: the new value, or the old one where the new is null.
fn grown_slot(alloc: Global, new: &Token, old: &Items) -> Result<Items, OutOfMemory>
    ensures { IfOk result (λ state. state ≡ grown new.now (item_of old.now 0) ∷ []) }
{
    let slot = match new {
        Token::Null => copy_at(alloc, old, 0)?,
        _ => new.copy(alloc)?,
    };
    one_slot(alloc, slot)
}

/// `std.Sum`: what came so far, added up.
pub(crate) fn summing(
    alloc: Global,
    args: &Items,
    state: &Items,
    heads: &Items,
) -> Result<Effect, OutOfMemory>
    ensures { IfOk result (λ e. e ≡ effect_of sum args.now state.now 0 heads.now) }
{
    let null = Token::Null;
    let new = total(item(state, 0, &null), item(heads, 0, &null));
    let kept = grown_slot(alloc, &new, state)?;
    giving(alloc, kept, Some(new))
}

/// `std.Tally`: how many tokens came.
pub(crate) fn tallying(
    alloc: Global,
    args: &Items,
    state: &Items,
    heads: &Items,
) -> Result<Effect, OutOfMemory>
    ensures { IfOk result (λ e. e ≡ effect_of tally args.now state.now 0 heads.now) }
{
    let new = next_number(state, 0);
    let kept = grown_slot(alloc, &new, state)?;
    giving(alloc, kept, Some(new))
}
