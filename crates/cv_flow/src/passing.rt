//! Effects that many kinds share, and the kinds that pass some tokens and drop the others.

ghost use Rattle.std.specs.Prelude.{◌≡◌, [], ◌∷◌, Some, None, IfOk};
ghost use Rattle.cv_behave.specs.KindRow.{effect_of, leaves};
ghost use Rattle.cv_behave.specs.Values.{fallen, item_of};
ghost use Rattle.cv_flow.specs.Rows.{change, delay, every, init, skip, take};

use cv_behave::Effect;
use cv_behave::building::{copy_at, giving, one_slot, two_slots};
use cv_behave::values::{count_down, next_number};
use cv_token::{Items, OutOfMemory, Token};
use std::alloc::Global;

/// The token at that place goes to the one outport.
pub(crate) fn pass(
    alloc: Global,
    state: Items,
    from: &Items,
    at: usize,
) -> Result<Effect, OutOfMemory>
    ensures { IfOk result (λ e. e ≡ leaves state (Some (item_of from.now at) ∷ [])) }
{
    let token = copy_at(alloc, from, at)?;
    giving(alloc, state, Some(token))
}

/// The state of one slot as it is.
pub(crate) fn as_it_is(alloc: Global, state: &Items) -> Result<Items, OutOfMemory>
    ensures { IfOk result (λ kept. kept ≡ item_of state.now 0 ∷ []) }
{
    let slot = copy_at(alloc, state, 0)?;
    one_slot(alloc, slot)
}

/// The state of one slot, in which a positive number falls by one.
pub(crate) fn one_less(alloc: Global, state: &Items) -> Result<Items, OutOfMemory>
    ensures { IfOk result (λ kept. kept ≡ fallen (item_of state.now 0) ∷ []) }
{
    let slot = count_down(alloc, state, 0)?;
    one_slot(alloc, slot)
}

/// `flow.Take`: the first n tokens pass.
pub(crate) fn taking(
    alloc: Global,
    args: &Items,
    state: &Items,
    action: u8,
    heads: &Items,
) -> Result<Effect, OutOfMemory>
    ensures { IfOk result (λ e. e ≡ effect_of take args.now state.now action heads.now) }
{
    if action == 0 {
        pass(alloc, one_less(alloc, state)?, heads, 0)
    } else {
        giving(alloc, as_it_is(alloc, state)?, None)
    }
}

/// `flow.Skip`: the first n tokens are dropped.
pub(crate) fn skipping(
    alloc: Global,
    args: &Items,
    state: &Items,
    action: u8,
    heads: &Items,
) -> Result<Effect, OutOfMemory>
    ensures { IfOk result (λ e. e ≡ effect_of skip args.now state.now action heads.now) }
{
    if action == 0 {
        giving(alloc, one_less(alloc, state)?, None)
    } else {
        pass(alloc, as_it_is(alloc, state)?, heads, 0)
    }
}

/// `flow.Every`: each n-th token passes.
pub(crate) fn spacing(
    alloc: Global,
    args: &Items,
    state: &Items,
    action: u8,
    heads: &Items,
) -> Result<Effect, OutOfMemory>
    ensures { IfOk result (λ e. e ≡ effect_of every args.now state.now action heads.now) }
{
    if action == 0 {
        pass(alloc, one_slot(alloc, Token::Int(0))?, heads, 0)
    } else {
        giving(alloc, one_slot(alloc, next_number(state, 0))?, None)
    }
}

/// `flow.Change`: a token that equals the one before it is dropped.
pub(crate) fn changing(
    alloc: Global,
    args: &Items,
    state: &Items,
    action: u8,
    heads: &Items,
) -> Result<Effect, OutOfMemory>
    ensures { IfOk result (λ e. e ≡ effect_of change args.now state.now action heads.now) }
{
    if action == 0 {
        let last = copy_at(alloc, heads, 0)?;
        pass(alloc, two_slots(alloc, Token::Bool(true), last)?, heads, 0)
    } else {
        let seen = copy_at(alloc, state, 0)?;
        let last = copy_at(alloc, state, 1)?;
        giving(alloc, two_slots(alloc, seen, last)?, None)
    }
}

/// `flow.Init`: its argument, then the tokens.
pub(crate) fn beginning(
    alloc: Global,
    args: &Items,
    state: &Items,
    action: u8,
    heads: &Items,
) -> Result<Effect, OutOfMemory>
    ensures { IfOk result (λ e. e ≡ effect_of init args.now state.now action heads.now) }
{
    if action == 0 {
        pass(alloc, one_slot(alloc, Token::Bool(true))?, args, 0)
    } else {
        pass(alloc, as_it_is(alloc, state)?, heads, 0)
    }
}

/// `std.Delay`: a token is kept, and given after the delay.
pub(crate) fn delaying(
    alloc: Global,
    args: &Items,
    state: &Items,
    action: u8,
    heads: &Items,
) -> Result<Effect, OutOfMemory>
    ensures { IfOk result (λ e. e ≡ effect_of delay args.now state.now action heads.now) }
{
    if action == 0 {
        let empty = two_slots(alloc, Token::Bool(false), Token::Null)?;
        pass(alloc, empty, state, 1)
    } else {
        let kept = copy_at(alloc, heads, 0)?;
        giving(alloc, two_slots(alloc, Token::Bool(true), kept)?, None)
    }
}
