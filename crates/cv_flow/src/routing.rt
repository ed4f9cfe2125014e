//! The kinds that choose where a token comes from or goes to.

ghost use Rattle.std.specs.Prelude.{◌≡◌, [], ◌∷◌, pos, IfOk};
ghost use Rattle.cv_behave.specs.KindRow.{effect_of};
ghost use Rattle.cv_flow.specs.Rows.{alternate2, alternate3, dealternate2, join, select, switch, turn_is, valve};

use crate::passing::{as_it_is, pass};
use cv_behave::Effect;
use cv_behave::building::{copy_at, giving, giving_two, one_slot};
use cv_behave::values::is_set;
use cv_token::{Items, OutOfMemory, Token};
use std::alloc::Global;

/// The state in which it is that turn.
fn turn(alloc: Global, number: u8) -> Result<Items, OutOfMemory>
    ensures { IfOk result (λ state. state ≡ turn_is number) }
{
    one_slot(alloc, Token::Int(i64::from(number)))
}

/// `flow.Join`: the token of either inport.
pub(crate) fn joining(
    alloc: Global,
    args: &Items,
    state: &Items,
    action: u8,
    heads: &Items,
) -> Result<Effect, OutOfMemory>
    ensures { IfOk result (λ e. e ≡ effect_of join args.now state.now action heads.now) }
{
    pass(alloc, Items::new(alloc), heads, 0)
}

/// `flow.Alternate2`: two inports in turn.
pub(crate) fn alternating(
    alloc: Global,
    args: &Items,
    state: &Items,
    action: u8,
    heads: &Items,
) -> Result<Effect, OutOfMemory>
    ensures { IfOk result (λ e. e ≡ effect_of alternate2 args.now state.now action heads.now) }
{
    if action == 0 {
        pass(alloc, turn(alloc, 1)?, heads, 0)
    } else {
        pass(alloc, turn(alloc, 0)?, heads, 0)
    }
}

/// `flow.Alternate3`: three inports in turn.
pub(crate) fn going_round(
    alloc: Global,
    args: &Items,
    state: &Items,
    action: u8,
    heads: &Items,
) -> Result<Effect, OutOfMemory>
    ensures { IfOk result (λ e. e ≡ effect_of alternate3 args.now state.now action heads.now) }
{
    if action == 0 {
        pass(alloc, turn(alloc, 1)?, heads, 0)
    } else if action == 1 {
        pass(alloc, turn(alloc, 2)?, heads, 0)
    } else {
        pass(alloc, turn(alloc, 0)?, heads, 0)
    }
}

/// `flow.Dealternate2`: two outports in turn.
pub(crate) fn dealing(
    alloc: Global,
    args: &Items,
    state: &Items,
    action: u8,
    heads: &Items,
) -> Result<Effect, OutOfMemory>
    ensures { IfOk result (λ e. e ≡ effect_of dealternate2 args.now state.now action heads.now) }
{
    let token = copy_at(alloc, heads, 0)?;
    if action == 0 {
        giving_two(alloc, turn(alloc, 1)?, Some(token), None)
    } else {
        giving_two(alloc, turn(alloc, 0)?, None, Some(token))
    }
}

/// `flow.Select`: the outport for true, or the other.
pub(crate) fn selecting(
    alloc: Global,
    args: &Items,
    state: &Items,
    action: u8,
    heads: &Items,
) -> Result<Effect, OutOfMemory>
    ensures { IfOk result (λ e. e ≡ effect_of select args.now state.now action heads.now) }
{
    let token = copy_at(alloc, heads, 1)?;
    if action == 0 {
        giving_two(alloc, Items::new(alloc), Some(token), None)
    } else {
        giving_two(alloc, Items::new(alloc), None, Some(token))
    }
}

/// `flow.Switch`: the inport for true, or the other.
pub(crate) fn switching(
    alloc: Global,
    args: &Items,
    state: &Items,
    action: u8,
    heads: &Items,
) -> Result<Effect, OutOfMemory>
    ensures { IfOk result (λ e. e ≡ effect_of switch args.now state.now action heads.now) }
{
    pass(alloc, Items::new(alloc), heads, 1)
}

/// `flow.Valve`: tokens pass while the last of `open` was true.
pub(crate) fn gating(
    alloc: Global,
    args: &Items,
    state: &Items,
    action: u8,
    heads: &Items,
) -> Result<Effect, OutOfMemory>
    ensures { IfOk result (λ e. e ≡ effect_of valve args.now state.now action heads.now) }
{
    if action == 0 {
        giving(alloc, one_slot(alloc, Token::Bool(is_set(heads, 0)))?, None)
    } else if action == 1 {
        pass(alloc, as_it_is(alloc, state)?, heads, 0)
    } else {
        giving(alloc, as_it_is(alloc, state)?, None)
    }
}
