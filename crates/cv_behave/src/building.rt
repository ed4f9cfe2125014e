//! Lists of slots and of given tokens.

ghost use Rattle.std.specs.Prelude.{◌≡◌, [], ◌∷◌, Some, None, IfOk};
ghost use Rattle.cv_token.specs.declared.token.Token.TheVariants as token;
ghost use Rattle.cv_behave.specs.KindRow.{leaves};
ghost use Rattle.cv_behave.specs.Values.{item_of};

use crate::behave::{Effect, Outs};
use cv_token::{Items, OutOfMemory, Token};
use std::alloc::Global;

/// A token equal to the one at that place, or null where there is none. The only error is want of memory.
pub fn copy_at(alloc: Global, items: &Items, at: usize) -> Result<Token, OutOfMemory>
    ensures { IfOk result (λ t. t ≡ item_of items.now at) }
{
    match items.get(at) {
        Some(token) => token.copy(alloc),
        None => Ok(Token::Null),
    }
}

/// A state of one slot. The only error is want of memory.
pub fn one_slot(alloc: Global, slot: Token) -> Result<Items, OutOfMemory>
    ensures { IfOk result (λ state. state ≡ slot ∷ []) }
{
    let mut state = Items::new(alloc);
    state.push(slot)?;
    Ok(state)
}

/// A state of two slots. The only error is want of memory.
pub fn two_slots(alloc: Global, first: Token, second: Token) -> Result<Items, OutOfMemory>
    ensures { IfOk result (λ state. state ≡ first ∷ second ∷ []) }
{
    let mut state = Items::new(alloc);
    state.push(first)?;
    state.push(second)?;
    Ok(state)
}

/// This state, and nothing given, where there is no outport.
pub fn silent(alloc: Global, state: Items) -> Effect
    ensures { result ≡ leaves state [] }
{
    Effect {
        state,
        out: Outs::new(alloc),
    }
}

/// This state, and what the one outport is given. The only error is want of memory.
pub fn giving(alloc: Global, state: Items, token: Option<Token>) -> Result<Effect, OutOfMemory>
    ensures { IfOk result (λ e. e ≡ leaves state (token ∷ [])) }
{
    let mut out = Outs::new(alloc);
    out.push(token)?;
    Ok(Effect { state, out })
}

/// This state, and what each of two outports is given. The only error is want of memory.
pub fn giving_two(
    alloc: Global,
    state: Items,
    first: Option<Token>,
    second: Option<Token>,
) -> Result<Effect, OutOfMemory>
    ensures { IfOk result (λ e. e ≡ leaves state (first ∷ second ∷ [])) }
{
    let mut out = Outs::new(alloc);
    out.push(first)?;
    out.push(second)?;
    Ok(Effect { state, out })
}

/// The token at that place, or the null that is lent where there is none.
pub fn item<'a>(items: &'a Items, at: usize, null: &'a Token) -> &'a Token
    requires { null.now ≡ token.Null }
    ensures { result.now ≡ item_of items.now at }
{
    match items.get(at) {
        Some(token) => token,
        None => null,
    }
}
