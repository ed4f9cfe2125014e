//! Whether tokens are of a sort, arguments those of a kind's row, and states those of a kind.

ghost use Rattle.std.specs.Prelude.{◌≡◌, ◌&&◌, map};
ghost use Rattle.cv_behave.specs.Values.{has_fit, is_int, item_of, list_of};
ghost use Rattle.cv_kinds.specs.Sorts.{are_args, are_arguments, are_slots, is_at_least, is_list, is_null, is_of, is_operator, is_place, is_round, is_slot, is_state, is_text, is_truth, is_within};
ghost use Rattle.cv_kinds.specs.Table.{taking};
ghost use Rattle.cv_token.specs.declared.token.Token.TheVariants as token;

use crate::kind::Kind;
use crate::table::{Param, Slot, Sort};
use cv_behave::building::item;
use cv_token::{Items, Token, fits};

/// The most milliseconds that a duration has.
pub const LONGEST: i64 = 2_147_483_647;

/// Whether a token is of the sort; a duration is in milliseconds.
pub fn is_of(sort: Sort, token: &Token) -> bool
    ensures { result ≡ is_of sort token.now }
{
    match sort {
        Sort::Any => true,
        Sort::Truth => is_truth(token),
        Sort::Int => is_whole(token),
        Sort::AtLeast(low) => is_at_least(low, token),
        Sort::Within(low, high) => is_within(low, high, token),
        Sort::Duration => is_within(0, LONGEST, token),
        Sort::Text => is_text(token),
        Sort::List => is_list(token),
        Sort::Operator => is_operator(token),
        Sort::TextOrInt => is_text(token) || is_whole(token),
    }
}

fn is_truth(token: &Token) -> bool
    ensures { result ≡ is_truth token.now }
{
    match token {
        Token::Bool(_) => true,
        _ => false,
    }
}

fn is_whole(token: &Token) -> bool
    ensures { result ≡ is_int token.now }
{
    match token {
        Token::Int(_) => true,
        _ => false,
    }
}

fn is_at_least(low: i64, token: &Token) -> bool
    ensures { result ≡ is_at_least low token.now }
{
    match token {
        Token::Int(number) => *number >= low,
        _ => false,
    }
}

fn is_within(low: i64, high: i64, token: &Token) -> bool
    ensures { result ≡ is_within low high token.now }
{
    match token {
        Token::Int(number) => *number >= low && *number <= high,
        _ => false,
    }
}

fn is_text(token: &Token) -> bool
    ensures { result ≡ is_text token.now }
{
    match token {
        Token::Text(_) => true,
        _ => false,
    }
}

fn is_list(token: &Token) -> bool
    ensures { result ≡ is_list token.now }
{
    match token {
        Token::List(_) => true,
        _ => false,
    }
}

fn is_operator(token: &Token) -> bool
    ensures { result ≡ is_operator token.now }
{
    match token {
        Token::Text(text) => is_operator_text(text.as_str()),
        _ => false,
    }
}

fn is_operator_text(text: &str) -> bool
    ensures { result ≡ is_operator (token.Text text.now) }
{
    text == "=" || text == "!=" || text == "<" || text == "<=" || text == ">" || text == ">="
}

/// Whether these are arguments of the kind's row: each fits, and is of its parameter's sort.
pub fn args_ok(kind: Kind, args: &Items) -> bool
    ensures { result ≡ are_args kind args.now }
{
    are_arguments(kind.line().params, args.as_slice())
}

/// Whether these are arguments for the parameters.
fn are_arguments(params: &[Param], args: &[Token]) -> bool
    ensures { result ≡ are_arguments (map taking params.now) args.now }
{
    if params.len() != args.len() {
        return false;
    }
    for place in 0..params.len() {
        if !is_argument(params[place], &args[place]) {
            return false;
        }
    }
    true
}

/// Whether a token is an argument for the parameter.
fn is_argument(param: Param, token: &Token) -> bool
    ensures { result ≡ (has_fit token.now && is_of param.sort token.now) }
{
    fits(token) && is_of(param.sort, token)
}

/// Whether the state has the slots of the kind, in their order: each fits, and is what the kind's is on these arguments.
pub fn state_ok(kind: Kind, args: &Items, state: &Items) -> bool
    ensures { result ≡ is_state kind args.now state.now }
{
    are_slots(args, kind.line().slots, state.as_slice())
}

fn are_slots(args: &Items, slots: &[Slot], state: &[Token]) -> bool
    ensures { result ≡ are_slots args.now slots.now state.now }
{
    if slots.len() != state.len() {
        return false;
    }
    for place in 0..slots.len() {
        if !is_slot(args, slots[place], &state[place]) {
            return false;
        }
    }
    true
}

/// Whether a token fits and is the slot on these arguments.
fn is_slot(args: &Items, slot: Slot, token: &Token) -> bool
    ensures { result ≡ (has_fit token.now && is_slot args.now slot token.now) }
{
    fits(token) && has_slot(args, slot, token)
}

fn has_slot(args: &Items, slot: Slot, token: &Token) -> bool
    ensures { result ≡ is_slot args.now slot token.now }
{
    let null = Token::Null;
    match slot {
        Slot::Plain(sort) => is_of(sort, token),
        Slot::Next => is_whole(token) || is_nothing(token),
        Slot::Place => is_place(token, item(args, 0, &null)),
        Slot::Round => is_round(token, item(args, 0, &null)),
    }
}

fn is_nothing(token: &Token) -> bool
    ensures { result ≡ is_null token.now }
{
    match token {
        Token::Null => true,
        _ => false,
    }
}

/// Whether a token is a place in a list, or its length.
fn is_place(token: &Token, list: &Token) -> bool
    ensures { result ≡ is_place token.now (list_of list.now) }
{
    match (token, list) {
        (Token::Int(place), Token::List(items)) => *place >= 0
            && (*place as u64) <= items.len() as u64,
        _ => false,
    }
}

/// Whether a token is a number from 0 to one less than another.
fn is_round(token: &Token, bound: &Token) -> bool
    ensures { result ≡ is_round token.now bound.now }
{
    match (token, bound) {
        (Token::Int(number), Token::Int(bound)) => *number >= 0 && *number < *bound,
        _ => false,
    }
}
