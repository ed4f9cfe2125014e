//! What the guards ask of arguments, states and heads.

ghost use Rattle.std.specs.Prelude.{◌≡◌, ◌&&◌, ◌+ℤ◌, pos, not, Some, IfOk, int_lt};
ghost use Rattle.std.specs.Ordering.{int_eq};
ghost use Rattle.std.specs.Option.{option_copied, unwrap_or};
ghost use Rattle.cv_token.specs.declared.token.Token.TheVariants as token;
ghost use Rattle.cv_behave.specs.Values.{are_same, is_int, is_number, is_true, item_of, list_of};
ghost use Rattle.cv_flow.specs.Values.{milliseconds, is_positive, is_below_length, batch_size, is_empty, is_last, is_before_last, is_repeated};

use cv_behave::building::item;
use cv_behave::values::{is_at, is_set, is_whole, same};
use cv_token::{Items, Token};

/// The milliseconds of the duration that the first argument is.
pub(crate) fn duration(args: &Items) -> u64
    ensures { result ≡ milliseconds (item_of args.now 0) }
{
    match args.get(0) {
        Some(Token::Int(time)) => if *time < 0 { 0 } else { *time as u64 },
        _ => 0,
    }
}

/// The number of tokens in a batch.
pub(crate) fn size(args: &Items) -> u16
    ensures { result ≡ batch_size (item_of args.now 0) }
{
    match args.get(0) {
        Some(Token::Int(n)) => if *n < 1 || *n > 64 { 1 } else { *n as u16 },
        _ => 1,
    }
}

/// Whether the token is true; one that is missing is not.
pub(crate) fn is_true_head(head: Option<&Token>) -> bool
    ensures { result ≡ is_true (unwrap_or (option_copied head.entry) token.Null) }
{
    match head {
        Some(Token::Bool(truth)) => *truth,
        _ => false,
    }
}

/// Whether a counter with steps goes on.
pub(crate) fn goes_on(state: &Items) -> bool
    ensures { result ≡ (is_int (item_of state.now 0) && not (is_number 0 (item_of state.now 1))) }
{
    is_whole(state, 0) && !is_at(state, 1, 0)
}

/// Whether the place is below the list's length.
pub(crate) fn has_more(place: &Token, list: &Token) -> bool
    ensures { result ≡ is_below_length place.now (list_of list.now) }
{
    match (place, list) {
        (Token::Int(i), Token::List(items)) => *i < 0 || (*i as u64) < items.len() as u64,
        _ => false,
    }
}

/// Whether there is a next element.
pub(crate) fn has_element(args: &Items, state: &Items) -> bool
    ensures { result ≡ is_below_length (item_of state.now 0) (list_of (item_of args.now 0)) }
{
    let null = Token::Null;
    has_more(item(state, 0, &null), item(args, 0, &null))
}

/// Whether the first slot is above 0.
pub(crate) fn is_above_zero(state: &Items) -> bool
    ensures { result ≡ is_positive (item_of state.now 0) }
{
    match state.get(0) {
        Some(Token::Int(left)) => *left > 0,
        _ => false,
    }
}

fn ends_round(count: &Token, n: &Token) -> bool
    ensures { result ≡ is_last count.now n.now }
{
    match (count, n) {
        (Token::Int(c), Token::Int(n)) => *c < *n && *c + 1 == *n,
        _ => false,
    }
}

fn is_within_round(count: &Token, n: &Token) -> bool
    ensures { result ≡ is_before_last count.now n.now }
{
    match (count, n) {
        (Token::Int(c), Token::Int(n)) => *c < *n && *c + 1 < *n,
        _ => false,
    }
}

/// Whether the token is the n-th since the last that was passed.
pub(crate) fn is_turn(args: &Items, state: &Items) -> bool
    ensures { result ≡ is_last (item_of state.now 0) (item_of args.now 0) }
{
    let null = Token::Null;
    ends_round(item(state, 0, &null), item(args, 0, &null))
}

/// Whether it is one before that.
pub(crate) fn is_too_early(args: &Items, state: &Items) -> bool
    ensures { result ≡ is_before_last (item_of state.now 0) (item_of args.now 0) }
{
    let null = Token::Null;
    is_within_round(item(state, 0, &null), item(args, 0, &null))
}

fn has_none(rest: &Token) -> bool
    ensures { result ≡ is_empty rest.now }
{
    match rest {
        Token::List(items) => items.is_empty(),
        _ => true,
    }
}

/// Whether nothing is left of the list that is given out.
pub(crate) fn is_given_out(state: &Items) -> bool
    ensures { result ≡ is_empty (item_of state.now 0) }
{
    let null = Token::Null;
    has_none(item(state, 0, &null))
}

fn equals_slot(state: &Items, at: usize, head: Option<&Token>) -> bool
    ensures { result
        ≡ are_same (unwrap_or (option_copied head.entry) token.Null) (item_of state.now at) }
{
    let null = Token::Null;
    match head {
        Some(token) => same(token, item(state, at, &null)),
        None => same(&null, item(state, at, &null)),
    }
}

/// Whether the token equals the last that was passed.
pub(crate) fn repeats(state: &Items, head: Option<&Token>) -> bool
    ensures { result
        ≡ is_repeated state.now (unwrap_or (option_copied head.entry) token.Null) }
{
    is_set(state, 0) && equals_slot(state, 1, head)
}
