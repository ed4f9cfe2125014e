//! The readers of values and arguments. Rows are read by `read_separated` and `read_listed`.

ghost use Rattle.std.specs.Prelude.{◌≡◌, ◌<◌, length, IfOk};
ghost use Rattle.cv_readers.specs.Reading.{Gives, first_is};
ghost use Rattle.cv_syntax.specs.Small.{is_any_name};
ghost use Rattle.cv_syntax.specs.Whole.{most_levels, is_fraction, fraction_at, value_at, arg_at};

use crate::nested::read_literal;
use crate::separated::Readable;
use crate::tree::{Arg, Value};
use cv_lex::{Mark, Placed, Word};
use cv_readers::{Stop, first_of, take_mark, take_name};
use cv_token::Text;
use std::alloc::Global;

/// How many levels a literal or an expression may have.
pub(crate) const MOST_LEVELS: u32 = 16;

/// Whether a name begins.
pub(crate) fn begins_name(words: &[Placed]) -> bool
    ensures { result ≡ first_is is_any_name words.now }
{
    match first_of(words) {
        Some((first, _)) => matches!(&first.word, Word::Name(_)),
        None => false,
    }
}

/// Whether a number with a fraction begins.
fn begins_fraction(words: &[Placed]) -> bool
    ensures { result ≡ first_is is_fraction words.now }
{
    match first_of(words) {
        Some((first, _)) => matches!(&first.word, Word::Fraction(_)),
        None => false,
    }
}

/// The letters of a number with a fraction.
fn take_fraction(alloc: Global, words: &[Placed]) -> Result<(Text, &[Placed]), Stop>
    ensures value { Gives result (fraction_at words.now) }
    ensures shorter { IfOk result (λ p. length p.1.now < length words.now) }
{
    let Some((first, rest)) = first_of(words) else {
        return Err(Stop::Unexpected(words.len()));
    };
    match &first.word {
        Word::Fraction(digits) => Ok((digits.copy(alloc)?, rest)),
        _ => Err(Stop::Unexpected(words.len())),
    }
}

/// What an argument or a constant is given.
#[tactic(auto, unfolding(crate::specs::Whole::value_at))]
pub(crate) fn read_value(alloc: Global, words: &[Placed]) -> Result<(Value, &[Placed]), Stop>
    ensures value { Gives result (value_at most_levels words.now) }
    ensures shorter { IfOk result (λ p. length p.1.now < length words.now) }
{
    if begins_fraction(words) {
        let (digits, rest) = take_fraction(alloc, words)?;
        return Ok((Value::Fraction(digits), rest));
    }
    if begins_name(words) {
        let (name, rest) = take_name(alloc, words)?;
        return Ok((Value::Name(name), rest));
    }
    let (literal, rest) = read_literal(alloc, words, MOST_LEVELS)?;
    Ok((Value::Literal(literal), rest))
}

/// An argument and its value.
#[tactic(auto, unfolding(crate::specs::Whole::arg_at))]
fn read_arg(alloc: Global, words: &[Placed]) -> Result<(Arg, &[Placed]), Stop>
    ensures value { Gives result (arg_at most_levels words.now) }
    ensures shorter { IfOk result (λ p. length p.1.now < length words.now) }
{
    let (name, rest) = take_name(alloc, words)?;
    let rest = take_mark(Mark::Equals, rest)?;
    let (value, rest) = read_value(alloc, rest)?;
    Ok((Arg { name, value }, rest))
}

impl Readable for Arg {
    ghost use Rattle.cv_syntax.specs.Whole.{most_levels, arg_at};

    ghost readable_at = { arg_at most_levels };

    fn read(alloc: Global, words: &[Placed]) -> Result<(Arg, &[Placed]), Stop> {
        read_arg(alloc, words)
    }
}
