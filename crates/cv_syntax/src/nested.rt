//! The readers of literals and expressions. `levels` says how many levels are left.
//! Their rows do not go through `read_separated`: the toolchain proves no cycle of calls through an impl.

ghost use Rattle.std.specs.Prelude.{◌≡◌, ◌<◌, length, IfOk};
ghost use Rattle.cv_lex.specs.declared.word.Mark.TheVariants.{Ampersand, Bar, CloseBrace, CloseBracket, Comma};
ghost use Rattle.cv_readers.specs.Reading.{Gives, first_is};
ghost use Rattle.cv_readers.specs.Combining.{sep, listed};
ghost use Rattle.cv_syntax.specs.Small.{is_name, match_name};
ghost use Rattle.cv_syntax.specs.Nested.{opens, lifts, literal_at, nest_at, pair_with, factor_at, lift_at, terms_at};

use crate::small::{is_name, read_match, read_scalar};
use crate::tree::{Factor, Literal, Literals, Pairs, Term, Terms};
use cv_lex::{Mark, Placed};
use cv_readers::{Stop, first_of, is_mark, lower, skip_mark, take_mark, take_name, take_text};
use cv_token::Pair;
use sqlite_items::{Boxed, Items};
use std::alloc::Global;

/// Whether a list or a dictionary begins.
fn opens(words: &[Placed]) -> bool
    ensures { result ≡ first_is opens words.now }
{
    match first_of(words) {
        Some((first, _)) => {
            is_mark(&first.word, Mark::OpenBracket) || is_mark(&first.word, Mark::OpenBrace)
        }
        None => false,
    }
}

/// A literal.
#[cycle(literals)]
#[tactic(auto, unfolding(crate::specs::Nested::literal_at))]
pub(crate) fn read_literal(
    alloc: Global,
    words: &[Placed],
    levels: u32,
) -> Result<(Literal, &[Placed]), Stop>
    ensures value { Gives result (literal_at levels words.now) }
    ensures shorter { IfOk result (λ p. length p.1.now < length words.now) }
{
    if opens(words) {
        read_nest(alloc, words, levels)
    } else {
        read_scalar(alloc, words)
    }
}

/// A list or a dictionary, which opens a level.
#[cycle(literals)]
#[tactic(auto, unfolding(crate::specs::Nested::literal_at))]
fn read_nest(alloc: Global, words: &[Placed], levels: u32) -> Result<(Literal, &[Placed]), Stop>
    ensures value { Gives result (nest_at levels words.now) }
    ensures shorter { IfOk result (λ p. length p.1.now < length words.now) }
{
    let Some(inner) = lower(levels) else {
        return Err(Stop::TooDeep(words.len()));
    };
    if let Some(rest) = skip_mark(Mark::OpenBracket, words) {
        let (list, rest) = read_list(alloc, rest, inner)?;
        return Ok((Literal::List(list), rest));
    }
    let rest = take_mark(Mark::OpenBrace, words)?;
    let (pairs, rest) = read_dict(alloc, rest, inner)?;
    Ok((Literal::Dict(pairs), rest))
}

/// Literals, up to the bracket that closes them.
#[cycle(literals)]
#[tactic(auto, unfolding(cv_readers::specs::Combining::listed))]
fn read_list(alloc: Global, words: &[Placed], levels: u32) -> Result<(Literals, &[Placed]), Stop>
    ensures value { Gives result (listed CloseBracket (literal_at levels) words.now) }
    ensures shorter { IfOk result (λ p. length p.1.now < length words.now) }
{
    if let Some(rest) = skip_mark(Mark::CloseBracket, words) {
        return Ok((Items::new(alloc), rest));
    }
    let (row, rest) = read_literal_row(alloc, words, levels)?;
    let rest = take_mark(Mark::CloseBracket, rest)?;
    Ok((row, rest))
}

/// Literals with commas between them.
#[cycle(literals)]
#[tactic(auto, unfolding(cv_readers::specs::Combining::sep))]
fn read_literal_row(
    alloc: Global,
    words: &[Placed],
    levels: u32,
) -> Result<(Literals, &[Placed]), Stop>
    ensures value { Gives result (sep Comma (literal_at levels) words.now) }
    ensures shorter { IfOk result (λ p. length p.1.now < length words.now) }
{
    let (first, mut rest) = read_literal(alloc, words, levels)?;
    let mut row = Items::new(alloc);
    row.push(first)?;
    while let Some(after) = skip_mark(Mark::Comma, rest) {
        let (next, left) = read_literal(alloc, after, levels)?;
        row.push(next)?;
        rest = left;
    }
    Ok((row, rest))
}

/// Pairs, up to the brace that closes them.
#[cycle(literals)]
#[tactic(auto, unfolding(cv_readers::specs::Combining::listed))]
fn read_dict(alloc: Global, words: &[Placed], levels: u32) -> Result<(Pairs, &[Placed]), Stop>
    ensures value { Gives result (listed CloseBrace (pair_with (literal_at levels)) words.now) }
    ensures shorter { IfOk result (λ p. length p.1.now < length words.now) }
{
    if let Some(rest) = skip_mark(Mark::CloseBrace, words) {
        return Ok((Items::new(alloc), rest));
    }
    let (row, rest) = read_pair_row(alloc, words, levels)?;
    let rest = take_mark(Mark::CloseBrace, rest)?;
    Ok((row, rest))
}

/// Pairs with commas between them.
#[cycle(literals)]
#[tactic(auto, unfolding(cv_readers::specs::Combining::sep))]
fn read_pair_row(alloc: Global, words: &[Placed], levels: u32) -> Result<(Pairs, &[Placed]), Stop>
    ensures value { Gives result (sep Comma (pair_with (literal_at levels)) words.now) }
    ensures shorter { IfOk result (λ p. length p.1.now < length words.now) }
{
    let (first, mut rest) = read_pair(alloc, words, levels)?;
    let mut row = Items::new(alloc);
    row.push(first)?;
    while let Some(after) = skip_mark(Mark::Comma, rest) {
        let (next, left) = read_pair(alloc, after, levels)?;
        row.push(next)?;
        rest = left;
    }
    Ok((row, rest))
}

/// A key and its value.
#[cycle(literals)]
#[tactic(auto, unfolding(crate::specs::Nested::pair_with))]
fn read_pair(
    alloc: Global,
    words: &[Placed],
    levels: u32,
) -> Result<(Pair<Literal>, &[Placed]), Stop>
    ensures value { Gives result (pair_with (literal_at levels) words.now) }
    ensures shorter { IfOk result (λ p. length p.1.now < length words.now) }
{
    let (key, rest) = take_text(alloc, words)?;
    let rest = take_mark(Mark::Colon, rest)?;
    let (value, rest) = read_literal(alloc, rest, levels)?;
    Ok((Pair { key, value }, rest))
}

/// Whether `~` or a parenthesis begins.
fn lifts(words: &[Placed]) -> bool
    ensures { result ≡ first_is lifts words.now }
{
    match first_of(words) {
        Some((first, _)) => {
            is_mark(&first.word, Mark::Tilde) || is_mark(&first.word, Mark::OpenParen)
        }
        None => false,
    }
}

/// Whether the name of a match begins.
fn matches(words: &[Placed]) -> bool
    ensures { result ≡ first_is (is_name match_name) words.now }
{
    match first_of(words) {
        Some((first, _)) => is_name(&first.word, "node_attr_match"),
        None => false,
    }
}

/// A part of an expression.
#[cycle(factors)]
#[tactic(auto, unfolding(crate::specs::Nested::factor_at))]
fn read_factor(alloc: Global, words: &[Placed], levels: u32) -> Result<(Factor, &[Placed]), Stop>
    ensures value { Gives result (factor_at levels words.now) }
    ensures shorter { IfOk result (λ p. length p.1.now < length words.now) }
{
    if lifts(words) {
        return read_lift(alloc, words, levels);
    }
    if matches(words) {
        let (found, rest) = read_match(alloc, words, levels)?;
        return Ok((Factor::Match(found), rest));
    }
    let (name, rest) = take_name(alloc, words)?;
    Ok((Factor::Name(name), rest))
}

/// `~` and a factor, or an expression in parentheses; either opens a level.
#[cycle(factors)]
#[tactic(auto, unfolding(crate::specs::Nested::factor_at, crate::specs::Nested::terms_at))]
fn read_lift(alloc: Global, words: &[Placed], levels: u32) -> Result<(Factor, &[Placed]), Stop>
    ensures value { Gives result (lift_at levels words.now) }
    ensures shorter { IfOk result (λ p. length p.1.now < length words.now) }
{
    let Some(inner) = lower(levels) else {
        return Err(Stop::TooDeep(words.len()));
    };
    if let Some(rest) = skip_mark(Mark::Tilde, words) {
        let (factor, rest) = read_factor(alloc, rest, inner)?;
        return Ok((Factor::Not(Boxed::new(alloc, factor)?), rest));
    }
    let rest = take_mark(Mark::OpenParen, words)?;
    let (terms, rest) = read_terms(alloc, rest, inner)?;
    let rest = take_mark(Mark::CloseParen, rest)?;
    Ok((Factor::Group(terms), rest))
}

/// Factors with `&` between them.
#[cycle(factors)]
#[tactic(auto, unfolding(cv_readers::specs::Combining::sep))]
fn read_term(alloc: Global, words: &[Placed], levels: u32) -> Result<(Term, &[Placed]), Stop>
    ensures value { Gives result (sep Ampersand (factor_at levels) words.now) }
    ensures shorter { IfOk result (λ p. length p.1.now < length words.now) }
{
    let (first, mut rest) = read_factor(alloc, words, levels)?;
    let mut row = Items::new(alloc);
    row.push(first)?;
    while let Some(after) = skip_mark(Mark::Ampersand, rest) {
        let (next, left) = read_factor(alloc, after, levels)?;
        row.push(next)?;
        rest = left;
    }
    Ok((row, rest))
}

/// Terms with `|` between them: an expression.
#[cycle(factors)]
#[tactic(auto, unfolding(cv_readers::specs::Combining::sep, crate::specs::Nested::terms_at))]
pub(crate) fn read_terms(
    alloc: Global,
    words: &[Placed],
    levels: u32,
) -> Result<(Terms, &[Placed]), Stop>
    ensures value { Gives result (terms_at levels words.now) }
    ensures shorter { IfOk result (λ p. length p.1.now < length words.now) }
{
    let (first, mut rest) = read_term(alloc, words, levels)?;
    let mut row = Items::new(alloc);
    row.push(first)?;
    while let Some(after) = skip_mark(Mark::Bar, rest) {
        let (next, left) = read_term(alloc, after, levels)?;
        row.push(next)?;
        rest = left;
    }
    Ok((row, rest))
}
