//! The readers of declarations and joins.

ghost use Rattle.std.specs.Prelude.{◌≡◌, ◌<◌, ◌≤◌, length, IfOk};
ghost use Rattle.cv_readers.specs.Reading.{Gives, first_is};
ghost use Rattle.cv_readers.specs.Combining.{many};
ghost use Rattle.cv_syntax.specs.Whole.{most_levels, declare_at, join_at, port_at, named_at, source_at, statement_at, body_at, is_inside};

use crate::nested::read_literal;
use crate::rows::{MOST_LEVELS, begins_name};
use crate::separated::{read_listed, read_separated};
use crate::small::{read_kind, skip_reserved};
use crate::tree::{Declare, Join, JoinSource, Statement};
use cv_lex::{Mark, Placed, Reserved};
use cv_readers::{
    Name, Stop, first_of, is_mark, place_of, skip_mark, take_bare, take_mark, take_name,
};
use sqlite_items::Items;
use std::alloc::Global;

/// A declaration, behind its name and the colon.
#[tactic(auto, unfolding(crate::specs::Whole::declare_at))]
fn read_declare(alloc: Global, name: Name, words: &[Placed]) -> Result<(Declare, &[Placed]), Stop>
    ensures value { Gives result (declare_at most_levels name words.now) }
    ensures shorter { IfOk result (λ p. length p.1.now < length words.now) }
{
    let (kind, rest) = read_kind(alloc, words)?;
    let rest = take_mark(Mark::OpenParen, rest)?;
    let (args, rest) = read_listed(alloc, Mark::CloseParen, rest)?;
    Ok((Declare { name, kind, args }, rest))
}

/// A join, behind its source.
#[tactic(auto, unfolding(crate::specs::Whole::join_at))]
fn read_join(
    alloc: Global,
    at: u32,
    source: JoinSource,
    words: &[Placed],
) -> Result<(Join, &[Placed]), Stop>
    ensures value { Gives result (join_at at source words.now) }
    ensures shorter { IfOk result (λ p. length p.1.now < length words.now) }
{
    let rest = take_mark(Mark::Greater, words)?;
    let (targets, rest) = read_separated(alloc, Mark::Comma, rest)?;
    Ok((
        Join {
            at,
            source,
            targets,
        },
        rest,
    ))
}

/// The source that begins with a name, behind that name.
#[tactic(auto, unfolding(crate::specs::Whole::port_at))]
fn read_port(alloc: Global, actor: Name, words: &[Placed]) -> Result<(JoinSource, &[Placed]), Stop>
    ensures value { Gives result (port_at actor words.now) }
    ensures shorter { IfOk result (λ p. length p.1.now ≤ length words.now) }
{
    let Name { text, at: _ } = actor;
    match skip_mark(Mark::Dot, words) {
        Some(after) => {
            let (port, rest) = take_bare(alloc, after)?;
            Ok((JoinSource::Port(text, port), rest))
        }
        None => Ok((JoinSource::Name(text), words)),
    }
}

/// A declaration or a join, behind the name with which it begins.
#[tactic(auto, unfolding(crate::specs::Whole::named_at))]
fn read_named(alloc: Global, name: Name, words: &[Placed]) -> Result<(Statement, &[Placed]), Stop>
    ensures value { Gives result (named_at most_levels name words.now) }
    ensures shorter { IfOk result (λ p. length p.1.now < length words.now) }
{
    if let Some(after) = skip_mark(Mark::Colon, words) {
        let (declare, rest) = read_declare(alloc, name, after)?;
        return Ok((Statement::Declare(declare), rest));
    }
    let at = name.at;
    let (source, rest) = read_port(alloc, name, words)?;
    let (join, rest) = read_join(alloc, at, source, rest)?;
    Ok((Statement::Join(join), rest))
}

/// A source that begins with no name.
#[tactic(auto, unfolding(crate::specs::Whole::source_at))]
fn read_source(alloc: Global, words: &[Placed]) -> Result<(JoinSource, &[Placed]), Stop>
    ensures value { Gives result (source_at most_levels words.now) }
    ensures shorter { IfOk result (λ p. length p.1.now < length words.now) }
{
    if let Some(rest) = skip_reserved(Reserved::Voidport, words) {
        return Ok((JoinSource::Voidport, rest));
    }
    if let Some(after) = skip_mark(Mark::Dot, words) {
        let (port, rest) = take_bare(alloc, after)?;
        return Ok((JoinSource::Own(port), rest));
    }
    let (literal, rest) = read_literal(alloc, words, MOST_LEVELS)?;
    Ok((JoinSource::Literal(literal), rest))
}

/// A declaration or a join.
#[tactic(auto, unfolding(crate::specs::Whole::statement_at))]
pub(crate) fn read_statement(
    alloc: Global,
    words: &[Placed],
) -> Result<(Statement, &[Placed]), Stop>
    ensures value { Gives result (statement_at most_levels words.now) }
    ensures shorter { IfOk result (λ p. length p.1.now < length words.now) }
{
    if begins_name(words) {
        let (name, rest) = take_name(alloc, words)?;
        return read_named(alloc, name, rest);
    }
    let at = place_of(words);
    let (source, rest) = read_source(alloc, words)?;
    let (join, rest) = read_join(alloc, at, source, rest)?;
    Ok((Statement::Join(join), rest))
}

/// Whether a body goes on: a word is there, and it is not the brace that closes it.
fn goes_on(words: &[Placed]) -> bool
    ensures { result ≡ first_is is_inside words.now }
{
    match first_of(words) {
        Some((first, _)) => !is_mark(&first.word, Mark::CloseBrace),
        None => false,
    }
}

/// The statements of a body.
fn read_statements(alloc: Global, words: &[Placed]) -> Result<(Items<Statement>, &[Placed]), Stop>
    ensures value { Gives result (many is_inside (statement_at most_levels) words.now) }
    ensures shorter { IfOk result (λ p. length p.1.now ≤ length words.now) }
{
    let mut row = Items::new(alloc);
    let mut rest = words;
    while goes_on(rest) {
        let (next, left) = read_statement(alloc, rest)?;
        row.push(next)?;
        rest = left;
    }
    Ok((row, rest))
}

/// The statements of a body, and the brace that closes it.
#[tactic(auto, unfolding(crate::specs::Whole::body_at))]
pub(crate) fn read_body(
    alloc: Global,
    words: &[Placed],
) -> Result<(Items<Statement>, &[Placed]), Stop>
    ensures value { Gives result (body_at most_levels words.now) }
    ensures shorter { IfOk result (λ p. length p.1.now < length words.now) }
{
    let (row, rest) = read_statements(alloc, words)?;
    let rest = take_mark(Mark::CloseBrace, rest)?;
    Ok((row, rest))
}
