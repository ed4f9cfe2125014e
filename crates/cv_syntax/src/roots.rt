//! The readers of what stands at the root of a script.

ghost use Rattle.std.specs.Prelude.{◌≡◌, ◌<◌, ◌≤◌, [], length, IfOk};
ghost use Rattle.cv_lex.specs.declared.word.Reserved.TheVariants.{Apply, Component, Define, Rule};
ghost use Rattle.cv_readers.specs.Reading.{Gives, first_is, is_reserved};
ghost use Rattle.cv_syntax.specs.Whole.{most_levels, component_at, define_at, rule_at, apply_at, item_at, items_at};

use crate::nested::read_terms;
use crate::rows::{MOST_LEVELS, read_value};
use crate::separated::{read_listed, read_separated};
use crate::statements::{read_body, read_statement};
use crate::tree::{Apply, Component, Define, Item, NamedRule};
use cv_lex::{Mark, Placed, Reserved};
use cv_readers::{Stop, first_of, is_reserved, take_mark, take_name, take_reserved};
use sqlite_items::Items;
use std::alloc::Global;

/// A component.
#[tactic(auto, unfolding(crate::specs::Whole::component_at))]
fn read_component(alloc: Global, words: &[Placed]) -> Result<(Component, &[Placed]), Stop>
    ensures value { Gives result (component_at most_levels words.now) }
    ensures shorter { IfOk result (λ p. length p.1.now < length words.now) }
{
    let (_, rest) = take_reserved(Reserved::Component, words)?;
    let (name, rest) = take_name(alloc, rest)?;
    let rest = take_mark(Mark::OpenParen, rest)?;
    let (args, rest) = read_listed(alloc, Mark::CloseParen, rest)?;
    let (inports, rest) = read_listed(alloc, Mark::Arrow, rest)?;
    let (outports, rest) = read_listed(alloc, Mark::OpenBrace, rest)?;
    let (body, rest) = read_body(alloc, rest)?;
    Ok((
        Component {
            name,
            args,
            inports,
            outports,
            body,
        },
        rest,
    ))
}

/// A constant.
#[tactic(auto, unfolding(crate::specs::Whole::define_at))]
fn read_define(alloc: Global, words: &[Placed]) -> Result<(Define, &[Placed]), Stop>
    ensures value { Gives result (define_at most_levels words.now) }
    ensures shorter { IfOk result (λ p. length p.1.now < length words.now) }
{
    let (_, rest) = take_reserved(Reserved::Define, words)?;
    let (name, rest) = take_name(alloc, rest)?;
    let rest = take_mark(Mark::Equals, rest)?;
    let (value, rest) = read_value(alloc, rest)?;
    Ok((Define { name, value }, rest))
}

/// A rule.
#[tactic(auto, unfolding(crate::specs::Whole::rule_at))]
fn read_rule(alloc: Global, words: &[Placed]) -> Result<(NamedRule, &[Placed]), Stop>
    ensures value { Gives result (rule_at most_levels words.now) }
    ensures shorter { IfOk result (λ p. length p.1.now < length words.now) }
{
    let (at, rest) = take_reserved(Reserved::Rule, words)?;
    let (name, rest) = take_name(alloc, rest)?;
    let rest = take_mark(Mark::Colon, rest)?;
    let (terms, rest) = read_terms(alloc, rest, MOST_LEVELS)?;
    Ok((NamedRule { at, name, terms }, rest))
}

/// What rule actors are given.
#[tactic(auto, unfolding(crate::specs::Whole::apply_at))]
fn read_apply(alloc: Global, words: &[Placed]) -> Result<(Apply, &[Placed]), Stop>
    ensures value { Gives result (apply_at most_levels words.now) }
    ensures shorter { IfOk result (λ p. length p.1.now < length words.now) }
{
    let (at, rest) = take_reserved(Reserved::Apply, words)?;
    let (names, rest) = read_separated(alloc, Mark::Comma, rest)?;
    let rest = take_mark(Mark::Colon, rest)?;
    let (terms, rest) = read_terms(alloc, rest, MOST_LEVELS)?;
    Ok((Apply { at, names, terms }, rest))
}

/// Whether this reserved name stands first.
fn begins(name: Reserved, words: &[Placed]) -> bool
    ensures { result ≡ first_is (is_reserved name) words.now }
{
    match first_of(words) {
        Some((first, _)) => is_reserved(&first.word, name),
        None => false,
    }
}

/// What stands at the root.
#[tactic(auto, unfolding(crate::specs::Whole::item_at))]
fn read_item(alloc: Global, words: &[Placed]) -> Result<(Item, &[Placed]), Stop>
    ensures value { Gives result (item_at most_levels words.now) }
    ensures shorter { IfOk result (λ p. length p.1.now < length words.now) }
{
    if begins(Reserved::Component, words) {
        let (component, rest) = read_component(alloc, words)?;
        return Ok((Item::Component(component), rest));
    }
    if begins(Reserved::Define, words) {
        let (define, rest) = read_define(alloc, words)?;
        return Ok((Item::Define(define), rest));
    }
    if begins(Reserved::Rule, words) {
        let (rule, rest) = read_rule(alloc, words)?;
        return Ok((Item::Rule(rule), rest));
    }
    if begins(Reserved::Apply, words) {
        let (apply, rest) = read_apply(alloc, words)?;
        return Ok((Item::Apply(apply), rest));
    }
    let (statement, rest) = read_statement(alloc, words)?;
    Ok((Item::Statement(statement), rest))
}

/// The items of a script, to the last word.
#[tactic(auto, unfolding(crate::specs::Whole::items_at))]
pub(crate) fn read_items(alloc: Global, words: &[Placed]) -> Result<(Items<Item>, &[Placed]), Stop>
    ensures { Gives result (items_at most_levels words.now) }
{
    let mut row = Items::new(alloc);
    let mut rest = words;
    while !rest.is_empty() {
        let (next, left) = read_item(alloc, rest)?;
        row.push(next)?;
        rest = left;
    }
    Ok((row, rest))
}
