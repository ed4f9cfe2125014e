//! The readers of what does not nest.

ghost use Rattle.std.specs.Prelude.{◌≡◌, ◌<◌, length, IfOk, MatchOption, true, false};
ghost use Rattle.cv_readers.specs.Reading.{Gives, GivesRest, first_is, behind, is_reserved};
ghost use Rattle.cv_syntax.specs.Small.{kind_at, target_at, aim_at, is_name, is_any_name, exactly_at, match_name, index_name, field_at, fields_at, index_at, bracket_at, group_at, match_at, scalar_at};

use crate::separated::{Readable, read_listed};
use crate::tree::{Aim, KindName, Literal, Match, Target};
use cv_lex::{Mark, Placed, Reserved, Word};
use cv_readers::{
    Stop, first_of, is_reserved, open_mark, place_of, skip_mark, take_bare, take_mark, take_text,
};
use cv_token::{Pair, Text};
use std::alloc::Global;

/// A literal of one word.
pub(crate) fn read_scalar(alloc: Global, words: &[Placed]) -> Result<(Literal, &[Placed]), Stop>
    ensures value { Gives result (scalar_at words.now) }
    ensures shorter { IfOk result (λ p. length p.1.now < length words.now) }
{
    let Some((first, rest)) = first_of(words) else {
        return Err(Stop::Unexpected(words.len()));
    };
    match &first.word {
        Word::Reserved(Reserved::Null) => Ok((Literal::Null, rest)),
        Word::Reserved(Reserved::True) => Ok((Literal::Bool(true), rest)),
        Word::Reserved(Reserved::False) => Ok((Literal::Bool(false), rest)),
        Word::Int(number) => Ok((Literal::Int(*number), rest)),
        Word::Text(text) => Ok((Literal::Text(text.copy(alloc)?), rest)),
        _ => Err(Stop::Unexpected(words.len())),
    }
}

/// The name of a kind or a component.
#[tactic(auto, unfolding(crate::specs::Small::kind_at))]
pub(crate) fn read_kind(alloc: Global, words: &[Placed]) -> Result<(KindName, &[Placed]), Stop>
    ensures value { Gives result (kind_at words.now) }
    ensures shorter { IfOk result (λ p. length p.1.now < length words.now) }
{
    let (first, rest) = take_bare(alloc, words)?;
    match skip_mark(Mark::Dot, rest) {
        Some(after) => {
            let (second, rest) = take_bare(alloc, after)?;
            Ok((KindName::Dotted(first, second), rest))
        }
        None => Ok((KindName::Plain(first), rest)),
    }
}

/// The words behind this reserved name, if it stands first.
pub(crate) fn skip_reserved(name: Reserved, words: &[Placed]) -> Option<&[Placed]>
    ensures value { MatchOption result (first_is (is_reserved name) words.now ≡ false)
        (λ rest. (first_is (is_reserved name) words.now ≡ true) × (rest.now ≡ behind words.now)) }
    ensures shorter { MatchOption result (Unit {0}) (λ rest. length rest.now < length words.now) }
{
    let (first, rest) = first_of(words)?;
    if is_reserved(&first.word, name) {
        Some(rest)
    } else {
        None
    }
}

/// Where a join goes.
#[tactic(auto, unfolding(crate::specs::Small::target_at))]
fn read_target(alloc: Global, words: &[Placed]) -> Result<(Target, &[Placed]), Stop>
    ensures value { Gives result (target_at words.now) }
    ensures shorter { IfOk result (λ p. length p.1.now < length words.now) }
{
    if let Some(rest) = skip_reserved(Reserved::Voidport, words) {
        return Ok((Target::Voidport, rest));
    }
    if let Some(after) = skip_mark(Mark::Dot, words) {
        let (port, rest) = take_bare(alloc, after)?;
        return Ok((Target::Own(port), rest));
    }
    let (actor, rest) = take_bare(alloc, words)?;
    let after = take_mark(Mark::Dot, rest)?;
    let (port, rest) = take_bare(alloc, after)?;
    Ok((Target::Port(actor, port), rest))
}

/// A target with its place.
#[tactic(auto, unfolding(crate::specs::Small::aim_at))]
fn read_aim(alloc: Global, words: &[Placed]) -> Result<(Aim, &[Placed]), Stop>
    ensures value { Gives result (aim_at words.now) }
    ensures shorter { IfOk result (λ p. length p.1.now < length words.now) }
{
    let at = place_of(words);
    let (target, rest) = read_target(alloc, words)?;
    Ok((Aim { at, target }, rest))
}

impl Readable for Aim {
    ghost use Rattle.cv_syntax.specs.Small.{aim_at};

    ghost readable_at = { aim_at };

    fn read(alloc: Global, words: &[Placed]) -> Result<(Aim, &[Placed]), Stop> {
        read_aim(alloc, words)
    }
}

/// Whether a word is this name.
pub(crate) fn is_name(word: &Word, name: &str) -> bool
    ensures { result ≡ is_name name.now word.now }
{
    match word {
        Word::Name(text) => text.as_str() == name,
        _ => false,
    }
}

/// The words behind this name, which has to stand first.
fn take_exactly<'a>(name: &str, words: &'a [Placed]) -> Result<&'a [Placed], Stop>
    ensures value { GivesRest result (exactly_at name.now words.now) }
    ensures shorter { IfOk result (λ rest. length rest.now < length words.now) }
{
    let Some((first, rest)) = first_of(words) else {
        return Err(Stop::Unexpected(words.len()));
    };
    if is_name(&first.word, name) {
        Ok(rest)
    } else {
        Err(Stop::Unexpected(words.len()))
    }
}

/// A field of a match and its value.
#[tactic(auto, unfolding(crate::specs::Small::field_at))]
fn read_field(alloc: Global, words: &[Placed]) -> Result<(Pair<Text>, &[Placed]), Stop>
    ensures value { Gives result (field_at words.now) }
    ensures shorter { IfOk result (λ p. length p.1.now < length words.now) }
{
    let (key, rest) = take_text(alloc, words)?;
    let rest = take_mark(Mark::Colon, rest)?;
    let (value, rest) = take_text(alloc, rest)?;
    Ok((Pair { key, value }, rest))
}

impl Readable for Pair<Text> {
    ghost use Rattle.cv_syntax.specs.Small.{field_at};

    ghost readable_at = { field_at };

    fn read(alloc: Global, words: &[Placed]) -> Result<(Pair<Text>, &[Placed]), Stop> {
        read_field(alloc, words)
    }
}

/// What a match looks for: a group and its fields.
#[tactic(auto, unfolding(crate::specs::Small::index_at, crate::specs::Small::fields_at))]
fn read_index(alloc: Global, words: &[Placed], levels: u32) -> Result<(Match, &[Placed]), Stop>
    ensures value { Gives result (index_at levels words.now) }
    ensures shorter { IfOk result (λ p. length p.1.now < length words.now) }
{
    let (group, rest) = take_text(alloc, words)?;
    let rest = take_mark(Mark::Comma, rest)?;
    let rest = open_mark(Mark::OpenBrace, rest, levels)?;
    let (fields, rest) = read_listed(alloc, Mark::CloseBrace, rest)?;
    Ok((Match { group, fields }, rest))
}

/// The same in brackets, which open a level.
#[tactic(auto, unfolding(crate::specs::Small::bracket_at))]
fn read_bracket(alloc: Global, words: &[Placed], levels: u32) -> Result<(Match, &[Placed]), Stop>
    ensures value { Gives result (bracket_at levels words.now) }
    ensures shorter { IfOk result (λ p. length p.1.now < length words.now) }
{
    let rest = open_mark(Mark::OpenBracket, words, levels)?;
    let (found, rest) = read_index(alloc, rest, levels.saturating_sub(1))?;
    let rest = take_mark(Mark::CloseBracket, rest)?;
    Ok((found, rest))
}

/// What stands in the parentheses of a match, and these, which open a level.
#[tactic(auto, unfolding(crate::specs::Small::group_at))]
fn read_group(alloc: Global, words: &[Placed], levels: u32) -> Result<(Match, &[Placed]), Stop>
    ensures value { Gives result (group_at levels words.now) }
    ensures shorter { IfOk result (λ p. length p.1.now < length words.now) }
{
    let rest = open_mark(Mark::OpenParen, words, levels)?;
    let rest = take_exactly("index", rest)?;
    let rest = take_mark(Mark::Equals, rest)?;
    let (found, rest) = read_bracket(alloc, rest, levels.saturating_sub(1))?;
    let rest = take_mark(Mark::CloseParen, rest)?;
    Ok((found, rest))
}

/// A match, which opens three levels.
#[tactic(auto, unfolding(crate::specs::Small::match_at))]
pub(crate) fn read_match(
    alloc: Global,
    words: &[Placed],
    levels: u32,
) -> Result<(Match, &[Placed]), Stop>
    ensures value { Gives result (match_at levels words.now) }
    ensures shorter { IfOk result (λ p. length p.1.now < length words.now) }
{
    let rest = take_exactly("node_attr_match", words)?;
    read_group(alloc, rest, levels)
}
