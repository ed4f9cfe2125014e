//! The readers of one word.

ghost use Rattle.std.specs.Prelude.{◌≡◌, ◌<◌, [], ◌∷◌, length, suc, false, true, IfOk, IfSome, MatchOption};
ghost use Rattle.cv_readers.specs.Reading.{is_mark, is_reserved, Gives, GivesRest, first_is, behind, mark_at, reserved_at, name_at, bare_at, text_at, open_at, place_of};

use crate::name::Name;
use crate::stop::Stop;
use cv_lex::{Mark, NameText, Placed, Reserved, Word};
use cv_token::Text;
use std::alloc::Global;

/// The first word and those behind it.
pub fn first_of(words: &[Placed]) -> Option<(&Placed, &[Placed])>
    ensures { MatchOption result (words.now ≡ []) (λ p. words.now ≡ p.0.now ∷ p.1.now) }
{
    words.split_first()
}

/// Whether a word is this mark.
pub fn is_mark(word: &Word, mark: Mark) -> bool
    ensures { result ≡ is_mark mark word.now }
{
    match word {
        Word::Mark(found) => mark == *found,
        _ => false,
    }
}

/// Whether a word is this reserved name.
pub fn is_reserved(word: &Word, name: Reserved) -> bool
    ensures { result ≡ is_reserved name word.now }
{
    match word {
        Word::Reserved(found) => name == *found,
        _ => false,
    }
}

/// The words behind this mark, if it stands first.
pub fn skip_mark(mark: Mark, words: &[Placed]) -> Option<&[Placed]>
    ensures value { MatchOption result (first_is (is_mark mark) words.now ≡ false)
        (λ rest. (first_is (is_mark mark) words.now ≡ true) × (rest.now ≡ behind words.now)) }
    ensures shorter { IfSome result (λ rest. length rest.now < length words.now) }
{
    let (first, rest) = first_of(words)?;
    if is_mark(&first.word, mark) {
        Some(rest)
    } else {
        None
    }
}

/// The words behind this mark, which has to stand first.
pub fn take_mark(mark: Mark, words: &[Placed]) -> Result<&[Placed], Stop>
    ensures value { GivesRest result (mark_at mark words.now) }
    ensures shorter { IfOk result (λ rest. length rest.now < length words.now) }
{
    let Some((first, rest)) = first_of(words) else {
        return Err(Stop::Unexpected(words.len()));
    };
    if is_mark(&first.word, mark) {
        Ok(rest)
    } else {
        Err(Stop::Unexpected(words.len()))
    }
}

/// The place of this reserved name, which has to stand first, and the words behind it.
pub fn take_reserved(name: Reserved, words: &[Placed]) -> Result<(u32, &[Placed]), Stop>
    ensures value { Gives result (reserved_at name words.now) }
    ensures shorter { IfOk result (λ p. length p.1.now < length words.now) }
{
    let Some((first, rest)) = first_of(words) else {
        return Err(Stop::Unexpected(words.len()));
    };
    if is_reserved(&first.word, name) {
        Ok((first.at, rest))
    } else {
        Err(Stop::Unexpected(words.len()))
    }
}

/// The name that has to stand first, and the words behind it.
pub fn take_name(alloc: Global, words: &[Placed]) -> Result<(Name, &[Placed]), Stop>
    ensures value { Gives result (name_at words.now) }
    ensures shorter { IfOk result (λ p. length p.1.now < length words.now) }
{
    let Some((first, rest)) = first_of(words) else {
        return Err(Stop::Unexpected(words.len()));
    };
    match &first.word {
        Word::Name(text) => {
            let text = text.copy(alloc)?;
            Ok((Name { text, at: first.at }, rest))
        }
        _ => Err(Stop::Unexpected(words.len())),
    }
}

/// What the text says that has to stand first, and the words behind it.
pub fn take_text(alloc: Global, words: &[Placed]) -> Result<(Text, &[Placed]), Stop>
    ensures value { Gives result (text_at words.now) }
    ensures shorter { IfOk result (λ p. length p.1.now < length words.now) }
{
    let Some((first, rest)) = first_of(words) else {
        return Err(Stop::Unexpected(words.len()));
    };
    match &first.word {
        Word::Text(text) => Ok((text.copy(alloc)?, rest)),
        _ => Err(Stop::Unexpected(words.len())),
    }
}

/// The name that has to stand first, without its place, and the words behind it.
pub fn take_bare(alloc: Global, words: &[Placed]) -> Result<(NameText, &[Placed]), Stop>
    ensures value { Gives result (bare_at words.now) }
    ensures shorter { IfOk result (λ p. length p.1.now < length words.now) }
{
    let Some((first, rest)) = first_of(words) else {
        return Err(Stop::Unexpected(words.len()));
    };
    match &first.word {
        Word::Name(text) => Ok((text.copy(alloc)?, rest)),
        _ => Err(Stop::Unexpected(words.len())),
    }
}

/// The place of the first word, 0 where there is none.
pub fn place_of(words: &[Placed]) -> u32
    ensures { result ≡ place_of words.now }
{
    match first_of(words) {
        Some((first, _)) => first.at,
        None => 0,
    }
}

/// Whether this mark stands first.
pub fn stands(mark: Mark, words: &[Placed]) -> bool
    ensures { result ≡ first_is (is_mark mark) words.now }
{
    match first_of(words) {
        Some((first, _)) => is_mark(&first.word, mark),
        None => false,
    }
}

/// The words behind this mark, which has to stand first and opens a level.
pub fn open_mark(mark: Mark, words: &[Placed], levels: u32) -> Result<&[Placed], Stop>
    ensures value { GivesRest result (open_at mark levels words.now) }
    ensures shorter { IfOk result (λ rest. length rest.now < length words.now) }
{
    if levels == 0 && stands(mark, words) {
        return Err(Stop::TooDeep(words.len()));
    }
    take_mark(mark, words)
}

/// The levels that are left inside one, if one is left.
pub fn lower(levels: u32) -> Option<u32>
    ensures { MatchOption result (levels ≡ 0) (λ inner. levels ≡ suc inner) }
{
    levels.checked_sub(1)
}
