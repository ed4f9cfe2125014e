//! The readers of rows: items that are read alike, with a mark between them.

ghost use Rattle.std.specs.Prelude.{◌≡◌, ◌<◌, length, IfOk};
ghost use Rattle.cv_readers.specs.Reading.{Reader, Gives, name_at};
ghost use Rattle.cv_readers.specs.Combining.{sep, listed};

use cv_lex::{Mark, Placed};
use cv_readers::{Name, Stop, skip_mark, take_mark, take_name};
use sqlite_items::Items;
use std::alloc::Global;

/// What rows are made of: `readable_at` says what is read of it. The trait stands in this crate, since
/// it has impls for types of other crates.
pub(crate) trait Readable: Sized + Drop {
    ghost readable_at: { Reader Self };

    /// The item that has to stand first, and the words behind it.
    fn read(alloc: Global, words: &[Placed]) -> Result<(Self, &[Placed]), Stop>
        ensures value { Gives result (readable_at words.now) }
        ensures shorter { IfOk result (λ p. length p.1.now < length words.now) };
}

impl Readable for Name {
    ghost readable_at = { name_at };

    fn read(alloc: Global, words: &[Placed]) -> Result<(Name, &[Placed]), Stop> {
        take_name(alloc, words)
    }
}

/// Items with this mark between them.
#[tactic(auto, unfolding(cv_readers::specs::Combining::sep))]
pub(crate) fn read_separated<T: Readable>(
    alloc: Global,
    mark: Mark,
    words: &[Placed],
) -> Result<(Items<T>, &[Placed]), Stop>
    ensures value { Gives result (sep mark T.readable_at words.now) }
    ensures shorter { IfOk result (λ p. length p.1.now < length words.now) }
{
    let (first, mut rest) = T::read(alloc, words)?;
    let mut row = Items::new(alloc);
    row.push(first)?;
    while let Some(after) = skip_mark(mark, rest) {
        let (next, left) = T::read(alloc, after)?;
        row.push(next)?;
        rest = left;
    }
    Ok((row, rest))
}

/// Items with commas between them, or none, up to the mark that closes them.
#[tactic(auto, unfolding(cv_readers::specs::Combining::listed))]
pub(crate) fn read_listed<T: Readable>(
    alloc: Global,
    close: Mark,
    words: &[Placed],
) -> Result<(Items<T>, &[Placed]), Stop>
    ensures value { Gives result (listed close T.readable_at words.now) }
    ensures shorter { IfOk result (λ p. length p.1.now < length words.now) }
{
    if let Some(rest) = skip_mark(close, words) {
        return Ok((Items::new(alloc), rest));
    }
    let (row, rest) = read_separated(alloc, Mark::Comma, words)?;
    let rest = take_mark(close, rest)?;
    Ok((row, rest))
}
