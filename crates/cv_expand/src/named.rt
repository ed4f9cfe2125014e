//! `Named`: a list of values under names, which finds the first of a name at once.

ghost use Rattle.std.specs.Prelude.{◌≡◌, [], ◌∷◌, ◌++◌, ℕ, List, IfOk, is_some, length};
ghost use Rattle.std.specs.Option.{option_copied};
ghost use Rattle.std.specs.BTreeMap.{get_by_text};
ghost use Rattle.cv_expand.specs.Lookup.{lookup, place_of, first_of, place_if, value_at};

use cv_token::{OutOfMemory, Pair, Text};
use sqlite_items::Items;
use std::alloc::Global;
use std::collections::BTreeMap;
use std::marker::Model;

/// Values under names, in the order in which they were put; of a name that was put twice the first counts. Contracts
/// see the list of pairs.
#[derive(Drop)]
pub struct Named<T> {
    places: BTreeMap<String, usize>,
    pairs: Items<Pair<T>>,
}

impl<T> Model for Named<T> {
    ghost use Rattle.std.specs.Prelude.{◌≡◌, ℕ, List};
    ghost use Rattle.std.specs.Coded.{coded_list};
    ghost use Rattle.std.specs.BTreeMap.{get_by_text};
    ghost use Rattle.cv_token.specs.declared.pairs.Pair.{Pair};
    ghost use Rattle.cv_expand.specs.Lookup.{place_of};

    ghost Value = { List (Pair T) };

    ghost view = { λ n. n.pairs };

    ghost invariant = { λ n. (name : List ℕ) → get_by_text n.places name ≡ place_of n.pairs name };
}

impl<T> Named<T> {
    /// No values; it takes no memory.
    pub fn new(alloc: Global) -> Named<T>
        ensures { result ≡ [] }
    {
        Named {
            places: BTreeMap::new(alloc),
            pairs: Items::new(alloc),
        }
    }

    /// The first value of a name.
    pub fn get(&self, name: &str) -> Option<&T>
        ensures { option_copied result ≡ lookup self.now name.now }
    {
        match self.places.get(name) {
            Some(place) => value_at(self.pairs.as_slice(), *place),
            None => None,
        }
    }

    /// Whether a name has a value.
    pub fn has(&self, name: &str) -> bool
        ensures { result ≡ is_some (lookup self.now name.now) }
    {
        self.get(name).is_some()
    }
}

impl<T: Drop> Named<T> {
    /// The same values, with one more behind them.
    pub fn with(self, alloc: Global, key: Text, value: T) -> Result<Named<T>, OutOfMemory>
        ensures { IfOk result (λ named. named ≡ self ++ record { key = key; value = value } ∷ []) }
    {
        let Named { places, pairs } = self;
        let places = note_name(alloc, places, key.as_str(), pairs.len())?;
        let mut pairs = pairs;
        pairs.push(Pair { key, value })?;
        Ok(Named { places, pairs })
    }
}

/// The value of the pair at a place.
fn value_at<T>(pairs: &[Pair<T>], place: usize) -> Option<&T>
    ensures { option_copied result ≡ value_at pairs.now place }
{
    match pairs.get(place) {
        Some(pair) => Some(&pair.value),
        None => None,
    }
}

/// The same places, and this one under its name where the name has none.
fn note_name(
    alloc: Global,
    places: BTreeMap<String, usize>,
    name: &str,
    place: usize,
) -> Result<BTreeMap<String, usize>, OutOfMemory>
    ensures { IfOk result (λ found. (n : List ℕ) → get_by_text found n ≡ first_of (get_by_text places n) (place_if name.now place n)) }
{
    if places.contains_key(name) {
        return Ok(places);
    }
    let mut places = places;
    places.insert(String::from_str(alloc, name)?, place)?;
    Ok(places)
}
