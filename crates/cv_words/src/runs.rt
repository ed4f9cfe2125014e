//! `RunWords`: what the words of `run` and `trace` ask for.

ghost use Rattle.std.specs.Prelude.{◌≡◌, ◌≤◌, All, length, map, option_map, string_bytes, IfSome};
ghost use Rattle.cv_words.specs.Asked.{items_behind, run_of, run_with, set_once, set_twice};
ghost use Rattle.cv_words.specs.Items.{items_of, stray_in, IsProper};
ghost use Rattle.cv_words.specs.Runs.{IsSetting, most_items, most_run_nodes};

use crate::items::{LinkItem, Stray, read_item};
use crate::options::{Setting, read_option};
use arrayvec::ArrayVec;
use std::marker::Model;

/// How many firings a run makes at most where the words do not say.
pub const DEFAULT_FIRINGS: u32 = 1000;

/// The most items.
const MOST_ITEMS: usize = 64;

/// How many nodes run, how many firings they make at most, and which frames of links are lost or come twice. Contracts see a `Run`.
#[derive(Drop)]
pub struct RunWords {
    nodes: u16,
    firings: u32,
    items: ArrayVec<LinkItem, 64>,
}

impl Model for RunWords {
    ghost use Rattle.cv_words.specs.Runs.{Run, IsRun};

    ghost Value = { Run };

    ghost view = { λ r. record { nodes = r.nodes; firings = r.firings; items = r.items.items } };

    ghost invariant = { λ r. IsRun (record { nodes = r.nodes; firings = r.firings; items = r.items.items }) };
}

impl RunWords {
    ghost use Rattle.cv_words.specs.Runs.{IsRun};

    /// How many nodes run, from 1 to 16.
    pub fn nodes(&self) -> u16
        ensures nodes { result ≡ self.now.nodes }
        ensures run { IsRun self.now }
    {
        self.nodes
    }

    /// How many firings they make at most.
    pub fn firings(&self) -> u32
        ensures { result ≡ self.now.firings }
    {
        self.firings
    }

    /// The items, in the order of the words.
    pub fn items(&self) -> &[LinkItem]
        ensures { result.now ≡ self.now.items }
    {
        self.items.as_slice()
    }

    /// The first item that names a node that does not run, with its place among all items, from 0.
    pub fn stray(&self) -> Option<Stray>
        ensures { result ≡ stray_in self.now.nodes self.now.items }
    {
        first_stray(self.nodes, self.items.as_slice())
    }
}

/// The first item that names a node above so many, with its place.
fn first_stray(nodes: u16, items: &[LinkItem]) -> Option<Stray>
    requires { length items.now ≤ most_items }
    ensures { result ≡ stray_in nodes items.now }
{
    let mut place = 0;
    for item in items {
        if item.is_stray(nodes) {
            return Some(Stray { place, item: *item });
        }
        place += 1;
    }
    None
}

/// The run that the words behind `run` and `trace` ask for; None exactly where they are of another form.
pub fn read_run(words: &[String]) -> Option<RunWords>
    ensures { result ≡ run_of (map string_bytes words.now) }
{
    let Some((first, rest)) = read_option(words) else {
        return run_with(None, None, items_behind(words))
    };
    let Some((second, items)) = read_option(rest) else {
        return set_once(first, items_behind(rest))
    };
    set_twice(first, second, items_behind(items))
}

/// A run of one option.
fn set_once(setting: Setting, items: &[String]) -> Option<RunWords>
    requires { IsSetting setting }
    ensures { result ≡ set_once setting (map string_bytes items.now) }
{
    match setting {
        Setting::Nodes(nodes) => run_with(Some(nodes), None, items),
        Setting::Firings(firings) => run_with(None, Some(firings), items),
    }
}

/// A run of two options, which differ.
fn set_twice(first: Setting, second: Setting, items: &[String]) -> Option<RunWords>
    requires first { IsSetting first }
    requires second { IsSetting second }
    ensures { result ≡ set_twice first second (map string_bytes items.now) }
{
    match (first, second) {
        (Setting::Nodes(nodes), Setting::Firings(firings)) => run_with(
            Some(nodes),
            Some(firings),
            items,
        ),
        (Setting::Firings(firings), Setting::Nodes(nodes)) => run_with(
            Some(nodes),
            Some(firings),
            items,
        ),
        _ => None,
    }
}

/// The items, without the mark `--` before them.
fn items_behind(words: &[String]) -> &[String]
    ensures { map string_bytes result.now ≡ items_behind (map string_bytes words.now) }
{
    match words {
        [mark, items @ ..] if mark.as_str() == "--" => items,
        _ => words,
    }
}

/// A run with these options, where they stand, and these items.
fn run_with(nodes: Option<u16>, firings: Option<u32>, words: &[String]) -> Option<RunWords>
    requires some { IfSome nodes (λ n. 1 ≤ n) }
    requires few { IfSome nodes (λ n. n ≤ most_run_nodes) }
    ensures { result ≡ run_with nodes firings (map string_bytes words.now) }
{
    if words.len() > MOST_ITEMS {
        return None;
    }
    let items = read_items(words)?;
    Some(RunWords {
        nodes: nodes.unwrap_or(1),
        firings: firings.unwrap_or(DEFAULT_FIRINGS),
        items,
    })
}

/// The items that words say, where each says one.
fn read_items(words: &[String]) -> Option<ArrayVec<LinkItem, 64>>
    requires { length words.now ≤ most_items }
    ensures items { option_map (λ v. v.items) result ≡ items_of (map string_bytes words.now) }
    ensures few { IfSome result (λ v. length v.items ≤ most_items) }
    ensures proper { IfSome result (λ v. All IsProper v.items) }
{
    let mut items = ArrayVec::new();
    for word in words {
        items.push(read_item(word.as_bytes())?);
    }
    Some(items)
}
