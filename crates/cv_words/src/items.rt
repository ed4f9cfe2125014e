//! Items: which frames of which links are lost or come twice.

ghost use Rattle.std.specs.Prelude.{◌≡◌, ◌≢◌, ◌≤◌, ◌<◌, ◌==◌, IfOk, IfSome, length, position, string_bytes};
ghost use Rattle.cv_words.specs.Items.{IsLink, IsProper, different, frame_of, is_stray, item_of, item_text, link_of, node_of, what_of, what_word};

use crate::numbers::read_within;
use std::alloc::{AllocError, Global};

/// The greatest number that a word writes.
const MOST: u32 = 999_999_999;

/// What becomes of a frame.
#[derive(Debug, Clone, Copy, PartialEq, Eq, Default)]
pub enum What {
    /// It is lost.
    #[default]
    Lose,
    /// It comes twice.
    Twice,
    /// It is lost, and so are those behind it in the same turn.
    Cut,
}

/// One item: what becomes of the `k`-th frame, counted from 1, that node `to` takes from node `from`.
#[derive(Debug, Clone, Copy, PartialEq, Eq, Default)]
pub struct LinkItem {
    pub what: What,
    pub from: u32,
    pub to: u32,
    pub k: u32,
}

/// An item that names a node which does not run.
#[derive(Debug, Clone, Copy, PartialEq, Eq)]
pub struct Stray {
    /// Its place among all items, from 0.
    pub place: u32,
    pub item: LinkItem,
}

impl What {
    /// The word for it.
    pub fn word(self) -> &'static str
        ensures { result.now ≡ what_word self }
    {
        match self {
            What::Lose => "lose",
            What::Twice => "twice",
            What::Cut => "cut",
        }
    }
}

impl LinkItem {
    /// The shortest word that says the item.
    pub fn text(&self, alloc: Global) -> Result<String, AllocError>
        ensures { IfOk result (λ text. string_bytes text ≡ item_text self.now) }
    {
        let from = self.from.to_string(alloc)?;
        let to = self.to.to_string(alloc)?;
        let frame = self.k.to_string(alloc)?;
        let mut text = String::from_str(alloc, self.what.word())?;
        text.push_str(":")?;
        text.push_str(from.as_str())?;
        text.push_str("-")?;
        text.push_str(to.as_str())?;
        text.push_str(":")?;
        text.push_str(frame.as_str())?;
        Ok(text)
    }

    /// Whether the item names a node above so many.
    pub fn is_stray(&self, nodes: u16) -> bool
        ensures { result ≡ is_stray nodes self.now }
    {
        let most = u32::from(nodes);
        most < self.from || most < self.to
    }
}

/// The item that a word says; None exactly where it says none.
pub fn read_item(word: &[u8]) -> Option<LinkItem>
    ensures item { result ≡ item_of word.now }
    ensures proper { IfSome result IsProper }
{
    let at = place_of(b':', word)?;
    let what = read_what(&word[..at])?;
    read_frame(what, &word[at + 1..])
}

/// What becomes of a frame, by its word.
fn read_what(word: &[u8]) -> Option<What>
    ensures { result ≡ what_of word.now }
{
    match word {
        b"lose" => Some(What::Lose),
        b"twice" => Some(What::Twice),
        b"cut" => Some(What::Cut),
        _ => None,
    }
}

/// The frame `I-J:K` of a link, with what becomes of it.
fn read_frame(what: What, word: &[u8]) -> Option<LinkItem>
    ensures item { result ≡ frame_of what word.now }
    ensures proper { IfSome result IsProper }
{
    let at = place_of(b':', word)?;
    let (from, to) = read_link(&word[..at])?;
    let k = read_within(&word[at + 1..], 1, MOST)?;
    Some(LinkItem { what, from, to, k })
}

/// The two different nodes of a link `I-J`.
fn read_link(word: &[u8]) -> Option<(u32, u32)>
    ensures link { result ≡ link_of word.now }
    ensures is { IfSome result (λ ends. IsLink ends.0 ends.1) }
{
    let at = place_of(b'-', word)?;
    let from = read_node(&word[..at])?;
    let to = read_node(&word[at + 1..])?;
    different(from, to)
}

/// The two nodes, where they differ.
fn different(from: u32, to: u32) -> Option<(u32, u32)>
    ensures ends { result ≡ different from to }
    ensures is { IfSome result (λ ends. (ends.0 ≡ from) × (ends.1 ≡ to) × (from ≢ to)) }
{
    if from == to { None } else { Some((from, to)) }
}

/// The number of a node, from 1.
fn read_node(word: &[u8]) -> Option<u32>
    ensures node { result ≡ node_of word.now }
    ensures least { IfSome result (λ n. 1 ≤ n) }
{
    read_within(word, 1, MOST)
}

/// The first place of a mark in a word.
pub(crate) fn place_of(mark: u8, word: &[u8]) -> Option<usize>
    ensures place { result ≡ position (λ b. b == mark) word.now }
    ensures within { IfSome result (λ at. at < length word.now) }
{
    word.iter().position(|byte| *byte == mark)
}
