//! `Attrs`: the attributes of a node, and `NodeSpec`: what a node is from the start.

ghost use Rattle.std.specs.Prelude.{◌≡◌, [], ◌∷◌, ◌++◌, true, length, IfOk, OnOk, OnErr};
ghost use Rattle.std.specs.List.{list_all};
ghost use Rattle.cv_lex.specs.Bytes.{is_name_byte};
ghost use Rattle.cv_token.specs.Rising.{AreRising};
ghost use Rattle.cv_rules.specs.Keys.{is_name, is_key, are_keys};

use cv_lex::classes::{is_name_byte, is_name_start};
use cv_token::{OutOfMemory, Pair, PairsOf, Text};
use sqlite_items::Items;
use std::alloc::{AllocError, Global};
use std::marker::Model;

/// How many bytes a name has at most.
const MOST_NAME_BYTES: usize = 64;

/// Texts by keys `GROUP.FIELD`, which rise; GROUP and FIELD are each a name. Contracts see the list of pairs.
#[derive(Drop)]
pub struct Attrs {
    pairs: PairsOf<Text>,
}

impl Model for Attrs {
    ghost use Rattle.std.specs.Prelude.{◌≡◌, true, ℕ, List};
    ghost use Rattle.cv_token.specs.declared.pairs.Pair.{Pair};
    ghost use Rattle.cv_token.specs.Rising.{AreRising};
    ghost use Rattle.cv_rules.specs.Keys.{are_keys};

    ghost Value = { List (Pair (List ℕ)) };

    ghost view = { λ a. a.pairs };

    ghost invariant = { λ a. are_keys a.pairs ≡ true };
}

impl Attrs {
    /// No attributes; it takes no memory.
    pub fn new(alloc: Global) -> Attrs
        ensures { result ≡ [] }
    {
        Attrs {
            pairs: PairsOf::new(alloc),
        }
    }

    /// Puts an attribute behind those that are there; its key is above theirs.
    pub fn push(&mut self, pair: Pair<Text>) -> Result<(), AllocError>
        requires rising { AreRising (self.old ++ pair ∷ []) }
        requires key { is_key pair.key ≡ true }
        ensures ok { OnOk result (self.new ≡ self.old ++ pair ∷ []) }
        ensures err { OnErr result (self.new ≡ self.old) }
    {
        self.pairs.push(pair)
    }

    /// The attributes, in the order of their keys.
    pub fn as_slice(&self) -> &[Pair<Text>]
        ensures value { result.now ≡ self.now }
        ensures rising { AreRising self.now }
        ensures keys { are_keys self.now ≡ true }
    {
        self.pairs.as_slice()
    }

    /// Equal attributes of their own.
    pub fn copy(&self, alloc: Global) -> Result<Attrs, OutOfMemory>
        ensures { IfOk result (λ attrs. attrs ≡ self.now) }
    {
        let pairs = copy_texts(alloc, &self.pairs)?;
        Ok(Attrs { pairs })
    }
}

/// What a node is from the start.
#[derive(Drop)]
pub struct NodeSpec {
    /// Its number, from 1.
    pub no: u16,
    /// How many actors it takes from other nodes.
    pub room: u16,
    /// How many tokens of a connection may be on their way.
    pub window: u16,
    /// Its attributes.
    pub attrs: Attrs,
}

impl NodeSpec {
    /// An equal specification of its own.
    pub fn copy(&self, alloc: Global) -> Result<NodeSpec, OutOfMemory>
        ensures { IfOk result (λ spec. spec ≡ self.now) }
    {
        let attrs = self.attrs.copy(alloc)?;
        Ok(NodeSpec {
            no: self.no,
            room: self.room,
            window: self.window,
            attrs,
        })
    }
}

/// Whether a text is `GROUP.FIELD`, two names with a dot between them.
pub fn is_key(key: &str) -> bool
    ensures { result ≡ is_key key.now }
{
    match key.split_once('.') {
        Some((group, field)) => is_name(group.as_bytes()) && is_name(field.as_bytes()),
        None => false,
    }
}

/// Whether bytes are a name: a letter or `_`, then letters, digits and `_`, at most 64 in all.
fn is_name(bytes: &[u8]) -> bool
    ensures { result ≡ is_name bytes.now }
{
    match bytes.split_first() {
        Some((first, rest)) => {
            is_name_start(*first) && are_name_bytes(rest) && rest.len() < MOST_NAME_BYTES
        }
        None => false,
    }
}

/// Whether each byte may stand in a name.
fn are_name_bytes(bytes: &[u8]) -> bool
    ensures { result ≡ list_all is_name_byte bytes.now }
{
    bytes.iter().all(|byte| is_name_byte(*byte))
}

/// Equal texts of their own under the same keys.
pub(crate) fn copy_texts(alloc: Global, pairs: &PairsOf<Text>) -> Result<PairsOf<Text>, OutOfMemory>
    ensures { IfOk result (λ copies. copies ≡ pairs.now) }
{
    let mut copies = Items::new(alloc);
    for pair in pairs.as_slice() {
        let key = pair.key.copy(alloc)?;
        let value = pair.value.copy(alloc)?;
        copies.push(Pair { key, value })?;
    }
    Ok(PairsOf::from_items(copies))
}
