//! `PairsOf`: pairs of a key and a value, whose keys rise by bytes.

ghost use Rattle.std.specs.Prelude.{◌≡◌, ◌↔◌, [], ◌∷◌, ◌++◌, length, IsTrue, OnOk, OnErr};
ghost use Rattle.cv_token.specs.Rising.{AreRising};

use crate::utf8::Text;
use sqlite_items::Items;
use std::alloc::{AllocError, Global};
use std::marker::Model;

/// A key and its value.
#[derive(Drop)]
pub struct Pair<T> {
    pub key: Text,
    pub value: T,
}

/// Pairs whose keys rise by bytes. Contracts see the list of them.
#[derive(Drop)]
pub struct PairsOf<T> {
    pairs: Items<Pair<T>>,
}

impl<T> Model for PairsOf<T> {
    ghost use Rattle.std.specs.Prelude.{List};
    ghost use Rattle.std.specs.Coded.{coded_list};
    ghost use Rattle.cv_token.specs.declared.pairs.Pair.{Pair};
    ghost use Rattle.cv_token.specs.Rising.{AreRising};

    ghost Value = { List (Pair T) };

    ghost view = { λ p. p.pairs };

    ghost invariant = { λ p. AreRising p.pairs };
}

impl<T> PairsOf<T> {
    /// No pairs; it takes no memory.
    pub fn new(alloc: Global) -> PairsOf<T>
        ensures { result ≡ [] }
    {
        PairsOf {
            pairs: Items::new(alloc),
        }
    }

    /// The pairs of a list whose keys rise; it takes no memory.
    pub fn from_items(pairs: Items<Pair<T>>) -> PairsOf<T>
        requires { AreRising pairs }
        ensures { result ≡ pairs }
    {
        PairsOf { pairs }
    }

    /// How many pairs there are.
    pub fn len(&self) -> usize
        ensures { result ≡ length self.now }
    {
        self.pairs.len()
    }

    /// Whether there are none.
    pub fn is_empty(&self) -> bool
        ensures { IsTrue result ↔ (self.now ≡ []) }
    {
        self.pairs.is_empty()
    }

    /// The pairs, in the order of their keys.
    pub fn as_slice(&self) -> &[Pair<T>]
        ensures value { result.now ≡ self.now }
        ensures rising { AreRising self.now }
    {
        self.pairs.as_slice()
    }
}

impl<T: Drop> PairsOf<T> {
    /// Puts a pair behind those that are there; its key is above theirs.
    pub fn push(&mut self, pair: Pair<T>) -> Result<(), AllocError>
        requires { AreRising (self.old ++ pair ∷ []) }
        ensures ok { OnOk result (self.new ≡ self.old ++ pair ∷ []) }
        ensures err { OnErr result (self.new ≡ self.old) }
    {
        self.pairs.push(pair)
    }
}
