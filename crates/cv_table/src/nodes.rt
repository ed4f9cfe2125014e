//! `NodeTable`: values by the number of a node.

ghost use Rattle.std.specs.Prelude.{◌≡◌, ◌+◌, ◌<◌, ◌≤◌, None, slice_get, IfErr, IsOk, IfOk, OnOk, OnErr};
ghost use Rattle.std.specs.Option.{option_copied};
ghost use Rattle.std.specs.FinMap as map;

use crate::entries::key_of;
use indexmap::IndexMap;
use std::alloc::{AllocError, AllocFailed, Global};
use std::marker::Model;

/// Values by node, in the order of the nodes. Contracts see the map, and how many more nodes have room.
#[derive(Drop)]
pub struct NodeTable<V> {
    inner: IndexMap<u16, V>,
}

impl<V> Model for NodeTable<V> {
    ghost use Rattle.std.specs.FinMap as map;
    ghost use Rattle.indexmap.specs.IndexMap.{keys, spare};
    ghost use Rattle.std.specs.List.Sorted.{IsStrictlySortedBy};
    ghost use Rattle.std.specs.Ordering.{nat_cmp};
    ghost use Rattle.std.specs.Coded.{coded_ℕ};
    ghost use Rattle.cv_table.specs.Held.{Held, held_code};

    ghost Value = { Held nat_cmp V };

    ghost coded = { held_code coded_ℕ V.code };

    ghost view = { λ t. record { map = map.from_entries t.inner.entries; spare = spare t.inner } };

    ghost invariant = { λ t. IsStrictlySortedBy nat_cmp (keys t.inner) };
}

impl<V> NodeTable<V> {
    /// A table of no nodes.
    pub fn new(alloc: Global) -> NodeTable<V>
        ensures { result.map ≡ map.empty }
    {
        NodeTable {
            inner: IndexMap::new(alloc),
        }
    }

    /// How many nodes have a value.
    pub fn len(&self) -> usize
        ensures { result ≡ map.len self.now.map }
    {
        self.inner.len()
    }

    /// The value of the node.
    pub fn get(&self, node: u16) -> Option<&V>
        ensures { option_copied result ≡ map.get self.now.map node }
    {
        self.inner.get(&node)
    }

    /// Makes room for so many more nodes.
    pub fn reserve(&mut self, more: usize) -> Result<(), AllocError>
        ensures map { self.new.map ≡ self.old.map }
        ensures room { OnOk result (more ≤ self.new.spare) }
        ensures kept { self.old.spare ≤ self.new.spare }
    {
        self.inner.reserve(more)
    }

    /// Gives the node this value; the one that it had comes back. For want of memory the new one comes back.
    pub fn insert(&mut self, node: u16, value: V) -> Result<Option<V>, AllocFailed<V>>
        ensures ok { OnOk result (self.new.map ≡ map.insert self.old.map node value) }
        ensures replaced { IfOk result (λ old. old ≡ map.get self.old.map node) }
        ensures err { OnErr result (self.new.map ≡ self.old.map) }
        ensures absent { OnErr result (map.get self.old.map node ≡ None) }
        ensures value_returned { IfErr result (λ refused. refused.value ≡ value) }
        ensures roomy { 0 < self.old.spare → IsOk result }
        ensures room { self.old.spare ≤ self.new.spare + 1 }
    {
        match self.inner.insert_sorted(node, value) {
            Ok((_place, old)) => Ok(old),
            Err(
                AllocFailed {
                    value: (_node, value),
                },
            ) => Err(AllocFailed { value }),
        }
    }

    /// The node of that place in rising order, from 0.
    pub fn key_at(&self, place: usize) -> Option<u16>
        ensures { result ≡ slice_get (map.keys self.now.map) place }
    {
        key_of(self.inner.get_index(place))
    }
}
