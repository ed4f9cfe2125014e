//! `ConnTable`: values by connection.

ghost use Rattle.std.specs.Prelude.{◌≡◌, ◌+◌, ◌<◌, ◌≤◌, None, slice_get, IfErr, IsOk, IfOk, OnOk, OnErr};
ghost use Rattle.std.specs.Option.{option_copied};
ghost use Rattle.std.specs.FinMap as map;

use crate::entries::key_of;
use cv_token::ConnId;
use indexmap::IndexMap;
use std::alloc::{AllocError, AllocFailed, Global};
use std::marker::Model;

/// Values by connection, in the order of the connections. Contracts see the map, and how many more connections have room.
#[derive(Drop)]
pub struct ConnTable<V> {
    inner: IndexMap<ConnId, V>,
}

impl<V> Model for ConnTable<V> {
    ghost use Rattle.std.specs.FinMap as map;
    ghost use Rattle.indexmap.specs.IndexMap.{keys, spare};
    ghost use Rattle.std.specs.List.Sorted.{IsStrictlySortedBy};
    ghost use Rattle.cv_token.specs.contracts.identifiers.ConnId as conn;
    ghost use Rattle.cv_table.specs.Order.{conn_cmp};
    ghost use Rattle.cv_table.specs.Held.{Held, held_code};

    ghost Value = { Held conn_cmp V };

    ghost coded = { held_code conn.the_row.coded V.code };

    ghost view = { λ t. record { map = map.from_entries t.inner.entries; spare = spare t.inner } };

    ghost invariant = { λ t. IsStrictlySortedBy conn_cmp (keys t.inner) };
}

impl<V> ConnTable<V> {
    /// A table of no connections.
    pub fn new(alloc: Global) -> ConnTable<V>
        ensures { result.map ≡ map.empty }
    {
        ConnTable {
            inner: IndexMap::new(alloc),
        }
    }

    /// How many connections have a value.
    pub fn len(&self) -> usize
        ensures { result ≡ map.len self.now.map }
    {
        self.inner.len()
    }

    /// The value of the connection.
    pub fn get(&self, conn: ConnId) -> Option<&V>
        ensures { option_copied result ≡ map.get self.now.map conn }
    {
        self.inner.get(&conn)
    }

    /// Makes room for so many more connections.
    pub fn reserve(&mut self, more: usize) -> Result<(), AllocError>
        ensures map { self.new.map ≡ self.old.map }
        ensures room { OnOk result (more ≤ self.new.spare) }
        ensures kept { self.old.spare ≤ self.new.spare }
    {
        self.inner.reserve(more)
    }

    /// Gives the connection this value; the one that it had comes back. For want of memory the new one comes back.
    pub fn insert(&mut self, conn: ConnId, value: V) -> Result<Option<V>, AllocFailed<V>>
        ensures ok { OnOk result (self.new.map ≡ map.insert self.old.map conn value) }
        ensures replaced { IfOk result (λ old. old ≡ map.get self.old.map conn) }
        ensures err { OnErr result (self.new.map ≡ self.old.map) }
        ensures absent { OnErr result (map.get self.old.map conn ≡ None) }
        ensures value_returned { IfErr result (λ refused. refused.value ≡ value) }
        ensures roomy { 0 < self.old.spare → IsOk result }
        ensures room { self.old.spare ≤ self.new.spare + 1 }
    {
        match self.inner.insert_sorted(conn, value) {
            Ok((_place, old)) => Ok(old),
            Err(
                AllocFailed {
                    value: (_conn, value),
                },
            ) => Err(AllocFailed { value }),
        }
    }

    /// The connection of that place in rising order, from 0.
    pub fn key_at(&self, place: usize) -> Option<ConnId>
        ensures { result ≡ slice_get (map.keys self.now.map) place }
    {
        key_of(self.inner.get_index(place))
    }
}
