//! `AppTable`: values by application.

ghost use Rattle.std.specs.Prelude.{◌≡◌, ◌+◌, ◌<◌, ◌≤◌, None, slice_get, IfErr, IsOk, IfOk, OnOk, OnErr};
ghost use Rattle.std.specs.Option.{option_copied};
ghost use Rattle.std.specs.FinMap as map;

use crate::entries::key_of;
use cv_token::AppId;
use indexmap::IndexMap;
use std::alloc::{AllocError, AllocFailed, Global};
use std::marker::Model;

/// Values by application, in the order of the applications. Contracts see the map, and how many more applications have room.
#[derive(Drop)]
pub struct AppTable<V> {
    inner: IndexMap<AppId, V>,
}

impl<V> Model for AppTable<V> {
    ghost use Rattle.std.specs.FinMap as map;
    ghost use Rattle.indexmap.specs.IndexMap.{keys, spare};
    ghost use Rattle.std.specs.List.Sorted.{IsStrictlySortedBy};
    ghost use Rattle.cv_token.specs.contracts.identifiers.AppId as app;
    ghost use Rattle.cv_table.specs.Order.{app_cmp};
    ghost use Rattle.cv_table.specs.Held.{Held, held_code};

    ghost Value = { Held app_cmp V };

    ghost coded = { held_code app.the_row.coded V.code };

    ghost view = { λ t. record { map = map.from_entries t.inner.entries; spare = spare t.inner } };

    ghost invariant = { λ t. IsStrictlySortedBy app_cmp (keys t.inner) };
}

impl<V> AppTable<V> {
    /// A table of no applications.
    pub fn new(alloc: Global) -> AppTable<V>
        ensures { result.map ≡ map.empty }
    {
        AppTable {
            inner: IndexMap::new(alloc),
        }
    }

    /// How many applications have a value.
    pub fn len(&self) -> usize
        ensures { result ≡ map.len self.now.map }
    {
        self.inner.len()
    }

    /// The value of the application.
    pub fn get(&self, app: AppId) -> Option<&V>
        ensures { option_copied result ≡ map.get self.now.map app }
    {
        self.inner.get(&app)
    }

    /// Makes room for so many more applications.
    pub fn reserve(&mut self, more: usize) -> Result<(), AllocError>
        ensures map { self.new.map ≡ self.old.map }
        ensures room { OnOk result (more ≤ self.new.spare) }
        ensures kept { self.old.spare ≤ self.new.spare }
    {
        self.inner.reserve(more)
    }

    /// Gives the application this value; the one that it had comes back. For want of memory the new one comes back.
    pub fn insert(&mut self, app: AppId, value: V) -> Result<Option<V>, AllocFailed<V>>
        ensures ok { OnOk result (self.new.map ≡ map.insert self.old.map app value) }
        ensures replaced { IfOk result (λ old. old ≡ map.get self.old.map app) }
        ensures err { OnErr result (self.new.map ≡ self.old.map) }
        ensures absent { OnErr result (map.get self.old.map app ≡ None) }
        ensures value_returned { IfErr result (λ refused. refused.value ≡ value) }
        ensures roomy { 0 < self.old.spare → IsOk result }
        ensures room { self.old.spare ≤ self.new.spare + 1 }
    {
        match self.inner.insert_sorted(app, value) {
            Ok((_place, old)) => Ok(old),
            Err(
                AllocFailed {
                    value: (_app, value),
                },
            ) => Err(AllocFailed { value }),
        }
    }

    /// The application of that place in rising order, from 0.
    pub fn key_at(&self, place: usize) -> Option<AppId>
        ensures { result ≡ slice_get (map.keys self.now.map) place }
    {
        key_of(self.inner.get_index(place))
    }
}
