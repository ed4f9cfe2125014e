//! `ActorTable`: values by actor.

ghost use Rattle.std.specs.Prelude.{◌≡◌, ◌+◌, ◌<◌, ◌≤◌, None, not, slice_get, IfErr, IsOk, IfOk, OnOk, OnErr};
ghost use Rattle.std.specs.Option.{option_copied, option_copied_mut};
ghost use Rattle.std.specs.Borrow.{sem};
ghost use Rattle.std.specs.FinMap as map;
ghost use Rattle.cv_table.specs.Order.{actor_cmp, same_app};
ghost use Rattle.cv_table.specs.Held.{map_values, change_entry};
ghost use Rattle.indexmap.specs.IndexMap.{spare};
ghost use Rattle.cv_table.specs.Lends.{LendsValue};

use crate::entries::key_of;
use cv_token::{ActorId, AppId};
use indexmap::IndexMap;
use std::alloc::{AllocError, AllocFailed, Global};
use std::marker::Model;

/// A change that any value of a table may undergo.
pub trait Change<V> {
    ghost changed: { Self → V → V };

    /// Changes this value.
    fn change(&self, value: &mut V)
        ensures { value.new ≡ changed self.now value.old };
}

/// Values by actor, in the order of the actors. Contracts see the map, and how many more actors have room.
#[derive(Drop)]
pub struct ActorTable<V> {
    inner: IndexMap<ActorId, V>,
}

impl<V> Model for ActorTable<V> {
    ghost use Rattle.std.specs.FinMap as map;
    ghost use Rattle.indexmap.specs.IndexMap.{keys, spare};
    ghost use Rattle.std.specs.List.Sorted.{IsStrictlySortedBy};
    ghost use Rattle.cv_token.specs.contracts.identifiers.ActorId as actor;
    ghost use Rattle.cv_table.specs.Order.{actor_cmp};
    ghost use Rattle.cv_table.specs.Held.{Held, held_code};

    ghost Value = { Held actor_cmp V };

    ghost coded = { held_code actor.the_row.coded V.code };

    ghost view = { λ t. record { map = map.from_entries t.inner.entries; spare = spare t.inner } };

    ghost invariant = { λ t. IsStrictlySortedBy actor_cmp (keys t.inner) };
}

impl<V> ActorTable<V> {
    /// A table of no actors.
    pub fn new(alloc: Global) -> ActorTable<V>
        ensures { result.map ≡ map.empty }
    {
        ActorTable {
            inner: IndexMap::new(alloc),
        }
    }

    /// How many actors have a value.
    pub fn len(&self) -> usize
        ensures { result ≡ map.len self.now.map }
    {
        self.inner.len()
    }

    /// The value of the actor. It mostly stands at the place of the actor's number, so that place is looked at first.
    pub fn get(&self, actor: ActorId) -> Option<&V>
        ensures { option_copied result ≡ map.get self.now.map actor }
    {
        if let Some((key, value)) = self.inner.get_index(usize::from(actor.actor)) {
            if *key == actor {
                return Some(value);
            }
        }
        self.inner.get(&actor)
    }

    /// Lends the value of the actor, which may be written.
    pub fn get_mut(&mut self, actor: ActorId) -> Option<&mut V>
        ensures* writes_back { sem 𝓛 (LendsValue V.row self.entry actor result) }
        ensures value { option_copied_mut result ≡ map.get self.old.map actor }
    {
        self.inner.get_mut(&actor)
    }

    /// Makes room for so many more actors.
    pub fn reserve(&mut self, more: usize) -> Result<(), AllocError>
        ensures map { self.new.map ≡ self.old.map }
        ensures room { OnOk result (more ≤ self.new.spare) }
        ensures kept { self.old.spare ≤ self.new.spare }
    {
        self.inner.reserve(more)
    }

    /// Gives the actor this value; the one that it had comes back. For want of memory the new one comes back.
    pub fn insert(&mut self, actor: ActorId, value: V) -> Result<Option<V>, AllocFailed<V>>
        ensures ok { OnOk result (self.new.map ≡ map.insert self.old.map actor value) }
        ensures replaced { IfOk result (λ old. old ≡ map.get self.old.map actor) }
        ensures err { OnErr result (self.new.map ≡ self.old.map) }
        ensures absent { OnErr result (map.get self.old.map actor ≡ None) }
        ensures value_returned { IfErr result (λ refused. refused.value ≡ value) }
        ensures roomy { 0 < self.old.spare → IsOk result }
        ensures room { self.old.spare ≤ self.new.spare + 1 }
    {
        match self.inner.insert_sorted(actor, value) {
            Ok((_place, old)) => Ok(old),
            Err(
                AllocFailed {
                    value: (_actor, value),
                },
            ) => Err(AllocFailed { value }),
        }
    }

    /// Takes the value of the actor out.
    pub fn remove(&mut self, actor: ActorId) -> Option<V>
        ensures value { result ≡ map.get self.old.map actor }
        ensures rest { self.new.map ≡ map.remove self.old.map actor }
        ensures room { self.old.spare ≤ self.new.spare }
    {
        self.inner.shift_remove(&actor)
    }

    /// The actor of that place in rising order, from 0.
    pub fn key_at(&self, place: usize) -> Option<ActorId>
        ensures { result ≡ slice_get (map.keys self.now.map) place }
    {
        key_of(self.inner.get_index(place))
    }
}

impl<V> ActorTable<V> {
    /// Changes every value.
    pub fn change_all<C: Change<V>>(&mut self, change: &C)
        ensures map { self.new.map ≡ map_values (C.changed change.now) self.old.map }
        ensures room { self.new.spare ≡ self.old.spare }
    {
        for place in 0..self.inner.len() {
            change_at(&mut self.inner, place, change);
        }
    }
}

impl<V: Drop> ActorTable<V> {
    /// Drops the values of the application's actors.
    pub fn drop_app(&mut self, app: AppId)
        ensures map { self.new.map ≡ map.retain_keys self.old.map (λ actor. not (same_app actor.app app)) }
        ensures room { self.old.spare ≤ self.new.spare }
    {
        self.inner.retain(|actor, _value| actor.app != app);
    }
}

/// Changes the value at that place, where there is one.
fn change_at<V, C: Change<V>>(inner: &mut IndexMap<ActorId, V>, place: usize, change: &C)
    ensures entries { inner.new.entries ≡ change_entry (C.changed change.now) place inner.old.entries }
    ensures room { spare inner.new ≡ spare inner.old }
{
    if let Some(value) = inner.get_index_mut(place) {
        change.change(value);
    }
}
