//! Items in order of arrival, each found by its place or by its id.
//!
//! An item stands in a slot. One that leaves leaves its slot empty, so that the others need not move; where too many are
//! empty, the slots close up. The empty ones are listed, so that a search among them leads from places to slots and back.
ghost use Rattle.std.specs.Prelude.{◌≡◌, ◌<◌, ◌++◌, ◌∷◌, [], length, slice_get, nat_eq, map, take, None, IfOk, OnOk, OnErr, IfErr, IsOk, IsSome, option_map};
ghost use Rattle.std.specs.List.{IsDistinct, AllByRecursion};
ghost use Rattle.tk_stream.specs.Places.{place_with};
ghost use Rattle.tk_stream.specs.Tables.{item_with, changed_at, put_item, staying};

use crate::tables::item::Item;
use crate::tables::slots::Slots;
use indexmap::IndexSet;
use std::alloc::{AllocError, Global};
use std::marker::Model;

/// Items in order of arrival. No two have the same id.
#[derive(Debug, Drop)]
pub struct Table<T: Item> {
    slots: Slots<T>,
    // The empty slots, rising.
    empty: Vec<usize>,
}

impl<T: Item> Model for Table<T> {
    ghost use Rattle.std.specs.Prelude.{◌≡◌, List};
    ghost use Rattle.tk_stream.specs.Slots.{items_in, empty_from};

    ghost Value = { List T };

    ghost view = { λ t. items_in t.slots };

    ghost invariant = { λ t. t.empty.items ≡ empty_from 0 t.slots };
}

// Whether so many slots are empty that a walk through all of them is no dearer than to keep the list of those any longer: some
// times as many as the root of all.
fn are_many(empty: usize, slots: usize) -> bool {
    empty.saturating_mul(empty) / 64 > slots
}

impl<T: Item> Table<T> {
    pub fn new(alloc: Global) -> Table<T>
        ensures { result ≡ [] }
    {
        Table {
            slots: Slots::new(alloc),
            empty: Vec::new(alloc),
        }
    }

    pub fn len(&self) -> usize
        ensures count { result ≡ length self.now }
        ensures distinct { IsDistinct nat_eq (map T.id_of self.now) }
        ensures in_range { AllByRecursion T.in_range self.now }
    {
        self.slots.len() - self.empty.len()
    }

    pub fn at(&self, i: usize) -> Option<&T>
        ensures { option_map (λ t. t.now) result ≡ slice_get self.now i }
    {
        if i >= self.len() {
            return None;
        }
        let slot = self.slots.slot_at(&self.empty, i);
        self.slots.at(slot)
    }

    pub fn with_id(&self, id: u64) -> Option<&T>
        ensures { option_map (λ t. t.now) result ≡ item_with T.id_of id self.now }
    {
        let slot = self.slots.slot(id)?;
        self.slots.at(slot)
    }

    /// The place of the item with an id.
    pub fn place(&self, id: u64) -> Option<usize>
        ensures { result ≡ place_with T.id_of id self.now }
    {
        let slot = self.slots.slot(id)?;
        Some(self.slots.place_of(&self.empty, slot))
    }

    /// Puts an item last, or gives it back.
    pub fn push(&mut self, item: T) -> Result<(), T>
        requires { item_with T.id_of (T.id_of item) self.old ≡ None }
        ensures ok { OnOk result (self.new ≡ self.old ++ item ∷ []) }
        ensures err { OnErr result (self.new ≡ self.old) }
        ensures returned { IfErr result (λ back. back ≡ item) }
    {
        self.slots.push(item)
    }

    /// Puts an item in the place of the one with its id, or last where there is none.
    pub fn put(&mut self, item: T) -> Result<(), AllocError>
        ensures ok { OnOk result (self.new ≡ put_item T.id_of item self.old) }
        ensures err { OnErr result (self.new ≡ self.old) }
        ensures replaced { IsSome (item_with T.id_of (T.id_of item) self.old) → IsOk result }
    {
        if let Some(slot) = self.slots.slot(item.id()) {
            self.slots.replace(slot, item);
            return Ok(());
        }
        match self.push(item) {
            Ok(()) => Ok(()),
            Err(_) => Err(AllocError),
        }
    }

    /// Replaces the row of the item at a place.
    pub fn set(&mut self, i: usize, row: T::Row)
        requires { i < length self.old }
        ensures { self.new ≡ changed_at (λ item. T.with_row item row) self.old i }
    {
        let slot = self.slots.slot_at(&self.empty, i);
        self.slots.set(slot, row);
    }

    /// Keeps the first so many items.
    pub fn cut(&mut self, count: usize)
        ensures { self.new ≡ take count self.old }
    {
        if count >= self.len() {
            return;
        }
        let slot = self.slots.slot_at(&self.empty, count);
        self.slots.truncate(slot);
        self.empty.truncate(slot - count);
    }

    /// Removes the item with an id, if there is one. The others keep their order.
    pub fn remove(&mut self, id: u64)
        ensures { self.new ≡ staying T.id_of (id ∷ []) self.old }
    {
        let Some(slot) = self.slots.slot(id) else {
            return;
        };
        let place = self.slots.place_of(&self.empty, slot);
        self.slots.vacate(id);
        let listed = self.empty.insert(slot - place, slot).is_ok();
        if !listed || are_many(self.empty.len(), self.slots.len()) {
            self.slots.close_up();
            self.empty.clear();
        }
    }

    /// Removes the items of these ids. The others keep their order. Where many leave, that is one walk.
    pub fn remove_all(&mut self, ids: &IndexSet<u64>)
        ensures { self.new ≡ staying T.id_of ids.now.keys self.old }
    {
        if ids.len() > self.slots.len() / 64 {
            self.slots.vacate_all(ids);
            self.slots.close_up();
            self.empty.clear();
            return;
        }
        for id in ids.as_slice() {
            self.remove(*id);
        }
    }

    /// Equal items.
    pub fn copy(&self) -> Result<Table<T>, AllocError>
        ensures { IfOk result (λ table. table ≡ self.now) }
    {
        let slots = self.slots.copy()?;
        let empty = self.empty.clone()?;
        Ok(Table { slots, empty })
    }
}
