//! Items in slots, each found by its slot or by its id.
ghost use Rattle.std.specs.Prelude.{◌≡◌, ◌==◌, ◌+◌, ◌≤◌, slice_index, ℕ, if◌then◌else◌, IsSome, ◌<◌, ◌-◌, ◌++◌, ◌∷◌, [], length, take, nat_eq, map, None, Some, IfOk, OnOk, OnErr, IfErr, IfSome, IfNone, option_map, slice_set};
ghost use Rattle.std.specs.List.{IsDistinct, AllByRecursion};
ghost use Rattle.indexmap.specs.IndexMap.{get};
ghost use Rattle.tk_stream.specs.Slots as spec;
ghost use Rattle.tk_stream.specs.Tables.{changed_at, staying};

use crate::tables::item::Item;
use indexmap::{IndexMap, IndexSet};
use std::alloc::{AllocError, Global};
use std::marker::Model;

/// Slots in a row, some of which hold an item. No two items have the same id.
#[derive(Debug, Drop)]
pub(crate) struct Slots<T: Item> {
    slots: Vec<Option<T>>,
    // The slot of each item, by its id.
    by_id: IndexMap<u64, usize>,
}

impl<T: Item> Model for Slots<T> {
    ghost use Rattle.std.specs.Prelude.{◌≡◌, ℕ, List, Option, map, nat_eq};
    ghost use Rattle.std.specs.List.{IsDistinct, AllByRecursion};
    ghost use Rattle.indexmap.specs.IndexMap.{get};
    ghost use Rattle.tk_stream.specs.Slots.{items_in, slot_with};

    ghost Value = { List (Option T) };

    ghost view = { λ s. s.slots.items };

    ghost invariant = { λ s. ((id : ℕ) → get nat_eq s.by_id id ≡ slot_with T.id_of id s.slots.items)
        × IsDistinct nat_eq (map T.id_of (items_in s.slots.items)) × AllByRecursion T.in_range (items_in s.slots.items) };
}

// Notes another slot for an item that has one.
fn renumber(by_id: &mut IndexMap<u64, usize>, id: u64, slot: usize)
    requires { IsSome (get nat_eq by_id.old id) }
    ensures { (q : ℕ) → get nat_eq by_id.new q ≡ (if id == q then Some slot else get nat_eq by_id.old q) }
{
    if let Some(own) = by_id.get_mut(&id) {
        *own = slot;
    }
}

// How many empty slots stand before the slot of the item at a place.
fn empty_before_place(empty: &[usize], place: usize) -> usize
    requires { spec.AreRising empty.now }
    ensures { spec.Stands empty.now (place + result) result }
{
    let mut low = 0;
    let mut high = empty.len();
    while low < high {
        let middle = low + (high - low) / 2;
        if empty[middle] - middle <= place {
            low = middle + 1;
        } else {
            high = middle;
        }
    }
    low
}

// How many empty slots stand before one that is not empty.
fn empty_before_slot(empty: &[usize], slot: usize) -> usize
    requires { spec.AreRising empty.now }
    ensures within { result ≤ length empty.now }
    ensures before { (j : ℕ) → j < result → slice_index empty.now j < slot }
    ensures after { (j : ℕ) → result ≤ j → j < length empty.now → slot ≤ slice_index empty.now j }
{
    empty.partition_point(|other| *other < slot)
}

impl<T: Item> Slots<T> {
    pub(crate) fn new(alloc: Global) -> Slots<T>
        ensures { result ≡ [] }
    {
        Slots {
            slots: Vec::new(alloc),
            by_id: IndexMap::new(alloc),
        }
    }

    /// How many slots there are, those that are empty among them.
    pub(crate) fn len(&self) -> usize
        ensures count { result ≡ length self.now }
        ensures distinct { IsDistinct nat_eq (map T.id_of (spec.items_in self.now)) }
        ensures in_range { AllByRecursion T.in_range (spec.items_in self.now) }
    {
        self.slots.len()
    }

    /// The item in a slot.
    pub(crate) fn at(&self, slot: usize) -> Option<&T>
        ensures { option_map (λ t. t.now) result ≡ spec.item_at self.now slot }
    {
        match self.slots.get(slot) {
            Some(slot) => slot.as_ref(),
            None => None,
        }
    }

    /// The slot of the item at a place, where these slots are the empty ones.
    pub(crate) fn slot_at(&self, empty: &[usize], place: usize) -> usize
        requires listed { empty.now ≡ spec.empty_from 0 self.now }
        requires there { place < length (spec.items_in self.now) }
        ensures order { place ≤ result }
        ensures stands { spec.Stands empty.now result (result - place) }
        ensures within { result < length self.now }
    {
        // Whoever looks at the slots learns that a `usize` has room for each number of theirs.
        let _ = &self.slots;
        place + empty_before_place(empty, place)
    }

    /// The place of the item in a slot, where these slots are the empty ones.
    pub(crate) fn place_of(&self, empty: &[usize], slot: usize) -> usize
        requires listed { empty.now ≡ spec.empty_from 0 self.now }
        requires there { IsSome (spec.item_at self.now slot) }
        ensures order { result ≤ slot }
        ensures stands { spec.Stands empty.now slot (slot - result) }
    {
        slot - empty_before_slot(empty, slot)
    }

    /// The slot of the item with an id.
    pub(crate) fn slot(&self, id: u64) -> Option<usize>
        ensures slot { result ≡ spec.slot_with T.id_of id self.now }
        ensures distinct { IsDistinct nat_eq (map T.id_of (spec.items_in self.now)) }
    {
        match self.by_id.get(&id) {
            Some(slot) => Some(*slot),
            None => None,
        }
    }

    /// Puts an item into a slot after the others, or gives it back.
    pub(crate) fn push(&mut self, item: T) -> Result<(), T>
        requires { spec.slot_with T.id_of (T.id_of item) self.old ≡ None }
        ensures ok { OnOk result (self.new ≡ self.old ++ Some item ∷ []) }
        ensures err { OnErr result (self.new ≡ self.old) }
        ensures returned { IfErr result (λ back. back ≡ item) }
    {
        item.see();
        let slot = self.slots.len();
        if self.slots.reserve(1).is_err() {
            return Err(item);
        }
        match self.by_id.insert(item.id(), slot) {
            Ok(_) => {
                self.slots.push_reserved(Some(item));
                Ok(())
            }
            Err(_) => Err(item),
        }
    }

    /// Replaces the item in a slot by another one with its id.
    pub(crate) fn replace(&mut self, slot: usize, item: T)
        requires { spec.slot_with T.id_of (T.id_of item) self.old ≡ Some slot }
        ensures { self.new ≡ slice_set self.old slot (Some item) }
    {
        item.see();
        self.slots[slot] = Some(item);
    }

    /// Replaces the row of the item in a slot.
    pub(crate) fn set(&mut self, slot: usize, row: T::Row)
        requires { slot < length self.old }
        ensures { self.new ≡ changed_at (option_map (λ item. T.with_row item row)) self.old slot }
    {
        if let Some(item) = &mut self.slots[slot] {
            item.set_row(row);
            item.see();
        }
    }

    /// Empties the slot of the item with an id, and answers which it is.
    pub(crate) fn vacate(&mut self, id: u64) -> Option<usize>
        ensures slot { result ≡ spec.slot_with T.id_of id self.old }
        ensures emptied { IfSome result (λ slot. self.new ≡ slice_set self.old slot None) }
        ensures none { IfNone result (self.new ≡ self.old) }
        ensures staying { spec.items_in self.new ≡ staying T.id_of (id ∷ []) (spec.items_in self.old) }
    {
        let Some(slot) = self.by_id.swap_remove(&id) else {
            return None;
        };
        self.slots[slot] = None;
        Some(slot)
    }

    /// Empties the slots of the items with these ids.
    pub(crate) fn vacate_all(&mut self, ids: &IndexSet<u64>)
        ensures { spec.items_in self.new ≡ staying T.id_of ids.now.keys (spec.items_in self.old) }
    {
        for id in ids.as_slice() {
            self.vacate(*id);
        }
    }

    // Lets the last slot go.
    fn pop(&mut self)
        ensures { self.new ≡ take (length self.old - 1) self.old }
    {
        let Some(last) = self.slots.pop() else {
            return;
        };
        if let Some(item) = last {
            self.by_id.swap_remove(&item.id());
        }
    }

    /// Keeps the first so many slots.
    pub(crate) fn truncate(&mut self, count: usize)
        ensures { self.new ≡ take count self.old }
    {
        while self.len() > count {
            self.pop();
        }
    }

    /// Lets the empty slots go. The items keep their order. It takes no memory.
    pub(crate) fn close_up(&mut self)
        ensures { self.new ≡ map Some (spec.items_in self.old) }
    {
        self.slots.retain(|slot| slot.is_some());
        for slot in 0..self.slots.len() {
            if let Some(item) = &self.slots[slot] {
                renumber(&mut self.by_id, item.id(), slot);
            }
        }
    }

    /// Equal slots.
    pub(crate) fn copy(&self) -> Result<Slots<T>, AllocError>
        ensures { IfOk result (λ slots. slots ≡ self.now) }
    {
        let slots = self.slots.clone()?;
        let by_id = self.by_id.clone()?;
        Ok(Slots { slots, by_id })
    }
}
