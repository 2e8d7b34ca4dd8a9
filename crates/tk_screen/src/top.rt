//! The first items of a ranking, kept while all are offered one by one.
ghost use Rattle.std.specs.Prelude.{◌≡◌, ◌≤◌, length, take, nat_lt, position, true};
ghost use Rattle.tk_screen.specs.Rankings as spec;

use std::alloc::{AllocError, Global};
use std::marker::Model;

/// An item by its place in a list, and the key by which it is ranked.
#[derive(Clone, Copy, Debug, PartialEq, Eq)]
pub struct Ranked {
    pub key: u64,
    pub place: usize,
}

/// The first so many of what was offered: greater keys first, and of equal ones what was offered before.
#[derive(Drop)]
pub struct Top {
    items: Vec<Ranked>,
    room: usize,
}

impl Model for Top {
    ghost use Rattle.std.specs.Prelude.{◌≤◌, ◌<◌};
    ghost use Rattle.std.specs.Vec.{vec_len, vec_capacity};
    ghost use Rattle.tk_screen.specs.Rankings.{TopView, NeverRise};

    ghost Value = { TopView };

    ghost view = { λ top. record { items = top.items.items; room = top.room } };

    ghost invariant = { λ top. (vec_len top.items ≤ top.room) × (top.room < vec_capacity top.items) × NeverRise top.items.items };
}

fn first_below(items: &[Ranked], key: u64) -> Option<usize>
    ensures { result ≡ position (λ y. nat_lt y.key key) items.now }
{
    items.iter().position(|item| item.key < key)
}

// Where an item of this key goes: before the first of a smaller one.
fn place_of(items: &[Ranked], key: u64) -> usize
    ensures found { result ≡ spec.place_of key items.now }
    ensures within { result ≤ length items.now }
{
    match first_below(items, key) {
        Some(place) => place,
        None => items.len(),
    }
}

impl Top {
    ghost use Rattle.std.specs.Prelude.{[], IfOk};

    /// Nothing was offered, and there is room for so many items.
    ///
    /// It fails where there is no memory for one item more than that.
    pub fn new(alloc: Global, room: usize) -> Result<Top, AllocError>
        ensures { IfOk result (λ top. top ≡ record { items = []; room = room }) }
    {
        let Some(most) = room.checked_add(1) else {
            return Err(AllocError);
        };
        let items = Vec::with_capacity(alloc, most)?;
        Ok(Top { items, room })
    }

    /// What is kept, in order.
    pub fn items(&self) -> &[Ranked]
        ensures { result.now ≡ self.now.items }
    {
        self.items.as_slice()
    }

    // Whether an item of this key goes after all that there is room for.
    fn is_past(&self, key: u64) -> bool
        ensures full { result ≡ true → length self.now.items ≡ self.now.room }
        ensures last { result ≡ true → spec.place_of key self.now.items ≡ length self.now.items }
    {
        match self.items.as_slice().last() {
            Some(last) => self.items.len() == self.room && key <= last.key,
            None => self.room == 0,
        }
    }

    /// Offers one item more. It takes no memory.
    pub fn offer(&mut self, item: Ranked)
        ensures items { self.new.items ≡ take self.old.room (spec.ranked_in item self.old.items) }
        ensures room { self.new.room ≡ self.old.room }
    {
        if self.is_past(item.key) {
            return;
        }
        let place = place_of(self.items.as_slice(), item.key);
        self.items.insert(place, item).unwrap();
        self.items.truncate(self.room);
    }
}
