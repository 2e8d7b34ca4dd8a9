//! What the last whole line told of the rows of a table.
ghost use Rattle.std.specs.Prelude.{◌≡◌, ◌≤◌, ◌<◌, length, map, false, None, is_some, get_or, slice_get, OnOk};
ghost use Rattle.tk_stream.specs.Fronts.{no_telling, as_told, is_told_beside, with_rows};
ghost use Rattle.tk_stream.specs.Tables.{changed_at};

use crate::tables::item::Item;
use crate::tables::table::Table;
use crate::told::{Closes, Told};
use std::alloc::{AllocError, Global};
use std::marker::Model;

/// Of each of the first items of a table the row that the last whole line told, where it is another now, and room for that of
/// each other item.
#[derive(Drop)]
pub struct ToldRows<T: Item> {
    rows: Vec<Option<T::Row>>,
    // Whether a row is kept at each place. A row lies a hundred bytes and more after the last, and marks side by side.
    marks: Vec<bool>,
    // How many items were told of.
    count: usize,
}

impl<T: Item> Model for ToldRows<T> {
    ghost use Rattle.std.specs.Prelude.{◌≡◌, ◌≤◌, length, map, take, is_some};
    ghost use Rattle.tk_stream.specs.Fronts.{Telling};

    ghost Value = { Telling T.Row };

    ghost view = { λ t. record { rows = take t.count t.rows.items; room = length t.rows.items } };

    ghost invariant = { λ t. (t.count ≤ length t.rows.items) × (t.marks.items ≡ map is_some t.rows.items) };
}

// Most rows did not change, and a row without a mark is not looked at.
fn forget<R: Copy>(row: &mut Option<R>, mark: &mut bool)
    requires { mark.old ≡ is_some row.old }
    ensures row { row.new ≡ None }
    ensures mark { mark.new ≡ false }
{
    if *mark {
        *row = None;
        *mark = false;
    }
}

impl<T: Item> ToldRows<T> {
    pub fn new(alloc: Global) -> ToldRows<T>
        ensures { result ≡ no_telling }
    {
        ToldRows {
            rows: Vec::new(alloc),
            marks: Vec::new(alloc),
            count: 0,
        }
    }

    /// How many items were told of.
    pub fn count(&self) -> usize
        ensures count { result ≡ length self.now.rows }
        ensures within { result ≤ self.now.room }
    {
        self.count
    }

    /// Makes room for one more than there are items, where there is none yet.
    pub fn make_room(&mut self, items: usize) -> Result<(), AllocError>
        requires { items ≤ self.old.room }
        ensures rows { self.new.rows ≡ self.old.rows }
        ensures room { OnOk result (items < self.new.room) }
        ensures kept { self.old.room ≤ self.new.room }
    {
        if self.rows.len() == items {
            self.rows.push(None)?;
            let Ok(()) = self.marks.push(false) else {
                self.rows.pop();
                return Err(AllocError);
            };
        }
        Ok(())
    }

    /// The rows of all items were told.
    pub fn tell(&mut self, table: &Table<T>)
        requires { length table.now ≤ self.old.room }
        ensures { self.new ≡ record { rows = map (λ item. None) table.now; room = self.old.room } }
    {
        let count = table.len();
        for i in 0..count {
            forget(&mut self.rows[i], &mut self.marks[i]);
        }
        self.count = count;
    }
}

impl<T: Told> ToldRows<T> {
    /// Whether a line tells what changes of the item at a place.
    pub(crate) fn differs(&self, i: usize, item: &T) -> bool
        ensures { result ≡ is_told_beside (as_told T.with_row) T.same (slice_get self.now.rows i) item.now }
    {
        if i >= self.count {
            return true;
        }
        if !self.marks[i] {
            item.see_same();
            return false;
        }
        match &self.rows[i] {
            Some(row) => !item.has_row(row),
            None => {
                item.see_same();
                false
            }
        }
    }

    /// Replaces the row of the item at a place. What was told of it stays known. Where the row is the same, nothing is written.
    pub fn set(&mut self, table: &mut Table<T>, i: usize, row: &T::Row)
        requires { i < length table.old }
        ensures table { table.new ≡ changed_at (λ item. T.with_row item row.now) table.old i }
        ensures told { with_rows (as_told T.with_row) table.new self.new.rows ≡ with_rows (as_told T.with_row) table.old self.old.rows }
        ensures count { length self.new.rows ≡ length self.old.rows }
        ensures room { self.new.room ≡ self.old.room }
    {
        let item = table.at(i).unwrap();
        if item.has_row(row) {
            return;
        }
        let before = item.row();
        table.set(i, *row);
        if i < self.count && !self.marks[i] {
            self.rows[i] = Some(before);
            self.marks[i] = true;
        }
    }
}

impl<T: Closes> ToldRows<T> {
    /// When the item at a place was closed, by the row that was told of it.
    pub(crate) fn closed(&self, i: usize, item: &T) -> Option<u64>
        requires { i < length self.now.rows }
        ensures { result ≡ T.closed_in (T.row_of (as_told T.with_row item.now (get_or self.now.rows i None))) }
    {
        match &self.rows[i] {
            Some(row) => T::closed(row),
            None => T::closed(&item.row()),
        }
    }
}
