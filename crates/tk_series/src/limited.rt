//! Series of which the first so many stand by themselves, and what all others add up to.
ghost use Rattle.std.specs.Prelude.{◌≡◌, ◌<◌, ◌^◌, [], None, Some, IfOk, OnOk, length, slice_get, option_map};
ghost use Rattle.std.specs.Map.{lookup};
ghost use Rattle.std.specs.Option.{option_map_or};
ghost use Rattle.std.specs.Str.{bytes_eq};
ghost use Rattle.tk_series.specs.Series.{is_seen, with_value};
ghost use Rattle.tk_series.specs.Limited as spec;

use crate::series::Added;
use indexmap::IndexMap;
use std::alloc::{AllocError, Global};
use std::marker::Model;

/// Series in the order in which their labels were first added. The first so many stand by themselves; what has other labels is one more.
#[derive(Drop)]
pub struct Limited<V: Added> {
    room: usize,
    values: IndexMap<Vec<u8>, V>,
    rest: Option<V>,
}

impl<V: Added> Model for Limited<V> {
    ghost use Rattle.std.specs.Prelude.{map};
    ghost use Rattle.tk_series.specs.Limited.{LimitedView};

    ghost Value = { LimitedView V };

    ghost view = { λ s. record { room = s.room; first = map (λ e. (e.0.items, e.1)) s.values.entries; rest = s.rest } };
}

impl<V: Added> Limited<V> {
    /// None yet, of which this many may stand by themselves.
    pub fn new(alloc: Global, room: usize) -> Limited<V>
        ensures { result ≡ record { room = room; first = []; rest = None } }
    {
        Limited {
            room,
            values: IndexMap::new(alloc),
            rest: None,
        }
    }

    /// The same again. `AllocError`: there was no memory.
    pub fn copy(&self) -> Result<Limited<V>, AllocError>
        ensures { IfOk result (λ series. series ≡ self.now) }
    {
        let values = self.values.clone()?;
        Ok(Limited {
            room: self.room,
            values,
            rest: self.rest,
        })
    }

    /// How many stand by themselves.
    pub fn len(&self) -> usize
        ensures len { result ≡ length self.now.first }
        ensures small { result < 2 ^ 63 }
    {
        self.values.len()
    }

    /// The labels and the value of the one at a place.
    pub fn at(&self, i: usize) -> Option<(&[u8], V)>
        ensures { option_map (λ s. (s.0.now, s.1)) result ≡ slice_get self.now.first i }
    {
        let (labels, value) = self.values.get_index(i)?;
        Some((labels.as_slice(), *value))
    }

    /// What all others add up to, if there are any.
    pub fn rest(&self) -> Option<V>
        ensures { result ≡ self.now.rest }
    {
        self.rest
    }

    // The value of the one with these labels.
    fn known(&self, labels: &[u8]) -> Option<V>
        ensures { result ≡ lookup (bytes_eq labels.now) self.now.first }
    {
        match self.values.get(labels) {
            Some(value) => Some(*value),
            None => None,
        }
    }

    /// Whether one with these labels stands by itself.
    pub fn has(&self, labels: &[u8]) -> bool
        ensures { result ≡ is_seen (spec.names_of self.now.first) labels.now }
    {
        self.known(labels).is_some()
    }

    fn add_known(&mut self, labels: Vec<u8>, there: V, value: V) -> Result<(), AllocError>
        requires { lookup (bytes_eq labels.items) self.old.first ≡ Some there }
        ensures { OnOk result (self.new ≡ record {
          room = self.old.room;
          first = with_value V.plus labels.items value self.old.first;
          rest = self.old.rest;
        }) }
    {
        self.values.insert(labels, there.plus(value))?;
        Ok(())
    }

    fn add_new(&mut self, labels: Vec<u8>, value: V) -> Result<(), AllocError>
        requires { lookup (bytes_eq labels.items) self.old.first ≡ None }
        ensures { OnOk result (self.new ≡ record {
          room = self.old.room;
          first = with_value V.plus labels.items value self.old.first;
          rest = self.old.rest;
        }) }
    {
        self.values.insert(labels, value)?;
        Ok(())
    }

    fn add_rest(&mut self, value: V)
        ensures { self.new ≡ record {
          room = self.old.room;
          first = self.old.first;
          rest = Some (option_map_or (λ rest. V.plus rest value) self.old.rest value);
        } }
    {
        let sum = match self.rest {
            Some(rest) => rest.plus(value),
            None => value,
        };
        self.rest = Some(sum);
    }

    /// Adds a value to the one with these labels. Where there is none it begins with the value, if there is room, and else the value goes to the rest.
    pub fn add(&mut self, labels: Vec<u8>, value: V) -> Result<(), AllocError>
        ensures { OnOk result (self.new ≡ spec.with_one V.plus labels.items value self.old) }
    {
        match self.known(labels.as_slice()) {
            Some(there) => self.add_known(labels, there, value),
            None => {
                if self.len() < self.room {
                    self.add_new(labels, value)
                } else {
                    self.add_rest(value);
                    Ok(())
                }
            }
        }
    }
}
