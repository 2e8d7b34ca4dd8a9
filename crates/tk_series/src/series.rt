//! Series of numbers, each with its labels.
ghost use Rattle.std.specs.Prelude.{◌≡◌, [], IfOk, OnOk, length, slice_get, option_map};
ghost use Rattle.tk_series.specs.Series as spec;

use indexmap::IndexMap;
use std::alloc::{AllocError, Global};
use std::marker::Model;

/// What is added up of the things that have the same labels.
pub trait Added: Copy + Clone + Drop {
    ghost plus: { Self → Self → Self };

    /// What both come to.
    fn plus(self, more: Self) -> Self
        ensures { result ≡ plus self more };

    ghost copies: { (a b : Self) → Self.is_clone a b → b ≡ a };
}

/// Series in the order in which their labels were first added.
#[derive(Drop)]
pub struct Series<V: Added> {
    values: IndexMap<Vec<u8>, V>,
}

impl<V: Added> Model for Series<V> {
    ghost use Rattle.std.specs.Prelude.{ℕ, List, map};

    ghost Value = { List (List ℕ × V) };

    ghost view = { λ s. map (λ e. (e.0.items, e.1)) s.values.entries };
}

impl<V: Added> Series<V> {
    pub fn new(alloc: Global) -> Series<V>
        ensures { result ≡ [] }
    {
        Series {
            values: IndexMap::new(alloc),
        }
    }

    pub fn copy(&self) -> Result<Series<V>, AllocError>
        ensures { IfOk result (λ series. series ≡ self.now) }
    {
        let values = self.values.clone()?;
        Ok(Series { values })
    }

    /// How many there are.
    pub fn len(&self) -> usize
        ensures { result ≡ length self.now }
    {
        self.values.len()
    }

    /// The labels and the value of the series at a place.
    pub fn at(&self, i: usize) -> Option<(&[u8], V)>
        ensures { option_map (λ s. (s.0.now, s.1)) result ≡ slice_get self.now i }
    {
        let (labels, value) = self.values.get_index(i)?;
        Some((labels.as_slice(), *value))
    }

    /// Adds a value to the series with these labels, which begins with it where there is none.
    pub fn add(&mut self, labels: Vec<u8>, value: V) -> Result<(), AllocError>
        ensures { OnOk result (self.new ≡ spec.with_value V.plus labels.items value self.old) }
    {
        let sum = match self.values.get(labels.as_slice()) {
            Some(there) => there.plus(value),
            None => value,
        };
        self.values.insert(labels, sum)?;
        Ok(())
    }
}
