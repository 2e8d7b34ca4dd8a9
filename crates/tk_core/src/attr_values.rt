//! The values of an item's attributes.
//!
//! They are kept in place as words and kinds, one after another, with zeros up to six, so that a row is small and `Copy`.
ghost use Rattle.std.specs.Prelude.{◌≡◌, true, ◌≤◌, ◌<◌, ◌↔◌, IsTrue, [], length, slice_get, slice_set, take};
ghost use Rattle.tk_core.specs.AttrValues.{values_by};
ghost use Rattle.tk_core.specs.AttrWords.{fit_words};
ghost use Rattle.tk_core.specs.Laws.AttrReadBack.{word_or_zero, bool_bit, sign_bit};

use crate::attr_words::{kept_kind, kept_word, kind_in, value_by, word, word_in};
use crate::attrs::AttrOp;
use crate::reply::Refusal;
use std::marker::Model;
use tk_ids::{AttrKind, AttrValue};

/// The values of an item's attributes, at most six. A contract sees the list of them.
#[derive(Clone, Copy, Debug, PartialEq, Eq)]
pub struct AttrValues {
    words: [u64; 6],
    kinds: [AttrKind; 6],
    count: u8,
}

impl Model for AttrValues {
    ghost use Rattle.std.specs.Prelude.{List};
    ghost use Rattle.tk_ids.specs.declared.attr.AttrValue.{AttrValue};

    ghost Value = { List AttrValue };

    ghost use Rattle.tk_core.specs.AttrValues.{view_of, IsPadded, fields_of, fields_of_view};

    ghost view = { view_of };

    ghost invariant = { IsPadded };

    ghost inverse = { fields_of };

    ghost inverse_ok = { fields_of_view };
}

/// Attribute values as a slice shows them.
#[derive(Drop)]
pub struct AttrList {
    values: [AttrValue; 6],
    count: usize,
}

impl Model for AttrList {
    ghost use Rattle.std.specs.Prelude.{List, ◌≤◌, ◌≡◌, length, take};
    ghost use Rattle.tk_ids.specs.declared.attr.AttrValue.{AttrValue};

    ghost Value = { List AttrValue };

    ghost view = { λ a. take a.count a.values };

    ghost invariant = { λ a. (a.count ≤ 6) × (length a.values ≡ 6) };
}

impl AttrList {
    /// The values.
    pub fn as_slice(&self) -> &[AttrValue]
        ensures { result.now ≡ self.now }
    {
        &self.values[..self.count]
    }
}

impl AttrValues {
    /// The values that a slice holds, at most six.
    pub fn new(values: &[AttrValue]) -> Self
        requires { length values.now ≤ 6 }
        ensures { result ≡ values.now }
    {
        AttrValues {
            words: [
                word_in(values, 0),
                word_in(values, 1),
                word_in(values, 2),
                word_in(values, 3),
                word_in(values, 4),
                word_in(values, 5),
            ],
            kinds: [
                kind_in(values, 0),
                kind_in(values, 1),
                kind_in(values, 2),
                kind_in(values, 3),
                kind_in(values, 4),
                kind_in(values, 5),
            ],
            count: values.len() as u8,
        }
    }

    /// The first few of six values, by their words and kinds.
    pub(crate) fn first_of(words: &[u64; 6], kinds: &[AttrKind; 6], count: u64) -> Self
        ensures { result ≡ take count (values_by words.now kinds.now) }
    {
        AttrValues {
            words: [
                kept_word(count > 0, words[0], kinds[0]),
                kept_word(count > 1, words[1], kinds[1]),
                kept_word(count > 2, words[2], kinds[2]),
                kept_word(count > 3, words[3], kinds[3]),
                kept_word(count > 4, words[4], kinds[4]),
                kept_word(count > 5, words[5], kinds[5]),
            ],
            kinds: [
                kept_kind(count > 0, kinds[0]),
                kept_kind(count > 1, kinds[1]),
                kept_kind(count > 2, kinds[2]),
                kept_kind(count > 3, kinds[3]),
                kept_kind(count > 4, kinds[4]),
                kept_kind(count > 5, kinds[5]),
            ],
            count: count.min(6) as u8,
        }
    }

    /// How many there are.
    pub fn len(&self) -> usize
        ensures length { result ≡ length self.now }
        ensures within { result ≤ 6 }
        ensures fits { fit_words self.now ≡ true }
    {
        usize::from(self.count)
    }

    /// Whether there is none.
    pub fn is_empty(&self) -> bool
        ensures { IsTrue result ↔ (self.now ≡ []) }
    {
        self.count == 0
    }

    /// The values, to be looked through as a slice.
    pub fn list(&self) -> AttrList
        ensures { result ≡ self.now }
    {
        let [a, b, c, d, e, f] = self.words;
        let [k, l, m, n, o, p] = self.kinds;
        AttrList {
            values: [
                value_by(a, k),
                value_by(b, l),
                value_by(c, m),
                value_by(d, n),
                value_by(e, o),
                value_by(f, p),
            ],
            count: self.len(),
        }
    }

    /// The word of the value at an index, or 0.
    pub(crate) fn word_at(&self, index: usize) -> u64
        requires { index < 6 }
        ensures { result ≡ word_or_zero (slice_get self.now index) }
    {
        self.words[index]
    }

    /// 1 where a `Bool` stands at an index, and otherwise 0.
    pub(crate) fn bool_at(&self, index: usize) -> u64
        requires { index < 6 }
        ensures value { result ≡ bool_bit (slice_get self.now index) }
        ensures bit { result < 2 }
    {
        u64::from(self.kinds[index] == AttrKind::Bool)
    }

    /// 1 where an `I64` stands at an index, and otherwise 0.
    pub(crate) fn sign_at(&self, index: usize) -> u64
        requires { index < 6 }
        ensures value { result ≡ sign_bit (slice_get self.now index) }
        ensures bit { result < 2 }
    {
        u64::from(self.kinds[index] == AttrKind::I64)
    }

    /// The value at an index, counted from 0, if there is one.
    pub fn get(&self, index: u64) -> Option<AttrValue>
        ensures { result ≡ slice_get self.now index }
    {
        if index >= u64::from(self.count) {
            return None;
        }
        let i = index as usize;
        Some(value_by(self.words[i], self.kinds[i]))
    }

    /// The values with another one at an index.
    pub(crate) fn with(&self, index: u64, value: AttrValue) -> Self
        requires { index < length self.now }
        ensures { result ≡ slice_set self.now index value }
    {
        let i = index as usize;
        let mut words = self.words;
        let mut kinds = self.kinds;
        words[i] = word(value);
        kinds[i] = value.kind();
        AttrValues {
            words,
            kinds,
            count: self.count,
        }
    }
}

/// Changes.
impl AttrValues {
    ghost use Rattle.std.specs.Prelude.{◌≡◌, MatchResult, Some, None, slice_get};
    ghost use Rattle.tk_core.specs.Attributes.{refused_by};
    ghost use Rattle.tk_core.specs.Laws.AttributeSteps.{replaced};

    /// The values after a change of the one at an index, or why it is refused.
    pub(crate) fn changed(&self, index: u64, op: AttrOp) -> Result<AttrValues, Refusal>
        ensures { MatchResult result
            (λ next. (refused_by (slice_get self.now index) op ≡ None) × (next ≡ replaced self.now index op (slice_get self.now index)))
            (λ refusal. refused_by (slice_get self.now index) op ≡ Some refusal) }
    {
        let Some(value) = self.get(index) else {
            return Err(Refusal::NoAttribute);
        };
        let next = op.applied_to(value)?;
        Ok(self.with(index, next))
    }
}
