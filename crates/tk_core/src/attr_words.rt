//! Attribute values as words, and as bits of the flags.
ghost use Rattle.std.specs.Prelude.{◌≡◌, true, ◌<◌, ◌/◌, ◌%◌, ◌^◌, map, slice_get, take, get_or};
ghost use Rattle.tk_core.specs.AttrValues as values;
ghost use Rattle.tk_core.specs.Words.{number_of_bits};
ghost use Rattle.tk_core.specs.AttrWords.{attr_word, is_bool, is_signed, fits_word, attr_flags};
ghost use Rattle.tk_core.specs.Laws.AttrReadBack.{six_from, word_or_zero, fits_word_or_none};

use crate::attr_values::AttrValues;
use tk_ids::{AttrKind, AttrValue};

pub(crate) fn word(value: AttrValue) -> u64
    ensures word { result ≡ attr_word value }
    ensures fits { fits_word value ≡ true }
{
    match value {
        AttrValue::U64(n) => n,
        AttrValue::Bool(b) => u64::from(b),
        AttrValue::I64(n) => n.cast_unsigned(),
    }
}

pub(crate) fn value_by(word: u64, kind: AttrKind) -> AttrValue
    ensures { result ≡ values.value_by word kind }
{
    match kind {
        AttrKind::U64 => AttrValue::U64(word),
        AttrKind::Bool => AttrValue::Bool(word == 1),
        AttrKind::I64 => AttrValue::I64(word.cast_signed()),
    }
}

/// The word of the value at an index, or 0.
pub(crate) fn word_in(list: &[AttrValue], index: usize) -> u64
    ensures word { result ≡ word_or_zero (slice_get list.now index) }
    ensures fits { fits_word_or_none (slice_get list.now index) ≡ true }
{
    match list.get(index) {
        Some(value) => word(*value),
        None => 0,
    }
}

/// The kind of the value at an index, or `U64`.
pub(crate) fn kind_in(list: &[AttrValue], index: usize) -> AttrKind
    ensures { result ≡ values.kind_or_u64 (slice_get list.now index) }
{
    match list.get(index) {
        Some(value) => value.kind(),
        None => AttrKind::U64,
    }
}

/// The word of a value that is kept, and otherwise 0.
pub(crate) fn kept_word(kept: bool, word: u64, kind: AttrKind) -> u64
    ensures word { result ≡ values.kept_word kept word kind }
    ensures fits { fits_word (values.value_by word kind) ≡ true }
{
    let word = self::word(value_by(word, kind));
    if kept { word } else { 0 }
}

/// The kind of a value that is kept, and otherwise `U64`.
pub(crate) fn kept_kind(kept: bool, kind: AttrKind) -> AttrKind
    ensures { result ≡ values.kept_kind kept kind }
{
    if kept { kind } else { AttrKind::U64 }
}

fn kind_of_bits(is_bool: bool, is_signed: bool) -> AttrKind
    ensures { result ≡ values.kind_of_bits is_bool is_signed }
{
    if is_bool {
        AttrKind::Bool
    } else if is_signed {
        AttrKind::I64
    } else {
        AttrKind::U64
    }
}

impl AttrValues {
    fn bools(&self) -> u64
        ensures value { result ≡ number_of_bits (map is_bool self.now) }
        ensures bits { result < 64 }
    {
        // What is known of the values is in `len`'s contract.
        let _within = self.len();
        self.bool_at(0)
            + 2 * self.bool_at(1)
            + 4 * self.bool_at(2)
            + 8 * self.bool_at(3)
            + 16 * self.bool_at(4)
            + 32 * self.bool_at(5)
    }

    fn signs(&self) -> u64
        ensures value { result ≡ number_of_bits (map is_signed self.now) }
        ensures bits { result < 64 }
    {
        // What is known of the values is in `len`'s contract.
        let _within = self.len();
        self.sign_at(0)
            + 2 * self.sign_at(1)
            + 4 * self.sign_at(2)
            + 8 * self.sign_at(3)
            + 16 * self.sign_at(4)
            + 32 * self.sign_at(5)
    }

    /// The bits of the flags that say how many values there are, and of which kinds.
    pub(crate) fn flags(&self) -> u64
        ensures value { result ≡ attr_flags self.now }
        ensures bits { result < 2 ^ 30 }
    {
        256 * self.len() as u64 + 65536 * self.bools() + 16777216 * self.signs()
    }

    /// The values that these flags and words are those of, where they are those of any.
    #[inline(always)]
    pub(crate) fn from_words(flags: u64, words: &[u64; 6]) -> Self
        ensures { result ≡ take (flags / 256 % 8) (six_from (flags / 65536 % 256) (flags / 16777216) (get_or words.now 0 0) (get_or words.now 1 0) (get_or words.now 2 0) (get_or words.now 3 0) (get_or words.now 4 0) (get_or words.now 5 0)) }
    {
        // The bits of the kinds from each attribute on.
        let bools = flags / 65536 % 256;
        let bools_1 = bools / 2;
        let bools_2 = bools_1 / 2;
        let bools_3 = bools_2 / 2;
        let bools_4 = bools_3 / 2;
        let bools_5 = bools_4 / 2;
        let signs = flags / 16777216;
        let signs_1 = signs / 2;
        let signs_2 = signs_1 / 2;
        let signs_3 = signs_2 / 2;
        let signs_4 = signs_3 / 2;
        let signs_5 = signs_4 / 2;
        let kinds = [
            kind_of_bits(bools % 2 == 1, signs % 2 == 1),
            kind_of_bits(bools_1 % 2 == 1, signs_1 % 2 == 1),
            kind_of_bits(bools_2 % 2 == 1, signs_2 % 2 == 1),
            kind_of_bits(bools_3 % 2 == 1, signs_3 % 2 == 1),
            kind_of_bits(bools_4 % 2 == 1, signs_4 % 2 == 1),
            kind_of_bits(bools_5 % 2 == 1, signs_5 % 2 == 1),
        ];
        AttrValues::first_of(words, &kinds, flags / 256 % 8)
    }
}
