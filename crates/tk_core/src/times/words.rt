//! The row of a histogram as sixteen words.
ghost use Rattle.std.specs.Prelude.{◌≡◌, ◌↔◌};
ghost use Rattle.tk_core.specs.TimesWords.{words_of};
ghost use Rattle.tk_core.specs.declared.times.row.TimesRow.{TimesRow};

use crate::times::TimesRow;

impl TimesRow {
    /// The words of the row.
    #[inline(always)]
    pub fn to_words(&self) -> [u64; 16]
        ensures { result ≡ words_of self.now }
    {
        let [a, b, c, d, e, f, g, h, i, j, k, l, m, n] = self.counts;
        [
            self.handles,
            self.longest,
            a,
            b,
            c,
            d,
            e,
            f,
            g,
            h,
            i,
            j,
            k,
            l,
            m,
            n,
        ]
    }

    /// The row that has these words.
    #[inline(always)]
    pub(crate) fn decode(words: &[u64; 16]) -> Self
        ensures { words_of result ≡ words.now }
    {
        let [handles, longest, a, b, c, d, e, f, g, h, i, j, k, l, m, n] = *words;
        TimesRow {
            handles,
            longest,
            counts: [a, b, c, d, e, f, g, h, i, j, k, l, m, n],
        }
    }

    /// The row that has these words. All words are a row's.
    #[inline(always)]
    pub fn from_words(words: &[u64; 16]) -> Option<Self>
        ensures { (row : TimesRow) → (result ≡ Some row) ↔ (words_of row ≡ words.now) }
    {
        Some(Self::decode(words))
    }
}
