//! A resource's row as sixteen words.
ghost use Rattle.std.specs.Prelude.{◌≡◌, ◌↔◌};
ghost use Rattle.tk_core.specs.ResourceWords.{words_of};
ghost use Rattle.tk_core.specs.declared.resource.row.ResourceRow.{ResourceRow};

use crate::attr_values::AttrValues;
use crate::moment::moment_of;
use crate::resource::ResourceRow;

impl ResourceRow {
    /// The words of the row.
    pub fn to_words(&self) -> [u64; 16]
        ensures { result ≡ words_of self.now }
    {
        // What is known of the values is in `len`'s contract.
        let _within = self.attrs.len();
        let dropped = u64::from(self.dropped.is_some());
        let flags = dropped + self.attrs.flags();
        [
            flags,
            self.created,
            self.dropped.unwrap_or(0),
            self.handles,
            self.attrs.word_at(0),
            self.attrs.word_at(1),
            self.attrs.word_at(2),
            self.attrs.word_at(3),
            self.attrs.word_at(4),
            self.attrs.word_at(5),
            0,
            0,
            0,
            0,
            0,
            0,
        ]
    }

    /// The row that has these words, where there is one, and otherwise some row.
    #[inline(always)]
    pub(crate) fn decode(words: &[u64; 16]) -> Self
        ensures { (row : ResourceRow) → words_of row ≡ words.now → result ≡ row }
    {
        let flags = words[0];
        let attrs = [words[4], words[5], words[6], words[7], words[8], words[9]];
        ResourceRow {
            created: words[1],
            dropped: moment_of(flags % 2 == 1, words[2]),
            handles: words[3],
            attrs: AttrValues::from_words(flags, &attrs),
        }
    }

    /// The row that has these words: `None` exactly where no row has them.
    pub fn from_words(words: &[u64; 16]) -> Option<Self>
        ensures { (row : ResourceRow) → (result ≡ Some row) ↔ (words_of row ≡ words.now) }
    {
        let row = Self::decode(words);
        // Words that no row has are not those of the row that was made of them.
        if row.to_words() == *words {
            Some(row)
        } else {
            None
        }
    }
}
