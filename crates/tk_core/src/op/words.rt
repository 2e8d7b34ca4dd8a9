//! An async operation's row as sixteen words.
ghost use Rattle.std.specs.Prelude.{◌≡◌, ◌↔◌, ◌<◌, true, if◌then◌else◌};
ghost use Rattle.tk_ids.specs.Ids.{is_id};
ghost use Rattle.tk_core.specs.Words.{number_of_bits};
ghost use Rattle.tk_core.specs.OpWords.{names_task, task_word, bits_of, words_of};
ghost use Rattle.tk_core.specs.declared.op.row.OpRow.{OpRow};

use crate::attr_values::AttrValues;
use crate::moment::moment_of;
use crate::op::OpRow;
use tk_ids::TaskId;

/// The word of a task, or 0.
fn task_word(task: Option<TaskId>) -> u64
    ensures word { result ≡ task_word task }
    ensures id { names_task task ≡ true }
{
    match task {
        Some(id) => id.value(),
        None => 0,
    }
}

/// The task that a word names, if it names one.
fn task_of(word: u64) -> Option<TaskId>
    ensures { result ≡ if is_id word then Some word else None }
{
    TaskId::from_value(word).ok()
}

impl OpRow {
    fn bits(&self) -> u64
        ensures value { result ≡ number_of_bits (bits_of self.now) }
        ensures few { result < 32 }
    {
        let dropped = u64::from(self.dropped.is_some());
        let first_poll = u64::from(self.first_poll.is_some());
        let last_started = u64::from(self.last_started.is_some());
        let last_ended = u64::from(self.last_ended.is_some());
        let polling = u64::from(self.polling);
        dropped + 2 * first_poll + 4 * last_started + 8 * last_ended + 16 * polling
    }

    /// The words of the row.
    pub fn to_words(&self) -> [u64; 16]
        ensures { result ≡ words_of self.now }
    {
        // What is known of the values is in `len`'s contract.
        let _within = self.attrs.len();
        [
            self.bits() + self.attrs.flags(),
            self.created,
            self.dropped.unwrap_or(0),
            self.polls,
            self.first_poll.unwrap_or(0),
            self.last_started.unwrap_or(0),
            self.last_ended.unwrap_or(0),
            self.busy,
            self.handles,
            task_word(self.task),
            self.attrs.word_at(0),
            self.attrs.word_at(1),
            self.attrs.word_at(2),
            self.attrs.word_at(3),
            self.attrs.word_at(4),
            self.attrs.word_at(5),
        ]
    }

    /// The row that has these words, where there is one, and otherwise some row.
    #[inline(always)]
    pub(crate) fn decode(words: &[u64; 16]) -> Self
        ensures { (row : OpRow) → words_of row ≡ words.now → result ≡ row }
    {
        // The flags from each bit on.
        let flags = words[0];
        let from_1 = flags / 2;
        let from_2 = from_1 / 2;
        let from_3 = from_2 / 2;
        let from_4 = from_3 / 2;
        let attrs = [
            words[10], words[11], words[12], words[13], words[14], words[15],
        ];
        OpRow {
            created: words[1],
            dropped: moment_of(flags % 2 == 1, words[2]),
            polls: words[3],
            first_poll: moment_of(from_1 % 2 == 1, words[4]),
            last_started: moment_of(from_2 % 2 == 1, words[5]),
            last_ended: moment_of(from_3 % 2 == 1, words[6]),
            busy: words[7],
            handles: words[8],
            task: task_of(words[9]),
            polling: from_4 % 2 == 1,
            attrs: AttrValues::from_words(flags, &attrs),
        }
    }

    /// The row that has these words: `None` exactly where no row has them.
    pub fn from_words(words: &[u64; 16]) -> Option<Self>
        ensures { (row : OpRow) → (result ≡ Some row) ↔ (words_of row ≡ words.now) }
    {
        let row = Self::decode(words);
        // Words that no row has are not those of the row that was made of them.
        if row.to_words() == *words {
            Some(row)
        } else {
            None
        }
    }
}
