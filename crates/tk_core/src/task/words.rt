//! A task's row as sixteen words.
ghost use Rattle.std.specs.Prelude.{◌≡◌, ◌↔◌, ◌/◌, ◌%◌, ◌^◌, ◌<◌, ◌==◌, true, Some, None, if◌then◌else◌};
ghost use Rattle.tk_core.specs.Task.{capped_wait};
ghost use Rattle.tk_core.specs.Words.{number_of_bits};
ghost use Rattle.tk_core.specs.TaskWords.{words_of, bits_of, flags_of, so_far_of, fits};
ghost use Rattle.tk_core.specs.declared.task.row.TaskRow.{TaskRow};

use crate::moment::moment_of;
use crate::task::{TaskRow, WaitSoFar, Waits};

/// What was counted of the wait that lasts, or 0 where waits aren't counted.
#[inline(always)]
fn so_far(waits: Option<Waits>) -> u64
    ensures word { result ≡ so_far_of waits }
    ensures within { result < 2 ^ 56 }
    ensures fits { fits waits ≡ true }
{
    match waits {
        Some(waits) => waits.so_far.nanos(),
        None => 0,
    }
}

/// What is counted of a task's waits, by the flags from bit 7 on and the word of all waits.
#[inline(always)]
fn waits_of(from_7: u64, total: u64) -> Option<Waits>
    ensures { result ≡ if from_7 % 2 == 1 then Some (record { total = total; so_far = capped_wait (from_7 / 2) }) else None }
{
    if from_7 % 2 == 1 {
        let so_far = WaitSoFar::capped(from_7 / 2);
        Some(Waits { total, so_far })
    } else {
        None
    }
}

impl TaskRow {
    #[inline(always)]
    fn bits(&self) -> u64
        ensures value { result ≡ number_of_bits (bits_of self.now) }
        ensures few { result < 256 }
    {
        let dropped = u64::from(self.dropped.is_some());
        let first_poll = u64::from(self.first_poll.is_some());
        let last_started = u64::from(self.last_started.is_some());
        let last_ended = u64::from(self.last_ended.is_some());
        let last_wake = u64::from(self.last_wake.is_some());
        let polling = u64::from(self.polling);
        let scheduled = u64::from(self.scheduled);
        let waits = u64::from(self.waits.is_some());
        dropped
            + 2 * first_poll
            + 4 * last_started
            + 8 * last_ended
            + 16 * last_wake
            + 32 * polling
            + 64 * scheduled
            + 128 * waits
    }

    /// The flags, above whose eight bits stands what was counted of the wait that lasts.
    #[inline(always)]
    fn flags(&self) -> u64
        ensures { result ≡ flags_of self.now }
    {
        self.bits() + 256 * so_far(self.waits)
    }

    /// The words of the row.
    #[tactic(auto, unfolding(crate::specs::TaskWords::words_of))]
    #[inline(always)]
    pub fn to_words(&self) -> [u64; 16]
        ensures { result ≡ words_of self.now }
    {
        [
            self.flags(),
            self.created,
            self.dropped.unwrap_or(0),
            self.polls,
            self.first_poll.unwrap_or(0),
            self.last_started.unwrap_or(0),
            self.last_ended.unwrap_or(0),
            self.busy,
            self.wakes,
            self.self_wakes,
            self.last_wake.unwrap_or(0),
            self.clones,
            self.drops,
            self.handles,
            self.sched,
            self.waited().unwrap_or(0),
        ]
    }

    /// The row that has these words, where there is one, and otherwise some row.
    #[inline(always)]
    pub(crate) fn decode(words: &[u64; 16]) -> Self
        ensures { (row : TaskRow) → words_of row ≡ words.now → result ≡ row }
    {
        // The flags from each bit on.
        let flags = words[0];
        let from_1 = flags / 2;
        let from_2 = from_1 / 2;
        let from_3 = from_2 / 2;
        let from_4 = from_3 / 2;
        let from_5 = from_4 / 2;
        let from_6 = from_5 / 2;
        let from_7 = from_6 / 2;
        TaskRow {
            created: words[1],
            dropped: moment_of(flags % 2 == 1, words[2]),
            polls: words[3],
            first_poll: moment_of(from_1 % 2 == 1, words[4]),
            last_started: moment_of(from_2 % 2 == 1, words[5]),
            last_ended: moment_of(from_3 % 2 == 1, words[6]),
            busy: words[7],
            wakes: words[8],
            self_wakes: words[9],
            last_wake: moment_of(from_4 % 2 == 1, words[10]),
            clones: words[11],
            drops: words[12],
            handles: words[13],
            sched: words[14],
            waits: waits_of(from_7, words[15]),
            polling: from_5 % 2 == 1,
            scheduled: from_6 % 2 == 1,
        }
    }

    /// The row that has these words: `None` exactly where no row has them.
    #[inline(always)]
    pub fn from_words(words: &[u64; 16]) -> Option<Self>
        ensures { (row : TaskRow) → (result ≡ Some row) ↔ (words_of row ≡ words.now) }
    {
        let row = Self::decode(words);
        // Words that no row has are not those of the row that was made of them.
        if row.to_words() == *words {
            Some(row)
        } else {
            None
        }
    }
}
