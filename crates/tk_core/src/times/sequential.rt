//! The row of a histogram as an object that is stepped by calls.

use crate::reply::Reply;
use crate::sequential::Sequential;
use crate::times::{TimesCall, TimesRow};

impl Sequential for TimesRow {
    ghost use Rattle.tk_core.specs.TimesMeaning.{times_meaning};
    ghost use Rattle.tk_core.specs.Laws.TimesLaws as laws;

    type Call = TimesCall;

    type Reply = Reply<TimesRow>;

    ghost meaning = { times_meaning };

    fn to_words(&self) -> [u64; 16] {
        self.to_words()
    }

    fn from_words(words: &[u64; 16]) -> Option<Self> {
        TimesRow::from_words(words)
    }

    #[inline(always)]
    fn decode(words: &[u64; 16]) -> Self {
        TimesRow::decode(words)
    }

    #[inline(always)]
    fn step(&self, call: TimesCall) -> (TimesRow, Reply<TimesRow>) {
        self.step(call)
    }

    #[inline(always)]
    fn reads_only(call: TimesCall) -> bool {
        match call {
            TimesCall::Read => true,
            _ => false,
        }
    }

    ghost told_apart = { laws.told_apart };

    ghost begins = { laws.begins };

    ghost numbers_are_new = { laws.numbers_are_new };
}
