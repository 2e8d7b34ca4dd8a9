//! An async operation's row as an object that is stepped by calls.

use crate::op::{OpCall, OpRow};
use crate::reply::Reply;
use crate::sequential::Sequential;

impl Sequential for OpRow {
    ghost use Rattle.tk_core.specs.OpMeaning.{op_meaning};
    ghost use Rattle.tk_core.specs.Laws.OpLaws as laws;

    type Call = OpCall;

    type Reply = Reply<OpRow>;

    ghost meaning = { op_meaning };

    fn to_words(&self) -> [u64; 16] {
        self.to_words()
    }

    fn from_words(words: &[u64; 16]) -> Option<Self> {
        OpRow::from_words(words)
    }

    #[inline(always)]
    fn decode(words: &[u64; 16]) -> Self {
        OpRow::decode(words)
    }

    #[inline(always)]
    fn step(&self, call: OpCall) -> (OpRow, Reply<OpRow>) {
        self.step(call)
    }

    #[inline(always)]
    fn reads_only(call: OpCall) -> bool {
        match call {
            OpCall::Read => true,
            _ => false,
        }
    }

    ghost told_apart = { laws.told_apart };

    ghost begins = { laws.begins };

    ghost numbers_are_new = { laws.numbers_are_new };
}
