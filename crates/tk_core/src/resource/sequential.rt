//! A resource's row as an object that is stepped by calls.

use crate::reply::Reply;
use crate::resource::{ResourceCall, ResourceRow};
use crate::sequential::Sequential;

impl Sequential for ResourceRow {
    ghost use Rattle.tk_core.specs.ResourceMeaning.{resource_meaning};
    ghost use Rattle.tk_core.specs.Laws.ResourceLaws as laws;

    type Call = ResourceCall;

    type Reply = Reply<ResourceRow>;

    ghost meaning = { resource_meaning };

    fn to_words(&self) -> [u64; 16] {
        self.to_words()
    }

    fn from_words(words: &[u64; 16]) -> Option<Self> {
        ResourceRow::from_words(words)
    }

    #[inline(always)]
    fn decode(words: &[u64; 16]) -> Self {
        ResourceRow::decode(words)
    }

    #[inline(always)]
    fn step(&self, call: ResourceCall) -> (ResourceRow, Reply<ResourceRow>) {
        self.step(call)
    }

    #[inline(always)]
    fn reads_only(call: ResourceCall) -> bool {
        match call {
            ResourceCall::Read => true,
            _ => false,
        }
    }

    ghost told_apart = { laws.told_apart };

    ghost begins = { laws.begins };

    ghost numbers_are_new = { laws.numbers_are_new };
}
