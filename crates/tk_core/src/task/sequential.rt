//! A task's row as an object that is stepped by calls.

use crate::reply::Reply;
use crate::sequential::Sequential;
use crate::task::{TaskCall, TaskRow};

impl Sequential for TaskRow {
    ghost use Rattle.tk_core.specs.TaskMeaning.{task_meaning};
    ghost use Rattle.tk_core.specs.Laws.TaskLaws as laws;

    type Call = TaskCall;

    type Reply = Reply<TaskRow>;

    ghost meaning = { task_meaning };

    #[inline(always)]
    fn to_words(&self) -> [u64; 16] {
        self.to_words()
    }

    #[inline(always)]
    fn from_words(words: &[u64; 16]) -> Option<Self> {
        TaskRow::from_words(words)
    }

    #[inline(always)]
    fn decode(words: &[u64; 16]) -> Self {
        TaskRow::decode(words)
    }

    #[inline(always)]
    fn step(&self, call: TaskCall) -> (TaskRow, Reply<TaskRow>) {
        self.step(call)
    }

    #[inline(always)]
    fn reads_only(call: TaskCall) -> bool {
        match call {
            TaskCall::Read => true,
            _ => false,
        }
    }

    ghost told_apart = { laws.told_apart };

    ghost begins = { laws.begins };

    ghost numbers_are_new = { laws.numbers_are_new };
}
