//! Lists of calls from a small generator, each from a seed, so that every run has the same ones.

use tk_core::{AttrOp, OpCall, ResourceCall, TaskCall};
use tk_ids::{AttrValue, TaskId};

/// A linear congruential generator.
#[derive(Drop)]
pub struct Random {
    state: u64,
}

// Moments and values at the ends of their ranges, near each other, and out of order.
const NUMBERS: [u64; 16] = [
    0,
    1,
    2,
    5,
    99,
    100,
    101,
    1000,
    40,
    7,
    1 << 32,
    1 << 63,
    (1 << 63) - 1,
    u64::MAX / 3,
    u64::MAX - 1,
    u64::MAX,
];

impl Random {
    pub fn new(seed: u64) -> Self {
        Random { state: seed }
    }

    fn next(&mut self) -> u64 {
        self.state = self
            .state
            .wrapping_mul(6364136223846793005)
            .wrapping_add(1442695040888963407);
        self.state >> 33
    }

    fn number(&mut self) -> u64 {
        NUMBERS[(self.next() % 16) as usize]
    }

    // Mostly small ones, so that sums stay in range for a while.
    fn amount(&mut self) -> u64 {
        if self.next() % 4 == 0 {
            self.number()
        } else {
            self.next() % 8
        }
    }

    fn flag(&mut self) -> bool {
        self.next() % 2 == 0
    }

    pub fn task_call(&mut self) -> TaskCall {
        match self.next() % 40 {
            0 => TaskCall::Close(self.number()),
            1..=8 => TaskCall::PollStart(self.number()),
            9..=16 => TaskCall::PollEnd(self.number()),
            17..=20 => TaskCall::CloneWaker,
            21..=24 => TaskCall::WakeVal(self.number(), self.flag()),
            25..=32 => TaskCall::WakeRef(self.number(), self.flag()),
            33..=35 => TaskCall::Release,
            36..=37 => TaskCall::Enlist,
            _ => TaskCall::Read,
        }
    }

    fn value(&mut self) -> AttrValue {
        match self.next() % 8 {
            0 => AttrValue::Bool(self.flag()),
            1..=3 => AttrValue::I64(self.amount().cast_signed()),
            _ => AttrValue::U64(self.amount()),
        }
    }

    fn attr_op(&mut self) -> AttrOp {
        match self.next() % 5 {
            0 => AttrOp::Override(self.value()),
            1..=2 => AttrOp::Add(self.value()),
            _ => AttrOp::Sub(self.value()),
        }
    }

    pub fn resource_call(&mut self) -> ResourceCall {
        match self.next() % 60 {
            0 => ResourceCall::Close(self.number()),
            1..=5 => ResourceCall::Enlist,
            6..=10 => ResourceCall::Read,
            _ => ResourceCall::Attr(self.next() % 7, self.attr_op()),
        }
    }

    pub fn op_call(&mut self, tasks: &[TaskId]) -> OpCall {
        match self.next() % 60 {
            0 => OpCall::Close(self.number()),
            1..=3 => OpCall::Enlist,
            4..=6 => OpCall::Read,
            7..=16 => OpCall::PollStart(self.number()),
            17..=26 => OpCall::PollEnd(self.number()),
            27..=30 => match tasks.first() {
                Some(task) => OpCall::SetTask(*task),
                None => OpCall::Read,
            },
            31..=33 => match tasks.last() {
                Some(task) => OpCall::SetTask(*task),
                None => OpCall::Read,
            },
            _ => OpCall::Attr(self.next() % 7, self.attr_op()),
        }
    }
}
