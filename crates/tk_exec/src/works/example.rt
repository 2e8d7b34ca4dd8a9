//! One of the example works.

use crate::work::Work;
use crate::works::{BusyUntil, HoldWaker, LoseWaker, YieldTimes};
use futures::task::Poll;
use std::sync::Wait;
use tk_ledgers::PollScope;

/// One of the example works, so that an executor can hold several kinds.
#[derive(Drop)]
pub enum Example {
    /// It wakes itself some times.
    Yield(YieldTimes),
    /// It keeps a waker.
    Hold(HoldWaker),
    /// It loses its wakers.
    Lose(LoseWaker),
    /// It wakes itself until a moment.
    Busy(BusyUntil),
}

impl Work for Example {
    ghost use Rattle.tk_exec.specs.Works.{example_gives, example_polls};

    type Out = u64;

    ghost gives = { example_gives };

    ghost polls = { example_polls };

    fn poll<R: Wait>(&mut self, rt: &R, scope: &mut PollScope) -> Poll<u64> {
        match self {
            Example::Yield(work) => work.poll(rt, scope),
            Example::Hold(work) => work.poll(rt, scope),
            Example::Lose(work) => work.poll(rt, scope),
            Example::Busy(work) => work.poll(rt, scope),
        }
    }
}
