//! One call on an async operation's row.
ghost use Rattle.tk_core.specs.Fold.{Follows};
ghost use Rattle.tk_core.specs.Op.{op_kind};

use crate::attrs::AttrOp;
use crate::limits::MOST_HANDLES;
use crate::op::{OpCall, OpRow};
use crate::reply::{Refusal, Reply};
use tk_ids::TaskId;

impl OpRow {
    /// One call: the next row, and the reply.
    #[inline(always)]
    pub fn step(&self, call: OpCall) -> (OpRow, Reply<OpRow>)
        ensures { Follows op_kind self.now call result }
    {
        match call {
            OpCall::PollStart(moment) => self.start_poll(moment),
            OpCall::PollEnd(moment) => self.end_poll(moment),
            OpCall::Close(moment) => self.close(moment),
            OpCall::SetTask(task) => self.set_task(task),
            OpCall::Attr(index, op) => self.change(index, op),
            OpCall::Enlist => self.enlist(),
            OpCall::Read => (*self, Reply::Shown(*self)),
        }
    }

    fn start_poll(&self, moment: u64) -> (OpRow, Reply<OpRow>)
        ensures { Follows op_kind self.now (OpCall.PollStart moment) result }
    {
        if self.dropped.is_some() {
            return (*self, Reply::Refused(Refusal::Closed));
        }
        if self.polling {
            return (*self, Reply::Refused(Refusal::AlreadyPolling));
        }
        let row = OpRow {
            polls: self.polls.saturating_add(1),
            first_poll: self.first_poll.or(Some(moment)),
            last_started: Some(moment),
            polling: true,
            ..*self
        };
        (row, Reply::Done)
    }

    fn end_poll(&self, moment: u64) -> (OpRow, Reply<OpRow>)
        ensures { Follows op_kind self.now (OpCall.PollEnd moment) result }
    {
        if self.dropped.is_some() {
            return (*self, Reply::Refused(Refusal::Closed));
        }
        if !self.polling {
            return (*self, Reply::Refused(Refusal::NotPolling));
        }
        let started = self.last_started.unwrap_or(moment);
        let row = OpRow {
            last_ended: Some(moment),
            busy: self.busy.saturating_add(moment.saturating_sub(started)),
            polling: false,
            ..*self
        };
        (row, Reply::Done)
    }

    fn close(&self, moment: u64) -> (OpRow, Reply<OpRow>)
        ensures { Follows op_kind self.now (OpCall.Close moment) result }
    {
        if self.dropped.is_some() {
            return (*self, Reply::Refused(Refusal::Closed));
        }
        if self.polling {
            return (*self, Reply::Refused(Refusal::AlreadyPolling));
        }
        let row = OpRow {
            dropped: Some(moment),
            ..*self
        };
        (row, Reply::Done)
    }

    fn set_task(&self, task: TaskId) -> (OpRow, Reply<OpRow>)
        ensures { Follows op_kind self.now (OpCall.SetTask task) result }
    {
        if self.dropped.is_some() {
            return (*self, Reply::Refused(Refusal::Closed));
        }
        let row = OpRow {
            task: Some(task),
            ..*self
        };
        (row, Reply::Done)
    }

    fn change(&self, index: u64, op: AttrOp) -> (OpRow, Reply<OpRow>)
        ensures { Follows op_kind self.now (OpCall.Attr index op) result }
    {
        if self.dropped.is_some() {
            return (*self, Reply::Refused(Refusal::Closed));
        }
        match self.attrs.changed(index, op) {
            Ok(attrs) => (OpRow { attrs, ..*self }, Reply::Done),
            Err(refusal) => (*self, Reply::Refused(refusal)),
        }
    }

    fn enlist(&self) -> (OpRow, Reply<OpRow>)
        ensures { Follows op_kind self.now OpCall.Enlist result }
    {
        if self.handles == MOST_HANDLES {
            return (*self, Reply::Refused(Refusal::HandlesSpent));
        }
        let handles = self.handles.saturating_add(1);
        let row = OpRow { handles, ..*self };
        (row, Reply::Number(handles))
    }
}
