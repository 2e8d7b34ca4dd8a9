//! One call on a task's row.
ghost use Rattle.tk_core.specs.Fold.{Follows};
ghost use Rattle.tk_core.specs.Task.{task_kind};

use crate::limits::MOST_HANDLES;
use crate::reply::{Refusal, Reply, WakeReply};
use crate::task::{TaskCall, TaskRow, WaitSoFar, Waits};

impl TaskRow {
    /// One call: the next row, and the reply.
    #[inline(always)]
    pub fn step(&self, call: TaskCall) -> (TaskRow, Reply<TaskRow>)
        ensures { Follows task_kind self.now call result }
    {
        match call {
            TaskCall::PollStart(moment) => self.start_poll(moment),
            TaskCall::PollEnd(moment) => self.end_poll(moment),
            TaskCall::Close(moment) => self.close(moment),
            TaskCall::CloneWaker => self.clone_waker(),
            TaskCall::WakeVal(moment, from_self) => self.wake_by_value(moment, from_self),
            TaskCall::WakeRef(moment, from_self) => self.wake_by_ref(moment, from_self),
            TaskCall::Release => self.release(),
            TaskCall::Enlist => self.enlist(),
            TaskCall::Read => (*self, Reply::Shown(*self)),
        }
    }

    #[inline(always)]
    fn start_poll(&self, moment: u64) -> (TaskRow, Reply<TaskRow>)
        ensures { Follows task_kind self.now (TaskCall.PollStart moment) result }
    {
        if self.dropped.is_some() {
            return (*self, Reply::Refused(Refusal::Closed));
        }
        if self.polling {
            return (*self, Reply::Refused(Refusal::AlreadyPolling));
        }
        let row = TaskRow {
            polls: self.polls.saturating_add(1),
            first_poll: self.first_poll.or(Some(moment)),
            last_started: Some(moment),
            sched: self.sched.saturating_add(self.lasting(moment)),
            waits: self.waits_until(moment),
            polling: true,
            scheduled: false,
            ..*self
        };
        (row, Reply::Done)
    }

    #[inline(always)]
    fn end_poll(&self, moment: u64) -> (TaskRow, Reply<TaskRow>)
        ensures { Follows task_kind self.now (TaskCall.PollEnd moment) result }
    {
        if self.dropped.is_some() {
            return (*self, Reply::Refused(Refusal::Closed));
        }
        if !self.polling {
            return (*self, Reply::Refused(Refusal::NotPolling));
        }
        let started = self.last_started.unwrap_or(moment);
        let row = TaskRow {
            last_ended: Some(moment),
            busy: self.busy.saturating_add(moment.saturating_sub(started)),
            waits: self.waits_at_end(),
            polling: false,
            ..*self
        };
        (row, Reply::Done)
    }

    #[inline(always)]
    fn close(&self, moment: u64) -> (TaskRow, Reply<TaskRow>)
        ensures { Follows task_kind self.now (TaskCall.Close moment) result }
    {
        if self.dropped.is_some() {
            return (*self, Reply::Refused(Refusal::Closed));
        }
        if self.polling {
            return (*self, Reply::Refused(Refusal::AlreadyPolling));
        }
        let row = TaskRow {
            dropped: Some(moment),
            waits: self.waits_until(moment),
            scheduled: false,
            ..*self
        };
        (row, Reply::Done)
    }

    #[inline(always)]
    fn clone_waker(&self) -> (TaskRow, Reply<TaskRow>)
        ensures { Follows task_kind self.now TaskCall.CloneWaker result }
    {
        if self.handles == MOST_HANDLES {
            return (*self, Reply::Refused(Refusal::HandlesSpent));
        }
        let handles = self.handles.saturating_add(1);
        let row = TaskRow {
            clones: self.clones.saturating_add(1),
            handles,
            ..*self
        };
        (row, Reply::Number(handles))
    }

    #[inline(always)]
    fn wake_by_value(&self, moment: u64, from_self: bool) -> (TaskRow, Reply<TaskRow>)
        ensures { Follows task_kind self.now (TaskCall.WakeVal moment from_self) result }
    {
        let drops = self.drops.saturating_add(1);
        let row = TaskRow {
            drops,
            ..self.woken(moment, from_self)
        };
        (row, Reply::Woken(self.found_by_wake()))
    }

    #[inline(always)]
    fn wake_by_ref(&self, moment: u64, from_self: bool) -> (TaskRow, Reply<TaskRow>)
        ensures { Follows task_kind self.now (TaskCall.WakeRef moment from_self) result }
    {
        (
            self.woken(moment, from_self),
            Reply::Woken(self.found_by_wake()),
        )
    }

    #[inline(always)]
    fn release(&self) -> (TaskRow, Reply<TaskRow>)
        ensures { Follows task_kind self.now TaskCall.Release result }
    {
        let row = TaskRow {
            drops: self.drops.saturating_add(1),
            ..*self
        };
        (row, Reply::Done)
    }

    #[inline(always)]
    fn enlist(&self) -> (TaskRow, Reply<TaskRow>)
        ensures { Follows task_kind self.now TaskCall.Enlist result }
    {
        if self.handles == MOST_HANDLES {
            return (*self, Reply::Refused(Refusal::HandlesSpent));
        }
        let handles = self.handles.saturating_add(1);
        let row = TaskRow { handles, ..*self };
        (row, Reply::Number(handles))
    }
}

/// Parts of the calls.
impl TaskRow {
    ghost use Rattle.std.specs.Prelude.{◌≡◌, ◌+◌, ◌-◌, ◌^◌, min, max, Option, Some, None, unwrap_or, is_some, not, if◌then◌else◌};
    ghost use Rattle.std.specs.Option.{option_map};
    ghost use Rattle.tk_core.specs.Task.{found_by_wake, awaits_poll, waits_since, lasting, waits_until, after_end, waited_of, waited_until, waiting_since, wait_ended_by};

    /// Since when it may have waited: the greatest of its creation, its wakes, and the last end of a poll.
    #[inline(always)]
    fn waits_since(&self) -> u64
        ensures { result ≡ waits_since self.now }
    {
        let woken = self.last_wake.unwrap_or(0);
        let ended = self.last_ended.unwrap_or(0);
        self.created.max(woken.max(ended))
    }

    /// How much longer it has waited, where it waits.
    #[inline(always)]
    pub(crate) fn lasting(&self, moment: u64) -> u64
        ensures { result ≡ lasting self.now moment }
    {
        if self.polling || !self.scheduled {
            return 0;
        }
        moment.saturating_sub(self.waits_since())
    }

    /// What is counted of its waits, where they are, with what lasts up to this moment.
    #[inline(always)]
    fn waits_until(&self, moment: u64) -> Option<Waits>
        ensures { result ≡ waits_until self.now moment }
    {
        let lasts = self.lasting(moment);
        match self.waits {
            Some(waits) => Some(Waits {
                total: waits.total.saturating_add(lasts),
                so_far: WaitSoFar::capped(waits.so_far.nanos().saturating_add(lasts)),
            }),
            None => None,
        }
    }

    /// What is counted of its waits after a poll ended: the wait before it is over.
    #[inline(always)]
    fn waits_at_end(&self) -> Option<Waits>
        ensures { result ≡ option_map after_end self.now.waits }
    {
        let waits = self.waits?;
        Some(Waits {
            total: waits.total,
            so_far: WaitSoFar::capped(0),
        })
    }

    /// How long it waited in all, where that is counted, up to its last start, wake or close.
    #[inline(always)]
    pub fn waited(&self) -> Option<u64>
        ensures { result ≡ waited_of self.now }
    {
        let waits = self.waits?;
        Some(waits.total)
    }

    /// How long it has waited in all, where that is counted, with what lasts up to this moment. A wake up to this moment doesn't
    /// change it while the task waits, and what is told later is no less (`specs/Laws/TaskWaits.antt`).
    #[inline(always)]
    pub fn waited_until(&self, moment: u64) -> Option<u64>
        ensures { result ≡ waited_until self.now moment }
    {
        let waits = self.waits_until(moment)?;
        Some(waits.total)
    }

    /// Since when it waits, where that is counted, however often it was woken meanwhile. `None` of a task that doesn't wait: one
    /// that isn't scheduled, is polled, or is closed.
    pub fn waiting_since(&self) -> Option<u64>
        ensures { result ≡ waiting_since self.now }
    {
        if !self.awaits_poll() {
            return None;
        }
        let waits = self.waits?;
        Some(self.waits_since().saturating_sub(waits.so_far.nanos()))
    }

    /// How long the wait is that a start of a poll at this moment would end, at most 2^56 - 1 nanoseconds: how long the task has
    /// waited then. `None` where waits aren't counted, and of a task that doesn't wait, since a start ends no wait of it.
    pub fn wait_ended_by(&self, moment: u64) -> Option<u64>
        ensures { result ≡ wait_ended_by self.now moment }
    {
        if !self.awaits_poll() {
            return None;
        }
        let waits = self.waits_until(moment)?;
        Some(waits.so_far.nanos())
    }

    /// Whether it waits for a poll: it is scheduled, not polled and not closed.
    fn awaits_poll(&self) -> bool
        ensures { result ≡ awaits_poll self.now }
    {
        self.scheduled && !self.polling && self.dropped.is_none()
    }

    /// What a wake finds.
    #[inline(always)]
    fn found_by_wake(&self) -> WakeReply
        ensures { result ≡ found_by_wake self.now }
    {
        if self.dropped.is_some() {
            WakeReply::Gone
        } else if self.scheduled {
            WakeReply::Already
        } else {
            WakeReply::Scheduled
        }
    }

    /// The row after a wake.
    #[inline(always)]
    fn woken(&self, moment: u64, from_self: bool) -> TaskRow
        ensures { result ≡ record self.now { wakes = min (self.now.wakes + 1) (2 ^ 64 - 1); self_wakes = if from_self then min (self.now.self_wakes + 1) (2 ^ 64 - 1) else self.now.self_wakes; last_wake = Some (max (unwrap_or self.now.last_wake 0) moment); waits = waits_until self.now moment; scheduled = not (is_some self.now.dropped) } }
    {
        let last = self.last_wake.unwrap_or(0);
        let waits = self.waits_until(moment);
        TaskRow {
            wakes: self.wakes.saturating_add(1),
            self_wakes: if from_self {
                self.self_wakes.saturating_add(1)
            } else {
                self.self_wakes
            },
            last_wake: Some(last.max(moment)),
            waits,
            scheduled: self.dropped.is_none(),
            ..*self
        }
    }
}
