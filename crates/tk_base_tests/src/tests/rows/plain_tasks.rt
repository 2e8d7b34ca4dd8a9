//! Each statistic of a task, and the answer to a call, computed over the whole history.

use super::plain_polls::{
    Point, busy, first_poll, is_polling, last_ended, last_started, polls, was_accepted,
};
use std::alloc::{AllocError, Global};
use tk_core::{
    Entry, MOST_HANDLES, Refusal, Reply, TaskCall, TaskRow, WaitSoFar, Waits, WakeReply,
};

pub type TaskEntry = Entry<TaskCall, Reply<TaskRow>>;

fn point(entry: &TaskEntry) -> Point {
    match entry.call {
        TaskCall::PollStart(moment) if was_accepted(entry) => Point::Start(moment),
        TaskCall::PollEnd(moment) if was_accepted(entry) => Point::End(moment),
        _ => Point::Other,
    }
}

fn points(alloc: Global, history: &[TaskEntry]) -> Result<Vec<Point>, AllocError> {
    let mut points = Vec::new(alloc);
    for entry in history {
        points.push(point(entry))?;
    }
    Ok(points)
}

fn close(entry: &TaskEntry) -> Option<u64> {
    match entry.call {
        TaskCall::Close(moment) if was_accepted(entry) => Some(moment),
        _ => None,
    }
}

fn wake(entry: &TaskEntry) -> Option<u64> {
    match entry.call {
        TaskCall::WakeVal(moment, _) | TaskCall::WakeRef(moment, _) => Some(moment),
        _ => None,
    }
}

fn is_self_wake(entry: &TaskEntry) -> bool {
    matches!(
        entry.call,
        TaskCall::WakeVal(_, true) | TaskCall::WakeRef(_, true)
    )
}

fn is_clone(entry: &TaskEntry) -> bool {
    was_accepted(entry) && matches!(entry.call, TaskCall::CloneWaker)
}

fn is_drop(entry: &TaskEntry) -> bool {
    matches!(entry.call, TaskCall::WakeVal(..) | TaskCall::Release)
}

fn draws(entry: &TaskEntry) -> bool {
    was_accepted(entry) && matches!(entry.call, TaskCall::CloneWaker | TaskCall::Enlist)
}

fn is_scheduled(history: &[TaskEntry]) -> bool {
    if history.iter().any(|entry| close(entry).is_some()) {
        return false;
    }
    for entry in history.iter().rev() {
        if wake(entry).is_some() {
            return true;
        }
        if let Point::Start(_) = point(entry) {
            return false;
        }
    }
    true
}

/// How long the task waited in all for its polls: at each start at which it was scheduled, since the
/// greatest of its creation, the wakes before, and the last end before.
fn sched(created: u64, history: &[TaskEntry], points: &[Point]) -> u64 {
    let mut sum = 0u64;
    for (i, entry) in history.iter().enumerate() {
        let Point::Start(moment) = point(entry) else {
            continue;
        };
        if i > points.len() || !is_scheduled(&history[..i]) {
            continue;
        }
        let woken = history[..i].iter().filter_map(wake).max().unwrap_or(0);
        let ended = last_ended(&points[..i]).unwrap_or(0);
        sum = sum.saturating_add(moment.saturating_sub(created.max(woken).max(ended)));
    }
    sum
}

/// How long the task waited in all, and since the last end of a poll: at each start, wake or close at which it was scheduled and not
/// polled, since the greatest of its creation, the wakes before, and the last end before.
fn waits(created: u64, history: &[TaskEntry], points: &[Point]) -> Waits {
    let mut total = 0u64;
    let mut so_far = 0u64;
    for (i, entry) in history.iter().enumerate() {
        if let Point::End(_) = point(entry) {
            so_far = 0;
        }
        let moment = match (point(entry), wake(entry), close(entry)) {
            (Point::Start(moment), _, _) | (_, Some(moment), _) | (_, _, Some(moment)) => moment,
            _ => continue,
        };
        if i <= points.len() && is_scheduled(&history[..i]) && !is_polling(&points[..i]) {
            let woken = history[..i].iter().filter_map(wake).max().unwrap_or(0);
            let ended = last_ended(&points[..i]).unwrap_or(0);
            let stretch = moment.saturating_sub(created.max(woken).max(ended));
            total = total.saturating_add(stretch);
            so_far = so_far.saturating_add(stretch);
        }
    }
    Waits {
        total,
        so_far: WaitSoFar::capped(so_far),
    }
}

/// The row that a history leaves, whose waits are counted.
pub fn row(alloc: Global, created: u64, history: &[TaskEntry]) -> Result<TaskRow, AllocError> {
    let points = points(alloc, history)?;
    let points = points.as_slice();
    Ok(TaskRow {
        created,
        dropped: history.iter().filter_map(close).next(),
        polls: polls(points),
        first_poll: first_poll(points),
        last_started: last_started(points),
        last_ended: last_ended(points),
        busy: busy(points),
        wakes: history.iter().filter_map(wake).count() as u64,
        self_wakes: history.iter().filter(|entry| is_self_wake(entry)).count() as u64,
        last_wake: history.iter().filter_map(wake).max(),
        clones: history.iter().filter(|entry| is_clone(entry)).count() as u64,
        drops: history.iter().filter(|entry| is_drop(entry)).count() as u64,
        handles: history.iter().filter(|entry| draws(entry)).count() as u64,
        sched: sched(created, history, points),
        waits: Some(waits(created, history, points)),
        polling: is_polling(points),
        scheduled: is_scheduled(history),
    })
}

/// The first refusal that applies to a call on a row.
fn refusal(row: &TaskRow, call: TaskCall) -> Option<Refusal> {
    let closed = row.dropped.is_some();
    match call {
        TaskCall::PollStart(_) | TaskCall::PollEnd(_) | TaskCall::Close(_) if closed => {
            Some(Refusal::Closed)
        }
        TaskCall::PollStart(_) | TaskCall::Close(_) if row.polling => Some(Refusal::AlreadyPolling),
        TaskCall::PollEnd(_) if !row.polling => Some(Refusal::NotPolling),
        TaskCall::CloneWaker | TaskCall::Enlist if row.handles == MOST_HANDLES => {
            Some(Refusal::HandlesSpent)
        }
        _ => None,
    }
}

/// The answer to a call on a row.
pub fn answer(row: &TaskRow, call: TaskCall) -> Reply<TaskRow> {
    if let Some(refusal) = refusal(row, call) {
        return Reply::Refused(refusal);
    }
    match call {
        TaskCall::CloneWaker | TaskCall::Enlist => Reply::Number(row.handles.saturating_add(1)),
        TaskCall::Read => Reply::Shown(*row),
        TaskCall::WakeVal(..) | TaskCall::WakeRef(..) => {
            if row.dropped.is_some() {
                Reply::Woken(WakeReply::Gone)
            } else if row.scheduled {
                Reply::Woken(WakeReply::Already)
            } else {
                Reply::Woken(WakeReply::Scheduled)
            }
        }
        _ => Reply::Done,
    }
}
