//! Tasks, and their wakers.

use crate::run::{Plain, Waker, place_of};
use crate::times::Timed;
use std::alloc::Global;
use tk_core::{TaskCall, TaskRow};
use tk_ids::{IdError, Location, Name, TaskId, TaskInfo, TaskKind};
use tk_script::Stop;
use tk_stream::Tables;

/// A place on a line of the script.
pub(crate) fn location_of(alloc: Global, line: u32) -> Result<Location, IdError> {
    let file = Name::new(alloc, b"script")?;
    Ok(Location {
        file,
        line,
        column: 1,
    })
}

fn info_of(
    alloc: Global,
    id: TaskId,
    line: u32,
    kind: TaskKind,
    name: &[u8],
) -> Result<TaskInfo, IdError> {
    let name = Name::new(alloc, name)?;
    let location = location_of(alloc, line)?;
    Ok(TaskInfo {
        id,
        kind,
        name,
        location,
    })
}

// The row of a new task, which its one reader has enlisted at.
fn first_row(created: u64, waits: bool) -> TaskRow {
    let opening = if waits {
        TaskRow::counting(created)
    } else {
        TaskRow::opening(created)
    };
    let (row, _) = opening.step(TaskCall::Enlist);
    row
}

fn add(tables: &mut Tables, info: TaskInfo, row: TaskRow) -> Result<(), Stop> {
    if tables.task(info.id).is_some() {
        return Err(Stop::OffersSpent);
    }
    match tables.add_task(info, row) {
        Ok(()) => Ok(()),
        Err(_) => Err(Stop::Memory),
    }
}

fn row_at(tables: &Tables, place: usize) -> Option<TaskRow> {
    let task = tables.task_at(place)?;
    Some(task.row)
}

// When the last poll of a task started.
fn started_at(tables: &Tables, place: usize) -> Option<u64> {
    let task = tables.task_at(place)?;
    task.row.last_started
}

/// The id of the task of a number, if it was made.
pub(crate) fn made_task(tables: &Tables, number: u64) -> Option<TaskId> {
    let task = tables.task_at(place_of(number)?)?;
    Some(task.info.id)
}

// Steps the row of a task by a call.
fn step(tables: &mut Tables, place: usize, call: TaskCall) -> Result<(), Stop> {
    let Some(row) = row_at(tables, place) else {
        return Err(Stop::NoSuchItem);
    };
    let (next, reply) = row.step(call);
    if let Some(refusal) = reply.refusal() {
        return Err(Stop::Call(refusal));
    }
    if place < tables.task_count() {
        tables.set_task(place, next);
    }
    Ok(())
}

impl Plain {
    pub(crate) fn make_task(
        &mut self,
        line: u32,
        created: u64,
        kind: TaskKind,
        name: &[u8],
    ) -> Result<(), Stop> {
        let Ok(id) = self.ids.next_task() else {
            return Err(Stop::OffersSpent);
        };
        let Ok(info) = info_of(self.alloc, id, line, kind, name) else {
            return Err(Stop::Memory);
        };
        add(&mut self.tables, info, first_row(created, self.waits_said))?;
        self.time(id)
    }

    // A new task gets a histogram, where tasks have such.
    fn time(&mut self, id: TaskId) -> Result<(), Stop> {
        if !self.times_said {
            return Ok(());
        }
        match self.times.push(Timed::new(id)) {
            Ok(()) => Ok(()),
            Err(_) => Err(Stop::Memory),
        }
    }

    // Where a task stands that is not closed.
    fn open_task(&self, number: u64) -> Result<usize, Stop> {
        let Some(place) = place_of(number) else {
            return Err(Stop::NoSuchItem);
        };
        match row_at(&self.tables, place) {
            Some(row) => {
                if row.dropped.is_some() {
                    return Err(Stop::NoSuchItem);
                }
                Ok(place)
            }
            None => Err(Stop::NoSuchItem),
        }
    }

    /// A call of a task's owner, which a close spends.
    pub(crate) fn call_task(&mut self, number: u64, call: TaskCall) -> Result<(), Stop> {
        let place = self.open_task(number)?;
        step(&mut self.tables, place, call)
    }

    /// Its owner ends the poll of a task, which has run since its start.
    pub(crate) fn end_poll(&mut self, number: u64, moment: u64) -> Result<(), Stop> {
        let place = self.open_task(number)?;
        step(&mut self.tables, place, TaskCall::PollEnd(moment))?;
        if let Some(timed) = self.times.get_mut(place) {
            if let Some(started) = started_at(&self.tables, place) {
                timed.add(moment.saturating_sub(started));
            }
        }
        Ok(())
    }

    /// Its owner polls a task so many times. Each poll runs so long, and each further one starts so much later.
    pub(crate) fn poll_task(
        &mut self,
        number: u64,
        count: u64,
        moment: u64,
        run: u64,
        every: u64,
    ) -> Result<(), Stop> {
        let mut start = moment;
        for _ in 0..count {
            self.call_task(number, TaskCall::PollStart(start))?;
            self.end_poll(number, start.saturating_add(run))?;
            start = start.saturating_add(every);
        }
        Ok(())
    }

    /// A task wakes itself in its open poll.
    pub(crate) fn wake_itself(&mut self, number: u64, moment: u64) -> Result<(), Stop> {
        let place = self.open_task(number)?;
        match row_at(&self.tables, place) {
            Some(row) => {
                if !row.polling {
                    return Err(Stop::Call(tk_core::Refusal::NotPolling));
                }
                step(&mut self.tables, place, TaskCall::WakeRef(moment, true))
            }
            None => Err(Stop::NoSuchItem),
        }
    }

    // A new waker of a task, be it closed or not.
    fn draw(&mut self, number: u64) -> Result<(), Stop> {
        let Some(place) = place_of(number) else {
            return Err(Stop::NoSuchItem);
        };
        step(&mut self.tables, place, TaskCall::CloneWaker)?;
        let waker = Waker {
            task: number,
            is_spent: false,
        };
        match self.wakers.push(waker) {
            Ok(()) => Ok(()),
            Err(_) => Err(Stop::Memory),
        }
    }

    pub(crate) fn clone_waker(&mut self, number: u64) -> Result<(), Stop> {
        self.open_task(number)?;
        self.draw(number)
    }

    // The task of a waker that is not spent.
    fn woken_by(&self, number: u64) -> Result<u64, Stop> {
        let Some(place) = place_of(number) else {
            return Err(Stop::NoSuchItem);
        };
        match self.wakers.get(place) {
            Some(waker) => {
                if waker.is_spent {
                    return Err(Stop::NoSuchItem);
                }
                Ok(waker.task)
            }
            None => Err(Stop::NoSuchItem),
        }
    }

    pub(crate) fn clone_of_waker(&mut self, number: u64) -> Result<(), Stop> {
        let task = self.woken_by(number)?;
        self.draw(task)
    }

    /// A call of a waker, which stays.
    pub(crate) fn call_waker(&mut self, number: u64, call: TaskCall) -> Result<(), Stop> {
        let task = self.woken_by(number)?;
        match place_of(task) {
            Some(place) => step(&mut self.tables, place, call),
            None => Err(Stop::NoSuchItem),
        }
    }

    /// The last call of a waker.
    pub(crate) fn spend_waker(&mut self, number: u64, call: TaskCall) -> Result<(), Stop> {
        self.call_waker(number, call)?;
        if let Some(place) = place_of(number) {
            if let Some(waker) = self.wakers.get_mut(place) {
                waker.is_spent = true;
            }
        }
        Ok(())
    }
}
