//! What a script's commands have made, and what each does to it.

use crate::gone::Gone;
use crate::times::Timed;
use std::alloc::{AllocError, Global};
use std::io::Write;
use tk_core::{OpCall, ResourceCall, TaskCall};
use tk_ids::{IdBlock, IdError};
use tk_script::{Command, Stop};
use tk_stream::Tables;

// So many polls `polls` commands make together at most.
const MOST_POLLS: u64 = 100_000_000;

/// The task of a waker, by its number, and whether the waker is spent.
#[derive(Clone, Copy, Drop)]
pub(crate) struct Waker {
    pub(crate) task: u64,
    pub(crate) is_spent: bool,
}

/// What the commands so far have made, and what the last line told of.
#[derive(Drop)]
pub(crate) struct Plain {
    pub(crate) alloc: Global,
    pub(crate) ids: IdBlock,
    // All items, also those that have left.
    pub(crate) tables: Tables,
    pub(crate) wakers: Vec<Waker>,
    // The tables of the last line.
    pub(crate) told: Tables,
    pub(crate) lines: u64,
    // How long a closed item stays, if it leaves, and what has left.
    pub(crate) retention: Option<u64>,
    pub(crate) left: Gone,
    // Of each task in the order of the tables how long its polls ran, where that is said.
    pub(crate) times: Vec<Timed>,
    pub(crate) times_said: bool,
    // Whether the waits of tasks are counted.
    pub(crate) waits_said: bool,
    // How many polls `polls` commands made.
    pub(crate) polled: u64,
    pub(crate) capacity_said: bool,
    pub(crate) begun: bool,
}

/// Where the item of a number from 1 stands.
pub(crate) fn place_of(number: u64) -> Option<usize> {
    Some(number.checked_sub(1)? as usize)
}

fn first_ids() -> Result<IdBlock, AllocError> {
    match IdBlock::new(1) {
        Ok(ids) => Ok(ids),
        Err(_) => Err(AllocError),
    }
}

impl Plain {
    pub(crate) fn new(alloc: Global) -> Result<Plain, AllocError> {
        let ids = first_ids()?;
        let tables = Tables::new(alloc)?;
        let told = Tables::new(alloc)?;
        Ok(Plain {
            alloc,
            ids,
            tables,
            wakers: Vec::new(alloc),
            told,
            lines: 0,
            retention: None,
            left: Gone::none(alloc),
            times: Vec::new(alloc),
            times_said: false,
            waits_said: false,
            polled: 0,
            capacity_said: false,
            begun: false,
        })
    }

    fn say_capacity(&mut self) -> Result<(), Stop> {
        if self.begun || self.capacity_said {
            return Err(Stop::BadCommand);
        }
        self.capacity_said = true;
        Ok(())
    }

    fn say_retention(&mut self, span: u64) -> Result<(), Stop> {
        if self.begun || self.retention.is_some() {
            return Err(Stop::BadCommand);
        }
        self.retention = Some(span);
        Ok(())
    }

    fn say_times(&mut self) -> Result<(), Stop> {
        if self.begun || self.times_said {
            return Err(Stop::BadCommand);
        }
        self.times_said = true;
        Ok(())
    }

    fn say_waits(&mut self) -> Result<(), Stop> {
        if self.begun || self.waits_said {
            return Err(Stop::BadCommand);
        }
        self.waits_said = true;
        Ok(())
    }

    // A setting, or none.
    fn apply_setting(&mut self, command: &Command<'_>) -> Option<Result<(), Stop>> {
        match command {
            Command::Capacity { .. } => Some(self.say_capacity()),
            Command::Retention { span } => Some(self.say_retention(*span)),
            Command::Times => Some(self.say_times()),
            Command::Waits => Some(self.say_waits()),
            _ => None,
        }
    }

    // A command of a task or a waker, or none.
    fn apply_to_tasks(&mut self, command: &Command<'_>) -> Option<Result<(), Stop>> {
        let done = match command {
            Command::Start { task, moment } => self.call_task(*task, TaskCall::PollStart(*moment)),
            Command::End { task, moment } => self.end_poll(*task, *moment),
            Command::Polls {
                task,
                count,
                moment,
                run,
                every,
            } => self.poll_task(*task, *count, *moment, *run, *every),
            Command::Close { task, moment } => self.call_task(*task, TaskCall::Close(*moment)),
            Command::SelfWake { task, moment } => self.wake_itself(*task, *moment),
            Command::CloneWaker { task } => self.clone_waker(*task),
            Command::Again { waker } => self.clone_of_waker(*waker),
            Command::WakeRef { waker, moment } => {
                self.call_waker(*waker, TaskCall::WakeRef(*moment, false))
            }
            Command::Wake { waker, moment } => {
                self.spend_waker(*waker, TaskCall::WakeVal(*moment, false))
            }
            Command::Release { waker } => self.spend_waker(*waker, TaskCall::Release),
            _ => return None,
        };
        Some(done)
    }

    // A call of a resource or an operation, or none.
    fn apply_to_others(&mut self, command: &Command<'_>) -> Option<Result<(), Stop>> {
        let done = match command {
            Command::CloseResource { resource, moment } => self.close_resource(*resource, *moment),
            Command::ChangeResource {
                resource,
                index,
                change,
            } => self.call_resource(*resource, ResourceCall::Attr(*index, *change)),
            Command::OpTask { op, task } => self.set_op_task(*op, *task),
            Command::StartOp { op, moment } => self.call_op(*op, OpCall::PollStart(*moment)),
            Command::EndOp { op, moment } => self.call_op(*op, OpCall::PollEnd(*moment)),
            Command::CloseOp { op, moment } => self.call_op(*op, OpCall::Close(*moment)),
            Command::ChangeOp { op, index, change } => {
                self.call_op(*op, OpCall::Attr(*index, *change))
            }
            Command::PollOp {
                resource,
                op,
                task,
                ready,
                ..
            } => self.poll_op(*resource, *op, *task, *ready),
            _ => return None,
        };
        Some(done)
    }

    // A new item, or a line of the stream.
    fn make<W: Write>(
        &mut self,
        line: u32,
        command: Command<'_>,
        writer: &mut W,
    ) -> Result<(), Stop> {
        match command {
            Command::Task { moment, kind, name } => self.make_task(line, moment, kind, name),
            Command::Resource {
                moment,
                kind,
                concrete,
                attrs,
            } => self.make_resource(line, moment, (kind, concrete), attrs),
            Command::Op {
                moment,
                resource,
                source,
                attrs,
            } => self.make_op(moment, resource, source, attrs),
            Command::Publish { moment, whole } => self.publish(moment, whole, writer),
            _ => Err(Stop::BadCommand),
        }
    }

    /// What a command does, on a line of this number.
    pub(crate) fn apply<W: Write>(
        &mut self,
        line: u32,
        command: Command<'_>,
        writer: &mut W,
    ) -> Result<(), Stop> {
        self.polled = self.polled.saturating_add(command.polls());
        if self.polled > MOST_POLLS {
            return Err(Stop::TooManyPolls);
        }
        if let Some(done) = self.apply_setting(&command) {
            return done;
        }
        let done = if let Some(done) = self.apply_to_tasks(&command) {
            done
        } else if let Some(done) = self.apply_to_others(&command) {
            done
        } else {
            self.make(line, command, writer)
        };
        self.begun = true;
        done
    }
}
