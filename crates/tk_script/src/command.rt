//! What a line of a script says.
ghost use Rattle.std.specs.Prelude.{◌≡◌, IfErr, IfOk, IfSome, option_map, true};
ghost use Rattle.tk_script.specs.Pieces.{pieces_left};
ghost use Rattle.tk_script.specs.Commands as spec;

mod console;
mod operations;
mod resources;
mod tasks;

use crate::attributes::value_of;
use crate::pieces::Pieces;
use crate::words::moment_of;
use console::line_command;
use operations::{op_call, op_of};
use resources::{resource_call, resource_of};
use std::alloc::{AllocError, Global};
use tasks::{task_command, waker_command};
use tk_core::AttrOp;
use tk_ids::{AttrValue, Attrs, TaskKind};

/// What a line of a script says. It names items by their numbers from 1, and moments are in nanoseconds.
#[derive(Drop)]
pub enum Command<'a> {
    /// A task, created at a moment.
    Task {
        moment: u64,
        kind: TaskKind,
        name: &'a [u8],
    },
    /// Its owner starts a poll of a task.
    Start {
        task: u64,
        moment: u64,
    },
    /// Its owner ends the poll.
    End {
        task: u64,
        moment: u64,
    },
    /// Its owner polls a task so many times. The first poll starts at a moment, each runs so long, and each further one starts so much later.
    Polls {
        task: u64,
        count: u64,
        moment: u64,
        run: u64,
        every: u64,
    },
    /// Its owner closes a task, and is spent.
    Close {
        task: u64,
        moment: u64,
    },
    /// A task wakes itself in its open poll.
    SelfWake {
        task: u64,
        moment: u64,
    },
    /// The owner of a task draws a waker, which gets the next number.
    CloneWaker {
        task: u64,
    },
    /// A waker draws a further one.
    Again {
        waker: u64,
    },
    /// A waker wakes its task from outside.
    WakeRef {
        waker: u64,
        moment: u64,
    },
    /// A waker wakes its task from outside, and is spent.
    Wake {
        waker: u64,
        moment: u64,
    },
    /// A waker is dropped without a wake, and is spent.
    Release {
        waker: u64,
    },
    /// A resource and a user of it, created at a moment.
    Resource {
        moment: u64,
        kind: &'a [u8],
        concrete: &'a [u8],
        attrs: Attrs,
    },
    /// Its owner closes a resource, and is spent. Its user is let go.
    CloseResource {
        resource: u64,
        moment: u64,
    },
    /// Its user changes an attribute of a resource, by its index from 0.
    ChangeResource {
        resource: u64,
        index: u64,
        change: AttrOp,
    },
    /// An async operation on a resource, created at a moment.
    Op {
        moment: u64,
        resource: u64,
        source: &'a [u8],
        attrs: Attrs,
    },
    /// From now on a task polls an async operation.
    OpTask {
        op: u64,
        task: u64,
    },
    /// Its owner starts a poll of an async operation.
    StartOp {
        op: u64,
        moment: u64,
    },
    /// Its owner ends the poll.
    EndOp {
        op: u64,
        moment: u64,
    },
    /// Its owner closes an async operation, and is spent.
    CloseOp {
        op: u64,
        moment: u64,
    },
    /// Its owner changes an attribute of an async operation, by its index from 0.
    ChangeOp {
        op: u64,
        index: u64,
        change: AttrOp,
    },
    /// A poll operation on a resource, by an async operation and a task.
    PollOp {
        resource: u64,
        op: u64,
        task: u64,
        name: &'a [u8],
        ready: bool,
    },
    /// How many events the console holds, from 1 to 65,536: once, before every command that is no setting.
    Capacity {
        count: u64,
    },
    /// How long a closed item stays, and that lines say what is gone: once, before every command that is no setting.
    Retention {
        span: u64,
    },
    /// Each task has a histogram of how long its polls ran, and lines tell them: once, before every command that is no setting.
    Times,
    /// Of each task it is counted how long it waited, and lines tell it: once, before every command that is no setting.
    Waits,
    /// A line of the stream, as a snapshot or not.
    Publish {
        moment: u64,
        whole: bool,
    },
}

impl Command<'_> {
    /// How many polls a `polls` command makes. Any other makes none.
    pub fn polls(&self) -> u64
        ensures { result ≡ spec.polls_in (spec.view self.now) }
    {
        match self {
            Command::Polls { count, .. } => *count,
            _ => 0,
        }
    }

    /// Whether it makes nothing and writes nothing, and says how the script is run.
    pub fn is_setting(&self) -> bool
        ensures { result ≡ spec.is_setting (spec.view self.now) }
    {
        match self {
            Command::Capacity { .. } | Command::Retention { .. } => true,
            Command::Times | Command::Waits => true,
            _ => false,
        }
    }
}

// The number of an item, the index of an attribute, and a value.
fn change_of(words: Pieces<'_>) -> Option<(u64, u64, AttrValue)>
    ensures { result ≡ spec.change_by (pieces_left words.entry) }
{
    let mut words = words;
    let number = words.next()?;
    let index = words.next()?;
    let value = words.next()?;
    if words.next().is_some() {
        return None;
    }
    Some((moment_of(number)?, moment_of(index)?, value_of(value)?))
}

// What declares no attributes.
fn plain_command<'a>(word: &[u8], words: Pieces<'a>) -> Option<Command<'a>>
    ensures said { option_map spec.view result ≡ spec.said_in spec.plain_forms word.now (pieces_left words.entry) }
    ensures good { IfSome result (λ c. spec.IsGood (spec.view c)) }
{
    if let Some(command) = task_command(word, words) {
        return Some(command);
    }
    if let Some(command) = waker_command(word, words) {
        return Some(command);
    }
    if let Some(command) = resource_call(word, words) {
        return Some(command);
    }
    if let Some(command) = op_call(word, words) {
        return Some(command);
    }
    line_command(word, words)
}

/// The command that a line of text says, if it says one: its words between single spaces.
///
/// The error is want of memory, where it declares attributes.
pub fn command_of<'a>(alloc: Global, line: &'a [u8]) -> Result<Option<Command<'a>>, AllocError>
    ensures said { IfOk result (λ o. option_map spec.view o ≡ spec.said line.now) }
    ensures good { IfOk result (λ o. IfSome o (λ c. spec.IsGood (spec.view c))) }
    ensures memory { IfErr result (λ e. spec.is_declaring line.now ≡ true) }
{
    let mut words = Pieces::new(line, b' ');
    let Some(word) = words.next() else {
        return Ok(None);
    };
    if word == b"resource".as_slice() {
        return resource_of(alloc, words);
    }
    if word == b"op".as_slice() {
        return op_of(alloc, words);
    }
    Ok(plain_command(word, words))
}
