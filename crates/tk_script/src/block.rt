//! What only blocks of threads have: the lines of workers, and those that open a block and join its threads.
ghost use Rattle.std.specs.Prelude.{◌≡◌, option_map};
ghost use Rattle.tk_script.specs.Commands as spec;
ghost use Rattle.tk_script.specs.Pieces.{pieces_left};

use crate::pieces::Pieces;
use crate::words::{moment_of, one_number, two_numbers};

/// A worker of a block, which is one thread.
#[derive(Clone, Copy, Debug, PartialEq, Eq)]
pub enum Worker {
    One,
    Two,
}

/// A call of a waker, from outside. A wake by value and a release are its last.
#[derive(Clone, Copy, Debug, PartialEq, Eq)]
pub enum WakerCall {
    /// A wake by reference, at a moment.
    WakeRef(u64),
    /// A wake by value, at a moment.
    Wake(u64),
    /// A release without a wake.
    Release,
}

/// A line of a worker: the number of a waker, from 1, and its call.
#[derive(Clone, Copy, Debug, PartialEq, Eq)]
pub struct WorkerLine {
    pub waker: u64,
    pub call: WakerCall,
}

/// What a line says that only blocks have.
#[derive(Clone, Copy, Debug, PartialEq, Eq)]
pub enum BlockSaid {
    /// A block opens.
    Opens,
    /// Its threads are joined.
    Joins,
    /// A worker makes a call.
    Works(Worker, WorkerLine),
}

fn worker_of(word: &[u8]) -> Option<Worker>
    ensures { result ≡ spec.worker_of word.now }
{
    let number = moment_of(word)?;
    if number == 1 {
        Some(Worker::One)
    } else if number == 2 {
        Some(Worker::Two)
    } else {
        None
    }
}

// What a worker's line says after the worker's number.
fn worker_line(words: Pieces<'_>) -> Option<WorkerLine>
    ensures { result ≡ spec.worker_line_by (pieces_left words.entry) }
{
    let mut words = words;
    let word = words.next()?;
    if word == b"wakeref".as_slice() {
        two_numbers(words).map(|(waker, moment)| WorkerLine {
            waker,
            call: WakerCall::WakeRef(moment),
        })
    } else if word == b"wake".as_slice() {
        two_numbers(words).map(|(waker, moment)| WorkerLine {
            waker,
            call: WakerCall::Wake(moment),
        })
    } else if word == b"release".as_slice() {
        one_number(words).map(|waker| WorkerLine {
            waker,
            call: WakerCall::Release,
        })
    } else {
        None
    }
}

// What a word says that stands alone.
fn alone(said: BlockSaid, words: Pieces<'_>) -> Option<BlockSaid>
    ensures { option_map spec.block_line result ≡ spec.alone (spec.block_line said) (pieces_left words.entry) }
{
    let mut words = words;
    if words.next().is_some() {
        return None;
    }
    Some(said)
}

/// What a line of text says that only blocks have, if it says such a thing: its words between single spaces.
pub fn block_said(line: &[u8]) -> Option<BlockSaid>
    ensures { option_map spec.block_line result ≡ spec.block_said line.now }
{
    let mut words = Pieces::new(line, b' ');
    let word = words.next()?;
    if word == b"par".as_slice() {
        return alone(BlockSaid::Opens, words);
    }
    if word == b"join".as_slice() {
        return alone(BlockSaid::Joins, words);
    }
    let worker = worker_of(word)?;
    let line = worker_line(words)?;
    Some(BlockSaid::Works(worker, line))
}
