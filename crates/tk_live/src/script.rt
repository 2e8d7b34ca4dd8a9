//! Scripts: read whole, and run line by line.
//!
//! A line is a command, its words between single spaces. Empty lines and lines that begin with `#` are
//! skipped, and counted. A script stops at its first fault, and what the lines before it wrote stays.
ghost use Rattle.std.specs.Prelude.{◌≡◌, ◌≤◌, [], ℕ, List, length};
ghost use Rattle.std.specs.Io.KnownBytes.{Appends};
ghost use Rattle.tk_script.specs.Commands.{ends_line, last_line, block_line, line_of, lines_of, settings_of};
ghost use Rattle.tk_live.specs.Course.{start_of_all};
ghost use Rattle.tk_script.specs.Pieces.{pieces_at};
ghost use Rattle.tk_live.specs.Runs.{Represents, RepresentsSome, BlockLineSpec, LineSpec, LinesResult};
ghost use Rattle.tk_live.specs.Script.{ScriptResult, ReadsAndRuns};

use crate::block::OpenBlock;
use crate::gate::Gate;
use crate::interpreter::Interpreter;
use crate::transfer::{MAX_SCRIPT, read_script};
use std::alloc::Global;
use std::io::{Read, Write};
use std::sync::Wait;
use std::thread::Threads;
use tk_fault::AppFault;
use tk_script::{BlockSaid, Pieces, Stop, block_said, command_of, is_skipped, settings_in};

// A line that only blocks have.
fn run_block_line<R: Threads + Wait + Sync, G: Gate + Sync>(
    rt: &R,
    alloc: Global,
    gate: &G,
    interpreter: &mut Interpreter,
    block: &mut Option<OpenBlock>,
    said: BlockSaid,
) -> Result<(), Stop>
    requires stands { RepresentsSome interpreter.old }
    ensures { (number : ℕ) → BlockLineSpec (G.answers gate.now) number (block_line said) interpreter.old block.old interpreter.new block.new result }
{
    match said {
        BlockSaid::Opens => {
            if block.is_some() {
                return Err(Stop::BadCommand);
            }
            *block = Some(OpenBlock::new(alloc));
            interpreter.begun = true;
            Ok(())
        }
        BlockSaid::Joins => match block.take() {
            Some(open) => interpreter.join(rt, alloc, gate, &open),
            None => Err(Stop::BadCommand),
        },
        BlockSaid::Works(worker, line) => match block {
            Some(open) => open.add(&interpreter.wakers, worker, line),
            None => Err(Stop::BadCommand),
        },
    }
}

// One line, of this number from 1, where this block is open.
fn run_line<R: Threads + Wait + Sync, W: Write, G: Gate + Sync>(
    rt: &R,
    alloc: Global,
    gate: &G,
    interpreter: &mut Interpreter,
    block: &mut Option<OpenBlock>,
    number: u32,
    line: &[u8],
    writer: &mut W,
) -> Result<(), Stop>
    requires stands { RepresentsSome interpreter.old }
    ensures { LineSpec (G.answers gate.now) number (line_of line.now) interpreter.old block.old interpreter.new block.new result
        (W.contents writer.old) (W.contents writer.new) }
{
    if is_skipped(line) {
        return Ok(());
    }
    if let Some(said) = block_said(line) {
        return run_block_line(rt, alloc, gate, interpreter, block, said);
    }
    // In a block stand only its own lines.
    if block.is_some() {
        return Err(Stop::BadCommand);
    }
    let Ok(said) = command_of(alloc, line) else {
        return Err(Stop::Memory);
    };
    match said {
        Some(command) => interpreter.run(rt, alloc, number, command, writer),
        None => Err(Stop::BadCommand),
    }
}

fn ends_line(script: &[u8]) -> bool
    ensures { result ≡ ends_line script.now }
{
    script.ends_with(b"\n")
}

// The number of a script's last line, of so many pieces between line ends.
fn last_line(script: &[u8], pieces: u32) -> u64
    requires { pieces ≡ length (pieces_at 10 script.now) }
    ensures { result ≡ last_line script.now }
{
    if ends_line(script) {
        pieces.saturating_sub(1) as u64
    } else {
        pieces as u64
    }
}

// The lines of a script that was read, one after the other.
fn run_lines<R: Threads + Wait + Sync, W: Write, G: Gate + Sync>(
    rt: &R,
    alloc: Global,
    gate: &G,
    interpreter: &mut Interpreter,
    script: &[u8],
    writer: &mut W,
) -> Result<(), AppFault>
    requires short { length script.now ≤ MAX_SCRIPT }
    requires fresh { Represents interpreter.old (settings_of (lines_of script.now)) start_of_all [] [] }
    ensures { (text : List ℕ) × LinesResult (G.answers gate.now) (last_line script.now) (lines_of script.now) (settings_of (lines_of script.now)) result text
        × Appends (W.contents writer.old) (W.contents writer.new) text }
{
    let mut block = None;
    let mut number = 0u32;
    for line in Pieces::new(script, b'\n') {
        number += 1;
        if let Err(stop) = run_line(
            rt,
            alloc,
            gate,
            interpreter,
            &mut block,
            number,
            line,
            writer,
        ) {
            return Err(AppFault::Script {
                line: number as u64,
                name: stop.name(),
            });
        }
    }
    if block.is_some() {
        return Err(AppFault::Script {
            line: last_line(script, number),
            name: Stop::BadCommand.name(),
        });
    }
    Ok(())
}

// A script that was read.
fn run<R: Threads + Wait + Sync, W: Write, G: Gate + Sync>(
    rt: &R,
    alloc: Global,
    gate: &G,
    script: &[u8],
    writer: &mut W,
) -> Result<(), AppFault>
    requires short { length script.now ≤ MAX_SCRIPT }
    ensures { (written : List ℕ) × ScriptResult (G.answers gate.now) script.now result written
        × Appends (W.contents writer.old) (W.contents writer.new) written }
{
    let Ok(settings) = settings_in(alloc, script) else {
        return Err(AppFault::Memory);
    };
    let Ok(mut interpreter) = Interpreter::new(alloc, settings) else {
        return Err(AppFault::Memory);
    };
    run_lines(rt, alloc, gate, &mut interpreter, script, writer)
}

/// Reads a script, runs it over live ledgers, and writes the stream that it publishes.
///
/// The reader is read to its end. The script's items are recorded by one recorder, of number 1, in a console that holds as
/// many events as the setting `capacity` says, from 1 to 65,536, and 1,024 without one. Each `publish`
/// and each `snapshot` takes what the console holds, reads the ledgers of the items that are known by then, and writes one
/// line. What did not fit into the console is counted as dropped; an item that was dropped keeps its number and its ledger.
/// Settings stand before every other command. Where `retention` is one, the lines are of version 2: an item that a line
/// showed as closed leaves with the first `publish` that is so many nanoseconds after its close. Where `times` is one, they are of
/// version 3, and tell of each task a histogram of how long its polls ran, in nanoseconds.
/// A block of threads, from `par` to `join`, is run at its `join`: each of its two workers that has lines is one thread, which
/// owns the wakers of its lines and passes the gate before each of its calls. After the block the wakers that are not spent
/// are there again.
///
/// - `Memory`: the script could not be kept, or the run not begun, for want of memory. Nothing was written.
/// - `Read`: the reader failed, gave no end within 2^32 reads, or gave more than 1,048,576 bytes. Nothing was written.
/// - `Script`: a line was refused, and what the lines before it published stands. Its name is `BadCommand`
///   (no command, a setting a second time or after a command that is none, a line that may not stand in its block or needs one, a
///   waker with lines of both workers, or, at the last line, a block that is not joined), `NoSuchItem` (an item that was not made, or is spent, in
///   a block by the lines before), the name of
///   the refused call's refusal, `OffersSpent` (2^40 - 1 events were recorded), `Clock` (a moment below the last line's),
///   `NumbersSpent` (2^63 lines were written), `Memory`, `WriteFault` (a proper front of the next line went out), or, at a
///   `join`, `NoThread` (a thread could not be started) or `Stopped` (the gate stopped a worker).
pub fn run_script<R: Threads + Wait + Sync, I: Read, W: Write, G: Gate + Sync>(
    rt: &R,
    alloc: Global,
    reader: &mut I,
    writer: &mut W,
    gate: &G,
) -> Result<(), AppFault>
    // The script runs line by line, and stops at its first fault with the lines before it written. What its text tells is a
    // function of the text; what came of that is one record.
    ensures run { (written : List ℕ) × ReadsAndRuns (G.answers gate.now) (I.remaining reader.old) result written
        × Appends (W.contents writer.old) (W.contents writer.new) written }
{
    let script = read_script(alloc, reader)?;
    run(rt, alloc, gate, script.as_slice(), writer)
}
