//! What is told of a script that was run.
ghost use Rattle.std.specs.Prelude.{◌≡◌, ◌-◌, OnOk, true};
ghost use Rattle.tk_explain.specs.Telling as spec;

use crate::kept::Kept;
use crate::rules::{Rule, stop_rule, tell_rule};
use crate::shapes::{missing_by, shape_of};
use crate::shown::{line_after, show_numbered};
use std::alloc::Global;
use std::io;
use std::io::Write;
use tk_fault::AppFault;
use tk_script::{BlockSaid, Pieces, block_said, command_of, is_skipped};

// The word of a line that says which command it is. A thread's line has it after the thread's number.
fn word_of(line: &[u8]) -> &str {
    let mut words = Pieces::new(line, b' ');
    let mut word = words.next();
    if let Some(BlockSaid::Works(_, _)) = block_said(line) {
        word = words.next();
    }
    match word {
        Some(bytes) => str::from_utf8(bytes).unwrap_or(""),
        None => "",
    }
}

// Whether a line has this word first.
fn asks_for_line(line: &[u8]) -> bool {
    let word = word_of(line);
    word == "publish" || word == "snapshot"
}

// Tells of a script whose lines ask for no line of the stream that nothing was written.
fn explain_silence<W: Write>(script: &[u8], out: &mut W) -> io::Result<()> {
    let mut commands = 0u64;
    for line in Pieces::new(script, b'\n') {
        if asks_for_line(line) {
            return Ok(());
        }
        if !is_skipped(line) {
            commands = commands.saturating_add(1);
        }
    }
    writeln!(
        out,
        "  commands: {commands}, of which none is `publish` or `snapshot`: nothing was written"
    )
}

// The rule of a line that only blocks have.
fn block_rule(said: BlockSaid, in_block: bool, is_last: bool) -> &'static str {
    match said {
        BlockSaid::Opens if in_block => "a block is open: `join` closes it",
        BlockSaid::Opens => "the block is not joined",
        BlockSaid::Joins => "no block is open: `par` opens one",
        BlockSaid::Works(_, _) if !in_block => "no block is open: `par` opens one",
        BlockSaid::Works(_, _) if is_last => {
            "the block is not joined, or the waker has lines of the other thread"
        }
        BlockSaid::Works(_, _) => "the waker has lines of the other thread",
    }
}

// Why a line outside of blocks is no command that may stand there.
fn no_command(alloc: Global, line: &[u8]) -> Rule<'_> {
    let Some(shape) = shape_of(word_of(line)) else {
        return Rule {
            before: "`",
            word: Pieces::new(line, b' ').next().unwrap_or(line),
            after: "` is no command: `taskscope run --help` has them all",
        };
    };
    match command_of(alloc, line) {
        Ok(Some(_)) => Rule::plain("a setting stands once, and before all other commands"),
        _ => Rule {
            before: "it is spelled: ",
            word: b"",
            after: shape,
        },
    }
}

// Why a line may not stand where it stands.
fn bad_command(alloc: Global, line: &[u8], in_block: bool, is_last: bool) -> Rule<'_> {
    if let Some(said) = block_said(line) {
        return Rule::plain(block_rule(said, in_block, is_last));
    }
    if !in_block {
        return no_command(alloc, line);
    }
    if is_skipped(line) {
        return Rule::plain("the block is not joined");
    }
    Rule::plain("in a block stand lines of its threads, as `1 wake WAKER MOMENT`, and `join`")
}

// The rule by which a line stopped the script under this name.
fn rule_of<'a>(
    alloc: Global,
    line: &'a [u8],
    name: &str,
    in_block: bool,
    is_last: bool,
) -> Rule<'a> {
    if name == "BadCommand" {
        return bad_command(alloc, line, in_block, is_last);
    }
    if name == "NoSuchItem" {
        return Rule::plain(missing_by(word_of(line)));
    }
    Rule::plain(stop_rule(name))
}

// Whether a block is open after so many lines of a script.
fn is_in_block(script: &[u8], lines: u64) -> bool {
    let mut rest = Pieces::new(script, b'\n');
    let mut in_block = false;
    for _ in 0..lines {
        let Some(line) = rest.next() else {
            return in_block;
        };
        match block_said(line) {
            Some(BlockSaid::Opens) => in_block = true,
            Some(BlockSaid::Joins) => in_block = false,
            _ => {}
        }
    }
    in_block
}

// Whether nothing but an end stands after so many lines of a script.
fn are_all(script: &[u8], lines: u64) -> bool {
    match line_after(script, lines) {
        Some(rest) => rest.is_empty() && line_after(script, lines.saturating_add(1)).is_none(),
        None => true,
    }
}

// Tells the line of a number, from 1, at which the script stopped under this name.
fn explain_line<W: Write>(
    alloc: Global,
    script: &[u8],
    number: u64,
    name: &str,
    out: &mut W,
) -> io::Result<()>
    ensures { OnOk result (spec.TellsLine number (spec.line_after script.now (number - 1)) (W.contents out.old) (W.contents out.new)) }
{
    let before = number.saturating_sub(1);
    let Some(line) = line_after(script, before) else {
        return Ok(());
    };
    show_numbered(number, line, out)?;
    let in_block = is_in_block(script, before);
    let is_last = are_all(script, number);
    tell_rule(rule_of(alloc, line, name, in_block, is_last), out)
}

/// Tells below the fault of a script's run the line that it came at and the rule that this breaks, and of a script that asks for no line of
/// a stream how many commands it has. Where there was no memory to keep the script, nothing is told.
///
/// The error is the writer's.
pub fn explain_script<R, W: Write>(
    alloc: Global,
    script: &Kept<R>,
    outcome: Result<(), AppFault>,
    out: &mut W,
) -> io::Result<()>
    ensures { script.now.whole ≡ true → OnOk result (spec.TellsStop script.now.lines outcome (W.contents out.old) (W.contents out.new)) }
{
    if !script.is_whole() {
        return Ok(());
    }
    match outcome {
        Ok(()) => explain_silence(script.bytes(), out),
        Err(AppFault::Script { line, name }) => {
            explain_line(alloc, script.bytes(), line, name, out)
        }
        Err(AppFault::Read) => {
            writeln!(
                out,
                "  the input can't be read, or has more than 1,048,576 bytes"
            )
        }
        Err(_) => Ok(()),
    }
}
