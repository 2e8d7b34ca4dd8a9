//! What is told of a stream that was read.
ghost use Rattle.std.specs.Prelude.{◌≡◌, ◌+◌, ◌-◌, OnOk, true};
ghost use Rattle.std.specs.Io.Iter.{u64_saturate};
ghost use Rattle.tk_explain.specs.Telling.{TellsFault, TellsLine, line_after};

use crate::kept::Kept;
use crate::rules::{Rule, fault_rule, tell_rule};
use crate::shapes::shape_of;
use crate::shown::{line_after, show_numbered};
use std::io;
use std::io::Write;
use tk_client::Fault;
use tk_fault::AppFault;
use tk_script::Pieces;

// Whether a line looks like one of a script.
fn is_of_script(line: &[u8]) -> bool {
    let Some(word) = Pieces::new(line, b' ').next() else {
        return false;
    };
    match str::from_utf8(word) {
        Ok(word) => word.starts_with('#') || shape_of(word).is_some(),
        Err(_) => false,
    }
}

// Tells of the bytes after the last line end, which are no line.
fn explain_rest<R, W: Write>(stream: &Kept<R>, out: &mut W) -> io::Result<()> {
    let rest = stream.bytes().len();
    if rest > 0 {
        return writeln!(
            out,
            "  bytes after the last line end, which were left out: {rest}"
        );
    }
    if stream.lines_before() == 0 {
        return writeln!(out, "  the stream is empty");
    }
    Ok(())
}

// Tells the line that has a fault, after so many that were applied.
fn explain_fault<R, W: Write>(
    stream: &Kept<R>,
    lines: u64,
    fault: Fault,
    out: &mut W,
) -> io::Result<()>
    ensures { OnOk result (TellsLine (u64_saturate (lines + 1)) (line_after stream.now.lines.bytes (lines - stream.now.lines.before))
        (W.contents out.old) (W.contents out.new)) }
{
    let place = lines.saturating_sub(stream.lines_before());
    let Some(line) = line_after(stream.bytes(), place) else {
        return Ok(());
    };
    show_numbered(lines.saturating_add(1), line, out)?;
    tell_rule(Rule::plain(fault_rule(fault, lines)), out)?;
    if fault == Fault::BadJson && is_of_script(line) {
        return out.write_all(b"  it looks like a script, which `taskscope run` takes\n");
    }
    Ok(())
}

/// Tells below the fault of a stream the line that has it and the rule that this breaks, and of a stream without a fault how much of it is
/// no whole line. The stream is one that keeps its last lines; where there was no memory for these, nothing is told.
///
/// The error is the writer's.
pub fn explain_stream<R, W: Write>(
    stream: &Kept<R>,
    outcome: Result<u64, AppFault>,
    out: &mut W,
) -> io::Result<()>
    ensures { stream.now.whole ≡ true → OnOk result (TellsFault stream.now.lines outcome (W.contents out.old) (W.contents out.new)) }
{
    if !stream.is_whole() {
        return Ok(());
    }
    match outcome {
        Ok(_) => explain_rest(stream, out),
        Err(AppFault::Stream { lines, fault }) => explain_fault(stream, lines, fault, out),
        Err(AppFault::Read) => writeln!(out, "  the input can't be read"),
        Err(_) => Ok(()),
    }
}
