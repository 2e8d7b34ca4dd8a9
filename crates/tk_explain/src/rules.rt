//! The rules that a line breaks, by the names of faults.
ghost use Rattle.std.specs.Prelude.{OnOk};
ghost use Rattle.std.specs.Io.KnownBytes.{Appends};
ghost use Rattle.tk_explain.specs.Rules.{rule_text};

use crate::shown::show_line;
use std::io;
use std::io::Write;
use tk_client::Fault;

/// A rule as it is told: a text, in which a word of the line may stand.
#[derive(Clone, Copy)]
pub(crate) struct Rule<'a> {
    pub(crate) before: &'static str,
    pub(crate) word: &'a [u8],
    pub(crate) after: &'static str,
}

impl<'a> Rule<'a> {
    /// A rule that names no word.
    pub(crate) fn plain(rule: &'static str) -> Rule<'a> {
        Rule {
            before: rule,
            word: b"",
            after: "",
        }
    }
}

/// Tells a rule.
pub(crate) fn tell_rule<W: Write>(rule: Rule<'_>, out: &mut W) -> io::Result<()>
    ensures { OnOk result (Appends (W.contents out.old) (W.contents out.new) (rule_text rule.entry.before.now rule.entry.word.now rule.entry.after.now)) }
{
    out.write_all(b"  ")?;
    out.write_all(rule.before.as_bytes())?;
    show_line(rule.word, out)?;
    out.write_all(rule.after.as_bytes())?;
    out.write_all(b"\n")
}

/// The rule by which a line of a script stops it under this name.
pub(crate) fn stop_rule(name: &str) -> &'static str {
    match name {
        "AlreadyPolling" => "a poll is open: end it first",
        "NotPolling" => "no poll is open: start one first",
        "Closed" => "the resource is closed, and its user is gone",
        "NoAttribute" => "it has no attribute of this index, which counts from 0",
        "WrongKind" => "the value is of another kind than the attribute, or is added and no number",
        "OutOfRange" => "the attribute would leave the range of its kind",
        "Clock" => "its moment is below that of the line of the stream before",
        "Memory" => "there was no memory for it",
        "WriteFault" => "the line of the stream was not written whole",
        "TooManyPolls" => "`polls` commands make at most 100,000,000 polls together",
        "NoThread" => "a thread of the block could not be started",
        "Stopped" => "a thread of the block was stopped at its gate",
        "HandlesSpent" => "the item has all the handles that it may have",
        "OffersSpent" => "as many events were recorded as a recorder may",
        "NumbersSpent" => "as many lines were written as there are numbers",
        _ => "it was refused",
    }
}

/// The rule that a line of a stream breaks, of which so many were applied.
pub(crate) fn fault_rule(fault: Fault, lines: u64) -> &'static str {
    match fault {
        Fault::Memory => "there was no memory for it",
        Fault::BadJson => "it is no JSON text",
        Fault::BadShape => {
            "it is JSON, and no line of version 1, 2, 3 or 4: docs/FORMATS.md has their keys and values"
        }
        Fault::Gap { .. } if lines == 0 => {
            "a stream begins with line 1 or with a snapshot: its front is missing"
        }
        Fault::Gap { .. } => "lines are numbered one by one: one is missing, or stands twice",
        Fault::UnknownId => "it tells of an item that is neither there nor new",
        Fault::Repeated => {
            "it shows an item as new that is there, has an id twice, or tells of one that it says is gone"
        }
        Fault::TooLong => "a line has at most 268,435,456 bytes",
        Fault::Misfit => {
            "a new item has no statistics, or values are not those of an item's attributes in number and kinds"
        }
        Fault::Failed => "a line before it has a fault",
    }
}
