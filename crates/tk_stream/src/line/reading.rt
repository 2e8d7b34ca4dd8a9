//! The line of a text.
ghost use Rattle.std.specs.Prelude.{◌≡◌, ◌++◌, [], IfOk, IfSome};
ghost use Rattle.serde_json.specs.View.{view};
ghost use Rattle.serde_json.specs.Written.{compact_text};
ghost use Rattle.tk_stream.specs.Pieces.{Takes};
ghost use Rattle.tk_stream.specs.Lines as lines;
ghost use Rattle.tk_stream.specs.Outcome.{Answers};
ghost use Rattle.tk_stream.specs.Spelled.{line_of_lists};
ghost use Rattle.tk_stream.specs.Spelling as spec;

use super::{Line, tell_waits, version_of};
use crate::error::LineError;
use crate::line::gone::take_gone;
use crate::line::making::Items;
use crate::text::read_json::fields::number_at;
use crate::text::read_json::line_lists::LineLists;
use crate::text::read_json::numbers::numbers_of;
use crate::text::read_json::said::said_with;
use crate::text::read_json::spelled::read_spelled;
use crate::text::read_own::pieces::{take_flag, take_number, take_text};
use crate::text::read_own::taken::{some_of, take_list};
use crate::text::read_own::times::take_times;
use serde_json::Value;
use std::alloc::{AllocError, Global};
use tk_ids::Dropped;

impl Line {
    ghost use Rattle.tk_stream.specs.Reading.{line_of_text};

    /// The line of a text: the JSON object that `serde_json` reads, with exactly the keys of version 1, 2 or 3, each with a value
    /// of its kind. White space between its parts and the order of its keys are free.
    ///
    /// No value is built of the whole text: the lists are read item by item, and of what no line has nothing is kept. So whatever the
    /// bytes are, the call holds little more than the text once more and the lists of the line.
    ///
    /// - `BadJson`: `serde_json` reads no value. Bytes that are not UTF-8 are such a text, and an empty one.
    /// - `BadShape`: the value is no line.
    /// - `Memory`: there is no memory for the text once more, or for the line.
    pub fn read(alloc: Global, bytes: &[u8]) -> Result<Line, LineError>
        ensures { Answers (λ line. line) result (line_of_text bytes.now) }
    {
        if let Some(line) = take_line(alloc, bytes)? {
            line.ranges();
            return Ok(line);
        }
        read_spelled(alloc, bytes)
    }

    /// The line of an object whose lists were read by themselves, if it is one.
    #[tactic(auto, unfolding(crate::specs::Spelled::line_with))]
    pub(crate) fn of_lists(own: &Value, lists: LineLists) -> Option<Line>
        ensures { result ≡ line_of_lists (view own.now) lists }
    {
        let numbers = numbers_of(own)?;
        if !lists.are_whole() {
            return None;
        }
        let LineLists {
            gone_ops,
            gone_resources,
            gone_tasks,
            new_ops,
            new_resources,
            new_tasks,
            op_stats,
            poll_counts,
            resource_stats,
            task_stats,
            task_times,
        } = lists;
        let said = said_with(
            numbers.version,
            gone_ops,
            gone_resources,
            gone_tasks,
            task_times,
        )?;
        let new_ops = new_ops.unwrap();
        let new_resources = new_resources.unwrap();
        let new_tasks = new_tasks.unwrap();
        let op_stats = op_stats.unwrap();
        let poll_counts = poll_counts.unwrap();
        let resource_stats = resource_stats.unwrap();
        let task_stats = task_stats.unwrap();
        let items = Items {
            new_ops,
            new_resources,
            new_tasks,
            op_stats,
            poll_counts,
            resource_stats,
            task_stats,
        };
        let line = Line::of_parts(
            numbers.dropped,
            said.gone,
            items,
            numbers.now,
            numbers.seq,
            numbers.snapshot,
            said.times,
        );
        let number = number_at(own, "v")?;
        if line.version() == number {
            Some(line)
        } else {
            None
        }
    }
}

fn take_dropped<'a>(bytes: &'a [u8], before: &[u8]) -> Option<(Dropped, &'a [u8])>
    ensures { IfSome result (λ x. Takes bytes.now
        (before.now ++ compact_text (spec.dropped_data x.0)) x.1.now) }
{
    let rest = take_text(bytes, before)?;
    let (tasks, rest) = take_number(rest, b"[")?;
    let (resources, rest) = take_number(rest, b",")?;
    let (ops, rest) = take_number(rest, b",")?;
    let rest = take_text(rest, b"]")?;
    let dropped = Dropped {
        tasks,
        resources,
        ops,
    };
    Some((dropped, rest))
}

// The line, where its text is spelled as it is written.
fn take_line(alloc: Global, bytes: &[u8]) -> Result<Option<Line>, AllocError>
    ensures { IfOk result (λ o. IfSome o (λ line. Takes bytes.now (spec.line_text line) [])) }
{
    let (dropped, rest) = some_of!(take_dropped(bytes, b"{\"dropped\":"));
    let (gone, rest) = some_of!(take_gone(alloc, rest)?);
    let (new_ops, rest) = some_of!(take_list(alloc, rest, b",\"new_ops\":[")?);
    let (new_resources, rest) = some_of!(take_list(alloc, rest, b",\"new_resources\":[")?);
    let (new_tasks, rest) = some_of!(take_list(alloc, rest, b",\"new_tasks\":[")?);
    let (moment, rest) = some_of!(take_number(rest, b",\"now\":"));
    let (op_stats, rest) = some_of!(take_list(alloc, rest, b",\"op_stats\":[")?);
    let (poll_counts, rest) = some_of!(take_list(alloc, rest, b",\"poll_counts\":[")?);
    let (resource_stats, rest) = some_of!(take_list(alloc, rest, b",\"resource_stats\":[")?);
    let (seq, rest) = some_of!(take_number(rest, b",\"seq\":"));
    let (snapshot, rest) = some_of!(take_flag(rest, b",\"snapshot\":"));
    let (task_stats, rest) = some_of!(take_list(alloc, rest, b",\"task_stats\":[")?);
    let (task_times, rest) = some_of!(take_times(alloc, rest)?);
    let (number, rest) = some_of!(take_number(rest, b",\"v\":"));
    let rest = some_of!(take_text(rest, b"}"));
    if rest.len() > 0 {
        return Ok(None);
    }
    let waits = tell_waits(&task_stats, &task_times);
    let version = version_of(waits, &gone, &task_times);
    if number != version {
        return Ok(None);
    }
    if task_times.is_some() && gone.is_none() {
        return Ok(None);
    }
    if !is_seq(seq) {
        return Ok(None);
    }
    let items = Items {
        new_ops,
        new_resources,
        new_tasks,
        op_stats,
        poll_counts,
        resource_stats,
        task_stats,
    };
    Ok(Some(Line::of_parts(dropped, gone, items, moment, seq, snapshot, task_times)))
}

fn is_seq(seq: u64) -> bool
    ensures { result ≡ lines.is_seq seq }
{
    1 <= seq && seq <= 1 << 63
}
