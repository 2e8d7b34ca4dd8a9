//! The lines of a stream, from entries.
ghost use Rattle.std.specs.Prelude.{◌≡◌, ◌≤◌, ℕ, List, true, length, take, nat_lt, IfOk, IfErr, IfSome, IfNone, IsTrue, if◌then◌else◌};
ghost use Rattle.tk_embed.specs.declared.fault.Fault.{Fault};
ghost use Rattle.tk_embed.specs.Faults.{IsFault, answer_of};
ghost use Rattle.tk_embed.specs.Lines.{IsSnapshotFor, IsChangeFor, IsLine, IsLineFor, IsWritten, text_answer};
ghost use Rattle.tk_stream.specs.Lines.{line_between, snapshot_of, is_seq};
ghost use Rattle.tk_stream.specs.Tables.{empty_tables};
ghost use Rattle.tk_stream.specs.Spelling.{sent_text};

use crate::entries::{Answer, AttrEntry, CountEntry, Head, OpEntry, ResourceEntry, TaskEntry};
use crate::fault::{Fault, refusal};
use crate::tables::tables_of;
use std::alloc::Global;
use tk_stream::{Line, Tables};

// The text of a line, with its line end.
pub(crate) fn sent(line: &Line) -> Result<Vec<u8>, Fault>
    ensures ok { IfOk result (λ text. text.items ≡ sent_text line.now) }
    ensures err { IfErr result (λ fault. fault ≡ Fault.Memory) }
{
    let Ok(mut text) = line.write() else {
        return Err(Fault::Memory);
    };
    match text.push(b'\n') {
        Ok(()) => Ok(text),
        Err(_) => Err(Fault::Memory),
    }
}

// The line that leads from the old tables to the new ones.
fn between(
    alloc: Global,
    old: &Tables,
    new: &Tables,
    seq: u64,
    snapshot: bool,
) -> Result<Line, Fault>
    requires numbered { is_seq seq ≡ true }
    requires whole { IsTrue snapshot → old.now ≡ empty_tables }
    ensures ok { IfOk result (λ line. line ≡ if snapshot then snapshot_of new.now seq else line_between old.now new.now seq) }
    ensures err { IfErr result (λ fault. fault ≡ Fault.Memory) }
{
    match Line::between(alloc, old, new, seq, snapshot) {
        Ok(line) => Ok(line),
        Err(_) => Err(Fault::Memory),
    }
}

// The first so many, if there are so many.
pub(crate) fn front<T>(list: &[T], count: usize) -> Option<&[T]>
    ensures some { IfSome result (λ part. part.now ≡ take count list.now) }
    ensures none { IfNone result (nat_lt (length list.now) count ≡ true) }
{
    list.get(..count)
}

fn snapshot_line(
    alloc: Global,
    head: &Head,
    tasks: &[TaskEntry],
    resources: &[ResourceEntry],
    ops: &[OpEntry],
    counts: &[CountEntry],
    attrs: &[AttrEntry],
    text: &[u8],
) -> Result<Line, Fault>
    requires { is_seq head.now.seq ≡ true }
    ensures ok { IfOk result (λ line. IsSnapshotFor head.now (record { tasks = tasks.now; resources = resources.now; ops = ops.now; counts = counts.now; attrs = attrs.now; text = text.now }) line) }
    ensures err { IfErr result (IsFault head.now (record { tasks = tasks.now; resources = resources.now; ops = ops.now; counts = counts.now; attrs = attrs.now; text = text.now })) }
{
    let new = tables_of(
        alloc, head, tasks, resources, ops, counts, attrs, text, true,
    )?;
    let Ok(none) = Tables::new(alloc) else {
        return Err(Fault::Memory);
    };
    between(alloc, &none, &new, head.seq, true)
}

fn change_line(
    alloc: Global,
    head: &Head,
    tasks: &[TaskEntry],
    resources: &[ResourceEntry],
    ops: &[OpEntry],
    counts: &[CountEntry],
    attrs: &[AttrEntry],
    text: &[u8],
) -> Result<Line, Fault>
    requires { is_seq head.now.seq ≡ true }
    ensures ok { IfOk result (λ line. IsChangeFor head.now (record { tasks = tasks.now; resources = resources.now; ops = ops.now; counts = counts.now; attrs = attrs.now; text = text.now }) line) }
    ensures err { IfErr result (IsFault head.now (record { tasks = tasks.now; resources = resources.now; ops = ops.now; counts = counts.now; attrs = attrs.now; text = text.now })) }
{
    let Some(told_tasks) = front(tasks, head.told_tasks) else {
        return Err(Fault::FewEntries);
    };
    let Some(told_resources) = front(resources, head.told_resources) else {
        return Err(Fault::FewEntries);
    };
    let Some(told_ops) = front(ops, head.told_ops) else {
        return Err(Fault::FewEntries);
    };
    let Some(told_counts) = front(counts, head.told_counts) else {
        return Err(Fault::FewEntries);
    };
    let new = tables_of(
        alloc, head, tasks, resources, ops, counts, attrs, text, true,
    )?;
    match tables_of(
        alloc,
        head,
        told_tasks,
        told_resources,
        told_ops,
        told_counts,
        attrs,
        text,
        false,
    ) {
        Ok(old) => between(alloc, &old, &new, head.seq, false),
        Err(fault) => Err(fault),
    }
}

/// The line that a head and entries ask for.
pub(crate) fn line_of(
    alloc: Global,
    head: &Head,
    tasks: &[TaskEntry],
    resources: &[ResourceEntry],
    ops: &[OpEntry],
    counts: &[CountEntry],
    attrs: &[AttrEntry],
    text: &[u8],
) -> Result<Line, Fault>
    requires { is_seq head.now.seq ≡ true }
    ensures ok { IfOk result (λ line. IsLine head.now.snapshot head.now (record { tasks = tasks.now; resources = resources.now; ops = ops.now; counts = counts.now; attrs = attrs.now; text = text.now }) line) }
    ensures err { IfErr result (IsFault head.now (record { tasks = tasks.now; resources = resources.now; ops = ops.now; counts = counts.now; attrs = attrs.now; text = text.now })) }
{
    if head.snapshot {
        snapshot_line(alloc, head, tasks, resources, ops, counts, attrs, text)
    } else {
        change_line(alloc, head, tasks, resources, ops, counts, attrs, text)
    }
}

fn text_of(
    alloc: Global,
    head: &Head,
    tasks: &[TaskEntry],
    resources: &[ResourceEntry],
    ops: &[OpEntry],
    counts: &[CountEntry],
    attrs: &[AttrEntry],
    text: &[u8],
) -> Result<Vec<u8>, Fault>
    requires { is_seq head.now.seq ≡ true }
    ensures ok { IfOk result (λ line. IsLineFor head.now (record { tasks = tasks.now; resources = resources.now; ops = ops.now; counts = counts.now; attrs = attrs.now; text = text.now }) line.items) }
    ensures err { IfErr result (IsFault head.now (record { tasks = tasks.now; resources = resources.now; ops = ops.now; counts = counts.now; attrs = attrs.now; text = text.now })) }
{
    let line = line_of(alloc, head, tasks, resources, ops, counts, attrs, text)?;
    sent(&line)
}

fn answer_of_text(status: u32, len: usize) -> Answer
    ensures { result ≡ text_answer status len }
{
    Answer {
        status,
        reason: 0,
        place: 0,
        len,
    }
}

// Writes the text to the front of `out`, where it fits.
pub(crate) fn put(text: &[u8], out: &mut [u8]) -> Answer
    ensures written { IsWritten text.now out.old out.new result }
    ensures status { result.status ≤ 1 }
{
    let len = text.len();
    if len > out.len() {
        return answer_of_text(1, len);
    }
    out[..len].copy_from_slice(text);
    answer_of_text(0, len)
}

pub(crate) fn is_line_number(seq: u64) -> bool
    ensures { result ≡ is_seq seq }
{
    1 <= seq && seq <= 1 << 63
}

/// The line that leads from the tables of what was told to the tables of what is, with its line end, written to the front of
/// `out`.
#[unsafe(no_mangle)]
pub extern "C" fn taskscope_line(
    alloc: Global,
    head: &Head,
    tasks: &[TaskEntry],
    resources: &[ResourceEntry],
    ops: &[OpEntry],
    counts: &[CountEntry],
    attrs: &[AttrEntry],
    text: &[u8],
    out: &mut [u8],
) -> Answer
    ensures line { result.status ≤ 1 → (line : List ℕ)
        × IsLineFor head.now (record { tasks = tasks.now; resources = resources.now; ops = ops.now; counts = counts.now; attrs = attrs.now; text = text.now }) line
        × IsWritten line out.old out.new result }
    ensures numbered { result.status ≤ 1 → is_seq head.now.seq ≡ true }
    ensures refused { 2 ≤ result.status → out.new ≡ out.old }
    ensures why { 2 ≤ result.status → (fault : Fault) × (result ≡ answer_of fault)
        × IsFault head.now (record { tasks = tasks.now; resources = resources.now; ops = ops.now; counts = counts.now; attrs = attrs.now; text = text.now }) fault }
{
    if !is_line_number(head.seq) {
        return refusal(Fault::NoNumber);
    }
    match text_of(alloc, head, tasks, resources, ops, counts, attrs, text) {
        Ok(line) => put(line.as_slice(), out),
        Err(fault) => refusal(fault),
    }
}
