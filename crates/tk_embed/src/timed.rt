//! Lines that tell histograms of poll times, from entries.
ghost use Rattle.std.specs.Prelude.{◌≡◌, ◌≤◌, ◌++◌, ◌∷◌, [], ℕ, List, true, false, map, is_some, IfOk, IfErr, OnOk};
ghost use Rattle.tk_core.specs.TimesWords as times_words;
ghost use Rattle.tk_embed.specs.declared.fault.Fault.{Fault};
ghost use Rattle.tk_embed.specs.Entries as spec;
ghost use Rattle.tk_embed.specs.Faults as faults;
ghost use Rattle.tk_embed.specs.Lines.{IsTimedLineFor, IsWritten, times_between};
ghost use Rattle.tk_stream.specs.Lines.{is_seq, told_times, with_times};
ghost use Rattle.tk_stream.specs.Tables.{item_with};
ghost use Rattle.tk_stream.specs.Times.{times_id};

use crate::entries::{
    Answer, AttrEntry, CountEntry, Head, OpEntry, ResourceEntry, TaskEntry, TimesEntry,
};
use crate::fault::{Bad, Fault, Reason, refusal};
use crate::infos::task_id;
use crate::line::{front, is_line_number, line_of, put, sent};
use std::alloc::Global;
use tk_core::TimesRow;
use tk_ids::TaskId;
use tk_stream::{Line, PollTimes, Table};

fn row_in(words: &[u64; 16]) -> Result<TimesRow, Bad>
    ensures ok { IfOk result (λ row. times_words.words_of row ≡ words.now) }
    ensures err { IfErr result (λ bad. (bad ≡ Bad.Entry Reason.Row) × faults.HasNoRow times_words.words_of words.now) }
{
    match TimesRow::from_words(words) {
        Some(row) => Ok(row),
        None => Err(Bad::Entry(Reason::Row)),
    }
}

// The row of these words, or of those that were told.
fn row_at(now: bool, words: &[u64; 16], told: &[u64; 16]) -> Result<TimesRow, Bad>
    ensures ok { IfOk result (λ row. times_words.words_of row ≡ faults.words_at now words.now told.now) }
    ensures err { IfErr result (λ bad. (bad ≡ Bad.Entry Reason.Row)
        × faults.HasNoRow times_words.words_of (faults.words_at now words.now told.now)) }
{
    if now { row_in(words) } else { row_in(told) }
}

// The histogram of an entry, with that of the waits that are beside it.
fn shown(entry: &TimesEntry, now: bool) -> Result<PollTimes, Bad>
    ensures ok { IfOk result (λ times. times ≡ (spec.times_entry_shown now entry.now).1) }
    ensures err { IfErr result (λ bad. (bad ≡ Bad.Entry Reason.Row) × faults.HasBadRows now entry.now) }
{
    let polls = row_at(now, &entry.row, &entry.told)?;
    if !entry.waited {
        return Ok(PollTimes::of(&polls));
    }
    let waits = row_at(now, &entry.waits, &entry.told_waits)?;
    Ok(PollTimes::of_both(&polls, &waits))
}

fn add_times(
    table: &mut Table<(TaskId, PollTimes)>,
    entry: &TimesEntry,
    now: bool,
) -> Result<(), Bad>
    ensures ok { OnOk result (table.new ≡ table.old ++ spec.times_entry_shown now entry.now ∷ []) }
    ensures err { IfErr result (faults.OfBad (faults.IsBadHistogram now (is_some (item_with times_id entry.now.task table.old)) entry.now)) }
{
    let id = task_id(entry.task)?;
    if table.with_id(id.value()).is_some() {
        return Err(Bad::Entry(Reason::Twice));
    }
    let times = shown(entry, now)?;
    match table.push((id, times)) {
        Ok(()) => Ok(()),
        Err(_) => Err(Bad::Memory),
    }
}

fn put_times(
    table: &mut Table<(TaskId, PollTimes)>,
    entries: &[TimesEntry],
    now: bool,
) -> Result<(), (usize, Bad)>
    requires { table.old ≡ [] }
    ensures ok { OnOk result (table.new ≡ map (spec.times_entry_shown now) entries.now) }
    ensures err { IfErr result (λ at. faults.OfBad (faults.IsBadAt (faults.IsBadTimes now) entries.now at.0) at.1) }
{
    for i in 0..entries.len() {
        match add_times(table, &entries[i], now) {
            Ok(()) => {}
            Err(bad) => return Err((i, bad)),
        }
    }
    Ok(())
}

fn times_fault(place: usize, bad: Bad) -> Fault
    ensures { result ≡ faults.fault_at Fault.BadTimes place bad }
{
    match bad {
        Bad::Entry(reason) => Fault::BadTimes(place, reason),
        Bad::Memory => Fault::Memory,
    }
}

// The histograms of entries: with `now` each with its row, and otherwise each with the row that was told.
fn times_of(
    alloc: Global,
    entries: &[TimesEntry],
    now: bool,
) -> Result<Table<(TaskId, PollTimes)>, Fault>
    ensures ok { IfOk result (λ table. table ≡ map (spec.times_entry_shown now) entries.now) }
    ensures err { IfErr result (faults.IsTimesFaultOf now entries.now) }
{
    let mut table = Table::new(alloc);
    match put_times(&mut table, entries, now) {
        Ok(()) => Ok(table),
        Err((place, bad)) => Err(times_fault(place, bad)),
    }
}

// The line as one that tells the histograms, of which so many were told.
fn telling(alloc: Global, line: Line, times: &[TimesEntry], told: usize) -> Result<Line, Fault>
    ensures ok { IfOk result (λ made. made ≡ with_times (times_between told times.now) line) }
    ensures err { IfErr result (faults.IsTimesFault told times.now) }
{
    let Some(told_times) = front(times, told) else {
        return Err(Fault::FewEntries);
    };
    let new = times_of(alloc, times, true)?;
    match times_of(alloc, told_times, false) {
        Ok(old) => match line.telling_between(&old, &new) {
            Ok(line) => Ok(line),
            Err(_) => Err(Fault::Memory),
        },
        Err(fault) => Err(fault),
    }
}

// How many histograms a line takes as told: a snapshot tells all.
fn told_count(head: &Head, told: usize) -> usize
    ensures { result ≡ faults.told_count head.now told }
{
    if head.snapshot { 0 } else { told }
}

fn timed_line(
    alloc: Global,
    head: &Head,
    tasks: &[TaskEntry],
    resources: &[ResourceEntry],
    ops: &[OpEntry],
    counts: &[CountEntry],
    attrs: &[AttrEntry],
    text: &[u8],
    times: &[TimesEntry],
    told: usize,
) -> Result<Vec<u8>, Fault>
    requires { is_seq head.now.seq ≡ true }
    ensures ok { IfOk result (λ line. IsTimedLineFor head.now (record { tasks = tasks.now; resources = resources.now; ops = ops.now; counts = counts.now; attrs = attrs.now; text = text.now }) told times.now line.items) }
    ensures err { IfErr result (faults.IsTimedFault head.now (record { tasks = tasks.now; resources = resources.now; ops = ops.now; counts = counts.now; attrs = attrs.now; text = text.now }) told times.now) }
{
    let line = line_of(alloc, head, tasks, resources, ops, counts, attrs, text)?;
    let told = told_count(head, told);
    let timed = telling(alloc, line, times, told)?;
    sent(&timed)
}

/// The line that leads from the tables of what was told to the tables of what is, and tells the histograms, the first `told` of which
/// were told, with its line end, written to the front of `out`. It is of version 3, or of version 4 if it tells waits.
#[unsafe(no_mangle)]
pub extern "C" fn taskscope_timed_line(
    alloc: Global,
    head: &Head,
    tasks: &[TaskEntry],
    resources: &[ResourceEntry],
    ops: &[OpEntry],
    counts: &[CountEntry],
    attrs: &[AttrEntry],
    text: &[u8],
    times: &[TimesEntry],
    told: usize,
    out: &mut [u8],
) -> Answer
    ensures line { result.status ≤ 1 → (line : List ℕ)
        × IsTimedLineFor head.now (record { tasks = tasks.now; resources = resources.now; ops = ops.now; counts = counts.now; attrs = attrs.now; text = text.now }) told times.now line
        × IsWritten line out.old out.new result }
    ensures numbered { result.status ≤ 1 → is_seq head.now.seq ≡ true }
    ensures refused { 2 ≤ result.status → out.new ≡ out.old }
    ensures why { 2 ≤ result.status → (fault : Fault) × (result ≡ faults.answer_of fault)
        × faults.IsTimedFault head.now (record { tasks = tasks.now; resources = resources.now; ops = ops.now; counts = counts.now; attrs = attrs.now; text = text.now }) told times.now fault }
{
    if !is_line_number(head.seq) {
        return refusal(Fault::NoNumber);
    }
    match timed_line(
        alloc, head, tasks, resources, ops, counts, attrs, text, times, told,
    ) {
        Ok(line) => put(line.as_slice(), out),
        Err(fault) => refusal(fault),
    }
}
