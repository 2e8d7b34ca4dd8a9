//! What leaves: items that were told as closed for long enough.
ghost use Rattle.std.specs.Prelude.{◌≡◌, ◌≤◌, ℕ, List, true, IfOk, IfErr, OnOk};
ghost use Rattle.tk_core.specs.declared.op.row.OpRow.{OpRow};
ghost use Rattle.tk_core.specs.declared.resource.row.ResourceRow.{ResourceRow};
ghost use Rattle.tk_core.specs.declared.task.row.TaskRow.{TaskRow};
ghost use Rattle.tk_core.specs.TaskWords as task_words;
ghost use Rattle.tk_core.specs.ResourceWords as resource_words;
ghost use Rattle.tk_core.specs.OpWords as op_words;
ghost use Rattle.tk_embed.specs.declared.fault.Fault.{Fault};
ghost use Rattle.tk_embed.specs.Faults.{IsFault, answer_of};
ghost use Rattle.tk_embed.specs.Lines.{IsGoneFor, IsWritten};
ghost use Rattle.tk_stream.specs.Fronts.{HaveRoom};
ghost use Rattle.tk_stream.specs.Lines.{is_seq};
ghost use Rattle.tk_stream.specs.Retention as retentions;
ghost use Rattle.tk_stream.specs.Spelling.{sent_text};

use crate::entries::{Answer, AttrEntry, CountEntry, Head, OpEntry, ResourceEntry, TaskEntry};
use crate::fault::{Fault, refusal};
use crate::line::{is_line_number, put, sent};
use crate::tables::tables_of;
use std::alloc::Global;
use tk_core::{OpRow, ResourceRow, TaskRow};
use tk_stream::{Item, Line, Tables, ToldRows, ToldTables};

fn is_due(closed: Option<u64>, moment: u64, retention: u64) -> bool
    ensures { result ≡ retentions.is_due retention moment closed }
{
    match closed {
        Some(at) => moment.saturating_sub(at) >= retention,
        None => false,
    }
}

/// Whether a task leaves that was told with these words. Of words that no row has it answers `false`.
#[unsafe(no_mangle)]
pub extern "C" fn taskscope_task_leaves(told: &[u64; 16], moment: u64, retention: u64) -> bool
    ensures when { (row : TaskRow) → task_words.words_of row ≡ told.now → result ≡ retentions.is_due retention moment row.dropped }
    ensures known { result ≡ true → (row : TaskRow) × (task_words.words_of row ≡ told.now) }
{
    match TaskRow::from_words(told) {
        Some(row) => is_due(row.dropped, moment, retention),
        None => false,
    }
}

/// Whether a resource leaves that was told with these words. Of words that no row has it answers `false`.
#[unsafe(no_mangle)]
pub extern "C" fn taskscope_resource_leaves(told: &[u64; 16], moment: u64, retention: u64) -> bool
    ensures when { (row : ResourceRow) → resource_words.words_of row ≡ told.now → result ≡ retentions.is_due retention moment row.dropped }
    ensures known { result ≡ true → (row : ResourceRow) × (resource_words.words_of row ≡ told.now) }
{
    match ResourceRow::from_words(told) {
        Some(row) => is_due(row.dropped, moment, retention),
        None => false,
    }
}

/// Whether an async operation leaves that was told with these words. Of words that no row has it answers `false`.
#[unsafe(no_mangle)]
pub extern "C" fn taskscope_op_leaves(told: &[u64; 16], moment: u64, retention: u64) -> bool
    ensures when { (row : OpRow) → op_words.words_of row ≡ told.now → result ≡ retentions.is_due retention moment row.dropped }
    ensures known { result ≡ true → (row : OpRow) × (op_words.words_of row ≡ told.now) }
{
    match OpRow::from_words(told) {
        Some(row) => is_due(row.dropped, moment, retention),
        None => false,
    }
}

fn make_room<T: Item>(told: &mut ToldRows<T>, count: usize) -> Result<(), Fault>
    ensures ok { OnOk result (count ≤ told.new.room) }
    ensures err { IfErr result (λ fault. fault ≡ Fault.Memory) }
{
    for i in 0..count {
        let Ok(()) = told.make_room(i) else {
            return Err(Fault::Memory);
        };
    }
    Ok(())
}

fn make_all_room(told: &mut ToldTables, tables: &Tables) -> Result<(), Fault>
    ensures ok { OnOk result (HaveRoom told.new tables.now) }
    ensures err { IfErr result (λ fault. fault ≡ Fault.Memory) }
{
    make_room(&mut told.tasks, tables.task_count())?;
    make_room(&mut told.resources, tables.resource_count())?;
    make_room(&mut told.ops, tables.op_count())?;
    make_room(&mut told.counts, tables.counted())
}

// The text of the line that says what leaves of tables that were told, with its line end.
fn text_of_leaving(
    alloc: Global,
    tables: &Tables,
    moment: u64,
    seq: u64,
    retention: u64,
) -> Result<Vec<u8>, Fault>
    requires { is_seq seq ≡ true }
    ensures ok { IfOk result (λ text. text.items ≡ sent_text (retentions.line_pruned tables.now (retentions.prune (record tables.now { now = moment }) tables.now moment retention) seq)) }
    ensures err { IfErr result (λ fault. fault ≡ Fault.Memory) }
{
    let mut told = ToldTables::new(alloc);
    make_all_room(&mut told, tables)?;
    told.tell(tables);
    let Ok((line, _leaving)) = Line::pruned(alloc, &told, tables, moment, seq, retention) else {
        return Err(Fault::Memory);
    };
    sent(&line)
}

fn gone_line(
    alloc: Global,
    head: &Head,
    retention: u64,
    tasks: &[TaskEntry],
    resources: &[ResourceEntry],
    ops: &[OpEntry],
    counts: &[CountEntry],
    attrs: &[AttrEntry],
    text: &[u8],
) -> Result<Vec<u8>, Fault>
    requires { is_seq head.now.seq ≡ true }
    ensures ok { IfOk result (λ line. IsGoneFor head.now retention (record { tasks = tasks.now; resources = resources.now; ops = ops.now; counts = counts.now; attrs = attrs.now; text = text.now }) line.items) }
    ensures err { IfErr result (IsFault head.now (record { tasks = tasks.now; resources = resources.now; ops = ops.now; counts = counts.now; attrs = attrs.now; text = text.now })) }
{
    let tables = tables_of(
        alloc, head, tasks, resources, ops, counts, attrs, text, true,
    )?;
    text_of_leaving(alloc, &tables, head.moment, head.seq, retention)
}

/// The line of version 2 that says which of the entries leave, all of which the line before told as they are, with its line end,
/// written to the front of `out`.
#[unsafe(no_mangle)]
pub extern "C" fn taskscope_gone_line(
    alloc: Global,
    head: &Head,
    retention: u64,
    tasks: &[TaskEntry],
    resources: &[ResourceEntry],
    ops: &[OpEntry],
    counts: &[CountEntry],
    attrs: &[AttrEntry],
    text: &[u8],
    out: &mut [u8],
) -> Answer
    ensures line { result.status ≤ 1 → (line : List ℕ)
        × IsGoneFor head.now retention (record { tasks = tasks.now; resources = resources.now; ops = ops.now; counts = counts.now; attrs = attrs.now; text = text.now }) line
        × IsWritten line out.old out.new result }
    ensures numbered { result.status ≤ 1 → is_seq head.now.seq ≡ true }
    ensures refused { 2 ≤ result.status → out.new ≡ out.old }
    ensures why { 2 ≤ result.status → (fault : Fault) × (result ≡ answer_of fault)
        × IsFault head.now (record { tasks = tasks.now; resources = resources.now; ops = ops.now; counts = counts.now; attrs = attrs.now; text = text.now }) fault }
{
    if !is_line_number(head.seq) {
        return refusal(Fault::NoNumber);
    }
    match gone_line(
        alloc, head, retention, tasks, resources, ops, counts, attrs, text,
    ) {
        Ok(line) => put(line.as_slice(), out),
        Err(fault) => refusal(fault),
    }
}
