//! The text of numbers, family by family.
ghost use Rattle.std.specs.Prelude.{◌≡◌, ◌++◌, OnOk, slice_get, []};
ghost use Rattle.std.specs.Option.{option_map_or};
ghost use Rattle.tk_report.specs.Pieces.{Puts};
ghost use Rattle.tk_metrics.specs.Keys.{others_in as others_of};
ghost use Rattle.tk_metrics.specs.Metrics as spec;
ghost use Rattle.tk_metrics.specs.Samples.{family as family_text, head_of, sample, with_label};

use crate::blame::Tally;
use crate::family::{Count, Family};
use crate::keys::{Keys, others_in};
use crate::sums::{PollOps, Sums};
use crate::text::{put, put_bytes, put_head, put_label, put_sample};
use std::alloc::{AllocError, Global};
use tk_client::{Warning, WarningKind};
use tk_ids::Dropped;
use tk_report::VERSION;
use tk_series::{Limited, Series};

// ---- tasks

fn put_count_at(
    out: &mut Vec<u8>,
    count: Count,
    tasks: &Series<Sums>,
    place: usize,
) -> Result<(), AllocError>
    ensures { OnOk result (Puts out.old.items out.new.items
        (option_map_or (λ s. sample (Family.Task count) (s.0, spec.count_of count s.1)) (slice_get tasks.now place) [])) }
{
    match tasks.at(place) {
        Some((labels, sums)) => put_sample(out, Family::Task(count), labels, sums.count(count)),
        None => Ok(()),
    }
}

fn put_counts(out: &mut Vec<u8>, count: Count, tasks: &Series<Sums>) -> Result<(), AllocError>
    ensures { OnOk result (Puts out.old.items out.new.items (spec.count_family count tasks.now)) }
{
    put_head(out, Family::Task(count))?;
    for place in 0..tasks.len() {
        put_count_at(out, count, tasks, place)?;
    }
    Ok(())
}

// Puts a sample of labels and one more.
fn put_with_label(
    out: &mut Vec<u8>,
    alloc: Global,
    family: Family,
    labels: &[u8],
    key: &str,
    word: &str,
    value: u64,
) -> Result<(), AllocError>
    ensures { OnOk result (Puts out.old.items out.new.items
        (sample family (with_label labels.now key.now word.now, value))) }
{
    let mut all = Vec::new(alloc);
    put_bytes(&mut all, labels)?;
    put(&mut all, ",")?;
    put_label(&mut all, key, word.as_bytes())?;
    put_sample(out, family, all.as_slice(), value)
}

fn put_state(
    out: &mut Vec<u8>,
    alloc: Global,
    labels: &[u8],
    state: &str,
    count: u64,
) -> Result<(), AllocError>
    ensures { OnOk result (Puts out.old.items out.new.items (spec.state_sample labels.now state.now count)) }
{
    put_with_label(out, alloc, Family::Tasks, labels, "state", state, count)
}

fn put_states(out: &mut Vec<u8>, alloc: Global, labels: &[u8], sums: Sums) -> Result<(), AllocError>
    ensures { OnOk result (Puts out.old.items out.new.items (spec.state_samples (labels.now, sums))) }
{
    put_state(out, alloc, labels, "idle", sums.idle)?;
    put_state(out, alloc, labels, "scheduled", sums.scheduled)?;
    put_state(out, alloc, labels, "polling", sums.polling)?;
    put_state(out, alloc, labels, "closed", sums.closed)?;
    Ok(())
}

fn put_states_at(
    out: &mut Vec<u8>,
    alloc: Global,
    tasks: &Series<Sums>,
    place: usize,
) -> Result<(), AllocError>
    ensures { OnOk result (Puts out.old.items out.new.items
        (option_map_or spec.state_samples (slice_get tasks.now place) [])) }
{
    match tasks.at(place) {
        Some((labels, sums)) => put_states(out, alloc, labels, sums),
        None => Ok(()),
    }
}

fn put_all_states(out: &mut Vec<u8>, alloc: Global, tasks: &Series<Sums>) -> Result<(), AllocError>
    ensures { OnOk result (Puts out.old.items out.new.items (family_text Family.Tasks spec.state_samples tasks.now)) }
{
    put_head(out, Family::Tasks)?;
    for place in 0..tasks.len() {
        put_states_at(out, alloc, tasks, place)?;
    }
    Ok(())
}

fn put_tasks(out: &mut Vec<u8>, alloc: Global, tasks: &Series<Sums>) -> Result<(), AllocError>
    ensures { OnOk result (Puts out.old.items out.new.items (spec.task_families tasks.now)) }
{
    put_counts(out, Count::Polls, tasks)?;
    put_counts(out, Count::Busy, tasks)?;
    put_counts(out, Count::Scheduled, tasks)?;
    put_counts(out, Count::Wakes, tasks)?;
    put_counts(out, Count::SelfWakes, tasks)?;
    put_counts(out, Count::WakerClones, tasks)?;
    put_counts(out, Count::WakerDrops, tasks)?;
    put_all_states(out, alloc, tasks)?;
    put_counts(out, Count::OpenPoll, tasks)?;
    put_counts(out, Count::OpenWait, tasks)?;
    put_counts(out, Count::Waiting, tasks)?;
    Ok(())
}

// ---- resources

fn put_answer(
    out: &mut Vec<u8>,
    alloc: Global,
    labels: &[u8],
    answer: &str,
    count: u64,
) -> Result<(), AllocError>
    ensures { OnOk result (Puts out.old.items out.new.items (spec.answer_sample labels.now answer.now count)) }
{
    put_with_label(
        out,
        alloc,
        Family::PollOps,
        labels,
        "readiness",
        answer,
        count,
    )
}

fn put_answers(
    out: &mut Vec<u8>,
    alloc: Global,
    labels: &[u8],
    ops: PollOps,
) -> Result<(), AllocError>
    ensures { OnOk result (Puts out.old.items out.new.items (spec.answer_samples (labels.now, ops))) }
{
    put_answer(out, alloc, labels, "ready", ops.ready)?;
    put_answer(out, alloc, labels, "pending", ops.pending)?;
    Ok(())
}

fn put_answers_at(
    out: &mut Vec<u8>,
    alloc: Global,
    resources: &Series<PollOps>,
    place: usize,
) -> Result<(), AllocError>
    ensures { OnOk result (Puts out.old.items out.new.items
        (option_map_or spec.answer_samples (slice_get resources.now place) [])) }
{
    match resources.at(place) {
        Some((labels, ops)) => put_answers(out, alloc, labels, ops),
        None => Ok(()),
    }
}

fn put_resources(
    out: &mut Vec<u8>,
    alloc: Global,
    resources: &Series<PollOps>,
) -> Result<(), AllocError>
    ensures { OnOk result (Puts out.old.items out.new.items (family_text Family.PollOps spec.answer_samples resources.now)) }
{
    put_head(out, Family::PollOps)?;
    for place in 0..resources.len() {
        put_answers_at(out, alloc, resources, place)?;
    }
    Ok(())
}

// ---- warnings, events and lines

fn put_kind(
    out: &mut Vec<u8>,
    alloc: Global,
    family: Family,
    kind: &str,
    count: u64,
) -> Result<(), AllocError>
    ensures { OnOk result (Puts out.old.items out.new.items (spec.kind_sample family kind.now count)) }
{
    let mut labels = Vec::new(alloc);
    put_label(&mut labels, "kind", kind.as_bytes())?;
    put_sample(out, family, labels.as_slice(), count)
}

fn is_kind(kind: WarningKind, other: WarningKind) -> bool
    ensures { result ≡ spec.is_kind kind other }
{
    match (kind, other) {
        (WarningKind::SelfWakes, WarningKind::SelfWakes)
        | (WarningKind::LostWaker, WarningKind::LostWaker)
        | (WarningKind::NeverYielded, WarningKind::NeverYielded) => true,
        _ => false,
    }
}

fn warnings_of_kind(kind: WarningKind, warnings: &[Warning]) -> u64
    ensures { result ≡ spec.warnings_of_kind kind warnings.now }
{
    let mut count = 0;
    for warning in warnings {
        if is_kind(kind, warning.kind) {
            count += 1;
        }
    }
    count
}

fn put_warnings(out: &mut Vec<u8>, alloc: Global, warnings: &[Warning]) -> Result<(), AllocError>
    ensures { OnOk result (Puts out.old.items out.new.items (spec.warning_family warnings.now)) }
{
    let own = warnings_of_kind(WarningKind::SelfWakes, warnings);
    let lost = warnings_of_kind(WarningKind::LostWaker, warnings);
    let long = warnings_of_kind(WarningKind::NeverYielded, warnings);
    put_head(out, Family::Warnings)?;
    put_kind(out, alloc, Family::Warnings, "self-wakes", own)?;
    put_kind(out, alloc, Family::Warnings, "lost-waker", lost)?;
    put_kind(out, alloc, Family::Warnings, "never-yielded", long)?;
    Ok(())
}

fn put_dropped(out: &mut Vec<u8>, alloc: Global, dropped: Dropped) -> Result<(), AllocError>
    ensures { OnOk result (Puts out.old.items out.new.items (spec.dropped_family dropped)) }
{
    put_head(out, Family::Dropped)?;
    put_kind(out, alloc, Family::Dropped, "task", dropped.tasks)?;
    put_kind(out, alloc, Family::Dropped, "resource", dropped.resources)?;
    put_kind(out, alloc, Family::Dropped, "op", dropped.ops)?;
    Ok(())
}

fn put_lines(out: &mut Vec<u8>, lines: u64) -> Result<(), AllocError>
    ensures { OnOk result (Puts out.old.items out.new.items (spec.line_family lines)) }
{
    put_head(out, Family::Lines)?;
    put_sample(out, Family::Lines, b"", lines)
}

fn put_moment(out: &mut Vec<u8>, now: u64) -> Result<(), AllocError>
    ensures { OnOk result (Puts out.old.items out.new.items (spec.moment_family now)) }
{
    put_head(out, Family::Moment)?;
    put_sample(out, Family::Moment, b"", now)
}

fn put_version(out: &mut Vec<u8>, alloc: Global) -> Result<(), AllocError>
    ensures { OnOk result (Puts out.old.items out.new.items spec.version_sample) }
{
    let mut labels = Vec::new(alloc);
    put_label(&mut labels, "version", VERSION.as_bytes())?;
    put_sample(out, Family::Build, labels.as_slice(), 1)
}

fn put_build(out: &mut Vec<u8>, alloc: Global) -> Result<(), AllocError>
    ensures { OnOk result (Puts out.old.items out.new.items spec.build_family) }
{
    put_head(out, Family::Build)?;
    put_version(out, alloc)
}

fn put_others_of(out: &mut Vec<u8>, names: &Limited<Tally>) -> Result<(), AllocError>
    ensures { OnOk result (Puts out.old.items out.new.items (head_of Family.Others ++ sample Family.Others ([], others_of names.now))) }
{
    put_head(out, Family::Others)?;
    put_sample(out, Family::Others, b"", others_in(names))
}

/// Puts how many tasks came whose labels don't stand by themselves, where labels have an end.
pub(crate) fn put_others(out: &mut Vec<u8>, keys: &Keys) -> Result<(), AllocError>
    ensures { OnOk result (Puts out.old.items out.new.items (spec.others_family keys.now)) }
{
    match keys.names() {
        Some(names) => put_others_of(out, names),
        None => Ok(()),
    }
}

/// Puts the families of tables, of what has left them, of lines, and of the program.
pub(crate) fn put_text(
    out: &mut Vec<u8>,
    alloc: Global,
    tasks: &Series<Sums>,
    resources: &Series<PollOps>,
    warnings: &[Warning],
    dropped: Dropped,
    lines: u64,
    now: u64,
) -> Result<(), AllocError>
    ensures { OnOk result (Puts out.old.items out.new.items
        (spec.text_of tasks.now resources.now warnings.now dropped lines now)) }
{
    put_tasks(out, alloc, tasks)?;
    put_resources(out, alloc, resources)?;
    put_warnings(out, alloc, warnings)?;
    put_dropped(out, alloc, dropped)?;
    put_lines(out, lines)?;
    put_moment(out, now)?;
    put_build(out, alloc)?;
    Ok(())
}
