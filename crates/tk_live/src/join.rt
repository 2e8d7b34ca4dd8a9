//! A block of threads: each worker that has lines is one thread.
ghost use Rattle.std.specs.Prelude.{◌≡◌, ◌<◌, ◌≢◌, ℕ, List, Option, length, replicate, Some, None, true, false, OnOk, IfOk, IfErr};
ghost use Rattle.std.specs.Option.{option_or};
ghost use Rattle.tk_live.specs.Blocks.{after_block, lines_of_both, spends, wakers_after};
ghost use Rattle.tk_live.specs.Handed.{HandedOut, RanAll, Worked, AreOut, TakenBack, AllComeBack, Share};
ghost use Rattle.tk_live.specs.Items.{HoldsTasks, AreWakers, woken_by};
ghost use Rattle.tk_live.specs.Named.{live_item};
ghost use Rattle.tk_live.specs.Pasts.{Pasts};
ghost use Rattle.tk_live.specs.Threads.{Apart, AreSameTasks, LastsAreLast};
ghost use Rattle.tk_live.specs.Runs.{block_of};
ghost use Rattle.tk_live.specs.Stops.{JoinStop, GateStops};
ghost use Rattle.tk_live.specs.declared.items.TaskItem.{TaskItem as Task};
ghost use Rattle.tk_live.specs.declared.items.WakerItem.{WakerItem as Waker};
ghost use Rattle.tk_script.specs.declared.stop.Stop.TheVariants as stops;

use crate::block::OpenBlock;
use crate::gate::Gate;
use crate::handed::{Handed, HandedWakers, part_waker, take_back_waker};
use crate::items::{TaskItem, WakerItem};
use crate::seats::{live_waker, put_seat, spend_waker, take_seat};
use crate::worker::work;
use std::alloc::{AllocError, Global};
use std::snapshot::Snapshot;
use std::sync::Wait;
use std::thread::{Promise, PromisedHandle, Scope, Threads, scope, scope_env};
use tk_script::{Stop, WorkerLine};

// So many empty places.
fn no_wakers(alloc: Global, count: usize) -> Result<HandedWakers, AllocError>
    ensures { IfOk result (λ places. places.items ≡ replicate count None) }
{
    let mut places = Vec::with_capacity(alloc, count)?;
    for i in 0..count {
        places.push(None)?;
    }
    Ok(places)
}

// Hands out each waker that lines name: those that worker 1's name to its thread, and the others to that of worker 2.
fn hand_out(
    alloc: Global,
    tasks: &mut Vec<TaskItem>,
    wakers: &Vec<Option<WakerItem>>,
    block: &OpenBlock,
) -> Result<(HandedWakers, HandedWakers), Stop>
    requires { AreWakers tasks.old.items wakers.now.items }
    ensures ok { IfOk result (λ d. HandedOut block.now.first block.now.second wakers.now.items tasks.old.items (length wakers.now.items) tasks.new.items d.0.items d.1.items) }
    ensures err { IfErr result (λ stop. stop ≡ stops.Memory) }
{
    let Ok(mut one) = no_wakers(alloc, wakers.len()) else {
        return Err(Stop::Memory);
    };
    let Ok(mut two) = no_wakers(alloc, wakers.len()) else {
        return Err(Stop::Memory);
    };
    for i in 0..wakers.len() {
        let number = i as u64 + 1;
        if let Some(waker) = live_waker(wakers, number) {
            if block.first.names(number) {
                let handed = part_waker(tasks, waker)?;
                put_seat(&mut one, number, handed);
            } else if block.second.names(number) {
                let handed = part_waker(tasks, waker)?;
                put_seat(&mut two, number, handed);
            }
        }
    }
    Ok((one, two))
}

// What the thread of a worker gives back.
#[derive(Drop)]
struct WorkOf<'a, G: Gate> {
    gate: &'a G,
    k: u64,
    lines: &'a [WorkerLine],
    wakers: Snapshot<HandedWakers>,
}

impl<'a, G: Gate> Promise<Option<HandedWakers>> for WorkOf<'a, G> {
    ghost use Rattle.tk_live.specs.Handed.{Worked};

    ghost kept_by = { λ p after. Worked (G.answers p.gate.now p.k) p.lines.now p.wakers.value.items after };
}

// Starts the thread of a worker.
fn start<'s, E, R: Threads + Wait + Sync, G: Gate + Sync>(
    threads: &Scope<'s, E>,
    rt: &'s R,
    gate: &'s G,
    k: u64,
    wakers: HandedWakers,
    lines: &'s [WorkerLine],
) -> Result<PromisedHandle<Option<HandedWakers>, WorkOf<'s, G>>, Stop>
    ensures gate { IfOk result (λ h. (h.promise.gate.now ≡ gate.now) × (h.promise.k ≡ k)) }
    ensures part { IfOk result (λ h. (h.promise.lines.now ≡ lines.now) × (h.promise.wakers.value.items ≡ wakers.items)) }
    ensures err { IfErr result (λ stop. stop ≡ stops.NoThread) }
{
    let promise = WorkOf {
        gate,
        k,
        lines,
        wakers: Snapshot::of(&wakers),
    };
    let body = move || -> Option<HandedWakers>
        ensures { Worked (G.answers gate.entry.now k) lines.entry.now wakers.items result }
    { work(rt, gate, k, wakers, lines) };
    match threads.spawn_with(promise, body) {
        Ok(handle) => Ok(handle),
        Err(_) => Err(Stop::NoThread),
    }
}

// Runs one worker in a thread of its own.
fn run_one<R: Threads + Wait + Sync, G: Gate + Sync>(
    rt: &R,
    gate: &G,
    k: u64,
    wakers: HandedWakers,
    lines: &[WorkerLine],
) -> Result<Option<HandedWakers>, Stop>
    ensures ok { IfOk result (Worked (G.answers gate.now k) lines.now wakers.items) }
    ensures err { IfErr result (λ stop. stop ≡ stops.NoThread) }
{
    scope(
        scope_env(),
        rt,
        |threads| -> Result<Option<HandedWakers>, Stop>
            ensures ok { IfOk result (Worked (G.answers gate.entry.now k) lines.entry.now wakers.items) }
            ensures err { IfErr result (λ stop. stop ≡ stops.NoThread) }
        {
            let thread = start(threads, rt, gate, k, wakers, lines)?;
            Ok(thread.join(rt))
        },
    )
}

// Runs both workers, in a thread each.
fn run_two<R: Threads + Wait + Sync, G: Gate + Sync>(
    rt: &R,
    gate: &G,
    one: HandedWakers,
    first: &[WorkerLine],
    two: HandedWakers,
    second: &[WorkerLine],
) -> Result<(Option<HandedWakers>, Option<HandedWakers>), Stop>
    ensures one { IfOk result (λ d. Worked (G.answers gate.now 1) first.now one.items d.0) }
    ensures two { IfOk result (λ d. Worked (G.answers gate.now 2) second.now two.items d.1) }
    ensures err { IfErr result (λ stop. stop ≡ stops.NoThread) }
{
    scope(
        scope_env(),
        rt,
        |threads| -> Result<(Option<HandedWakers>, Option<HandedWakers>), Stop>
            ensures one { IfOk result (λ d. Worked (G.answers gate.entry.now 1) first.entry.now one.items d.0) }
            ensures two { IfOk result (λ d. Worked (G.answers gate.entry.now 2) second.entry.now two.items d.1) }
            ensures err { IfErr result (λ stop. stop ≡ stops.NoThread) }
        {
            let first = start(threads, rt, gate, 1, one, first)?;
            let second = start(threads, rt, gate, 2, two, second)?;
            Ok((first.join(rt), second.join(rt)))
        },
    )
}

// What a worker hands back, if its gate did not stop it.
fn unstopped(done: Option<HandedWakers>) -> Result<HandedWakers, Stop>
    ensures ok { IfOk result (λ wakers. done ≡ Some wakers) }
    ensures err { IfErr result (λ stop. (stop ≡ stops.Stopped) × (done ≡ None)) }
{
    match done {
        Some(wakers) => Ok(wakers),
        None => Err(Stop::Stopped),
    }
}

// Runs a worker, in a thread of its own if it has lines.
fn run_alone<R: Threads + Wait + Sync, G: Gate + Sync>(
    rt: &R,
    gate: &G,
    k: u64,
    wakers: HandedWakers,
    lines: &[WorkerLine],
) -> Result<HandedWakers, Stop>
    ensures asked { IfOk result (λ after. 0 < length lines.now → G.answers gate.now k true) }
    ensures made { IfOk result (λ after. RanAll lines.now wakers.items after.items) }
    ensures err { IfErr result (JoinStop ((0 < length lines.now) × G.answers gate.now k false)) }
{
    if lines.is_empty() {
        return Ok(wakers);
    }
    unstopped(run_one(rt, gate, k, wakers, lines)?)
}

// Runs the lines of both workers, in a thread for each that has lines.
fn run_workers<R: Threads + Wait + Sync, G: Gate + Sync>(
    rt: &R,
    gate: &G,
    one: HandedWakers,
    two: HandedWakers,
    block: &OpenBlock,
) -> Result<(HandedWakers, HandedWakers), Stop>
    ensures one { IfOk result (λ d. RanAll block.now.first one.items d.0.items) }
    ensures two { IfOk result (λ d. RanAll block.now.second two.items d.1.items) }
    ensures first_asked { IfOk result (λ d. 0 < length block.now.first → G.answers gate.now 1 true) }
    ensures second_asked { IfOk result (λ d. 0 < length block.now.second → G.answers gate.now 2 true) }
    ensures lasts { IfOk result (λ d. LastsAreLast block.now.first × LastsAreLast block.now.second) }
    ensures err { IfErr result (JoinStop (GateStops (G.answers gate.now) (block_of block.now))) }
{
    let first = block.first.as_slice();
    let second = block.second.as_slice();
    if second.is_empty() {
        return Ok((run_alone(rt, gate, 1, one, first)?, two));
    }
    if first.is_empty() {
        return Ok((one, run_alone(rt, gate, 2, two, second)?));
    }
    let (one, two) = run_two(rt, gate, one, first, two, second)?;
    let one = unstopped(one)?;
    let two = unstopped(two)?;
    Ok((one, two))
}

// The waker of a number, from one of two lists.
fn take_either(one: &mut HandedWakers, two: &mut HandedWakers, number: u64) -> Option<Handed>
    ensures taken { result ≡ option_or (live_item number one.old.items) (live_item number two.old.items) }
    ensures others { (m : ℕ) → m ≢ number → (live_item m one.new.items ≡ live_item m one.old.items) × (live_item m two.new.items ≡ live_item m two.old.items) }
{
    match take_seat(one, number) {
        Some(handed) => Some(handed),
        None => take_seat(two, number),
    }
}

// Takes the wakers back that were handed out, from the last one to the first.
fn take_back<R: Wait>(
    rt: &R,
    tasks: &mut Vec<TaskItem>,
    wakers: &Vec<Option<WakerItem>>,
    one: HandedWakers,
    two: HandedWakers,
)
    requires { AreOut wakers.now.items tasks.old.items one.items two.items }
    ensures { (share : Share) (before : List Task) → TakenBack share wakers.now.items before (length wakers.now.items) tasks.old.items
        → AllComeBack share wakers.now.items before (length wakers.now.items) one.items two.items → TakenBack share wakers.now.items before 0 tasks.new.items }
{
    let mut one = one;
    let mut two = two;
    for i in (0..wakers.len()).rev() {
        let number = i as u64 + 1;
        if let Some(waker) = live_waker(wakers, number) {
            if let Some(handed) = take_either(&mut one, &mut two, number) {
                take_back_waker(rt, tasks, waker, handed);
            }
        }
    }
}

// Whether lines of a block have the last call of a waker.
fn spends(block: &OpenBlock, number: u64) -> bool
    ensures { result ≡ spends number (lines_of_both (block_of block.now)) }
{
    block.first.spends(number) || block.second.spends(number)
}

// The wakers whose last call lines have are spent.
fn spend_all(wakers: &mut Vec<Option<WakerItem>>, block: &OpenBlock)
    ensures woken { woken_by wakers.new.items ≡ wakers_after 1 (lines_of_both (block_of block.now)) (woken_by wakers.old.items) }
    ensures left { (w : ℕ) (a : Waker) → live_item w wakers.new.items ≡ Some a → (live_item w wakers.old.items ≡ Some a) × (spends w (lines_of_both (block_of block.now)) ≡ false) }
{
    for i in 0..wakers.len() {
        let number = i as u64 + 1;
        if spends(block, number) {
            spend_waker(wakers, number);
        }
    }
}

/// Runs a block: the lines of worker 1 in one thread and those of worker 2 in another, each of which is handed the wakers that its
/// lines name. They are taken back then, but for those that the lines spent.
///
/// A worker without lines gets no thread.
pub(crate) fn run_block<R: Threads + Wait + Sync, G: Gate + Sync>(
    rt: &R,
    alloc: Global,
    gate: &G,
    tasks: &mut Vec<TaskItem>,
    wakers: &mut Vec<Option<WakerItem>>,
    block: &OpenBlock,
) -> Result<(), Stop>
    requires { (ps : Pasts) × HoldsTasks tasks.old.items wakers.old.items ps }
    ensures same { OnOk result (AreSameTasks tasks.old.items tasks.new.items) }
    ensures ok { OnOk result ((ps : Pasts) → HoldsTasks tasks.old.items wakers.old.items ps → Apart block.now.first block.now.second → HoldsTasks tasks.new.items wakers.new.items (after_block (block_of block.now) ps)) }
    ensures first_asked { OnOk result (0 < length block.now.first → G.answers gate.now 1 true) }
    ensures second_asked { OnOk result (0 < length block.now.second → G.answers gate.now 2 true) }
    ensures err { IfErr result (JoinStop (GateStops (G.answers gate.now) (block_of block.now))) }
{
    let (one, two) = hand_out(alloc, tasks, wakers, block)?;
    let (one, two) = run_workers(rt, gate, one, two, block)?;
    take_back(rt, tasks, wakers, one, two);
    spend_all(wakers, block);
    Ok(())
}
