//! Scripts made at random, most of whose commands call what is there.

use rand_core::Rng;
use rand_pcg::Pcg32;
use std::alloc::{AllocError, Global};
use std::fmt::Write;

/// Where the owner of a task or an operation stands.
#[derive(Clone, Copy, Drop, PartialEq, Eq)]
enum Stage {
    Idle,
    Polled,
    Closed,
}

/// A call of such an owner.
#[derive(Clone, Copy, Drop, PartialEq, Eq)]
enum Call {
    Start,
    End,
    Close,
    SelfWake,
    Clone,
}

impl Call {
    // The words of a task, and those of an operation, which has the first three calls.
    fn word(self, of_task: bool) -> &'static str {
        match self {
            Call::Start => if of_task { "start" } else { "opstart" },
            Call::End => if of_task { "end" } else { "opend" },
            Call::Close => if of_task { "close" } else { "opclose" },
            Call::SelfWake => "selfwake",
            Call::Clone => "clone",
        }
    }

    // What it makes of a stage, where it fits.
    fn after(self, stage: Stage) -> Option<Stage> {
        match (stage, self) {
            (Stage::Idle, Call::Start) => Some(Stage::Polled),
            (Stage::Polled, Call::End) => Some(Stage::Idle),
            (Stage::Idle, Call::Close) => Some(Stage::Closed),
            (Stage::Polled, Call::SelfWake) => Some(Stage::Polled),
            (Stage::Idle | Stage::Polled, Call::Clone) => Some(stage),
            _ => None,
        }
    }
}

/// What a script has made so far, and the moment of its last line. Of a resource and an operation it has the number of
/// attributes.
#[derive(Drop)]
pub(super) struct Made {
    tasks: Vec<Stage>,
    wakers: Vec<bool>,
    resources: Vec<(bool, u64)>,
    ops: Vec<(Stage, u64)>,
    now: u64,
}

const TASK_CALLS: [Call; 5] = [
    Call::Start,
    Call::End,
    Call::Close,
    Call::SelfWake,
    Call::Clone,
];

const OP_CALLS: [Call; 3] = [Call::Start, Call::End, Call::Close];

// What declares no attribute, a number, a number and a truth value, or these and a signed number.
const RESOURCES: [&str; 4] = [
    " Sync Semaphore",
    " Sync Semaphore permits=1000000",
    " Sync Semaphore permits=1000000 closed=false",
    " Sync Semaphore permits=1000000 closed=false lag=-3",
];

const OPS: [&str; 4] = [
    " Semaphore::acquire",
    " Semaphore::acquire wants=1000000",
    " Semaphore::acquire wants=1000000 queued=true",
    " Semaphore::acquire wants=1000000 queued=true ahead=+5",
];

// Values that are of another kind than most attributes, or lead most of them out of range.
const WILD: [&str; 4] = [
    " 18446744073709551615",
    " true",
    " +9223372036854775807",
    " -9223372036854775808",
];

const LATEST: [u32; 7] = [
    1 << 15,
    1 << 17,
    1 << 19,
    1 << 21,
    1 << 23,
    1 << 25,
    1 << 27,
];

const OTHERS: [&str; 8] = [
    "tusk",
    "start 1",
    "capacity 5",
    "retention 5",
    "times",
    "task 1 spawn a b",
    "end 1 x",
    "publish",
];

fn below(random: &mut Pcg32, limit: u32) -> u64 {
    u64::from(random.next_u32() % limit.max(1))
}

// Once in so many times.
fn happens(random: &mut Pcg32, times: u32) -> bool {
    below(random, times) == 0
}

fn one_of(random: &mut Pcg32, words: &[&'static str]) -> &'static str {
    match words.get(below(random, u32::try_from(words.len()).unwrap_or(1)) as usize) {
        Some(word) => word,
        None => "",
    }
}

// The rest of a command that declares so many attributes.
fn rest_of(rests: &[&'static str], attrs: u64) -> &'static str {
    match rests.get(attrs as usize) {
        Some(rest) => rest,
        None => "",
    }
}

fn call_of(random: &mut Pcg32, calls: &[Call]) -> Call {
    match calls.get(below(random, u32::try_from(calls.len()).unwrap_or(1)) as usize) {
        Some(call) => *call,
        None => Call::Start,
    }
}

// A moment, at times the greatest.
fn moment(random: &mut Pcg32) -> u64 {
    if happens(random, 32) {
        u64::MAX
    } else {
        below(random, 1000)
    }
}

// A moment of a call of a task. Half of the ends are late, below one of these, so that polls run for times of each bucket.
fn moment_of(random: &mut Pcg32, call: Call) -> u64 {
    if call != Call::End || happens(random, 2) {
        return moment(random);
    }
    let at = below(random, 7) as usize;
    match LATEST.get(at) {
        Some(latest) => below(random, *latest),
        None => 0,
    }
}

// The number of one of so many items, or, once in 256 times and where there is none, of nothing.
fn number(random: &mut Pcg32, count: usize) -> u64 {
    let count = count.min(1000) as u64;
    if count == 0 || happens(random, 256) {
        return if happens(random, 2) { 0 } else { count + 1 };
    }
    below(random, count as u32).saturating_add(1)
}

fn place_of(number: u64) -> usize {
    number.saturating_sub(1) as usize
}

// Whether a command is made that doesn't fit.
fn is_wild(random: &mut Pcg32) -> bool {
    happens(random, 64)
}

// A line: a word, its numbers, and what ends it.
fn put(out: &mut String, word: &str, numbers: &[u64], rest: &str) -> Result<(), AllocError> {
    out.push_str(word)?;
    for number in numbers {
        write!(out, " {number}")?;
    }
    out.push_str(rest)?;
    out.push_str("\n")
}

fn add_task(random: &mut Pcg32, made: &mut Made, out: &mut String) -> Result<(), AllocError> {
    let rest = if happens(random, 4) {
        " blocking b"
    } else {
        " spawn a"
    };
    put(out, "task", &[moment(random)], rest)?;
    made.tasks.push(Stage::Idle)?;
    Ok(())
}

fn call_task(random: &mut Pcg32, made: &mut Made, out: &mut String) -> Result<(), AllocError> {
    let task = number(random, made.tasks.len());
    let call = call_of(random, TASK_CALLS.as_slice());
    let wild = is_wild(random);
    let stage = match made.tasks.get(place_of(task)) {
        Some(stage) => call.after(*stage),
        None => None,
    };
    if let Some(stage) = stage {
        if let Some(held) = made.tasks.get_mut(place_of(task)) {
            *held = stage;
        }
    } else if !wild {
        return Ok(());
    }
    if call == Call::Clone {
        put(out, call.word(true), &[task], "")?;
        made.wakers.push(true)?;
        return Ok(());
    }
    put(out, call.word(true), &[task, moment_of(random, call)], "")
}

// How long each of many polls runs: mostly for a short time, else below one of those times.
fn run_of(random: &mut Pcg32) -> u64 {
    if happens(random, 2) {
        return below(random, 1000);
    }
    moment_of(random, Call::End)
}

// Polls of an idle task by one command: a few, at times none or too many, or such as no clock has room for.
fn poll_many(random: &mut Pcg32, made: &mut Made, out: &mut String) -> Result<(), AllocError> {
    let task = number(random, made.tasks.len());
    let wild = is_wild(random);
    let is_idle = match made.tasks.get(place_of(task)) {
        Some(stage) => *stage == Stage::Idle,
        None => false,
    };
    if !is_idle && !wild {
        return Ok(());
    }
    let count = if !wild {
        below(random, 20).saturating_add(1)
    } else if happens(random, 2) {
        1_000_001
    } else {
        0
    };
    let numbers = [
        task,
        count,
        below(random, 1000),
        run_of(random),
        below(random, 1000),
    ];
    put(out, "polls", numbers.as_slice(), "")
}

fn call_waker(random: &mut Pcg32, made: &mut Made, out: &mut String) -> Result<(), AllocError> {
    let waker = number(random, made.wakers.len());
    let wild = is_wild(random);
    let is_there = match made.wakers.get(place_of(waker)) {
        Some(is_there) => *is_there,
        None => false,
    };
    if !is_there && !wild {
        return Ok(());
    }
    match below(random, 4) {
        0 => {
            put(out, "again", &[waker], "")?;
            made.wakers.push(true)?;
            return Ok(());
        }
        1 => return put(out, "wakeref", &[waker, moment(random)], ""),
        2 => put(out, "wake", &[waker, moment(random)], "")?,
        _ => put(out, "release", &[waker], "")?,
    }
    if let Some(held) = made.wakers.get_mut(place_of(waker)) {
        *held = false;
    }
    Ok(())
}

fn add_resource(random: &mut Pcg32, made: &mut Made, out: &mut String) -> Result<(), AllocError> {
    let attrs = below(random, 4);
    put(
        out,
        "resource",
        &[moment(random)],
        rest_of(RESOURCES.as_slice(), attrs),
    )?;
    made.resources.push((true, attrs))?;
    Ok(())
}

// A change of a signed attribute, which leads it to both sides of 0.
fn put_signed_change(random: &mut Pcg32, out: &mut String, number: u64) -> Result<(), AllocError> {
    let how = one_of(random, &["add", "sub", "set"]);
    let sign = one_of(random, &["+", "-"]);
    write!(out, "{how} {number} 2 {sign}{}\n", below(random, 1000))
}

// A change of an attribute that is there and of its kind, and in range, where it isn't wild.
fn put_change(
    random: &mut Pcg32,
    out: &mut String,
    word: &str,
    number: u64,
    attrs: u64,
) -> Result<(), AllocError> {
    let wild = is_wild(random);
    out.push_str(word)?;
    if wild {
        let rest = one_of(random, WILD.as_slice());
        let how = one_of(random, &["add", "sub", "set"]);
        return put(out, how, &[number, below(random, 4)], rest);
    }
    if attrs == 3 && happens(random, 2) {
        return put_signed_change(random, out, number);
    }
    if attrs >= 2 && happens(random, 2) {
        let rest = one_of(random, &[" true", " false"]);
        return put(out, "set", &[number, 1], rest);
    }
    let how = one_of(random, &["add", "sub", "set"]);
    put(out, how, &[number, 0, below(random, 1000)], "")
}

fn call_resource(random: &mut Pcg32, made: &mut Made, out: &mut String) -> Result<(), AllocError> {
    let resource = number(random, made.resources.len());
    let wild = is_wild(random);
    let (is_open, attrs) = match made.resources.get(place_of(resource)) {
        Some(held) => *held,
        None => (false, 0),
    };
    if !is_open && !wild {
        return Ok(());
    }
    if attrs > 0 && !happens(random, 8) {
        return put_change(random, out, "r", resource, attrs);
    }
    if let Some(held) = made.resources.get_mut(place_of(resource)) {
        held.0 = false;
    }
    put(out, "rclose", &[resource, moment(random)], "")
}

fn add_op(random: &mut Pcg32, made: &mut Made, out: &mut String) -> Result<(), AllocError> {
    let resource = number(random, made.resources.len());
    let wild = is_wild(random);
    if made.resources.is_empty() && !wild {
        return Ok(());
    }
    let attrs = below(random, 4);
    put(
        out,
        "op",
        &[moment(random), resource],
        rest_of(OPS.as_slice(), attrs),
    )?;
    made.ops.push((Stage::Idle, attrs))?;
    Ok(())
}

// An operation is changed, or from now on polled by a task.
fn change_op(
    random: &mut Pcg32,
    made: &mut Made,
    out: &mut String,
    op: u64,
    attrs: u64,
) -> Result<(), AllocError> {
    if attrs > 0 && happens(random, 2) {
        return put_change(random, out, "o", op, attrs);
    }
    let task = number(random, made.tasks.len());
    if made.tasks.is_empty() {
        return Ok(());
    }
    put(out, "optask", &[op, task], "")
}

fn call_op(random: &mut Pcg32, made: &mut Made, out: &mut String) -> Result<(), AllocError> {
    let op = number(random, made.ops.len());
    let call = call_of(random, OP_CALLS.as_slice());
    let wild = is_wild(random);
    let (stage, attrs) = match made.ops.get(place_of(op)) {
        Some(held) => *held,
        None => (Stage::Closed, 0),
    };
    if stage == Stage::Closed && !wild {
        return Ok(());
    }
    if happens(random, 2) {
        return change_op(random, made, out, op, attrs);
    }
    if let Some(stage) = call.after(stage) {
        if let Some(held) = made.ops.get_mut(place_of(op)) {
            held.0 = stage;
        }
    } else if !wild {
        return Ok(());
    }
    put(out, call.word(false), &[op, moment(random)], "")
}

fn poll_op(random: &mut Pcg32, made: &mut Made, out: &mut String) -> Result<(), AllocError> {
    let resource = number(random, made.resources.len());
    let op = number(random, made.ops.len());
    let task = number(random, made.tasks.len());
    let wild = is_wild(random);
    if (made.ops.is_empty() || made.tasks.is_empty()) && !wild {
        return Ok(());
    }
    let rest = one_of(random, &[" poll_acquire ready", " poll_acquire pending"]);
    put(out, "pollop", &[resource, op, task], rest)
}

// A line of the stream, at a moment that doesn't fall.
fn publish(random: &mut Pcg32, made: &mut Made, out: &mut String) -> Result<(), AllocError> {
    let word = if happens(random, 4) {
        "snapshot"
    } else {
        "publish"
    };
    let wild = is_wild(random);
    if wild && made.now > 0 {
        return put(out, word, &[made.now - 1], "");
    }
    made.now = made.now.saturating_add(below(random, 300));
    put(out, word, &[made.now], "")
}

// What is no command, or is skipped.
fn other(random: &mut Pcg32, out: &mut String) -> Result<(), AllocError> {
    if is_wild(random) {
        return put(out, one_of(random, OTHERS.as_slice()), &[], "");
    }
    put(out, one_of(random, &["", "# start 9 9", "#"]), &[], "")
}

fn add_line(random: &mut Pcg32, made: &mut Made, out: &mut String) -> Result<(), AllocError> {
    match below(random, 32) {
        0..=3 => add_task(random, made, out),
        4..=10 => call_task(random, made, out),
        11 => poll_many(random, made, out),
        12..=15 => call_waker(random, made, out),
        16 => add_resource(random, made, out),
        17..=19 => call_resource(random, made, out),
        20 | 21 => add_op(random, made, out),
        22..=25 => call_op(random, made, out),
        26..=28 => poll_op(random, made, out),
        29 | 30 => publish(random, made, out),
        _ => other(random, out),
    }
}

fn nothing(alloc: Global) -> Made {
    Made {
        tasks: Vec::new(alloc),
        wakers: Vec::new(alloc),
        resources: Vec::new(alloc),
        ops: Vec::new(alloc),
        now: 0,
    }
}

/// A script of some lines, one in four with a small capacity of its own, one in three with a retention, half of them with histograms and
/// half of them with waits, that ends with a line of the stream.
pub(super) fn script_of(alloc: Global, random: &mut Pcg32) -> Result<String, AllocError> {
    let mut out = String::new(alloc);
    let mut made = nothing(alloc);
    if happens(random, 4) {
        put(
            &mut out,
            "capacity",
            &[below(random, 12).saturating_add(1)],
            "",
        )?;
    }
    if happens(random, 3) {
        put(&mut out, "retention", &[below(random, 100)], "")?;
    }
    if happens(random, 2) {
        put(&mut out, "times", &[], "")?;
    }
    if happens(random, 2) {
        put(&mut out, "waits", &[], "")?;
    }
    for _ in 0..below(random, 80).saturating_add(8) {
        add_line(random, &mut made, &mut out)?;
    }
    publish(random, &mut made, &mut out)?;
    Ok(out)
}
