//! A line, by its text.

use crate::items::{Kind, counts_waits, new_of, told_of};
use crate::line::{Given, Histogram, New, Part, Spoilt, Told, Waits};
use crate::values::{flag, has_members, id_of, list, number};
use serde_json::Value;
use std::alloc::{AllocError, Global};

/// Why there is no line.
#[derive(Clone, Copy, PartialEq, Eq)]
enum Unread {
    NoJson,
    NoLine,
    Memory,
}

fn list_at<'v>(value: &'v Value, key: &str) -> Result<&'v [Value], Unread> {
    list(value, key).ok_or(Unread::NoLine)
}

fn news_at(alloc: Global, value: &Value, key: &str, kind: Kind) -> Result<Vec<New>, Unread> {
    let mut news = Vec::new(alloc);
    for item in list_at(value, key)? {
        let found = new_of(kind, item).ok_or(Unread::NoLine)?;
        if news.push(found).is_err() {
            return Err(Unread::Memory);
        }
    }
    Ok(news)
}

fn told_at(alloc: Global, value: &Value, key: &str, kind: Kind) -> Result<Vec<Told>, Unread> {
    let mut told = Vec::new(alloc);
    for row in list_at(value, key)? {
        let found = told_of(kind, row).ok_or(Unread::NoLine)?;
        if told.push(found).is_err() {
            return Err(Unread::Memory);
        }
    }
    Ok(told)
}

// The ids of what is gone.
fn gone_at(alloc: Global, value: &Value, key: &str) -> Result<Vec<u64>, Unread> {
    let mut gone = Vec::new(alloc);
    for id in list_at(value, key)? {
        let found = id_of(id).ok_or(Unread::NoLine)?;
        if gone.push(found).is_err() {
            return Err(Unread::Memory);
        }
    }
    Ok(gone)
}

// The keys of what a line says of one kind of item.
#[derive(Clone, Copy)]
struct Keys {
    news: &'static str,
    told: &'static str,
    gone: &'static str,
}

const TASKS: Keys = Keys {
    news: "new_tasks",
    told: "task_stats",
    gone: "gone_tasks",
};

const RESOURCES: Keys = Keys {
    news: "new_resources",
    told: "resource_stats",
    gone: "gone_resources",
};

const OPS: Keys = Keys {
    news: "new_ops",
    told: "op_stats",
    gone: "gone_ops",
};

fn part_at(
    alloc: Global,
    value: &Value,
    keys: Keys,
    kind: Kind,
    removes: bool,
) -> Result<Part, Unread> {
    let news = news_at(alloc, value, keys.news, kind)?;
    let told = told_at(alloc, value, keys.told, kind)?;
    let gone = if removes {
        gone_at(alloc, value, keys.gone)?
    } else {
        Vec::new(alloc)
    };
    Ok(Part { news, told, gone })
}

// A resource with its ready and its pending polls.
fn count_of(value: &Value) -> Option<(u64, u64, u64)> {
    match value.as_array()?.as_slice() {
        [resource, ready, pending] => {
            Some((id_of(resource)?, ready.as_u64()?, pending.as_u64()?))
        }
        _ => None,
    }
}

fn counts_at(alloc: Global, value: &Value) -> Result<Vec<(u64, u64, u64)>, Unread> {
    let mut counts = Vec::new(alloc);
    for count in list_at(value, "poll_counts")? {
        let found = count_of(count).ok_or(Unread::NoLine)?;
        if counts.push(found).is_err() {
            return Err(Unread::Memory);
        }
    }
    Ok(counts)
}

fn are_three_numbers(value: &Value, key: &str) -> bool {
    match list(value, key) {
        Some(list) => list.len() == 3 && list.iter().all(|count| count.as_u64().is_some()),
        None => false,
    }
}

// The count of a bucket, where these begin with it, and the others. None of them is empty.
fn bucket_of(filled: &[Value], bucket: u64) -> Option<(u64, &[Value])> {
    let [first, rest @ ..] = filled else {
        return Some((0, filled));
    };
    match first.as_array()?.as_slice() {
        [number, count] => {
            let count = count.as_u64()?;
            if number.as_u64()? != bucket {
                return Some((0, filled));
            }
            if count == 0 {
                None
            } else {
                Some((count, rest))
            }
        }
        _ => None,
    }
}

fn buckets_of(filled: &[Value]) -> Option<[u64; 14]> {
    let mut counts = [0; 14];
    let mut rest = filled;
    for bucket in 0..14 {
        let (count, others) = bucket_of(rest, bucket as u64)?;
        counts[bucket] = count;
        rest = others;
    }
    if rest.is_empty() { Some(counts) } else { None }
}

fn waits_of(value: &Value) -> Option<Waits> {
    let counts = buckets_of(list(value, "waits")?)?;
    let longest = number(value, "longest_wait")?;
    Some(Waits { counts, longest })
}

fn histogram_of(value: &Value) -> Option<Histogram> {
    let waits = if has_members(value, 5) {
        Some(waits_of(value)?)
    } else if has_members(value, 3) {
        None
    } else {
        return None;
    };
    let counts = buckets_of(list(value, "counts")?)?;
    let id = id_of(value.get("id")?)?;
    let longest = number(value, "longest")?;
    Some(Histogram {
        id,
        counts,
        longest,
        waits,
    })
}

fn times_at(alloc: Global, value: &Value) -> Result<Vec<Histogram>, Unread> {
    let mut times = Vec::new(alloc);
    for one in list_at(value, "task_times")? {
        let found = histogram_of(one).ok_or(Unread::NoLine)?;
        if times.push(found).is_err() {
            return Err(Unread::Memory);
        }
    }
    Ok(times)
}

// Which version has as many keys as the value.
fn keys_of(value: &Value) -> Option<u64> {
    match value.as_object()?.len() {
        12 => Some(1),
        15 => Some(2),
        16 => Some(3),
        _ => None,
    }
}

fn has_waits(value: &Value) -> bool {
    value.get("waits").is_some()
}

// Whether a row of a task counts its waits, or a histogram has that of its waits beside it.
fn tells_waits(value: &Value) -> bool {
    let rows = list(value, "task_stats").unwrap_or(&[]);
    let times = list(value, "task_times").unwrap_or(&[]);
    rows.iter().any(counts_waits) || times.iter().any(has_waits)
}

// The version whose keys a line has, where its own is that, or 4 in a line that tells waits.
fn framed(value: &Value) -> Option<u64> {
    if !are_three_numbers(value, "dropped") {
        return None;
    }
    let keys = keys_of(value)?;
    let version = if tells_waits(value) { 4 } else { keys };
    if number(value, "v") == Some(version) {
        Some(keys)
    } else {
        None
    }
}

// The line's number, from 1 to 2^63.
fn seq_of(value: &Value) -> Option<u64> {
    match number(value, "seq") {
        Some(seq) if seq >= 1 && seq <= 1 << 63 => Some(seq),
        _ => None,
    }
}

fn of_value(alloc: Global, value: &Value) -> Result<Given, Unread> {
    let keys = framed(value).ok_or(Unread::NoLine)?;
    let removes = keys > 1;
    let seq = seq_of(value).ok_or(Unread::NoLine)?;
    let now = number(value, "now").ok_or(Unread::NoLine)?;
    let snapshot = flag(value, "snapshot").ok_or(Unread::NoLine)?;
    let tasks = part_at(alloc, value, TASKS, Kind::Task, removes)?;
    let resources = part_at(alloc, value, RESOURCES, Kind::Resource, removes)?;
    let ops = part_at(alloc, value, OPS, Kind::Op, removes)?;
    let counts = counts_at(alloc, value)?;
    let times = if keys == 3 {
        Some(times_at(alloc, value)?)
    } else {
        None
    };
    Ok(Given {
        tasks,
        resources,
        ops,
        counts,
        seq,
        snapshot,
        removes,
        times,
        now,
        spoilt: Spoilt::Whole,
    })
}

fn of_text(alloc: Global, text: &[u8]) -> Result<Given, Unread> {
    match Value::from_slice(alloc, text) {
        Ok(value) => of_value(alloc, &value),
        Err(error) if error.is_memory() => Err(Unread::Memory),
        Err(_) => Err(Unread::NoJson),
    }
}

fn nothing(alloc: Global) -> Part {
    Part {
        news: Vec::new(alloc),
        told: Vec::new(alloc),
        gone: Vec::new(alloc),
    }
}

fn spoilt_line(alloc: Global, spoilt: Spoilt) -> Given {
    Given {
        tasks: nothing(alloc),
        resources: nothing(alloc),
        ops: nothing(alloc),
        counts: Vec::new(alloc),
        seq: 0,
        snapshot: false,
        removes: false,
        times: None,
        now: 0,
        spoilt,
    }
}

/// The line of a text, its end left out.
pub(crate) fn line_of(alloc: Global, text: &[u8]) -> Result<Given, AllocError> {
    match of_text(alloc, text) {
        Ok(line) => Ok(line),
        Err(Unread::NoJson) => Ok(spoilt_line(alloc, Spoilt::NoJson)),
        Err(Unread::NoLine) => Ok(spoilt_line(alloc, Spoilt::NoLine)),
        Err(Unread::Memory) => Err(AllocError),
    }
}
