//! The texts of the random lines, in the order and spelling of a line that is written.

use std::alloc::{AllocError, Global};
use tk_plain_client::{Given, Histogram, New, Spoilt, Told};

/// What the warnings look at in a task's row, and how long it waited, where that is counted.
#[derive(Clone, Copy)]
pub(super) struct Row {
    pub(super) clones: u64,
    pub(super) drops: u64,
    pub(super) polls: u64,
    pub(super) wakes: u64,
    pub(super) self_wakes: u64,
    pub(super) dropped: Option<u64>,
    pub(super) last_started: Option<u64>,
    pub(super) polling: bool,
    pub(super) scheduled: bool,
    pub(super) waited: Option<u64>,
}

/// The row that is made from a number.
pub(super) fn row_of(seed: u64) -> Row {
    Row {
        clones: seed % 2,
        drops: seed / 2 % 2,
        polls: seed / 4 % 3,
        wakes: seed / 16 % 4,
        self_wakes: seed / 64 % 4,
        dropped: (seed / 256 % 8 == 0).then_some(seed / 256),
        last_started: (seed / 2048 % 4 != 0).then_some(seed / 2048 % 5000),
        polling: seed / 8192 % 2 == 0,
        scheduled: seed / 16384 % 4 == 0,
        waited: (seed / 65536 % 4 == 0).then_some(seed / 65536),
    }
}

/// Whether a task of this shape is of kind spawn.
pub(super) fn is_spawn(shape: u64) -> bool {
    shape != 3
}

#[derive(Clone, Copy)]
enum Kind {
    Task,
    Resource,
    Op,
}

fn put_number(text: &mut String, key: &str, n: u64) -> Result<(), AllocError> {
    text.push_str(key)?;
    write!(text, "{n}")
}

fn put_moment(text: &mut String, key: &str, moment: Option<u64>) -> Result<(), AllocError> {
    match moment {
        Some(n) => put_number(text, key, n),
        None => {
            text.push_str(key)?;
            text.push_str("null")
        }
    }
}

fn put_flag(text: &mut String, key: &str, flag: bool) -> Result<(), AllocError> {
    text.push_str(key)?;
    text.push_str(if flag { "true" } else { "false" })
}

// The attributes of a shape: none, a number, a flag, both, a signed number, or all three.
fn put_attrs(text: &mut String, shape: u64) -> Result<(), AllocError> {
    text.push_str(match shape {
        0 => "{\"attrs\":[]",
        1 => "{\"attrs\":[[\"a\",null,\"u64\"]]",
        2 => "{\"attrs\":[[\"b\",\"ms\",\"bool\"]]",
        3 => "{\"attrs\":[[\"a\",null,\"u64\"],[\"b\",\"ms\",\"bool\"]]",
        4 => "{\"attrs\":[[\"c\",null,\"i64\"]]",
        _ => "{\"attrs\":[[\"a\",null,\"u64\"],[\"b\",\"ms\",\"bool\"],[\"c\",null,\"i64\"]]",
    })
}

fn put_values(text: &mut String, shape: u64) -> Result<(), AllocError> {
    text.push_str(match shape {
        0 => "{\"attrs\":[]",
        1 => "{\"attrs\":[7]",
        2 => "{\"attrs\":[true]",
        3 => "{\"attrs\":[8,false]",
        4 => "{\"attrs\":[[-3]]",
        _ => "{\"attrs\":[8,false,[0]]",
    })
}

fn put_task(text: &mut String, new: New) -> Result<(), AllocError> {
    put_number(text, "{\"id\":", new.id)?;
    text.push_str(",\"kind\":\"")?;
    text.push_str(if is_spawn(new.shape) {
        "spawn"
    } else {
        "blocking"
    })?;
    put_number(text, "\",\"loc\":[\"script\",", new.shape)?;
    text.push_str(",1],\"name\":\"main\"}")
}

fn put_resource(text: &mut String, new: New) -> Result<(), AllocError> {
    put_attrs(text, new.shape)?;
    put_number(text, ",\"id\":", new.id)?;
    text.push_str(",\"kind\":\"timer\",\"loc\":[\"script\",1,1],")?;
    text.push_str("\"parent\":null,\"type\":\"Sleep\"}")
}

fn put_op(text: &mut String, new: New) -> Result<(), AllocError> {
    put_attrs(text, new.shape)?;
    put_number(text, ",\"id\":", new.id)?;
    put_number(text, ",\"parent\":null,\"resource\":", new.id)?;
    text.push_str(",\"source\":\"poll\"}")
}

fn put_wakers(text: &mut String, told: Told, row: Row) -> Result<(), AllocError> {
    put_number(text, "{\"busy\":", told.seed)?;
    put_number(text, ",\"clones\":", row.clones)?;
    put_number(text, ",\"created\":", told.seed)?;
    put_moment(text, ",\"dropped\":", row.dropped)?;
    put_number(text, ",\"drops\":", row.drops)?;
    put_moment(text, ",\"first_poll\":", row.last_started)?;
    put_number(text, ",\"handles\":", told.seed)?;
    put_number(text, ",\"id\":", told.id)
}

// The time that a task was scheduled, and with it the time that it waited in all, and of the wait that lasts, where that is counted.
fn put_waits(text: &mut String, sched: u64, waited: Option<u64>) -> Result<(), AllocError> {
    match waited {
        Some(waited) => {
            put_number(text, ",\"sched\":[", sched)?;
            put_number(text, ",", waited)?;
            put_number(text, ",", waited % 7)?;
            text.push_str("]")
        }
        None => put_number(text, ",\"sched\":", sched),
    }
}

fn put_task_row(text: &mut String, told: Told) -> Result<(), AllocError> {
    let row = row_of(told.seed);
    put_wakers(text, told, row)?;
    put_moment(text, ",\"last_ended\":", row.dropped)?;
    put_moment(text, ",\"last_started\":", row.last_started)?;
    put_moment(text, ",\"last_wake\":", row.dropped)?;
    put_flag(text, ",\"polling\":", row.polling)?;
    put_number(text, ",\"polls\":", row.polls)?;
    put_waits(text, told.seed, row.waited)?;
    put_flag(text, ",\"scheduled\":", row.scheduled)?;
    put_number(text, ",\"self_wakes\":", row.self_wakes)?;
    put_number(text, ",\"wakes\":", row.wakes)?;
    text.push_str("}")
}

fn put_resource_row(text: &mut String, told: Told) -> Result<(), AllocError> {
    put_values(text, told.shape)?;
    put_number(text, ",\"created\":", told.seed)?;
    put_moment(text, ",\"dropped\":", row_of(told.seed).dropped)?;
    put_number(text, ",\"handles\":", told.seed)?;
    put_number(text, ",\"id\":", told.id)?;
    text.push_str("}")
}

fn put_op_row(text: &mut String, told: Told) -> Result<(), AllocError> {
    let row = row_of(told.seed);
    put_values(text, told.shape)?;
    put_number(text, ",\"busy\":", told.seed)?;
    put_number(text, ",\"created\":", told.seed)?;
    put_moment(text, ",\"dropped\":", row.dropped)?;
    put_moment(text, ",\"first_poll\":", row.last_started)?;
    put_number(text, ",\"handles\":", told.seed)?;
    put_number(text, ",\"id\":", told.id)?;
    put_moment(text, ",\"last_ended\":", row.dropped)?;
    put_moment(text, ",\"last_started\":", row.last_started)?;
    put_flag(text, ",\"polling\":", row.polling)?;
    put_number(text, ",\"polls\":", row.polls)?;
    text.push_str(",\"task\":null}")
}

fn put_new(text: &mut String, kind: Kind, new: New) -> Result<(), AllocError> {
    match kind {
        Kind::Task => put_task(text, new),
        Kind::Resource => put_resource(text, new),
        Kind::Op => put_op(text, new),
    }
}

fn put_row(text: &mut String, kind: Kind, told: Told) -> Result<(), AllocError> {
    match kind {
        Kind::Task => put_task_row(text, told),
        Kind::Resource => put_resource_row(text, told),
        Kind::Op => put_op_row(text, told),
    }
}

fn put_comma(text: &mut String, i: usize) -> Result<(), AllocError> {
    if i > 0 { text.push_str(",") } else { Ok(()) }
}

fn put_news(text: &mut String, key: &str, kind: Kind, news: &[New]) -> Result<(), AllocError> {
    text.push_str(key)?;
    for (i, new) in news.iter().enumerate() {
        put_comma(text, i)?;
        put_new(text, kind, *new)?;
    }
    text.push_str("]")
}

fn put_rows(text: &mut String, key: &str, kind: Kind, told: &[Told]) -> Result<(), AllocError> {
    text.push_str(key)?;
    for (i, one) in told.iter().enumerate() {
        put_comma(text, i)?;
        put_row(text, kind, *one)?;
    }
    text.push_str("]")
}

fn put_counts(text: &mut String, counts: &[(u64, u64, u64)]) -> Result<(), AllocError> {
    text.push_str(",\"poll_counts\":[")?;
    for (i, one) in counts.iter().enumerate() {
        put_comma(text, i)?;
        put_number(text, "[", one.0)?;
        put_number(text, ",", one.1)?;
        put_number(text, ",", one.2)?;
        text.push_str("]")?;
    }
    text.push_str("]")
}

fn put_buckets(text: &mut String, counts: &[u64]) -> Result<(), AllocError> {
    let mut before = "[";
    for (bucket, count) in counts.iter().enumerate() {
        if *count > 0 {
            put_number(text, before, bucket as u64)?;
            put_number(text, ",", *count)?;
            before = "],[";
        }
    }
    text.push_str(if before == "[" { "" } else { "]" })
}

fn put_times(text: &mut String, times: &[Histogram]) -> Result<(), AllocError> {
    text.push_str(",\"task_times\":[")?;
    for (i, one) in times.iter().enumerate() {
        put_comma(text, i)?;
        text.push_str("{\"counts\":[")?;
        put_buckets(text, &one.counts)?;
        put_number(text, "],\"id\":", one.id)?;
        put_number(text, ",\"longest\":", one.longest)?;
        if let Some(waits) = one.waits {
            put_number(text, ",\"longest_wait\":", waits.longest)?;
            text.push_str(",\"waits\":[")?;
            put_buckets(text, &waits.counts)?;
            text.push_str("]")?;
        }
        text.push_str("}")?;
    }
    text.push_str("]")
}

fn put_ids(text: &mut String, key: &str, ids: &[u64]) -> Result<(), AllocError> {
    text.push_str(key)?;
    for (i, id) in ids.iter().enumerate() {
        put_number(text, if i > 0 { "," } else { "" }, *id)?;
    }
    text.push_str("]")
}

fn put_gone(text: &mut String, line: &Given) -> Result<(), AllocError> {
    put_ids(text, ",\"gone_ops\":[", &line.ops.gone)?;
    put_ids(text, ",\"gone_resources\":[", &line.resources.gone)?;
    put_ids(text, ",\"gone_tasks\":[", &line.tasks.gone)
}

fn put_infos(text: &mut String, line: &Given) -> Result<(), AllocError> {
    text.push_str(match line.spoilt {
        Spoilt::NoJson => "\"dropped\":[0,0,0]",
        _ => "{\"dropped\":[0,0,0]",
    })?;
    if line.removes {
        put_gone(text, line)?;
    }
    put_news(text, ",\"new_ops\":[", Kind::Op, &line.ops.news)?;
    put_news(
        text,
        ",\"new_resources\":[",
        Kind::Resource,
        &line.resources.news,
    )?;
    put_news(text, ",\"new_tasks\":[", Kind::Task, &line.tasks.news)
}

fn tells_waits(told: &[Told]) -> bool {
    for one in told {
        if row_of(one.seed).waited.is_some() {
            return true;
        }
    }
    false
}

fn has_waits(times: &Option<Vec<Histogram>>) -> bool {
    match times {
        Some(times) => times.iter().any(|one| one.waits.is_some()),
        None => false,
    }
}

// The version of a line: 4 where it tells a row or a histogram of waits, and otherwise that of its keys. A line that is none has another one.
fn version_of(line: &Given) -> u64 {
    let is_line = line.spoilt != Spoilt::NoLine;
    let tells_waits = tells_waits(&line.tasks.told) || has_waits(&line.times);
    if tells_waits && is_line {
        return 4;
    }
    let says_two = line.removes == (is_line || tells_waits);
    if line.times.is_some() && says_two {
        3
    } else if says_two {
        2
    } else {
        1
    }
}

/// The text of a line, without its end.
pub(super) fn text_of(alloc: Global, line: &Given) -> Result<String, AllocError> {
    let mut text = String::new(alloc);
    put_infos(&mut text, line)?;
    put_number(&mut text, ",\"now\":", line.now)?;
    put_rows(&mut text, ",\"op_stats\":[", Kind::Op, &line.ops.told)?;
    put_counts(&mut text, &line.counts)?;
    put_rows(
        &mut text,
        ",\"resource_stats\":[",
        Kind::Resource,
        &line.resources.told,
    )?;
    put_number(&mut text, ",\"seq\":", line.seq)?;
    put_flag(&mut text, ",\"snapshot\":", line.snapshot)?;
    put_rows(&mut text, ",\"task_stats\":[", Kind::Task, &line.tasks.told)?;
    if let Some(times) = &line.times {
        put_times(&mut text, times)?;
    }
    put_number(&mut text, ",\"v\":", version_of(line))?;
    text.push_str("}")?;
    Ok(text)
}
