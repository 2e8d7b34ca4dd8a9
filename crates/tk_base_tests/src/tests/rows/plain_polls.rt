//! Polls and attributes, each computed over a whole history: what starts and ends polls stands in `Point`s.

use tk_core::{AttrOp, Entry, Refusal, Reply};
use tk_ids::AttrValue;

/// What an entry is to the polls of a task or an operation.
#[derive(Clone, Copy)]
pub enum Point {
    Start(u64),
    End(u64),
    Other,
}

/// Whether an entry was not refused.
pub fn was_accepted<C, Row>(entry: &Entry<C, Reply<Row>>) -> bool {
    !matches!(entry.reply, Reply::Refused(_))
}

fn start(point: &Point) -> Option<u64> {
    match point {
        Point::Start(moment) => Some(*moment),
        _ => None,
    }
}

fn end(point: &Point) -> Option<u64> {
    match point {
        Point::End(moment) => Some(*moment),
        _ => None,
    }
}

/// How many polls started.
pub fn polls(points: &[Point]) -> u64 {
    points.iter().filter_map(start).count() as u64
}

/// When the first poll started.
pub fn first_poll(points: &[Point]) -> Option<u64> {
    points.iter().filter_map(start).next()
}

/// When the last poll started.
pub fn last_started(points: &[Point]) -> Option<u64> {
    points.iter().filter_map(start).last()
}

/// When a poll last ended.
pub fn last_ended(points: &[Point]) -> Option<u64> {
    points.iter().filter_map(end).last()
}

/// Whether a poll is open: the last start or end is a start.
pub fn is_polling(points: &[Point]) -> bool {
    for point in points.iter().rev() {
        match point {
            Point::Start(_) => return true,
            Point::End(_) => return false,
            Point::Other => {}
        }
    }
    false
}

/// How long the ended polls ran in all: each from the last start before its end.
pub fn busy(points: &[Point]) -> u64 {
    let mut sum = 0u64;
    for (i, point) in points.iter().enumerate() {
        if let (Point::End(moment), Some(started)) = (point, last_started(&points[..i])) {
            sum = sum.saturating_add(moment.saturating_sub(started));
        }
    }
    sum
}

// A number plus what is added from a change on, minus what is taken away. The sum may pass 2^64 on the way, and doesn't in the end.
fn moved(number: u64, changes: &[AttrOp], from: usize) -> u64 {
    let mut sum = number;
    for change in changes.iter().skip(from) {
        sum = match change {
            AttrOp::Add(AttrValue::U64(by)) => sum.wrapping_add(*by),
            AttrOp::Sub(AttrValue::U64(by)) => sum.wrapping_sub(*by),
            _ => sum,
        };
    }
    sum
}

// The same of a signed number.
fn moved_signed(number: i64, changes: &[AttrOp], from: usize) -> i64 {
    let mut sum = number;
    for change in changes.iter().skip(from) {
        sum = match change {
            AttrOp::Add(AttrValue::I64(by)) => sum.wrapping_add(*by),
            AttrOp::Sub(AttrValue::I64(by)) => sum.wrapping_sub(*by),
            _ => sum,
        };
    }
    sum
}

/// A value after its accepted changes: the last override, plus the adds and minus the subtractions after it.
pub fn value(first: AttrValue, changes: &[AttrOp]) -> AttrValue {
    let mut base = first;
    let mut from = 0;
    for (i, change) in changes.iter().enumerate() {
        if let AttrOp::Override(value) = change {
            base = *value;
            from = i;
        }
    }
    match base {
        AttrValue::U64(number) => AttrValue::U64(moved(number, changes, from)),
        AttrValue::I64(number) => AttrValue::I64(moved_signed(number, changes, from)),
        AttrValue::Bool(_) => base,
    }
}

// Whether a change leads out of the unsigned numbers.
fn leaves(n: u64, by: u64, adds: bool) -> bool {
    if adds { by > u64::MAX - n } else { by > n }
}

// Whether a change leads out of the signed numbers.
fn leaves_signed(n: i64, by: i64, adds: bool) -> bool {
    let (n, by) = (i128::from(n), i128::from(by));
    let after = if adds { n + by } else { n - by };
    after < -9223372036854775808 || after > 9223372036854775807
}

fn out_of_range(leaves: bool) -> Option<Refusal> {
    if leaves {
        Some(Refusal::OutOfRange)
    } else {
        None
    }
}

/// Why a value refuses a change, if it does.
pub fn refused_change(value: AttrValue, op: AttrOp) -> Option<Refusal> {
    match (value, op) {
        (AttrValue::U64(_), AttrOp::Override(AttrValue::U64(_))) => None,
        (AttrValue::Bool(_), AttrOp::Override(AttrValue::Bool(_))) => None,
        (AttrValue::I64(_), AttrOp::Override(AttrValue::I64(_))) => None,
        (AttrValue::U64(n), AttrOp::Add(AttrValue::U64(by))) => out_of_range(leaves(n, by, true)),
        (AttrValue::U64(n), AttrOp::Sub(AttrValue::U64(by))) => out_of_range(leaves(n, by, false)),
        (AttrValue::I64(n), AttrOp::Add(AttrValue::I64(by))) => {
            out_of_range(leaves_signed(n, by, true))
        }
        (AttrValue::I64(n), AttrOp::Sub(AttrValue::I64(by))) => {
            out_of_range(leaves_signed(n, by, false))
        }
        _ => Some(Refusal::WrongKind),
    }
}
