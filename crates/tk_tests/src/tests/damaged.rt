//! Streams of the examples, damaged in one place: a client makes of each what the plain client makes of it.

use super::scripts as script;
use super::streams::stream_of;
use std::alloc::{AllocError, Global};
use std::sync::Wait;
use std::test::*;
use std::thread::Threads;
use tk_client::{Client, Fault, FeedError};
use tk_plain_client::{Outcome, outcome_of};

const ALLOWED: usize = 65_536;

fn outcome_at(error: FeedError) -> Outcome {
    let FeedError { lines, used, fault } = error;
    Outcome {
        code: fault.code(),
        lines,
        used,
        gap: match fault {
            Fault::Gap { expected, found } => Some((expected, found)),
            _ => None,
        },
    }
}

// What a new client makes of the bytes.
fn fed(alloc: Global, bytes: &[u8]) -> Result<Outcome, Fault> {
    let mut client = Client::new(alloc, ALLOWED)?;
    Ok(match client.feed(bytes) {
        Ok(lines) => Outcome {
            code: 0,
            lines,
            used: bytes.len(),
            gap: None,
        },
        Err(error) => outcome_at(error),
    })
}

fn is_taken_alike(alloc: Global, bytes: &[u8]) -> Result<bool, Fault> {
    let plain = outcome_of(alloc, bytes, ALLOWED)?;
    Ok(fed(alloc, bytes)? == plain)
}

const BITS: [u8; 8] = [1, 2, 4, 8, 16, 32, 64, 128];

// Whether the bytes with any one bit of the byte here flipped are taken alike.
fn are_bits_alike(alloc: Global, bytes: &mut Vec<u8>, at: usize) -> Result<bool, Fault> {
    if at >= bytes.len() {
        return Ok(false);
    }
    let whole = bytes[at];
    let mut alike = true;
    for bit in BITS.iter() {
        bytes[at] = whole ^ *bit;
        alike = alike && is_taken_alike(alloc, bytes)?;
    }
    bytes[at] = whole;
    Ok(alike)
}

// How many bytes there are, if the stream with any one bit flipped is taken alike.
fn flipped(alloc: Global, bytes: &mut Vec<u8>) -> Result<Option<usize>, Fault> {
    for at in 0..bytes.len() {
        if !are_bits_alike(alloc, bytes, at)? {
            return Ok(None);
        }
    }
    Ok(Some(bytes.len()))
}

// How many bytes the stream of a script has, if each of its damaged forms is taken alike; none where memory runs out, too.
fn bytes_flipped<R: Threads + Wait + Sync + AllocGlobal>(
    rt: &R,
    script: &'static [u8],
) -> Option<usize> {
    match stream_of(rt, script) {
        Some(mut bytes) => flipped(rt.alloc(), &mut bytes).unwrap_or(None),
        None => None,
    }
}

fn put_line(bytes: &mut Vec<u8>, line: &[u8]) -> Result<(), AllocError> {
    bytes.extend_from_slice(line)?;
    bytes.extend_from_slice(b"\n")
}

// What becomes of the lines at one place.
#[derive(Clone, Copy, PartialEq, Eq)]
enum Damage {
    LeftOut,
    Doubled,
    Swapped,
}

// The lines with one of them damaged: left out, doubled, or after the next.
fn with_damage(
    alloc: Global,
    lines: &[&[u8]],
    at: usize,
    damage: Damage,
) -> Result<Vec<u8>, AllocError> {
    let mut bytes = Vec::new(alloc);
    for (i, line) in lines.iter().enumerate() {
        if i != at {
            put_line(&mut bytes, line)?;
        } else if damage == Damage::Doubled {
            put_line(&mut bytes, line)?;
            put_line(&mut bytes, line)?;
        }
        if damage == Damage::Swapped && at < i && i - at == 1 {
            put_line(&mut bytes, lines[at])?;
        }
    }
    Ok(bytes)
}

fn is_damage_alike(alloc: Global, lines: &[&[u8]], at: usize) -> Result<bool, Fault> {
    let mut alike = true;
    for damage in [Damage::LeftOut, Damage::Doubled, Damage::Swapped] {
        let bytes = with_damage(alloc, lines, at, damage)?;
        alike = alike && is_taken_alike(alloc, &bytes)?;
    }
    Ok(alike)
}

fn lines_of<'a>(alloc: Global, bytes: &'a [u8]) -> Result<Vec<&'a [u8]>, AllocError> {
    let mut lines = Vec::new(alloc);
    for line in bytes.split(|byte| *byte == b'\n') {
        if !line.is_empty() {
            lines.push(line)?;
        }
    }
    Ok(lines)
}

// How many lines there are, if the stream is taken alike with any one of them left out, doubled, or after the next.
fn rearranged(alloc: Global, bytes: &[u8]) -> Result<Option<usize>, Fault> {
    let lines = lines_of(alloc, bytes)?;
    for at in 0..lines.len() {
        if !is_damage_alike(alloc, &lines, at)? {
            return Ok(None);
        }
    }
    Ok(Some(lines.len()))
}

fn lines_rearranged<R: Threads + Wait + Sync + AllocGlobal>(
    rt: &R,
    script: &'static [u8],
) -> Option<usize> {
    match stream_of(rt, script) {
        Some(bytes) => rearranged(rt.alloc(), &bytes).unwrap_or(None),
        None => None,
    }
}

#[test]
fn lines_out_of_place(rt: HostRuntime) -> Result<(), Fail> {
    assert!(rt; lines_rearranged(&rt, script::first()) == Some(3), "first");
    assert!(rt;
        lines_rearranged(&rt, script::long_poll()) == Some(4),
        "long-poll"
    );
    assert!(rt;
        lines_rearranged(&rt, script::never_woken()) == Some(2),
        "never-woken"
    );
    assert!(rt;
        lines_rearranged(&rt, script::wakes_itself()) == Some(5),
        "wakes-itself"
    );
    assert!(rt;
        lines_rearranged(&rt, script::semaphore()) == Some(3),
        "semaphore"
    );
    assert!(rt;
        lines_rearranged(&rt, script::lost_waker()) == Some(3),
        "lost-waker"
    );
    assert!(rt; lines_rearranged(&rt, script::burst()) == Some(5), "burst");
    assert!(rt;
        lines_rearranged(&rt, script::two_threads()) == Some(3),
        "two-threads"
    );
    assert!(rt;
        lines_rearranged(&rt, script::queue_lag()) == Some(3),
        "queue-lag"
    );
    assert!(rt;
        lines_rearranged(&rt, script::retention()) == Some(5),
        "retention"
    );
    Ok(())
}

#[test]
fn bits_of_short_streams(rt: HostRuntime) -> Result<(), Fail> {
    assert!(rt; bytes_flipped(&rt, script::first()) == Some(2365), "first");
    assert!(rt;
        bytes_flipped(&rt, script::long_poll()) == Some(1683),
        "long-poll"
    );
    assert!(rt;
        bytes_flipped(&rt, script::never_woken()) == Some(1641),
        "never-woken"
    );
    assert!(rt;
        bytes_flipped(&rt, script::lost_waker()) == Some(2305),
        "lost-waker"
    );
    assert!(rt;
        bytes_flipped(&rt, script::two_threads()) == Some(1412),
        "two-threads"
    );
    Ok(())
}

#[test]
fn bits_of_wakes_itself(rt: HostRuntime) -> Result<(), Fail> {
    assert!(rt; bytes_flipped(&rt, script::wakes_itself()) == Some(3536));
    Ok(())
}

#[test]
fn bits_of_semaphore(rt: HostRuntime) -> Result<(), Fail> {
    assert!(rt; bytes_flipped(&rt, script::semaphore()) == Some(4201));
    Ok(())
}

#[test]
fn bits_of_burst(rt: HostRuntime) -> Result<(), Fail> {
    assert!(rt; bytes_flipped(&rt, script::burst()) == Some(3059));
    Ok(())
}

#[test]
fn bits_of_queue_lag(rt: HostRuntime) -> Result<(), Fail> {
    assert!(rt; bytes_flipped(&rt, script::queue_lag()) == Some(2756));
    Ok(())
}
