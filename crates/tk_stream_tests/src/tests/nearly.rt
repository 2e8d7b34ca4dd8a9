//! Texts that are nearly what a line writes, and names of every byte.
//!
//! What a line writes is taken by a reader of its own, and every other text is read by `serde_json`. A text with a space in
//! front of it is such another one with the same meaning, so the two are compared by it.

use super::given::{error_of, on_line, writes};
use super::texts::{CHANGED, EMPTY, FIRST, FULL, GONE, SIGNED, TIMED, TWO, UNCHANGED, WAITED};
use std::alloc::{AllocError, Global};
use tk_stream::Line;

const TEXTS: [&str; 10] = [
    EMPTY, FIRST, CHANGED, UNCHANGED, FULL, TWO, SIGNED, GONE, TIMED, WAITED,
];

// How many lines are made of these texts, by other digits in their short numbers.
const LINES: u64 = 200;

// How many places of each line are damaged, one at a time.
const PLACES: u32 = 10;

// What is done to one byte of a text.
#[derive(Clone, Copy)]
enum Damage {
    LeftOut,
    Doubled,
    Changed(u8),
}

// The next of numbers that look random.
fn next(state: u64) -> u64 {
    state
        .wrapping_mul(6364136223846793005)
        .wrapping_add(1442695040888963407)
}

// A digit from 1 up to it in place of each that stands first in the number of a key, but for that of the version.
fn with_other_digits(alloc: Global, text: &str, seed: u64) -> Result<Vec<u8>, AllocError> {
    let mut out = Vec::new(alloc);
    let mut state = seed;
    let mut before = 0;
    let mut key = 0;
    for b in text.as_bytes() {
        let is_first = before == b':' && key != b'v';
        if is_first && *b >= b'1' && *b <= b'9' {
            state = next(state);
            out.push(b'1' + ((state >> 40) % u64::from(*b - b'0')) as u8)?;
        } else {
            out.push(*b)?;
        }
        if *b >= b'a' && *b <= b'z' {
            key = *b;
        }
        before = *b;
    }
    Ok(out)
}

fn put_damaged(out: &mut Vec<u8>, byte: u8, damage: Damage) -> Result<(), AllocError> {
    match damage {
        Damage::LeftOut => {}
        Damage::Doubled => {
            out.push(byte)?;
            out.push(byte)?;
        }
        Damage::Changed(mask) => out.push(byte ^ mask)?,
    }
    Ok(())
}

// A space, and the text with one byte damaged.
fn spaced(alloc: Global, text: &[u8], at: usize, damage: Damage) -> Result<Vec<u8>, AllocError> {
    let mut out = Vec::new(alloc);
    out.push(b' ')?;
    for (place, b) in text.iter().enumerate() {
        if place == at {
            put_damaged(&mut out, *b, damage)?;
        } else {
            out.push(*b)?;
        }
    }
    Ok(out)
}

fn is_line_like(alloc: Global, text: &[u8], wanted: &Line) -> bool {
    on_line(alloc, text, |line| match line.write() {
        Ok(text) => writes(wanted, text.as_slice()),
        Err(_) => false,
    })
}

// Whether both texts are the same line, or no line for the same reason.
fn answered_alike(alloc: Global, text: &[u8], other: &[u8]) -> bool {
    match error_of(alloc, text) {
        None => on_line(alloc, text, |line| is_line_like(alloc, other, line)),
        Some(error) => error_of(alloc, other) == Some(error),
    }
}

fn damaged_alike(alloc: Global, text: &[u8], at: usize, damage: Damage) -> bool {
    match spaced(alloc, text, at, damage) {
        Ok(other) => match other.as_slice().split_first() {
            Some((_, text)) => answered_alike(alloc, text, other.as_slice()),
            None => false,
        },
        Err(_) => false,
    }
}

fn damage_of(number: u64) -> Damage {
    match number % 6 {
        0 | 1 => Damage::LeftOut,
        2 | 3 => Damage::Doubled,
        4 => Damage::Changed(1),
        _ => Damage::Changed(16),
    }
}

fn all_damaged_alike(alloc: Global, text: &[u8], seed: u64) -> bool {
    let mut state = seed;
    for _ in 0..PLACES {
        state = next(state);
        let at = (state >> 40) as usize % text.len().max(1);
        if !damaged_alike(alloc, text, at, damage_of(state >> 33)) {
            return false;
        }
    }
    true
}

// Whether the text is a line that writes itself so.
fn is_written(alloc: Global, text: &[u8]) -> bool {
    on_line(alloc, text, |line| writes(line, text))
}

fn made_alike(alloc: Global, text: &str, seed: u64) -> bool {
    match with_other_digits(alloc, text, seed) {
        Ok(text) => {
            is_written(alloc, text.as_slice()) && all_damaged_alike(alloc, text.as_slice(), seed)
        }
        Err(_) => false,
    }
}

#[test]
fn nearly_written_texts_are_answered_as_serde_json_and_the_shape_answer(rt: HostRuntime) {
    for seed in 0..LINES {
        let text = TEXTS[(seed % 8) as usize];
        assert!(rt; made_alike(rt.alloc(), text, seed), "text {seed}");
    }
}

const BEFORE: &[u8] =
    b"{\"dropped\":[0,0,0],\"new_ops\":[],\"new_resources\":[],\"new_tasks\":[{\"id\":1099511627777,\"kind\":\"spawn\",\"loc\":[\"script\",1,1],\"name\":\"x";

const AFTER: &[u8] =
    b"y\"}],\"now\":5,\"op_stats\":[],\"poll_counts\":[],\"resource_stats\":[],\"seq\":1,\"snapshot\":false,\"task_stats\":[],\"v\":1}";

fn text_with(alloc: Global, byte: u8) -> Result<Vec<u8>, AllocError> {
    let mut text = Vec::new(alloc);
    text.extend_from_slice(BEFORE)?;
    if byte == b'"' || byte == b'\\' {
        text.push(b'\\')?;
    }
    text.push(byte)?;
    text.extend_from_slice(AFTER)?;
    Ok(text)
}

fn has_name(line: &Line, name: &[u8]) -> bool {
    match line.new_tasks().first() {
        Some(info) => info.name.as_bytes() == name,
        None => false,
    }
}

fn name_reads_back(alloc: Global, text: &[u8], byte: u8) -> bool {
    on_line(alloc, text, |line| {
        has_name(line, &[b'x', byte, b'y']) && writes(line, text)
    })
}

fn byte_reads_back(alloc: Global, byte: u8) -> bool {
    match text_with(alloc, byte) {
        Ok(text) => name_reads_back(alloc, text.as_slice(), byte),
        Err(_) => false,
    }
}

#[test]
fn names_of_each_byte_are_written_and_read(rt: HostRuntime) {
    for byte in 0x20..0x7F {
        assert!(rt; byte_reads_back(rt.alloc(), byte), "{byte}");
    }
}
