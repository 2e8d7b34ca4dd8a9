//! Lines with another value in the place of each, and with each key twice: a client makes of them what the plain client makes.

use super::given::{Came, fed, on_made};
use super::texts as text;
use std::alloc::{AllocError, Global};
use tk_client::Client;
use tk_plain_client::outcome_of;

const ALLOWED: usize = 65_536;

// So many other values are tried at each place.
const AT_EACH: usize = 3;

// Whether a value or a key begins here.
fn begins_at(line: &[u8], at: usize) -> bool {
    0 < at && at < line.len() && matches!(line[at - 1], b':' | b'[' | b',') && line[at] != b']'
}

// Where the value ends that begins here. No text in the lines has a quote of its own.
fn end_of(line: &[u8], at: usize) -> usize {
    let mut depth = 0u64;
    let mut is_text = false;
    for i in at..line.len() {
        match line[i] {
            b'"' => is_text = !is_text,
            b'[' | b'{' if !is_text => depth = depth.saturating_add(1),
            b']' | b'}' | b',' if !is_text && depth == 0 => return i,
            b']' | b'}' if !is_text => depth = depth.saturating_sub(1),
            _ => {}
        }
    }
    line.len()
}

// Where the last quote of a text stands.
fn last_quote(text: &[u8]) -> Option<usize> {
    let mut last = None;
    for (i, byte) in text.iter().enumerate() {
        if *byte == b'"' {
            last = Some(i);
        }
    }
    last
}

// The key, with its quotes and colon, whose value begins here.
fn key_of(line: &[u8], at: usize) -> Option<&[u8]> {
    let before = line.get(..at)?;
    let key = before.strip_suffix(b"\":")?;
    before.get(last_quote(key)?..)
}

fn joined(alloc: Global, parts: &[&[u8]]) -> Result<Vec<u8>, AllocError> {
    let mut all = Vec::new(alloc);
    for part in parts {
        all.extend_from_slice(part)?;
    }
    all.extend_from_slice(b"\n")?;
    Ok(all)
}

// What a new client makes of a line.
fn came_of(alloc: Global, line: &[u8]) -> Option<Came> {
    on_made(
        Client::new(alloc, ALLOWED),
        None,
        |client| Some(fed(client, line)),
    )
}

// The fault's number, 0 without one, if both make the same of the line.
fn taken_alike(alloc: Global, line: &[u8]) -> Result<Option<u32>, AllocError> {
    let plain = outcome_of(alloc, line, ALLOWED)?;
    let wanted = Came {
        code: plain.code,
        lines: plain.lines,
        used: plain.used,
    };
    if came_of(alloc, line) == Some(wanted) {
        Ok(Some(plain.code))
    } else {
        Ok(None)
    }
}

// How many lines were taken alike, and with which faults.
#[derive(Drop)]
struct Taken {
    count: usize,
    codes: Vec<u32>,
}

impl Taken {
    // One line more; `false` where both do not make the same of it.
    fn take(&mut self, alloc: Global, parts: &[&[u8]]) -> Result<bool, AllocError> {
        let line = joined(alloc, parts)?;
        let Some(code) = taken_alike(alloc, &line)? else {
            return Ok(false);
        };
        self.count = self.count.saturating_add(1);
        if !self.codes.contains(&code) {
            self.codes.push(code)?;
        }
        Ok(true)
    }

    // The line with another value from here on, and with the key here twice.
    fn take_other(
        &mut self,
        alloc: Global,
        line: &[u8],
        at: usize,
        other: &[u8],
    ) -> Result<bool, AllocError> {
        let end = end_of(line, at);
        let (Some(before), Some(value), Some(after)) = (
            line.get(..at),
            line.get(at..end),
            line.get(end..),
        ) else {
            return Ok(false);
        };
        if !self.take(alloc, [before, other, after].as_slice())? {
            return Ok(false);
        }
        match key_of(line, at) {
            Some(key) => Ok(
                self.take(alloc, [before, other, b",", key, value, after].as_slice())?
                    && self.take(alloc, [before, value, b",", key, other, after].as_slice())?,
            ),
            None => Ok(true),
        }
    }

    // Each place with a few of the other values, which go round.
    fn take_others(&mut self, alloc: Global, line: &[u8]) -> Result<bool, AllocError> {
        let others = text::other_values();
        let mut next = 0usize;
        for at in 0..line.len() {
            if begins_at(line, at) {
                for _ in 0..AT_EACH {
                    let other = others[next % others.len()];
                    if !self.take_other(alloc, line, at, other.as_bytes())? {
                        return Ok(false);
                    }
                    next = next.wrapping_add(1);
                }
            }
        }
        Ok(true)
    }
}

// Of each place of the lines; some are lines all the same, some are no JSON, and some of another shape.
#[test]
fn other_values_and_keys_twice_are_taken_as_computed_plainly(
    rt: HostRuntime,
) -> Result<(), AllocError> {
    let alloc = rt.alloc();
    let mut taken = Taken {
        count: 0,
        codes: Vec::new(alloc),
    };
    for line in [text::items_line(), text::gone_line(), text::waits_line()] {
        let alike = taken.take_others(alloc, line.as_bytes())?;
        assert!(rt; alike, "the line after {} that were", taken.count);
    }
    assert!(rt; taken.count > 1200, "{} lines", taken.count);
    for code in [0, 2, 3] {
        assert!(rt; taken.codes.contains(&code), "{:?}", taken.codes);
    }
    Ok(())
}
