//! Random scripts, run over live ledgers and on plain rows: both write the same, and stop at the same line by the same name.

use super::random::script_of;
use rand_pcg::Pcg32;
use std::alloc::{AllocError, Global};
use std::fmt::Write;
use std::process::Abort;
use std::sync::Wait;
use std::thread::Threads;
use tk_fault::AppFault;
use tk_live::{Open, run_script};
use tk_plain::run_plain;

// What each line of a stream begins with that has lost nothing.
const NONE_DROPPED: &[u8] = b"{\"dropped\":[0,0,0],";

/// The names by which the text of a script can stop it.
#[rattlefmt::skip]
const NAMES: [&str; 9] = [
    "BadCommand", "NoSuchItem", "AlreadyPolling", "NotPolling", "Closed", "NoAttribute", "WrongKind", "OutOfRange", "Clock",
];

/// What came of the scripts so far.
#[derive(Clone, Copy, Drop)]
struct Came {
    done: u64,
    stopped: u64,
    dropped: u64,
    // Of those that lost nothing, how many let an item leave.
    left: u64,
    // How many told histograms, and how many rows that count waits.
    timed: u64,
    waited: u64,
    // Which of their buckets were seen with a count.
    buckets: [bool; 14],
    // Which of the names were seen.
    names: [bool; 9],
}

fn lost_nothing(stream: &[u8]) -> bool {
    for line in stream.split(|byte| *byte == b'\n') {
        if !line.is_empty() && !line.starts_with(NONE_DROPPED) {
            return false;
        }
    }
    true
}

// Whether a line says that an item is gone: an id stands in a list of those.
fn lets_items_leave(stream: &[u8]) -> bool {
    let Ok(text) = str::from_utf8(stream) else {
        return false;
    };
    text.contains("\"gone_ops\":[1")
        || text.contains("\"gone_resources\":[1")
        || text.contains("\"gone_tasks\":[1")
}

// Whether a histogram has a count of this bucket, as the first of its list or after another. No other list of lists begins so: that of poll
// counts has ids.
fn tells_bucket(alloc: Global, stream: &str, bucket: usize) -> Result<bool, AllocError> {
    let mut first = String::new(alloc);
    write!(first, "\"counts\":[[{bucket},")?;
    let mut later = String::new(alloc);
    write!(later, "],[{bucket},")?;
    Ok(stream.contains(first.as_str()) || stream.contains(later.as_str()))
}

fn lines_in(stream: &[u8]) -> u64 {
    let mut lines = 0u64;
    for byte in stream {
        if *byte == b'\n' {
            lines = lines.saturating_add(1);
        }
    }
    lines
}

impl Came {
    fn note_name(&mut self, name: &str) {
        for (i, known) in NAMES.iter().enumerate() {
            if *known == name {
                self.names[i] = true;
            }
        }
    }

    fn note_times(&mut self, alloc: Global, stream: &[u8]) {
        let Ok(text) = str::from_utf8(stream) else {
            return;
        };
        if text.contains("\"task_times\":") {
            self.timed = self.timed.saturating_add(1);
        }
        if text.contains("\"v\":4") {
            self.waited = self.waited.saturating_add(1);
        }
        for bucket in 0..14 {
            if tells_bucket(alloc, text, bucket) == Ok(true) {
                self.buckets[bucket] = true;
            }
        }
    }

    fn note(&mut self, end: Result<(), AppFault>, stream: &[u8]) {
        match end {
            Ok(()) => self.done = self.done.saturating_add(1),
            Err(AppFault::Script { name, .. }) => {
                self.stopped = self.stopped.saturating_add(1);
                self.note_name(name);
            }
            Err(_) => {}
        }
        if !lost_nothing(stream) {
            self.dropped = self.dropped.saturating_add(1);
        } else if lets_items_leave(stream) {
            self.left = self.left.saturating_add(1);
        }
    }
}

// Whether the plain run ends as the live one did, and wrote the same; where that one lost something, as many lines.
fn is_alike(alloc: Global, script: &[u8], end: Result<(), AppFault>, live: &[u8]) -> bool {
    let mut written = Vec::new(alloc);
    let plain = run_plain(alloc, script, &mut written);
    if plain != end {
        return false;
    }
    if lost_nothing(live) {
        written.as_slice() == live
    } else {
        lines_in(written.as_slice()) == lines_in(live)
    }
}

fn runs_alike<R: Threads + Wait + Sync>(
    rt: &R,
    alloc: Global,
    script: &[u8],
    came: &mut Came,
) -> bool {
    let mut reader = script;
    let mut written = Vec::new(alloc);
    let end = run_script(rt, alloc, &mut reader, &mut written, &Open);
    came.note(end, written.as_slice());
    came.note_times(alloc, written.as_slice());
    is_alike(alloc, script, end, written.as_slice())
}

fn assert_alike<R: Abort + Threads + Wait + Sync + AllocGlobal>(
    rt: &R,
    random: &mut Pcg32,
    came: &mut Came,
) {
    match script_of(rt.alloc(), random) {
        Ok(script) => assert!(rt;
            runs_alike(rt, rt.alloc(), script.as_bytes(), came),
            "{script}"
        ),
        Err(_) => assert!(rt; false, "no memory"),
    }
}

// Of 1,000 scripts some hundreds run to their ends, some hundreds stop, by each name that a text can tell, some lose events, of some
// items leave, some hundreds tell histograms, with times of each bucket, and some hundreds count waits.
#[test]
fn random_scripts_run_as_on_plain_rows(rt: HostRuntime) {
    let mut random = Pcg32::new(20, 54);
    let mut came = Came {
        done: 0,
        stopped: 0,
        dropped: 0,
        left: 0,
        timed: 0,
        waited: 0,
        buckets: [false; 14],
        names: [false; 9],
    };
    for _ in 0..1000 {
        assert_alike(&rt, &mut random, &mut came);
    }
    assert!(rt; came.done > 300, "{} were done", came.done);
    assert!(rt; came.stopped > 300, "{} stopped", came.stopped);
    assert!(rt; came.dropped > 50, "{} lost something", came.dropped);
    assert!(rt; came.left > 50, "items left in {}", came.left);
    assert!(rt; came.timed > 300, "{} told histograms", came.timed);
    assert!(rt; came.waited > 300, "{} counted waits", came.waited);
    assert!(rt; came.buckets == [true; 14], "{:?}", came.buckets);
    assert!(rt; came.names == [true; 9], "{:?}", came.names);
}
