//! What views tell of long polls where a stream has no histograms. Scripts write the streams, and random ones are reckoned plainly beside.

use std::alloc::{AllocError, Global};
use std::sync::Wait;
use std::test::*;
use std::thread::Threads;
use tk_app::{Open, run_script};
use tk_client::{Lints, TimeLimits};
use tk_report::{TimesOptions, View, Viewed, view_stream_with};

// Polls of a millisecond are long.
const LONG: TimesOptions = TimesOptions {
    times: false,
    limits: TimeLimits {
        poll_ms: Some(1),
        wait_ms: None,
    },
};

// What a lint writes of the stream of a script, and what it answers.
fn lint<R: Threads + Wait + Sync + AllocGlobal>(
    rt: &R,
    script: &[u8],
) -> Option<(Vec<u8>, Viewed)> {
    let alloc = rt.alloc();
    let mut reader = script;
    let mut stream = Vec::new(alloc);
    run_script(rt, alloc, &mut reader, &mut stream, &Open).ok()?;
    let mut lines = stream.as_slice();
    let mut written = Vec::new(alloc);
    let lints = Lints::default();
    let viewed = view_stream_with(alloc, &mut lines, &mut written, View::Lint, &lints, &LONG).ok()?;
    Some((written, viewed))
}

// The scripts of some streams, what a lint writes of them, and whether a task has no histogram though a poll of it has ended.
#[rattlefmt::skip]
const SCRIPTS: [(&str, &[u8], &str, bool); 9] = [
    ("a poll that is open", b"task 0 spawn a\nstart 1 1000000\npublish 8000000\n", "warn 1.1 long-poll 7000000\n", false),
    ("it was open at a line, and three ended then", b"task 0 spawn a\nstart 1 1000000\npublish 11000000\nend 1 12000000\nstart 1 13000000\nend 1 13000000\nstart 1 14000000\nend 1 14000000\nclose 1 14000000\npublish 15000000\n", "warn 1.1 long-poll 10000000\n", true),
    ("the first of two between lines", b"task 0 spawn a\nstart 1 1000000\nend 1 7000000\nstart 1 8000000\nend 1 9000000\nclose 1 9000000\npublish 15000000\n", "warn 1.1 long-poll 3500000\n", true),
    ("the last of two between lines", b"task 0 spawn a\nstart 1 1000000\nend 1 2000000\nstart 1 8000000\nend 1 14000000\nclose 1 14000000\npublish 15000000\n", "warn 1.1 long-poll 6000000\n", true),
    ("one in an older line", b"task 0 spawn a\nstart 1 1000000\nend 1 7000000\npublish 8000000\nstart 1 9000000\nend 1 9000001\nclose 1 9000001\npublish 10000000\n", "warn 1.1 long-poll 6000000\n", true),
    ("as long as the limit", b"task 0 spawn a\nstart 1 10\nend 1 1000010\nclose 1 1000010\npublish 2000000\n", "warn 1.1 long-poll 1000000\n", true),
    ("no poll is so long", b"task 0 spawn a\nstart 1 11\nend 1 1000010\nclose 1 1000010\npublish 2000000\n", "", true),
    ("a histogram tells of the first of two", b"times\ntask 0 spawn a\nstart 1 1000000\nend 1 7000000\nstart 1 8000000\nend 1 9000000\nclose 1 9000000\npublish 15000000\n", "warn 1.1 long-poll 6000000\n", false),
    ("no task may be warned of", b"task 0 blocking a\nstart 1 1000000\npublish 8000000\n", "", false),
];

fn tells<R: Threads + Wait + Sync + AllocGlobal>(
    rt: &R,
    script: &[u8],
    wanted: &str,
    untimed: bool,
) -> bool {
    match lint(rt, script) {
        Some((text, viewed)) => text.as_slice() == wanted.as_bytes() && viewed.untimed == untimed,
        None => false,
    }
}

#[test]
fn lints_tell_of_polls_that_lines_show(rt: HostRuntime) {
    for (case, script, wanted, untimed) in SCRIPTS {
        assert!(rt; tells(&rt, script, wanted, untimed), "{case}");
    }
}

// A task's polls, reckoned plainly: the one that is open, and those that ended since the last line.
#[derive(Clone, Copy)]
struct Plain {
    now: u64,
    open: Option<u64>,
    ended: u64,
    sum: u64,
    last: u64,
    longest: u64,
}

impl Plain {
    // Starts a poll, or ends the one that is open, and answers the words that do so.
    fn step(&mut self) -> &'static str {
        match self.open {
            None => {
                self.open = Some(self.now);
                "start 1"
            }
            Some(start) => {
                let run = self.now.saturating_sub(start);
                self.open = None;
                self.ended = self.ended.saturating_add(1);
                self.sum = self.sum.saturating_add(run);
                self.last = run;
                "end 1"
            }
        }
    }

    fn line(&mut self) -> &'static str {
        let open = match self.open {
            Some(start) => self.now.saturating_sub(start),
            None => 0,
        };
        let last = if self.open.is_none() && self.ended > 0 {
            self.last
        } else {
            0
        };
        let mean = if self.ended > 0 {
            self.sum / self.ended
        } else {
            0
        };
        self.longest = self.longest.max(open).max(last).max(mean);
        self.ended = 0;
        self.sum = 0;
        "publish"
    }
}

fn next(state: u64) -> u64 {
    state
        .wrapping_mul(6364136223846793005)
        .wrapping_add(1442695040888963407)
}

// A random script of one task, and what is reckoned of its polls.
fn random_script(alloc: Global, seed: u64) -> Result<(String, Plain), AllocError> {
    let mut text = String::new(alloc);
    text.push_str("task 0 spawn a\n")?;
    let mut plain = Plain {
        now: 0,
        open: None,
        ended: 0,
        sum: 0,
        last: 0,
        longest: 0,
    };
    let mut state = seed;
    for _ in 0..40 {
        state = next(state);
        plain.now = plain.now.saturating_add((state >> 33) % 5 * 250_003);
        let words = if (state >> 40) % 3 == 0 {
            plain.line()
        } else {
            plain.step()
        };
        add(&mut text, alloc, words, plain.now)?;
    }
    let words = plain.line();
    add(&mut text, alloc, words, plain.now)?;
    Ok((text, plain))
}

fn add(text: &mut String, alloc: Global, words: &str, now: u64) -> Result<(), AllocError> {
    let line = format!(in alloc; "{words} {now}\n")?;
    text.push_str(line.as_str())
}

// What a lint writes last of a longest poll.
fn line_of(alloc: Global, longest: u64) -> Result<String, AllocError> {
    if longest < 1_000_000 {
        Ok(String::new(alloc))
    } else {
        format!(in alloc; "warn 1.1 long-poll {longest}\n")
    }
}

// Whether the lint of a random script ends with the long poll that is reckoned, or tells of none. A task that is idle has lost its waker.
fn tells_at_random<R: Threads + Wait + Sync + AllocGlobal>(
    rt: &R,
    seed: u64,
) -> Result<bool, AllocError> {
    let (script, plain) = random_script(rt.alloc(), seed)?;
    let Some((text, viewed)) = lint(rt, script.as_bytes()) else {
        return Ok(false);
    };
    let wanted = line_of(rt.alloc(), plain.longest)?;
    let idle = u64::from(plain.open.is_none());
    let long = u64::from(plain.longest >= 1_000_000);
    Ok(
        viewed.untimed
            && viewed.warnings == idle + long
            && text.as_slice().ends_with(wanted.as_bytes()),
    )
}

#[test]
fn lints_tell_of_polls_as_they_are_reckoned(rt: HostRuntime) -> Result<(), AllocError> {
    for seed in 0..60 {
        assert!(rt; tells_at_random(&rt, seed)?, "{seed}");
    }
    Ok(())
}
