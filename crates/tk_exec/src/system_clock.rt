//! The machine's clock.
ghost use Rattle.std.specs.Prelude.{◌≡◌, false, IfOk};

use crate::work::Clock;
use std::time::{Duration, Instant};
use std::{io, time};

/// Tells how many nanoseconds have passed since its start, at most 2^64 - 1, by the machine's monotonic clock.
///
/// No moment is below one that it told before. Where the machine's clock can't be read, the moment before is told again,
/// and [`SystemClock::has_failed`] says so from then on.
#[derive(Drop)]
pub struct SystemClock<'a, R: time::Clock> {
    rt: &'a R,
    start: Instant,
    told: u64,
    failed: bool,
}

// The nanoseconds of a duration.
fn nanoseconds(passed: Duration) -> u64 {
    u64::try_from(passed.as_nanos()).unwrap_or(u64::MAX)
}

impl<'a, R: time::Clock> SystemClock<'a, R> {
    /// A clock that starts now. Its one error is that of the machine's clock.
    pub fn start(rt: &'a R) -> io::Result<SystemClock<'a, R>>
        ensures told { IfOk result (λ clock. clock.told ≡ 0) }
        ensures failed { IfOk result (λ clock. clock.failed ≡ false) }
    {
        Ok(SystemClock {
            rt,
            start: Instant::now(rt)?,
            told: 0,
            failed: false,
        })
    }

    /// Another clock with the same start, for another thread. It has told no moment.
    pub fn beside(&self) -> SystemClock<'a, R>
        ensures start { result.start ≡ self.now.start }
        ensures told { result.told ≡ 0 }
        ensures failed { result.failed ≡ false }
    {
        SystemClock {
            rt: self.rt,
            start: self.start,
            told: 0,
            failed: false,
        }
    }

    /// Whether the machine's clock couldn't be read, at some moment that it told.
    pub fn has_failed(&self) -> bool
        ensures { result ≡ self.now.failed }
    {
        self.failed
    }
}

impl<R: time::Clock> Clock for SystemClock<'_, R> {
    ghost use Rattle.tk_exec.specs.Clocks.{Tells};

    ghost reads = { Tells };

    fn now(&mut self) -> u64 {
        match self.start.elapsed(self.rt) {
            Ok(passed) => self.told = self.told.max(nanoseconds(passed)),
            Err(_) => self.failed = true,
        }
        self.told
    }
}
