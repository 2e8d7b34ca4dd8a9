//! When what a stream has come to may be shown.
ghost use Rattle.std.specs.Prelude.{◌≡◌, ◌≤◌, ◌*◌, None};
ghost use Rattle.std.specs.Duration.{as_nanos};

use std::thread;
use std::time::{Clock, Duration, Instant};

/// What tells when a stream may be shown anew. How it is shown, as a screen or as a file, is no matter of its.
pub trait Pace {
    ghost use Rattle.std.specs.Prelude.{[], ◌∷◌, Bool, List, None, Option, true};
    ghost use Rattle.tk_reading.specs.Pacing.{Says};

    // What it has said, each time that it was asked or waited for, where this is known.
    ghost said: { Self → Option (List Bool) } = { λ pace. None };

    /// Whether it may be shown now.
    fn is_due(&mut self) -> bool
        ensures { Says (said self.old) (said self.new) (result ∷ []) };

    /// Lets time pass until it may be shown.
    fn wait(&mut self)
        ensures { Says (said self.old) (said self.new) (true ∷ []) };

    /// It was shown now.
    fn mark(&mut self)
        ensures { Says (said self.old) (said self.new) [] };

    /// At the end of what a reader gave: whether more may come, once some time has passed.
    fn goes_on(&mut self) -> bool
        ensures { Says (said self.old) (said self.new) [] };
}

/// By a clock: no two times within a span.
#[derive(Clone, Copy)]
pub struct Every<'a, R: Clock> {
    clock: &'a R,
    span: Duration,
    follows: bool,
    last: Option<Instant>,
}

impl<'a, R: Clock> Every<'a, R> {
    /// No two times within so many milliseconds. A stream that is followed goes on at its end.
    pub fn new(clock: &'a R, millis: u64, follows: bool) -> Self
        ensures span { as_nanos result.span ≡ millis * 1_000_000 }
        ensures follows { result.follows ≡ follows }
        ensures new { result.last ≡ None }
    {
        Every {
            clock,
            span: Duration::from_millis(millis),
            follows,
            last: None,
        }
    }

    /// How long it is until it may be shown. A clock that can't be read asks for no time.
    pub fn left(&self) -> Duration
        ensures span { as_nanos result ≤ as_nanos self.now.span }
        ensures new { self.now.last ≡ None → as_nanos result ≡ 0 }
    {
        match &self.last {
            Some(last) => match last.elapsed(self.clock) {
                Ok(gone) => self.span.saturating_sub(gone),
                Err(_) => Duration::ZERO,
            },
            None => Duration::ZERO,
        }
    }
}

// For how many milliseconds a reader that gave its end is not asked again.
const REST: u64 = 50;

impl<R: Clock> Pace for Every<'_, R> {
    ghost use Rattle.std.specs.Prelude.{◌≡◌};

    fn is_due(&mut self) -> bool {
        self.left().is_zero()
    }

    fn wait(&mut self) {
        thread::sleep(self.clock, self.left());
    }

    fn mark(&mut self) {
        self.last = Instant::now(self.clock).ok();
    }

    fn goes_on(&mut self) -> bool
        ensures { result ≡ self.old.follows }
    {
        if self.follows {
            thread::sleep(self.clock, Duration::from_millis(REST));
        }
        self.follows
    }
}
