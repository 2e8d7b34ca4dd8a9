//! The pace of a clock.

use std::cell::Cell;
use std::io;
use std::time::{Clock, Duration};
use tk_watch::{Every, Pace};

// A clock that stands still, but for sleep.
#[derive(Drop)]
struct Still {
    millis: Cell<u64>,
}

impl Clock for Still {
    fn monotonic(&self) -> io::Result<Duration> {
        Ok(Duration::from_millis(self.millis.get()))
    }

    fn since_1970(&self) -> io::Result<Duration> {
        Ok(Duration::from_millis(self.millis.get()))
    }

    fn sleep(&self, duration: Duration) {
        let gone = u64::try_from(duration.as_millis()).unwrap_or(0);
        self.millis.set(self.millis.get().saturating_add(gone));
    }
}

#[test]
fn no_two_screens_are_within_a_span(rt: HostRuntime) {
    let clock = Still {
        millis: Cell::new(5),
    };
    let mut pace = Every::new(&clock, 100, false);
    assert!(rt; pace.is_due(), "the first screen is due");
    pace.mark();
    assert!(rt; !pace.is_due(), "no screen is due right after one");
    pace.wait();
    assert_eq!(rt;
        clock.millis.get(),
        105,
        "the wait ends a span after the screen"
    );
    assert!(rt; pace.is_due(), "a screen is due after the span");
    assert!(rt; !pace.goes_on(), "a stream that isn't followed ends");
}

#[test]
fn a_stream_is_followed_after_some_time(rt: HostRuntime) {
    let clock = Still {
        millis: Cell::new(0),
    };
    let mut pace = Every::new(&clock, 0, true);
    pace.mark();
    assert!(rt; pace.is_due(), "without a span each screen is due");
    assert!(rt; pace.goes_on(), "a followed stream goes on");
    assert_eq!(rt; clock.millis.get(), 50, "it goes on after 50 ms");
}
