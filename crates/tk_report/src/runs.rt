//! How long a poll of a task is known to have run, by two of its rows.
ghost use Rattle.std.specs.Prelude.{◌≡◌};
ghost use Rattle.tk_report.specs.Runs as spec;

use tk_core::TaskRow;

/// The polls of a task that have ended, as a row of it counts them.
#[derive(Clone, Copy, Debug, PartialEq, Eq)]
pub struct Ended {
    /// How many there are.
    pub polls: u64,
    /// How many nanoseconds they ran in all.
    pub time: u64,
}

fn mean_run(time: u64, polls: u64) -> u64
    ensures { result ≡ spec.mean_run time polls }
{
    if polls == 0 { 0 } else { time / polls }
}

// How long the last poll that ended ran; 0 where one runs.
fn last_run(row: &TaskRow) -> u64
    ensures { result ≡ spec.last_run row.now }
{
    if row.polling {
        return 0;
    }
    let end = row.last_ended.unwrap_or(0);
    end.saturating_sub(row.last_started.unwrap_or(end))
}

impl Ended {
    /// Those before the first poll: none.
    pub fn none() -> Ended
        ensures { result ≡ spec.none_ended }
    {
        Ended { polls: 0, time: 0 }
    }

    /// Those that a row counts.
    pub fn of(row: &TaskRow) -> Ended
        ensures { result ≡ spec.ended_of row.now }
    {
        Ended {
            polls: row.polls.saturating_sub(u64::from(row.polling)),
            time: row.busy,
        }
    }

    /// How many nanoseconds a poll is known to have run, at least, that ended between these and a later row: the last one, or the
    /// mean of those that ended. 0 if none ended. [`laws`](crate::laws) say that one ran as long.
    pub fn run_since(self, row: &TaskRow) -> u64
        ensures { result ≡ spec.ended_run self row.now }
    {
        let now = Ended::of(row);
        if now.polls == self.polls {
            return 0;
        }
        let time = now.time.saturating_sub(self.time);
        let polls = now.polls.saturating_sub(self.polls);
        last_run(row).max(mean_run(time, polls))
    }
}
