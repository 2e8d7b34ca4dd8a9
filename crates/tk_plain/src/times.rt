//! Histograms of how long polls ran, where the script says that tasks have them.

use std::alloc::{AllocError, Global};
use std::fmt::Write;
use tk_ids::TaskId;
use tk_stream::{PollTimes, Tables};

/// A time of so few bits lies in the first bucket. Each further bucket is of times of one bit more, and the last of all others.
const FIRST_BITS: u32 = 14;

const BUCKETS: usize = 14;

/// A task with its histogram, and what the last line with this task told of it.
#[derive(Clone, Copy, Drop)]
pub(crate) struct Timed {
    task: TaskId,
    times: PollTimes,
    told: Option<PollTimes>,
}

// The bucket of a time, by its bits.
fn bucket_of(time: u64) -> usize {
    let bits = u64::BITS.saturating_sub(time.leading_zeros());
    (bits.saturating_sub(FIRST_BITS) as usize).min(BUCKETS - 1)
}

impl Timed {
    pub(crate) fn new(task: TaskId) -> Timed {
        let times = PollTimes {
            longest: 0,
            counts: [0; BUCKETS],
            waits: None,
        };
        Timed {
            task,
            times,
            told: None,
        }
    }

    /// A poll ran for so long.
    pub(crate) fn add(&mut self, time: u64) {
        self.times.longest = self.times.longest.max(time);
        if let Some(count) = self.times.counts.get_mut(bucket_of(time)) {
            *count = count.saturating_add(1);
        }
    }

    // Whether a line to these tables tells it: a snapshot tells all.
    fn is_told(&self, next: &Tables, whole: bool) -> bool {
        next.task(self.task).is_some() && (whole || self.told != Some(self.times))
    }

    // As a line has it: of its buckets those that aren't empty.
    fn put(&self, out: &mut String) -> Result<(), AllocError> {
        out.push_str("{\"counts\":[")?;
        let mut later = false;
        for (bucket, count) in self.times.counts.iter().enumerate() {
            if *count > 0 {
                if later {
                    out.push_str(",")?;
                }
                write!(out, "[{bucket},{count}]")?;
                later = true;
            }
        }
        let id = self.task.value();
        let longest = self.times.longest;
        write!(out, "],\"id\":{id},\"longest\":{longest}}}")?;
        Ok(())
    }
}

/// What a line to these tables tells of histograms: its list, with a comma after it.
pub(crate) fn list(
    alloc: Global,
    times: &[Timed],
    next: &Tables,
    whole: bool,
) -> Result<String, AllocError> {
    let mut out = String::new(alloc);
    out.push_str("\"task_times\":[")?;
    let mut later = false;
    for timed in times {
        if timed.is_told(next, whole) {
            if later {
                out.push_str(",")?;
            }
            timed.put(&mut out)?;
            later = true;
        }
    }
    out.push_str("],")?;
    Ok(out)
}

/// They were told as they are. Of what has left no line tells again.
pub(crate) fn tell(times: &mut [Timed]) {
    for timed in times.iter_mut() {
        timed.told = Some(timed.times);
    }
}
