//! What is odd.
ghost use Rattle.std.specs.Prelude.{◌≡◌};
ghost use Rattle.tk_odd.specs.Findings as spec;

use tk_ids::TaskId;
use tk_series::Added;

/// What may be odd.
#[derive(Clone, Copy, Debug, PartialEq, Eq)]
pub enum OddKind {
    /// While its tasks ran long, others waited.
    HoldsUp,
    /// While one of its tasks ran long, no other was polled.
    StandsStill,
    /// A task waited much longer than all others ran.
    LeftAlone,
    /// Tasks waited long in the queue, and none ran long.
    Overloaded,
    /// Its first poll doesn't end.
    NeverYielded,
    /// Nobody can wake it.
    LostWaker,
    /// It waits, while tasks are polled that came later.
    PassedOver,
    /// It waits for its first poll.
    NeverPolled,
    /// A poll of it was a long one.
    LongPoll,
    /// Most of its wakes are its own.
    SelfWakes,
}

/// Something odd: of the tasks of a place, or of all. Times and moments are nanoseconds.
#[derive(Clone, Copy, Debug, PartialEq, Eq)]
pub struct Finding {
    /// What it is.
    pub kind: OddKind,
    /// Whether it holds at the last line.
    pub is_now: bool,
    /// The task to look at; `None` where no task is to blame.
    pub task: Option<TaskId>,
    /// What it ranks by: of `HoldsUp` for how long others waited; of `StandsStill` and `LongPoll` for how long the task ran; of `SelfWakes` how many
    /// wakes were its own; of the rest for how long it has lasted.
    pub figure: u64,
    /// Of a place, for how long a task of it ran while everything stood still.
    pub still: u64,
    /// Of a place, how long a poll is known to have run, at least.
    pub longest: u64,
    /// Of `SelfWakes`, how many wakes there were.
    pub of: u64,
    /// Since when.
    pub since: u64,
    /// Until when, where it isn't of tasks in themselves.
    pub until: u64,
    /// How many tasks it is about: of a place, how many were charged.
    pub tasks: u64,
}

/// Something odd, and where.
#[derive(Drop)]
pub struct Found {
    /// The place of its tasks, as [`place_of`](crate::place_of) has it; empty where it is of all tasks.
    pub place: Vec<u8>,
    /// What it is.
    pub finding: Finding,
    /// Of a place that holds up others, who waited longest for it, where [`findings_with_victims`](crate::Diagnosis::findings_with_victims) was asked.
    pub victim: Option<Victim>,
}

/// Who waited longest for the tasks of a place.
#[derive(Drop)]
pub struct Victim {
    /// The place of those that waited.
    pub place: Vec<u8>,
    /// How long they did, in nanoseconds, at least.
    pub time: u64,
}

impl Added for Finding {
    ghost use Rattle.tk_odd.specs.Findings as spec;

    ghost plus = { spec.both };

    ghost copies = { λ a b e. e };

    fn plus(self, more: Finding) -> Finding {
        let worst = if self.figure < more.figure {
            more
        } else {
            self
        };
        Finding {
            tasks: self.tasks.saturating_add(more.tasks),
            ..worst
        }
    }
}

impl Finding {
    // How grave it is: 1 is the worst.
    fn gravity(&self) -> u8
        ensures { result ≡ spec.gravity self.now.is_now self.now.kind }
    {
        let (now, earlier) = match self.kind {
            OddKind::HoldsUp => (1, 7),
            OddKind::StandsStill => (1, 7),
            OddKind::LeftAlone => (2, 9),
            OddKind::Overloaded => (2, 9),
            OddKind::LongPoll => (3, 8),
            OddKind::NeverYielded => (4, 4),
            OddKind::LostWaker => (5, 5),
            OddKind::PassedOver => (5, 5),
            OddKind::NeverPolled => (6, 6),
            OddKind::SelfWakes => (8, 8),
        };
        if self.is_now { now } else { earlier }
    }

    /// Whether it holds now, and somebody should look at once: others wait, or a poll is a long one.
    pub fn is_urgent(&self) -> bool
        ensures { result ≡ spec.is_urgent self.now }
    {
        self.is_now && self.gravity() <= 3
    }

    /// Whether it stands before another: it is graver, or as grave and of a greater figure.
    pub fn stands_before(&self, other: &Finding) -> bool
        ensures { result ≡ spec.stands_before self.now other.now }
    {
        let (own, others) = (self.gravity(), other.gravity());
        if own == others {
            other.figure < self.figure
        } else {
            own < others
        }
    }
}
