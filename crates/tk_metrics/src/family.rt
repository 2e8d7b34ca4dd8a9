//! Families of samples: what they are called, how they run, and what is said of them.

/// How the values of a family run.
#[derive(Clone, Copy, Debug, PartialEq, Eq)]
pub enum FamilyKind {
    /// They only rise. The names of its samples end in `_total`.
    Counter,
    /// They rise and fall.
    Gauge,
    /// How many times lie up to each of some bounds, how many there are, and their sum. They only rise.
    Histogram,
}

/// One of the numbers of tasks: a count that only rises, or how long something has lasted by now.
#[derive(Clone, Copy, Debug, PartialEq, Eq)]
pub enum Count {
    Polls,
    Busy,
    Scheduled,
    Wakes,
    SelfWakes,
    WakerClones,
    WakerDrops,
    /// How long the longest poll has run that has not ended.
    OpenPoll,
    /// How long the longest wait for a poll has lasted that has not ended.
    OpenWait,
    /// How long all tasks that wait for a poll have waited for it.
    Waiting,
}

/// Of what a histogram of tasks is.
#[derive(Clone, Copy, Debug, PartialEq, Eq)]
pub enum Timing {
    /// How long polls ran.
    Polls,
    /// How long waits for a poll took.
    Waits,
}

/// What the samples of one name are of.
#[derive(Clone, Copy, Debug, PartialEq, Eq)]
pub enum Family {
    /// A number of tasks.
    Task(Count),
    /// A histogram of tasks.
    Times(Timing),
    /// How many tasks are in which state.
    Tasks,
    /// Poll operations of resources.
    PollOps,
    /// Warnings about tasks.
    Warnings,
    /// Events that the event buffer had no room for.
    Dropped,
    /// Lines of the stream.
    Lines,
    /// The moment of the last line.
    Moment,
    /// The version of the program.
    Build,
    /// Tasks whose labels don't stand by themselves.
    Others,
    /// What is odd about tasks.
    Findings,
    /// For how long tasks held up others.
    HeldUp,
    /// What tasks waited for a poll.
    Waited,
}

impl Count {
    ghost use Rattle.std.specs.Prelude.{◌≡◌};
    ghost use Rattle.tk_metrics.specs.Families.{count_kind, is_time};

    fn kind(self) -> FamilyKind
        ensures { result ≡ count_kind self }
    {
        match self {
            Count::OpenPoll | Count::OpenWait | Count::Waiting => FamilyKind::Gauge,
            Count::Polls
            | Count::Busy
            | Count::Scheduled
            | Count::Wakes
            | Count::SelfWakes
            | Count::WakerClones
            | Count::WakerDrops => FamilyKind::Counter,
        }
    }

    fn is_time(self) -> bool
        ensures { result ≡ is_time self }
    {
        match self {
            Count::Busy | Count::Scheduled | Count::OpenPoll | Count::OpenWait | Count::Waiting =>
                true,
            Count::Polls
            | Count::Wakes
            | Count::SelfWakes
            | Count::WakerClones
            | Count::WakerDrops => false,
        }
    }
}

impl Family {
    ghost use Rattle.std.specs.Prelude.{◌≡◌};
    ghost use Rattle.tk_metrics.specs.Families.{base_of, help_of, is_in_seconds, kind_of};

    /// Its name, without the end that its kind gives it.
    pub(crate) fn base(self) -> &'static str
        ensures { result.now ≡ base_of self }
    {
        match self {
            Family::Task(Count::Polls) => "taskscope_task_polls",
            Family::Task(Count::Busy) => "taskscope_task_busy_seconds",
            Family::Task(Count::Scheduled) => "taskscope_task_scheduled_seconds",
            Family::Task(Count::Wakes) => "taskscope_task_wakes",
            Family::Task(Count::SelfWakes) => "taskscope_task_self_wakes",
            Family::Task(Count::WakerClones) => "taskscope_task_waker_clones",
            Family::Task(Count::WakerDrops) => "taskscope_task_waker_drops",
            Family::Task(Count::OpenPoll) => "taskscope_task_open_poll_seconds",
            Family::Task(Count::OpenWait) => "taskscope_task_open_wait_seconds",
            Family::Task(Count::Waiting) => "taskscope_task_waiting_seconds",
            Family::Times(Timing::Polls) => "taskscope_task_poll_seconds",
            Family::Times(Timing::Waits) => "taskscope_task_wait_seconds",
            Family::Tasks => "taskscope_tasks",
            Family::PollOps => "taskscope_resource_poll_ops",
            Family::Warnings => "taskscope_warnings",
            Family::Dropped => "taskscope_dropped_events",
            Family::Lines => "taskscope_stream_lines",
            Family::Moment => "taskscope_stream_moment_seconds",
            Family::Build => "taskscope_build_info",
            Family::Others => "taskscope_other_tasks",
            Family::Findings => "taskscope_findings",
            Family::HeldUp => "taskscope_held_up_seconds",
            Family::Waited => "taskscope_waited_seconds",
        }
    }

    /// What it counts.
    pub(crate) fn help(self) -> &'static str
        ensures { result.now ≡ help_of self }
    {
        match self {
            Family::Task(Count::Polls) => "Polls of tasks that have started.",
            Family::Task(Count::Busy) => "How long polls of tasks ran that have ended.",
            Family::Task(Count::Scheduled) => {
                "How long tasks were scheduled until polls of them started."
            }
            Family::Task(Count::Wakes) => "Wakes of tasks.",
            Family::Task(Count::SelfWakes) => "Wakes of tasks that came from within the task.",
            Family::Task(Count::WakerClones) => "Clones of wakers of tasks.",
            Family::Task(Count::WakerDrops) => "Drops of wakers of tasks.",
            Family::Task(Count::OpenPoll) => {
                "How long the longest poll has run that has not ended."
            }
            Family::Task(Count::OpenWait) => {
                "How long the longest wait for a poll has lasted that has not ended."
            }
            Family::Task(Count::Waiting) => {
                "How long all tasks that wait for a poll have waited for it."
            }
            Family::Times(Timing::Polls) => "How long polls of tasks ran that have ended.",
            Family::Times(Timing::Waits) => "How long tasks waited for polls that have started.",
            Family::Tasks => "Tasks by the state that they are in.",
            Family::PollOps => "Poll operations of resources by what they answered.",
            Family::Warnings => "Warnings about tasks.",
            Family::Dropped => "Events that the event buffer had no room for.",
            Family::Lines => "Lines of the stream.",
            Family::Moment => "The moment of the last line, by the clock of the stream.",
            Family::Build => "The program that made these numbers.",
            Family::Others => "Tasks that came and have no series of their own labels.",
            Family::Findings => "How many tasks a finding is about.",
            Family::HeldUp => "How long others waited while tasks of a place ran long.",
            Family::Waited => "How long tasks waited for a poll, by what for.",
        }
    }

    pub(crate) fn kind(self) -> FamilyKind
        ensures { result ≡ kind_of self }
    {
        match self {
            Family::Task(count) => count.kind(),
            Family::Times(_) => FamilyKind::Histogram,
            Family::Tasks | Family::Warnings | Family::Findings | Family::Moment | Family::Build =>
                FamilyKind::Gauge,
            Family::PollOps
            | Family::Dropped
            | Family::Lines
            | Family::Others
            | Family::HeldUp
            | Family::Waited => FamilyKind::Counter,
        }
    }

    /// Whether its values are times, which are written in seconds.
    pub(crate) fn is_in_seconds(self) -> bool
        ensures { result ≡ is_in_seconds self }
    {
        match self {
            Family::Task(count) => count.is_time(),
            Family::Times(_) | Family::HeldUp | Family::Waited | Family::Moment => true,
            _ => false,
        }
    }
}
