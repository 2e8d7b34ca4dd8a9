//! What is said of what is odd, to people.
ghost use Rattle.std.specs.Prelude.{◌≡◌};
ghost use Rattle.tk_odd.specs.Words as spec;

use crate::finding::OddKind;

/// What the figures of a finding are, by which an outlet arranges them. Times are nanoseconds.
#[derive(Clone, Copy, Debug, PartialEq, Eq)]
pub enum Shape {
    /// From when to when, for how long others waited, how long a task ran alone, how long a poll took, and how many tasks were charged.
    Held,
    /// For how long a task ran alone, and how long a poll took.
    Alone,
    /// From when to when, and for how long.
    Stretch,
    /// Since when, for how long, and of how many tasks.
    Lasting,
    /// How long a poll took.
    Longest,
    /// How many of how many, and of how many tasks.
    Share,
}

/// What a finding is a sign of, by which an outlet gives it a colour and a mark.
#[derive(Clone, Copy, Debug, PartialEq, Eq)]
pub enum Sign {
    /// A task runs long.
    Runs,
    /// Tasks wait.
    Waits,
    /// A first poll doesn't end.
    NeverReturns,
    /// Nobody can wake a task.
    IsLost,
    /// A task wakes itself.
    Loops,
}

const KINDS: [OddKind; 10] = [
    OddKind::HoldsUp,
    OddKind::StandsStill,
    OddKind::LeftAlone,
    OddKind::Overloaded,
    OddKind::LongPoll,
    OddKind::NeverYielded,
    OddKind::LostWaker,
    OddKind::PassedOver,
    OddKind::NeverPolled,
    OddKind::SelfWakes,
];

/// Every kind, in the order of the worst of each.
pub fn kinds() -> [OddKind; 10]
    ensures { result ≡ spec.kinds }
{
    KINDS
}

/// `now` or `earlier`: whether a finding holds at the last line.
pub fn when_word(is_now: bool) -> &'static str
    ensures { result.now ≡ spec.when_word is_now }
{
    if is_now { "now" } else { "earlier" }
}

impl OddKind {
    /// Its name, as outlets write it.
    pub fn name(self) -> &'static str
        ensures { result.now ≡ spec.name_of self }
    {
        match self {
            OddKind::HoldsUp => "holds-up",
            OddKind::StandsStill => "stands-still",
            OddKind::LeftAlone => "nobody-ran",
            OddKind::Overloaded => "overloaded",
            OddKind::NeverYielded => "never-yielded",
            OddKind::LostWaker => "lost-waker",
            OddKind::PassedOver => "passed-over",
            OddKind::NeverPolled => "never-polled",
            OddKind::LongPoll => "long-poll",
            OddKind::SelfWakes => "self-wakes",
        }
    }

    /// What it is a sign of.
    pub fn sign(self) -> Sign
        ensures { result ≡ spec.sign_of self }
    {
        match self {
            OddKind::HoldsUp => Sign::Runs,
            OddKind::StandsStill => Sign::Runs,
            OddKind::LeftAlone => Sign::Waits,
            OddKind::Overloaded => Sign::Waits,
            OddKind::NeverYielded => Sign::NeverReturns,
            OddKind::LostWaker => Sign::IsLost,
            OddKind::PassedOver => Sign::Waits,
            OddKind::NeverPolled => Sign::Waits,
            OddKind::LongPoll => Sign::Runs,
            OddKind::SelfWakes => Sign::Loops,
        }
    }

    /// What is said of a task in a word or two.
    pub fn badge(self) -> &'static str
        ensures { result.now ≡ spec.badge_of self }
    {
        match self {
            OddKind::HoldsUp => "held up others",
            OddKind::StandsStill => "all stood still",
            OddKind::LeftAlone => "nobody ran",
            OddKind::Overloaded => "overloaded",
            OddKind::NeverYielded => "never yielded",
            OddKind::LostWaker => "nobody can wake it",
            OddKind::PassedOver => "passed over",
            OddKind::NeverPolled => "never polled",
            OddKind::LongPoll => "long poll",
            OddKind::SelfWakes => "wakes itself",
        }
    }

    // What is said where it holds now.
    fn said_now(self) -> &'static str
        ensures { result.now ≡ spec.now_of self }
    {
        match self {
            OddKind::HoldsUp => "holds up the others",
            OddKind::StandsStill => "runs while all others stand still",
            OddKind::LeftAlone => "wait, and hardly any task runs",
            OddKind::Overloaded => "wait long in the queue",
            OddKind::NeverYielded => "has never yielded",
            OddKind::LostWaker => "can be woken by nobody",
            OddKind::PassedOver => "is passed over",
            OddKind::NeverPolled => "was never polled",
            OddKind::LongPoll => "is in a long poll",
            OddKind::SelfWakes => "wakes itself",
        }
    }

    // What is said where it held earlier.
    fn said_earlier(self) -> &'static str
        ensures { result.now ≡ spec.earlier_of self }
    {
        match self {
            OddKind::HoldsUp => "held up the others",
            OddKind::StandsStill => "ran while all others stood still",
            OddKind::LeftAlone => "waited, and hardly any task ran",
            OddKind::Overloaded => "waited long in the queue",
            OddKind::NeverYielded => "had not yielded",
            OddKind::LostWaker => "could be woken by nobody",
            OddKind::PassedOver => "was passed over",
            OddKind::NeverPolled => "had not been polled",
            OddKind::LongPoll => "had a long poll",
            OddKind::SelfWakes => "woke itself",
        }
    }

    /// What is said of who it is about, after their name: where it holds now, or where it held earlier.
    pub fn said(self, is_now: bool) -> &'static str
        ensures { result.now ≡ spec.said_of is_now self }
    {
        if is_now {
            self.said_now()
        } else {
            self.said_earlier()
        }
    }

    /// What its figures are.
    pub fn shape(self) -> Shape
        ensures { result ≡ spec.shape_of self }
    {
        match self {
            OddKind::HoldsUp => Shape::Held,
            OddKind::StandsStill => Shape::Alone,
            OddKind::LeftAlone => Shape::Stretch,
            OddKind::Overloaded => Shape::Stretch,
            OddKind::NeverYielded => Shape::Lasting,
            OddKind::LostWaker => Shape::Lasting,
            OddKind::PassedOver => Shape::Lasting,
            OddKind::NeverPolled => Shape::Lasting,
            OddKind::LongPoll => Shape::Longest,
            OddKind::SelfWakes => Shape::Share,
        }
    }

    /// What stands before its figure, in a sentence for people.
    pub fn before(self) -> &'static str
        ensures { result.now ≡ spec.before_of self }
    {
        match self {
            OddKind::HoldsUp => "others waited for it, at least",
            OddKind::StandsStill => "No other task was polled while it ran for at least",
            OddKind::LeftAlone => "a task waited longer than all others ran, by at least",
            OddKind::Overloaded => "they waited in the queue at least",
            OddKind::NeverYielded => "Its first poll has run",
            OddKind::LostWaker => "It has been idle",
            OddKind::PassedOver => "It has waited",
            OddKind::NeverPolled => "It has waited",
            OddKind::LongPoll => "A poll of it took at least",
            OddKind::SelfWakes => "of its",
        }
    }

    /// What stands after its figure, in a sentence for people.
    pub fn after(self) -> &'static str
        ensures { result.now ≡ spec.after_of self }
    {
        match self {
            OddKind::HoldsUp => " in all",
            OddKind::StandsStill => "",
            OddKind::LeftAlone => "",
            OddKind::Overloaded => " for each poll, and no task is to blame",
            OddKind::NeverYielded => ", and has not come back",
            OddKind::LostWaker => ", and no waker of it is left",
            OddKind::PassedOver => ", while tasks were polled that came later",
            OddKind::NeverPolled => ", and was never polled",
            OddKind::LongPoll => "",
            OddKind::SelfWakes => " wakes were its own",
        }
    }

    /// What to do.
    pub fn advice(self) -> &'static str
        ensures { result.now ≡ spec.advice_of self }
    {
        match self {
            OddKind::HoldsUp => "split its polls, or move the work to a blocking task",
            OddKind::StandsStill =>
                "split its polls, or move the work to a blocking task: timers and sockets stood still, too",
            OddKind::LeftAlone =>
                "look for what blocks a thread outside of tasks, or for a busy machine",
            OddKind::Overloaded => "less work, or more threads: no single task is to blame",
            OddKind::NeverYielded =>
                "it blocks, or loops without an await: move it to a blocking task",
            OddKind::LostWaker => "keep a waker of it until the wake",
            OddKind::PassedOver =>
                "look whether the executor has lost it, keeps it behind a blocked thread, or always takes the latest first",
            OddKind::NeverPolled => "look at what holds the threads",
            OddKind::LongPoll => "split its polls, or move the work to a blocking task",
            OddKind::SelfWakes => "let an event or a timer wake it",
        }
    }
}
