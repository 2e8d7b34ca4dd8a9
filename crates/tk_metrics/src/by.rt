//! What samples of tasks are told apart by.

/// Which tasks are added up to one sample.
#[derive(Clone, Copy, Debug, PartialEq, Eq)]
pub enum By {
    /// The tasks of one name and kind, those that have left the stream's tables among them.
    Name,
    /// None: each task has samples of its own, as long as it is in the stream's tables.
    Id,
    /// The tasks of one place, those that have left the stream's tables among them. They are of one kind, spawned at one place in the source, and
    /// of one name but for numbers: `worker-1` and `worker-2` are both `worker-#`.
    Place,
}

impl By {
    ghost use Rattle.std.specs.Prelude.{◌≡◌};
    ghost use Rattle.tk_metrics.specs.Stays.{stays};

    /// Whether tasks that have left stay in the sums.
    pub(crate) fn keeps_left(self) -> bool
        ensures { result ≡ stays self }
    {
        match self {
            By::Name | By::Place => true,
            By::Id => false,
        }
    }
}
