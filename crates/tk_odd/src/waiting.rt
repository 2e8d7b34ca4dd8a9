//! Which tasks wait now.
ghost use Rattle.std.specs.Prelude.{◌≡◌, slice_get};
ghost use Rattle.std.specs.Option.{option_map_or};
ghost use Rattle.tk_odd.specs.Waiting as spec;

use tk_client::is_spawn;
use tk_stream::{Tables, Task};

/// How many tasks wait for a poll, and for how long the longest of them does, in nanoseconds.
#[derive(Clone, Copy, Debug, PartialEq, Eq)]
pub struct Waiting {
    /// How many wait.
    pub count: u64,
    /// For how long the longest does.
    pub longest: u64,
}

impl Waiting {
    // With a task more.
    fn with(self, now: u64, task: &Task) -> Waiting
        ensures { result ≡ spec.with_task now self task.now }
    {
        let row = &task.row;
        if !is_spawn(task.info.kind) || !row.scheduled || row.polling {
            return self;
        }
        Waiting {
            count: self.count.saturating_add(1),
            longest: self.longest.max(row.waits_for(now)),
        }
    }

    // With the task at a place.
    fn with_at(self, tables: &Tables, place: usize) -> Waiting
        ensures { result ≡ option_map_or (λ t. spec.with_task tables.now.now self t) (slice_get tables.now.tasks place) self }
    {
        match tables.task_at(place) {
            Some(task) => self.with(tables.now(), task),
            None => self,
        }
    }

    /// Of the tasks of tables, at their moment.
    pub fn of(tables: &Tables) -> Waiting
        ensures { result ≡ spec.waiting_of tables.now.now tables.now.tasks }
    {
        let mut waiting = Waiting {
            count: 0,
            longest: 0,
        };
        for place in 0..tables.task_count() {
            waiting = waiting.with_at(tables, place);
        }
        waiting
    }
}
