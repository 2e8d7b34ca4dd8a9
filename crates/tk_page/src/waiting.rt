//! How it is known for how long tasks waited.
ghost use Rattle.std.specs.Prelude.{◌≡◌, false, slice_get};
ghost use Rattle.std.specs.List.{list_any};
ghost use Rattle.std.specs.Option.{option_map_or};
ghost use Rattle.tk_page.specs.Waiting as spec;

use tk_client::is_spawn;
use tk_stream::{Tables, Task};

// Whether each wait of the task is known from its last wake on alone.
fn waits_from_last_wake(task: &Task) -> bool
    ensures { result ≡ spec.waits_from_last_wake task.now }
{
    let row = &task.row;
    row.waits.is_none() && (row.sched > 0 || row.scheduled)
}

// Whether it is so of the task at a place.
fn waits_from_last_wake_at(tables: &Tables, place: usize) -> bool
    ensures { result ≡ option_map_or spec.waits_from_last_wake (slice_get tables.now.tasks place) false }
{
    match tables.task_at(place) {
        Some(task) => waits_from_last_wake(task),
        None => false,
    }
}

/// Whether each wait of a task is known from its last wake on alone.
pub(crate) fn any_waits_from_last_wake(tables: &Tables) -> bool
    ensures { result ≡ list_any spec.waits_from_last_wake tables.now.tasks }
{
    for place in 0..tables.task_count() {
        if waits_from_last_wake_at(tables, place) {
            return true;
        }
    }
    false
}
