//! Worked examples: two lines of a stream or one, and what is found, reckoned by the definitions.

use super::given::{ALONE, HELD_UP, LOST, UNPOLLED, WAITS, finds};
use tk_report::View;

// The hog ran 300 ms, and the other waited during all of that.
const HOLDS_UP: &str =
    "finding 1 holds-up now held 300000000 alone 0 longest 300000000 since 100000000 until 400000000 tasks 1 task 1.1 kind spawn at a.rs:1:1 name hog
  whom 300000000 kind spawn at a.rs:2:1 name conn-#
";

const LONG_POLL: &str =
    "finding 1 long-poll now longest 300000000 task 1.1 kind spawn at a.rs:1:1 name hog\n";

const NOBODY_RAN: &str = "finding 1 nobody-ran now for 300000000 since 100000000 until 400000000\n";

const OF_TASKS: &str =
    "finding 1 lost-waker now for 240 tasks 2 task 1.2 kind spawn at a.rs:2:1 name conn-#
finding 2 lost-waker now for 210 tasks 1 task 1.3 kind spawn at a.rs:1:1 name main
finding 3 self-wakes now own 2 of 3 tasks 1 task 1.3 kind spawn at a.rs:1:1 name main
";

const NEVER_POLLED: &str =
    "finding 1 never-polled now for 1500000000 tasks 1 task 1.1 kind spawn at a.rs:1:1 name main\n";

#[test]
fn who_runs_long_holds_up_who_waits(rt: HostRuntime) {
    assert!(rt; finds(rt.alloc(), HELD_UP, View::Lint, None, 1, HOLDS_UP));
}

#[test]
fn three_hundred_milliseconds_are_long_by_a_limit_of_as_many(rt: HostRuntime) {
    assert!(rt; finds(rt.alloc(), HELD_UP, View::Lint, Some(300), 1, HOLDS_UP));
}

#[test]
fn they_are_not_by_a_limit_of_one_more(rt: HostRuntime) {
    assert!(rt; finds(rt.alloc(), HELD_UP, View::Lint, Some(301), 0, ""));
}

#[test]
fn who_runs_alone_had_a_long_poll(rt: HostRuntime) {
    assert!(rt; finds(rt.alloc(), ALONE, View::Lint, None, 1, LONG_POLL));
}

#[test]
fn nobody_is_to_blame_while_nobody_runs(rt: HostRuntime) {
    assert!(rt; finds(rt.alloc(), WAITS, View::Lint, None, 1, NOBODY_RAN));
}

#[test]
fn the_same_of_one_place_is_one_finding(rt: HostRuntime) {
    assert!(rt; finds(rt.alloc(), LOST, View::Lint, None, 3, OF_TASKS));
}

#[test]
fn a_blocking_task_is_not_looked_at(rt: HostRuntime) {
    assert!(rt; finds(rt.alloc(), UNPOLLED, View::Lint, None, 1, NEVER_POLLED));
}
