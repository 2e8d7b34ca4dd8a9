//! Findings of a span of a stream: worked examples of three lines, reckoned by the definitions.

use super::given::{HELD_UP, LOST, finds, finds_since};
use std::alloc::Global;
use tk_report::View;

/// Nanoseconds of a millisecond.
const MILLI: u64 = 1_000_000;

// A task `hog` runs from 100 ms to 400 ms, and another waits during that. Then neither does. Lines at 100, 400 and 700 ms.
const EARLIER: &[u8] =
    b"{\"dropped\":[0,0,0],\"new_ops\":[],\"new_resources\":[],\"new_tasks\":[{\"id\":1099511627777,\"kind\":\"spawn\",\"loc\":[\"a.rs\",1,1],\"name\":\"hog\"},{\"id\":1099511627778,\"kind\":\"spawn\",\"loc\":[\"a.rs\",2,1],\"name\":\"conn-1\"}],\"now\":100000000,\"op_stats\":[],\"poll_counts\":[],\"resource_stats\":[],\"seq\":1,\"snapshot\":false,\"task_stats\":[{\"busy\":0,\"clones\":1,\"created\":100000000,\"dropped\":null,\"drops\":0,\"first_poll\":null,\"handles\":1,\"id\":1099511627777,\"last_ended\":null,\"last_started\":null,\"last_wake\":null,\"polling\":false,\"polls\":0,\"sched\":0,\"scheduled\":true,\"self_wakes\":0,\"wakes\":0},{\"busy\":0,\"clones\":1,\"created\":100000000,\"dropped\":null,\"drops\":0,\"first_poll\":100000000,\"handles\":1,\"id\":1099511627778,\"last_ended\":100000000,\"last_started\":100000000,\"last_wake\":null,\"polling\":false,\"polls\":1,\"sched\":0,\"scheduled\":false,\"self_wakes\":0,\"wakes\":0}],\"v\":1}
{\"dropped\":[0,0,0],\"new_ops\":[],\"new_resources\":[],\"new_tasks\":[],\"now\":400000000,\"op_stats\":[],\"poll_counts\":[],\"resource_stats\":[],\"seq\":2,\"snapshot\":false,\"task_stats\":[{\"busy\":300000000,\"clones\":1,\"created\":100000000,\"dropped\":null,\"drops\":0,\"first_poll\":100000000,\"handles\":1,\"id\":1099511627777,\"last_ended\":400000000,\"last_started\":100000000,\"last_wake\":null,\"polling\":false,\"polls\":1,\"sched\":0,\"scheduled\":false,\"self_wakes\":0,\"wakes\":0},{\"busy\":0,\"clones\":1,\"created\":100000000,\"dropped\":null,\"drops\":0,\"first_poll\":100000000,\"handles\":1,\"id\":1099511627778,\"last_ended\":100000000,\"last_started\":100000000,\"last_wake\":100000000,\"polling\":false,\"polls\":1,\"sched\":0,\"scheduled\":true,\"self_wakes\":0,\"wakes\":1}],\"v\":1}
{\"dropped\":[0,0,0],\"new_ops\":[],\"new_resources\":[],\"new_tasks\":[],\"now\":700000000,\"op_stats\":[],\"poll_counts\":[],\"resource_stats\":[],\"seq\":3,\"snapshot\":false,\"task_stats\":[{\"busy\":0,\"clones\":1,\"created\":100000000,\"dropped\":null,\"drops\":0,\"first_poll\":100000000,\"handles\":1,\"id\":1099511627778,\"last_ended\":400000000,\"last_started\":400000000,\"last_wake\":100000000,\"polling\":false,\"polls\":2,\"sched\":300000000,\"scheduled\":false,\"self_wakes\":0,\"wakes\":1}],\"v\":1}\n";

// Both are idle until 400 ms. Then the hog runs, and the other waits. Lines at 100, 400 and 700 ms.
const LATER: &[u8] =
    b"{\"dropped\":[0,0,0],\"new_ops\":[],\"new_resources\":[],\"new_tasks\":[{\"id\":1099511627777,\"kind\":\"spawn\",\"loc\":[\"a.rs\",1,1],\"name\":\"hog\"},{\"id\":1099511627778,\"kind\":\"spawn\",\"loc\":[\"a.rs\",2,1],\"name\":\"conn-1\"}],\"now\":100000000,\"op_stats\":[],\"poll_counts\":[],\"resource_stats\":[],\"seq\":1,\"snapshot\":false,\"task_stats\":[{\"busy\":0,\"clones\":1,\"created\":100000000,\"dropped\":null,\"drops\":0,\"first_poll\":100000000,\"handles\":1,\"id\":1099511627777,\"last_ended\":100000000,\"last_started\":100000000,\"last_wake\":null,\"polling\":false,\"polls\":1,\"sched\":0,\"scheduled\":false,\"self_wakes\":0,\"wakes\":0},{\"busy\":0,\"clones\":1,\"created\":100000000,\"dropped\":null,\"drops\":0,\"first_poll\":100000000,\"handles\":1,\"id\":1099511627778,\"last_ended\":100000000,\"last_started\":100000000,\"last_wake\":null,\"polling\":false,\"polls\":1,\"sched\":0,\"scheduled\":false,\"self_wakes\":0,\"wakes\":0}],\"v\":1}
{\"dropped\":[0,0,0],\"new_ops\":[],\"new_resources\":[],\"new_tasks\":[],\"now\":400000000,\"op_stats\":[],\"poll_counts\":[],\"resource_stats\":[],\"seq\":2,\"snapshot\":false,\"task_stats\":[],\"v\":1}
{\"dropped\":[0,0,0],\"new_ops\":[],\"new_resources\":[],\"new_tasks\":[],\"now\":700000000,\"op_stats\":[],\"poll_counts\":[],\"resource_stats\":[],\"seq\":3,\"snapshot\":false,\"task_stats\":[{\"busy\":0,\"clones\":1,\"created\":100000000,\"dropped\":null,\"drops\":0,\"first_poll\":100000000,\"handles\":1,\"id\":1099511627777,\"last_ended\":100000000,\"last_started\":400000000,\"last_wake\":400000000,\"polling\":true,\"polls\":2,\"sched\":0,\"scheduled\":false,\"self_wakes\":0,\"wakes\":1},{\"busy\":0,\"clones\":1,\"created\":100000000,\"dropped\":null,\"drops\":0,\"first_poll\":100000000,\"handles\":1,\"id\":1099511627778,\"last_ended\":100000000,\"last_started\":100000000,\"last_wake\":400000000,\"polling\":false,\"polls\":1,\"sched\":0,\"scheduled\":true,\"self_wakes\":0,\"wakes\":1}],\"v\":1}\n";

const HELD_EARLIER: &str =
    "finding 1 holds-up earlier held 300000000 alone 0 longest 300000000 since 100000000 until 400000000 tasks 1 task 1.1 kind spawn at a.rs:1:1 name hog
  whom 300000000 kind spawn at a.rs:2:1 name conn-#
";

const HOLDS_NOW: &str =
    "finding 1 holds-up now held 300000000 alone 0 longest 300000000 since 400000000 until 700000000 tasks 1 task 1.1 kind spawn at a.rs:1:1 name hog
  whom 300000000 kind spawn at a.rs:2:1 name conn-#
";

// Whether a stream's findings since a moment are these, as many, and with no moment, too.
fn finds_as_ever(
    alloc: Global,
    stream: &'static [u8],
    since: u64,
    count: u64,
    wanted: &str,
) -> bool {
    finds_since(alloc, stream, Some(since), count, wanted)
        && finds(alloc, stream, View::Lint, None, count, wanted)
}

#[test]
fn who_held_up_others_before_the_span_is_not_found(rt: HostRuntime) {
    assert!(rt;
        finds_since(rt.alloc(), EARLIER, None, 1, HELD_EARLIER),
        "all lines have it"
    );
    assert!(rt;
        finds_since(rt.alloc(), EARLIER, Some(400 * MILLI), 0, ""),
        "nobody is held up since its last moment"
    );
    assert!(rt;
        finds_since(rt.alloc(), EARLIER, Some(700 * MILLI - 1), 0, ""),
        "nor just before the last line"
    );
}

#[test]
fn a_span_begins_with_the_last_line_that_is_not_later(rt: HostRuntime) {
    assert!(rt;
        finds_since(rt.alloc(), EARLIER, Some(400 * MILLI - 1), 1, HELD_EARLIER),
        "just before a line the span begins with the one before"
    );
    assert!(rt;
        finds_since(rt.alloc(), EARLIER, Some(100 * MILLI), 1, HELD_EARLIER),
        "at a line's moment the span begins with it"
    );
}

#[test]
fn who_holds_up_others_in_the_span_is_found(rt: HostRuntime) {
    assert!(rt;
        finds_as_ever(rt.alloc(), LATER, 400 * MILLI, 1, HOLDS_NOW),
        "the span has it, as all lines do"
    );
    assert!(rt;
        finds_since(rt.alloc(), LATER, Some(700 * MILLI), 0, ""),
        "the last line alone has no step"
    );
}

#[test]
fn a_span_since_before_the_first_line_is_the_stream(rt: HostRuntime) {
    assert!(rt;
        finds_as_ever(rt.alloc(), EARLIER, 100 * MILLI - 1, 1, HELD_EARLIER),
        "just before the first line"
    );
    assert!(rt;
        finds_as_ever(rt.alloc(), EARLIER, 0, 1, HELD_EARLIER),
        "at 0"
    );
}

// What is found about tasks in themselves is that of the last tables, however short the span is.
const LOST_TASKS: &str =
    "finding 1 lost-waker now for 240 tasks 2 task 1.2 kind spawn at a.rs:2:1 name conn-#
finding 2 lost-waker now for 210 tasks 1 task 1.3 kind spawn at a.rs:1:1 name main
finding 3 self-wakes now own 2 of 3 tasks 1 task 1.3 kind spawn at a.rs:1:1 name main
";

#[test]
fn what_the_last_tables_show_is_found_in_each_span(rt: HostRuntime) {
    assert!(rt;
        finds_as_ever(rt.alloc(), LOST, 300, 3, LOST_TASKS),
        "since 300"
    );
    assert!(rt;
        finds_since(rt.alloc(), LOST, Some(u64::MAX), 3, LOST_TASKS),
        "since the greatest moment"
    );
}

#[test]
fn a_span_of_the_last_line_has_no_step(rt: HostRuntime) {
    assert!(rt; finds_since(rt.alloc(), HELD_UP, Some(400 * MILLI), 0, ""));
}
