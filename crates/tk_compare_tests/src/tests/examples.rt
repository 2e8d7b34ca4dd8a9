//! Worked examples: two streams, and what changed, reckoned by the definitions.

use super::given::{AFTER, BEFORE, BUSY, LONG, LONGER, LOST, SHORT, TIMED, changes};
use tk_compare::Margin;

// By half as much again, and by a millisecond of a second.
const USUAL: Margin = Margin {
    percent: 50,
    least: 1_000_000,
};

const FORTH: &str =
    "places: 1 worse, 1 new, 0 better, 1 gone, 1 the same; findings: 0 new, 0 gone, 0 still there
worse polls 1.00 1.00 x1.00 ran 100000000 300000000 x3.00 waited 2000000 0 x0.00 held-up 0 0 - kind spawn at a.rs:#:# name worker-#
new polls 0.00 0.25 - ran 0 2500000 - waited 0 0 - held-up 0 0 - kind spawn at b.rs:9:2 name fresh
gone polls 0.50 0.00 x0.00 ran 0 0 - waited 0 0 - held-up 0 0 - kind spawn at b.rs:9:1 name old
";

const BACK: &str =
    "places: 0 worse, 1 new, 1 better, 1 gone, 1 the same; findings: 0 new, 0 gone, 0 still there
new polls 0.00 0.50 - ran 0 0 - waited 0 0 - held-up 0 0 - kind spawn at b.rs:9:1 name old
better polls 1.00 1.00 x1.00 ran 300000000 100000000 x0.33 waited 0 2000000 - held-up 0 0 - kind spawn at a.rs:#:# name worker-#
gone polls 0.25 0.00 x0.00 ran 2500000 0 x0.00 waited 0 0 - held-up 0 0 - kind spawn at b.rs:9:2 name fresh
";

// Three times as much is not more than by 200 percent. That nobody waits any more is a change.
const BY_MORE: &str =
    "places: 0 worse, 1 new, 1 better, 1 gone, 1 the same; findings: 0 new, 0 gone, 0 still there
new polls 0.00 0.25 - ran 0 2500000 - waited 0 0 - held-up 0 0 - kind spawn at b.rs:9:2 name fresh
better polls 1.00 1.00 x1.00 ran 100000000 300000000 x3.00 waited 2000000 0 x0.00 held-up 0 0 - kind spawn at a.rs:#:# name worker-#
gone polls 0.50 0.00 x0.00 ran 0 0 - waited 0 0 - held-up 0 0 - kind spawn at b.rs:9:1 name old
";

// Two milliseconds are no change by a margin of three.
const BY_BOTH: &str =
    "places: 0 worse, 1 new, 0 better, 1 gone, 2 the same; findings: 0 new, 0 gone, 0 still there
new polls 0.00 0.25 - ran 0 2500000 - waited 0 0 - held-up 0 0 - kind spawn at b.rs:9:2 name fresh
gone polls 0.50 0.00 x0.00 ran 0 0 - waited 0 0 - held-up 0 0 - kind spawn at b.rs:9:1 name old
";

const FOUND: &str =
    "places: 0 worse, 0 new, 0 better, 0 gone, 3 the same; findings: 1 new, 0 gone, 0 still there
finding new lost-waker kind spawn at a.rs:1:1 name main
";

const MENDED: &str =
    "places: 0 worse, 0 new, 0 better, 0 gone, 3 the same; findings: 0 new, 1 gone, 0 still there
finding gone lost-waker kind spawn at a.rs:1:1 name main
";

const SAME: &str =
    "places: 0 worse, 0 new, 0 better, 0 gone, 3 the same; findings: 0 new, 0 gone, 1 still there
finding still lost-waker kind spawn at a.rs:1:1 name main
";

// The histograms of both workers are added up. No wait was counted after.
const TIMES: &str =
    "places: 1 worse, 1 new, 0 better, 0 gone, 0 the same; findings: 0 new, 0 gone, 0 still there
worse polls 2.00 2.00 x1.00 ran 100000000 300000000 x3.00 waited 0 0 - held-up 0 0 - kind spawn at a.rs:#:# name worker-#
  polls before 4 longest 99000000 p50 0 16384 p90 67108864 99000000 p99 67108864 99000000
  polls after 4 longest 200000000 p50 67108864 200000000 p90 67108864 200000000 p99 67108864 200000000
  waits before 1 longest 5000 p50 0 16384 p90 0 16384 p99 0 16384
new polls 0.00 0.50 - ran 0 0 - waited 0 0 - held-up 0 0 - kind spawn at b.rs:9:1 name fresh
";

// Others waited for 500 ms of two seconds while `hog` ran long. Runs of less than 100 ms hold up nobody.
const HELD: &str =
    "places: 2 worse, 0 new, 0 better, 0 gone, 0 the same; findings: 1 new, 0 gone, 0 still there
finding new holds-up kind spawn at a.rs:1:1 name hog
worse polls 0.50 0.50 x1.00 ran 25000000 250000000 x10.00 waited 0 0 - held-up 0 250000000 - kind spawn at a.rs:1:1 name hog
worse polls 0.50 0.50 x1.00 ran 500000 500000 x1.00 waited 25000000 250000000 x10.00 held-up 0 0 - kind spawn at a.rs:2:1 name other
";

const NO_CHANGE: &str =
    "places: 0 worse, 0 new, 0 better, 0 gone, 3 the same; findings: 0 new, 0 gone, 0 still there
";

#[test]
fn a_place_whose_line_moved_is_worse(rt: HostRuntime) {
    assert!(rt; changes(rt.alloc(), BEFORE, AFTER, USUAL, 1, FORTH));
}

#[test]
fn histograms_stand_below_a_place_that_changed(rt: HostRuntime) {
    assert!(rt; changes(rt.alloc(), TIMED, LONGER, USUAL, 1, TIMES));
}

#[test]
fn it_says_how_long_others_waited(rt: HostRuntime) {
    assert!(rt; changes(rt.alloc(), SHORT, LONG, USUAL, 3, HELD));
}

#[test]
fn it_is_better_the_other_way(rt: HostRuntime) {
    assert!(rt; changes(rt.alloc(), AFTER, BEFORE, USUAL, 0, BACK));
}

#[test]
fn just_as_much_as_the_percent_is_no_change(rt: HostRuntime) {
    let margin = Margin {
        percent: 200,
        least: 1_000_000,
    };
    assert!(rt; changes(rt.alloc(), BEFORE, AFTER, margin, 0, BY_MORE));
}

#[test]
fn less_than_the_least_is_no_change(rt: HostRuntime) {
    let margin = Margin {
        percent: 200,
        least: 3_000_000,
    };
    assert!(rt; changes(rt.alloc(), BEFORE, AFTER, margin, 0, BY_BOTH));
}

#[test]
fn more_polls_that_each_take_as_long_are_no_change(rt: HostRuntime) {
    assert!(rt;
        changes(rt.alloc(), BEFORE, BUSY, USUAL, 0, NO_CHANGE),
        "more polls after"
    );
    assert!(rt;
        changes(rt.alloc(), BUSY, BEFORE, USUAL, 0, NO_CHANGE),
        "fewer polls after"
    );
}

#[test]
fn a_new_finding_is_worse(rt: HostRuntime) {
    assert!(rt; changes(rt.alloc(), BEFORE, LOST, USUAL, 1, FOUND));
}

#[test]
fn a_finding_that_is_gone_is_not(rt: HostRuntime) {
    assert!(rt; changes(rt.alloc(), LOST, BEFORE, USUAL, 0, MENDED));
}

#[test]
fn a_stream_is_the_same_as_itself(rt: HostRuntime) {
    assert!(rt; changes(rt.alloc(), LOST, LOST, USUAL, 0, SAME));
}
