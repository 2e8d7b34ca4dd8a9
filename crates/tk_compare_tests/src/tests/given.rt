//! Streams, and what is written of two of them.

use std::alloc::Global;
use tk_client::Lints;
use tk_compare::{Margin, compare_recorded, read_recorded};
use tk_odd::Limits;

// At 2 s: `main`, a worker in line 5, and a task in line 9 that the other streams don't have there, or have.
pub(super) const BEFORE: &[u8] =
    b"{\"dropped\":[0,0,0],\"new_ops\":[],\"new_resources\":[],\"new_tasks\":[{\"id\":1099511627777,\"kind\":\"spawn\",\"loc\":[\"a.rs\",1,1],\"name\":\"main\"},{\"id\":1099511627778,\"kind\":\"spawn\",\"loc\":[\"a.rs\",5,1],\"name\":\"worker-1\"},{\"id\":1099511627779,\"kind\":\"spawn\",\"loc\":[\"b.rs\",9,1],\"name\":\"old\"}],\"now\":2000000000,\"op_stats\":[],\"poll_counts\":[],\"resource_stats\":[],\"seq\":1,\"snapshot\":false,\"task_stats\":[{\"busy\":20000000,\"clones\":1,\"created\":10,\"dropped\":null,\"drops\":0,\"first_poll\":null,\"handles\":1,\"id\":1099511627777,\"last_ended\":null,\"last_started\":null,\"last_wake\":null,\"polling\":false,\"polls\":4,\"sched\":0,\"scheduled\":false,\"self_wakes\":0,\"wakes\":0},{\"busy\":200000000,\"clones\":1,\"created\":10,\"dropped\":null,\"drops\":0,\"first_poll\":null,\"handles\":1,\"id\":1099511627778,\"last_ended\":null,\"last_started\":null,\"last_wake\":null,\"polling\":false,\"polls\":2,\"sched\":4000000,\"scheduled\":false,\"self_wakes\":0,\"wakes\":0},{\"busy\":0,\"clones\":1,\"created\":10,\"dropped\":null,\"drops\":0,\"first_poll\":null,\"handles\":1,\"id\":1099511627779,\"last_ended\":null,\"last_started\":null,\"last_wake\":null,\"polling\":false,\"polls\":1,\"sched\":0,\"scheduled\":false,\"self_wakes\":0,\"wakes\":0}],\"v\":1}\n";

// The same at 2 s, where the worker is polled three times as often, and each poll takes as long.
pub(super) const BUSY: &[u8] =
    b"{\"dropped\":[0,0,0],\"new_ops\":[],\"new_resources\":[],\"new_tasks\":[{\"id\":1099511627777,\"kind\":\"spawn\",\"loc\":[\"a.rs\",1,1],\"name\":\"main\"},{\"id\":1099511627778,\"kind\":\"spawn\",\"loc\":[\"a.rs\",5,1],\"name\":\"worker-1\"},{\"id\":1099511627779,\"kind\":\"spawn\",\"loc\":[\"b.rs\",9,1],\"name\":\"old\"}],\"now\":2000000000,\"op_stats\":[],\"poll_counts\":[],\"resource_stats\":[],\"seq\":1,\"snapshot\":false,\"task_stats\":[{\"busy\":20000000,\"clones\":1,\"created\":10,\"dropped\":null,\"drops\":0,\"first_poll\":null,\"handles\":1,\"id\":1099511627777,\"last_ended\":null,\"last_started\":null,\"last_wake\":null,\"polling\":false,\"polls\":4,\"sched\":0,\"scheduled\":false,\"self_wakes\":0,\"wakes\":0},{\"busy\":600000000,\"clones\":1,\"created\":10,\"dropped\":null,\"drops\":0,\"first_poll\":null,\"handles\":1,\"id\":1099511627778,\"last_ended\":null,\"last_started\":null,\"last_wake\":null,\"polling\":false,\"polls\":6,\"sched\":12000000,\"scheduled\":false,\"self_wakes\":0,\"wakes\":0},{\"busy\":0,\"clones\":1,\"created\":10,\"dropped\":null,\"drops\":0,\"first_poll\":null,\"handles\":1,\"id\":1099511627779,\"last_ended\":null,\"last_started\":null,\"last_wake\":null,\"polling\":false,\"polls\":1,\"sched\":0,\"scheduled\":false,\"self_wakes\":0,\"wakes\":0}],\"v\":1}\n";

// At 4 s: `main` at the same rates, the worker in line 7 with three times as much, and another task in line 9.
pub(super) const AFTER: &[u8] =
    b"{\"dropped\":[0,0,0],\"new_ops\":[],\"new_resources\":[],\"new_tasks\":[{\"id\":1099511627777,\"kind\":\"spawn\",\"loc\":[\"a.rs\",1,1],\"name\":\"main\"},{\"id\":1099511627778,\"kind\":\"spawn\",\"loc\":[\"a.rs\",7,1],\"name\":\"worker-2\"},{\"id\":1099511627779,\"kind\":\"spawn\",\"loc\":[\"b.rs\",9,2],\"name\":\"fresh\"}],\"now\":4000000000,\"op_stats\":[],\"poll_counts\":[],\"resource_stats\":[],\"seq\":1,\"snapshot\":false,\"task_stats\":[{\"busy\":40000000,\"clones\":1,\"created\":10,\"dropped\":null,\"drops\":0,\"first_poll\":null,\"handles\":1,\"id\":1099511627777,\"last_ended\":null,\"last_started\":null,\"last_wake\":null,\"polling\":false,\"polls\":8,\"sched\":0,\"scheduled\":false,\"self_wakes\":0,\"wakes\":0},{\"busy\":1200000000,\"clones\":1,\"created\":10,\"dropped\":null,\"drops\":0,\"first_poll\":null,\"handles\":1,\"id\":1099511627778,\"last_ended\":null,\"last_started\":null,\"last_wake\":null,\"polling\":false,\"polls\":4,\"sched\":0,\"scheduled\":false,\"self_wakes\":0,\"wakes\":0},{\"busy\":10000000,\"clones\":1,\"created\":10,\"dropped\":null,\"drops\":0,\"first_poll\":null,\"handles\":1,\"id\":1099511627779,\"last_ended\":null,\"last_started\":null,\"last_wake\":null,\"polling\":false,\"polls\":1,\"sched\":0,\"scheduled\":false,\"self_wakes\":0,\"wakes\":0}],\"v\":1}\n";

// At 4 s: the tasks of the first, at the same rates. The worker stands in line 7, and nobody can wake `main`.
pub(super) const LOST: &[u8] =
    b"{\"dropped\":[0,0,0],\"new_ops\":[],\"new_resources\":[],\"new_tasks\":[{\"id\":1099511627777,\"kind\":\"spawn\",\"loc\":[\"a.rs\",1,1],\"name\":\"main\"},{\"id\":1099511627778,\"kind\":\"spawn\",\"loc\":[\"a.rs\",7,1],\"name\":\"worker-2\"},{\"id\":1099511627779,\"kind\":\"spawn\",\"loc\":[\"b.rs\",9,1],\"name\":\"old\"}],\"now\":4000000000,\"op_stats\":[],\"poll_counts\":[],\"resource_stats\":[],\"seq\":1,\"snapshot\":false,\"task_stats\":[{\"busy\":40000000,\"clones\":0,\"created\":10,\"dropped\":null,\"drops\":0,\"first_poll\":null,\"handles\":1,\"id\":1099511627777,\"last_ended\":null,\"last_started\":null,\"last_wake\":null,\"polling\":false,\"polls\":8,\"sched\":0,\"scheduled\":false,\"self_wakes\":0,\"wakes\":0},{\"busy\":400000000,\"clones\":1,\"created\":10,\"dropped\":null,\"drops\":0,\"first_poll\":null,\"handles\":1,\"id\":1099511627778,\"last_ended\":null,\"last_started\":null,\"last_wake\":null,\"polling\":false,\"polls\":4,\"sched\":8000000,\"scheduled\":false,\"self_wakes\":0,\"wakes\":0},{\"busy\":0,\"clones\":1,\"created\":10,\"dropped\":null,\"drops\":0,\"first_poll\":null,\"handles\":1,\"id\":1099511627779,\"last_ended\":null,\"last_started\":null,\"last_wake\":null,\"polling\":false,\"polls\":2,\"sched\":0,\"scheduled\":false,\"self_wakes\":0,\"wakes\":0}],\"v\":1}\n";

// At 2 s: two workers in lines 5 and 6, with histograms of their polls, and of the waits of one.
pub(super) const TIMED: &[u8] =
    b"{\"dropped\":[0,0,0],\"gone_ops\":[],\"gone_resources\":[],\"gone_tasks\":[],\"new_ops\":[],\"new_resources\":[],\"new_tasks\":[{\"id\":1099511627777,\"kind\":\"spawn\",\"loc\":[\"a.rs\",5,1],\"name\":\"worker-1\"},{\"id\":1099511627778,\"kind\":\"spawn\",\"loc\":[\"a.rs\",6,1],\"name\":\"worker-2\"}],\"now\":2000000000,\"op_stats\":[],\"poll_counts\":[],\"resource_stats\":[],\"seq\":1,\"snapshot\":false,\"task_stats\":[{\"busy\":100000000,\"clones\":1,\"created\":10,\"dropped\":null,\"drops\":0,\"first_poll\":null,\"handles\":1,\"id\":1099511627777,\"last_ended\":null,\"last_started\":null,\"last_wake\":null,\"polling\":false,\"polls\":2,\"sched\":0,\"scheduled\":false,\"self_wakes\":0,\"wakes\":0},{\"busy\":100000000,\"clones\":1,\"created\":10,\"dropped\":null,\"drops\":0,\"first_poll\":null,\"handles\":1,\"id\":1099511627778,\"last_ended\":null,\"last_started\":null,\"last_wake\":null,\"polling\":false,\"polls\":2,\"sched\":0,\"scheduled\":false,\"self_wakes\":0,\"wakes\":0}],\"task_times\":[{\"counts\":[[0,1],[13,1]],\"id\":1099511627777,\"longest\":99000000},{\"counts\":[[0,2]],\"id\":1099511627778,\"longest\":10000,\"longest_wait\":5000,\"waits\":[[0,1]]}],\"v\":4}\n";

// At 2 s: a worker in line 7, whose polls run three times as long, and a task without a histogram.
pub(super) const LONGER: &[u8] =
    b"{\"dropped\":[0,0,0],\"gone_ops\":[],\"gone_resources\":[],\"gone_tasks\":[],\"new_ops\":[],\"new_resources\":[],\"new_tasks\":[{\"id\":1099511627777,\"kind\":\"spawn\",\"loc\":[\"a.rs\",7,1],\"name\":\"worker-3\"},{\"id\":1099511627778,\"kind\":\"spawn\",\"loc\":[\"b.rs\",9,1],\"name\":\"fresh\"}],\"now\":2000000000,\"op_stats\":[],\"poll_counts\":[],\"resource_stats\":[],\"seq\":1,\"snapshot\":false,\"task_stats\":[{\"busy\":600000000,\"clones\":1,\"created\":10,\"dropped\":null,\"drops\":0,\"first_poll\":null,\"handles\":1,\"id\":1099511627777,\"last_ended\":null,\"last_started\":null,\"last_wake\":null,\"polling\":false,\"polls\":4,\"sched\":0,\"scheduled\":false,\"self_wakes\":0,\"wakes\":0},{\"busy\":0,\"clones\":1,\"created\":10,\"dropped\":null,\"drops\":0,\"first_poll\":null,\"handles\":1,\"id\":1099511627778,\"last_ended\":null,\"last_started\":null,\"last_wake\":null,\"polling\":false,\"polls\":1,\"sched\":0,\"scheduled\":false,\"self_wakes\":0,\"wakes\":0}],\"task_times\":[{\"counts\":[[13,4]],\"id\":1099511627777,\"longest\":200000000}],\"v\":3}\n";

// At 1 s both tasks are woken. Then `hog` runs for 50 ms, and `other` waits for it.
pub(super) const SHORT: &[u8] =
    b"{\"dropped\":[0,0,0],\"new_ops\":[],\"new_resources\":[],\"new_tasks\":[{\"id\":1099511627777,\"kind\":\"spawn\",\"loc\":[\"a.rs\",1,1],\"name\":\"hog\"},{\"id\":1099511627778,\"kind\":\"spawn\",\"loc\":[\"a.rs\",2,1],\"name\":\"other\"}],\"now\":1000000000,\"op_stats\":[],\"poll_counts\":[],\"resource_stats\":[],\"seq\":1,\"snapshot\":false,\"task_stats\":[{\"busy\":0,\"clones\":1,\"created\":10,\"dropped\":null,\"drops\":0,\"first_poll\":null,\"handles\":1,\"id\":1099511627777,\"last_ended\":null,\"last_started\":null,\"last_wake\":1000000000,\"polling\":false,\"polls\":0,\"sched\":0,\"scheduled\":true,\"self_wakes\":0,\"wakes\":1},{\"busy\":0,\"clones\":1,\"created\":10,\"dropped\":null,\"drops\":0,\"first_poll\":null,\"handles\":1,\"id\":1099511627778,\"last_ended\":null,\"last_started\":null,\"last_wake\":1000000000,\"polling\":false,\"polls\":0,\"sched\":0,\"scheduled\":true,\"self_wakes\":0,\"wakes\":1}],\"v\":1}\n{\"dropped\":[0,0,0],\"new_ops\":[],\"new_resources\":[],\"new_tasks\":[],\"now\":2000000000,\"op_stats\":[],\"poll_counts\":[],\"resource_stats\":[],\"seq\":2,\"snapshot\":false,\"task_stats\":[{\"busy\":50000000,\"clones\":1,\"created\":10,\"dropped\":null,\"drops\":0,\"first_poll\":1000000000,\"handles\":1,\"id\":1099511627777,\"last_ended\":1050000000,\"last_started\":1000000000,\"last_wake\":1000000000,\"polling\":false,\"polls\":1,\"sched\":0,\"scheduled\":false,\"self_wakes\":0,\"wakes\":1},{\"busy\":1000000,\"clones\":1,\"created\":10,\"dropped\":null,\"drops\":0,\"first_poll\":1050000000,\"handles\":1,\"id\":1099511627778,\"last_ended\":1051000000,\"last_started\":1050000000,\"last_wake\":1000000000,\"polling\":false,\"polls\":1,\"sched\":50000000,\"scheduled\":false,\"self_wakes\":0,\"wakes\":1}],\"v\":1}\n";

// The same, where `hog` runs for 500 ms.
pub(super) const LONG: &[u8] =
    b"{\"dropped\":[0,0,0],\"new_ops\":[],\"new_resources\":[],\"new_tasks\":[{\"id\":1099511627777,\"kind\":\"spawn\",\"loc\":[\"a.rs\",1,1],\"name\":\"hog\"},{\"id\":1099511627778,\"kind\":\"spawn\",\"loc\":[\"a.rs\",2,1],\"name\":\"other\"}],\"now\":1000000000,\"op_stats\":[],\"poll_counts\":[],\"resource_stats\":[],\"seq\":1,\"snapshot\":false,\"task_stats\":[{\"busy\":0,\"clones\":1,\"created\":10,\"dropped\":null,\"drops\":0,\"first_poll\":null,\"handles\":1,\"id\":1099511627777,\"last_ended\":null,\"last_started\":null,\"last_wake\":1000000000,\"polling\":false,\"polls\":0,\"sched\":0,\"scheduled\":true,\"self_wakes\":0,\"wakes\":1},{\"busy\":0,\"clones\":1,\"created\":10,\"dropped\":null,\"drops\":0,\"first_poll\":null,\"handles\":1,\"id\":1099511627778,\"last_ended\":null,\"last_started\":null,\"last_wake\":1000000000,\"polling\":false,\"polls\":0,\"sched\":0,\"scheduled\":true,\"self_wakes\":0,\"wakes\":1}],\"v\":1}\n{\"dropped\":[0,0,0],\"new_ops\":[],\"new_resources\":[],\"new_tasks\":[],\"now\":2000000000,\"op_stats\":[],\"poll_counts\":[],\"resource_stats\":[],\"seq\":2,\"snapshot\":false,\"task_stats\":[{\"busy\":500000000,\"clones\":1,\"created\":10,\"dropped\":null,\"drops\":0,\"first_poll\":1000000000,\"handles\":1,\"id\":1099511627777,\"last_ended\":1500000000,\"last_started\":1000000000,\"last_wake\":1000000000,\"polling\":false,\"polls\":1,\"sched\":0,\"scheduled\":false,\"self_wakes\":0,\"wakes\":1},{\"busy\":1000000,\"clones\":1,\"created\":10,\"dropped\":null,\"drops\":0,\"first_poll\":1500000000,\"handles\":1,\"id\":1099511627778,\"last_ended\":1501000000,\"last_started\":1500000000,\"last_wake\":1000000000,\"polling\":false,\"polls\":1,\"sched\":500000000,\"scheduled\":false,\"self_wakes\":0,\"wakes\":1}],\"v\":1}\n";

// By what something is odd if no option says otherwise.
fn usual() -> Limits {
    Limits {
        long: 100_000_000,
        lints: Lints::default(),
    }
}

// Whether two streams come to this text by a margin, of which so much is worse.
pub(super) fn changes(
    alloc: Global,
    before: &'static [u8],
    after: &'static [u8],
    margin: Margin,
    worse: u64,
    wanted: &str,
) -> bool {
    let (mut old, mut new) = (before, after);
    let mut written = Vec::new(alloc);
    let Ok(old) = read_recorded(alloc, &mut old, usual()) else {
        return false;
    };
    let Ok(new) = read_recorded(alloc, &mut new, usual()) else {
        return false;
    };
    compare_recorded(alloc, &old, &new, margin, &mut written) == Ok(worse)
        && written.as_slice() == wanted.as_bytes()
}
