//! Streams, and what is found in them.

use std::alloc::Global;
use std::io::{Read, Write};
use tk_client::Lints;
use tk_fault::AppFault;
use tk_found::{limits_by, view_findings};
use tk_report::View;

// A task `hog` that runs since 100 ms, and one that waits since then. Lines at 100 ms and at 400 ms.
pub(super) const HELD_UP: &[u8] =
    b"{\"dropped\":[0,0,0],\"new_ops\":[],\"new_resources\":[],\"new_tasks\":[{\"id\":1099511627777,\"kind\":\"spawn\",\"loc\":[\"a.rs\",1,1],\"name\":\"hog\"},{\"id\":1099511627778,\"kind\":\"spawn\",\"loc\":[\"a.rs\",2,1],\"name\":\"conn-1\"}],\"now\":100000000,\"op_stats\":[],\"poll_counts\":[],\"resource_stats\":[],\"seq\":1,\"snapshot\":false,\"task_stats\":[{\"busy\":0,\"clones\":1,\"created\":100000000,\"dropped\":null,\"drops\":0,\"first_poll\":null,\"handles\":1,\"id\":1099511627777,\"last_ended\":null,\"last_started\":null,\"last_wake\":null,\"polling\":false,\"polls\":0,\"sched\":0,\"scheduled\":true,\"self_wakes\":0,\"wakes\":0},{\"busy\":0,\"clones\":1,\"created\":100000000,\"dropped\":null,\"drops\":0,\"first_poll\":100000000,\"handles\":1,\"id\":1099511627778,\"last_ended\":100000000,\"last_started\":100000000,\"last_wake\":null,\"polling\":false,\"polls\":1,\"sched\":0,\"scheduled\":false,\"self_wakes\":0,\"wakes\":0}],\"v\":1}
{\"dropped\":[0,0,0],\"new_ops\":[],\"new_resources\":[],\"new_tasks\":[],\"now\":400000000,\"op_stats\":[],\"poll_counts\":[],\"resource_stats\":[],\"seq\":2,\"snapshot\":false,\"task_stats\":[{\"busy\":0,\"clones\":1,\"created\":100000000,\"dropped\":null,\"drops\":0,\"first_poll\":100000000,\"handles\":1,\"id\":1099511627777,\"last_ended\":null,\"last_started\":100000000,\"last_wake\":null,\"polling\":true,\"polls\":1,\"sched\":0,\"scheduled\":false,\"self_wakes\":0,\"wakes\":0},{\"busy\":0,\"clones\":1,\"created\":100000000,\"dropped\":null,\"drops\":0,\"first_poll\":100000000,\"handles\":1,\"id\":1099511627778,\"last_ended\":100000000,\"last_started\":100000000,\"last_wake\":100000000,\"polling\":false,\"polls\":1,\"sched\":0,\"scheduled\":true,\"self_wakes\":0,\"wakes\":1}],\"v\":1}\n";

// The first of these without the second.
pub(super) const ALONE: &[u8] =
    b"{\"dropped\":[0,0,0],\"new_ops\":[],\"new_resources\":[],\"new_tasks\":[{\"id\":1099511627777,\"kind\":\"spawn\",\"loc\":[\"a.rs\",1,1],\"name\":\"hog\"}],\"now\":100000000,\"op_stats\":[],\"poll_counts\":[],\"resource_stats\":[],\"seq\":1,\"snapshot\":false,\"task_stats\":[{\"busy\":0,\"clones\":1,\"created\":100000000,\"dropped\":null,\"drops\":0,\"first_poll\":null,\"handles\":1,\"id\":1099511627777,\"last_ended\":null,\"last_started\":null,\"last_wake\":null,\"polling\":false,\"polls\":0,\"sched\":0,\"scheduled\":true,\"self_wakes\":0,\"wakes\":0}],\"v\":1}
{\"dropped\":[0,0,0],\"new_ops\":[],\"new_resources\":[],\"new_tasks\":[],\"now\":400000000,\"op_stats\":[],\"poll_counts\":[],\"resource_stats\":[],\"seq\":2,\"snapshot\":false,\"task_stats\":[{\"busy\":0,\"clones\":1,\"created\":100000000,\"dropped\":null,\"drops\":0,\"first_poll\":100000000,\"handles\":1,\"id\":1099511627777,\"last_ended\":null,\"last_started\":100000000,\"last_wake\":null,\"polling\":true,\"polls\":1,\"sched\":0,\"scheduled\":false,\"self_wakes\":0,\"wakes\":0}],\"v\":1}\n";

// The second without the first.
pub(super) const WAITS: &[u8] =
    b"{\"dropped\":[0,0,0],\"new_ops\":[],\"new_resources\":[],\"new_tasks\":[{\"id\":1099511627778,\"kind\":\"spawn\",\"loc\":[\"a.rs\",2,1],\"name\":\"conn-1\"}],\"now\":100000000,\"op_stats\":[],\"poll_counts\":[],\"resource_stats\":[],\"seq\":1,\"snapshot\":false,\"task_stats\":[{\"busy\":0,\"clones\":1,\"created\":100000000,\"dropped\":null,\"drops\":0,\"first_poll\":100000000,\"handles\":1,\"id\":1099511627778,\"last_ended\":100000000,\"last_started\":100000000,\"last_wake\":null,\"polling\":false,\"polls\":1,\"sched\":0,\"scheduled\":false,\"self_wakes\":0,\"wakes\":0}],\"v\":1}
{\"dropped\":[0,0,0],\"new_ops\":[],\"new_resources\":[],\"new_tasks\":[],\"now\":400000000,\"op_stats\":[],\"poll_counts\":[],\"resource_stats\":[],\"seq\":2,\"snapshot\":false,\"task_stats\":[{\"busy\":0,\"clones\":1,\"created\":100000000,\"dropped\":null,\"drops\":0,\"first_poll\":100000000,\"handles\":1,\"id\":1099511627778,\"last_ended\":100000000,\"last_started\":100000000,\"last_wake\":100000000,\"polling\":false,\"polls\":1,\"sched\":0,\"scheduled\":true,\"self_wakes\":0,\"wakes\":1}],\"v\":1}\n";

// Three tasks that nobody can wake: two of one place, idle since 100 and 60, and one idle since 90 of whose three wakes two were its own. At 300.
pub(super) const LOST: &[u8] =
    b"{\"dropped\":[0,0,0],\"new_ops\":[],\"new_resources\":[],\"new_tasks\":[{\"id\":1099511627777,\"kind\":\"spawn\",\"loc\":[\"a.rs\",2,1],\"name\":\"conn-1\"},{\"id\":1099511627778,\"kind\":\"spawn\",\"loc\":[\"a.rs\",2,1],\"name\":\"conn-27\"},{\"id\":1099511627779,\"kind\":\"spawn\",\"loc\":[\"a.rs\",1,1],\"name\":\"main\"}],\"now\":300,\"op_stats\":[],\"poll_counts\":[],\"resource_stats\":[],\"seq\":1,\"snapshot\":false,\"task_stats\":[{\"busy\":0,\"clones\":0,\"created\":10,\"dropped\":null,\"drops\":0,\"first_poll\":50,\"handles\":1,\"id\":1099511627777,\"last_ended\":100,\"last_started\":50,\"last_wake\":null,\"polling\":false,\"polls\":1,\"sched\":0,\"scheduled\":false,\"self_wakes\":0,\"wakes\":0},{\"busy\":0,\"clones\":0,\"created\":10,\"dropped\":null,\"drops\":0,\"first_poll\":50,\"handles\":1,\"id\":1099511627778,\"last_ended\":60,\"last_started\":50,\"last_wake\":null,\"polling\":false,\"polls\":1,\"sched\":0,\"scheduled\":false,\"self_wakes\":0,\"wakes\":0},{\"busy\":0,\"clones\":0,\"created\":10,\"dropped\":null,\"drops\":0,\"first_poll\":50,\"handles\":1,\"id\":1099511627779,\"last_ended\":90,\"last_started\":50,\"last_wake\":20,\"polling\":false,\"polls\":1,\"sched\":0,\"scheduled\":false,\"self_wakes\":2,\"wakes\":3}],\"v\":1}\n";

// A task that waits for its first poll since 500 ms, and a blocking one. At 2 s.
pub(super) const UNPOLLED: &[u8] =
    b"{\"dropped\":[0,0,0],\"new_ops\":[],\"new_resources\":[],\"new_tasks\":[{\"id\":1099511627777,\"kind\":\"spawn\",\"loc\":[\"a.rs\",1,1],\"name\":\"main\"},{\"id\":1099511627778,\"kind\":\"blocking\",\"loc\":[\"a.rs\",2,1],\"name\":\"resolve\"}],\"now\":2000000000,\"op_stats\":[],\"poll_counts\":[],\"resource_stats\":[],\"seq\":1,\"snapshot\":false,\"task_stats\":[{\"busy\":0,\"clones\":1,\"created\":500000000,\"dropped\":null,\"drops\":0,\"first_poll\":null,\"handles\":1,\"id\":1099511627777,\"last_ended\":null,\"last_started\":null,\"last_wake\":null,\"polling\":false,\"polls\":0,\"sched\":0,\"scheduled\":true,\"self_wakes\":0,\"wakes\":0},{\"busy\":0,\"clones\":1,\"created\":500000000,\"dropped\":null,\"drops\":0,\"first_poll\":null,\"handles\":1,\"id\":1099511627778,\"last_ended\":null,\"last_started\":null,\"last_wake\":null,\"polling\":false,\"polls\":0,\"sched\":0,\"scheduled\":true,\"self_wakes\":0,\"wakes\":0}],\"v\":1}\n";

// Whether the view of these bytes, by polls that are long from so many milliseconds on, comes to this answer.
pub(super) fn answers<R: Read, W: Write>(
    alloc: Global,
    reader: &mut R,
    writer: &mut W,
    view: View,
    long_ms: Option<u64>,
    answer: Result<u64, AppFault>,
) -> bool {
    let limits = limits_by(Lints::default(), long_ms);
    view_findings(alloc, reader, writer, view, limits, None, false) == answer
}

// Whether it does, and has written this text.
pub(super) fn finds(
    alloc: Global,
    stream: &'static [u8],
    view: View,
    long_ms: Option<u64>,
    count: u64,
    wanted: &str,
) -> bool {
    let mut reader = stream;
    let mut written = Vec::new(alloc);
    answers(alloc, &mut reader, &mut written, view, long_ms, Ok(count))
        && written.as_slice() == wanted.as_bytes()
}

// Whether the findings of a stream since a moment are as many, and have these lines.
pub(super) fn finds_since(
    alloc: Global,
    stream: &'static [u8],
    since: Option<u64>,
    count: u64,
    wanted: &str,
) -> bool {
    let mut reader = stream;
    let mut written = Vec::new(alloc);
    let limits = limits_by(Lints::default(), None);
    let found = view_findings(
        alloc,
        &mut reader,
        &mut written,
        View::Lint,
        limits,
        since,
        false,
    );
    found == Ok(count) && written.as_slice() == wanted.as_bytes()
}
