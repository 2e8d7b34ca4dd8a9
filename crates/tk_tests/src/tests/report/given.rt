//! Streams, their views, and what comes of them.

use std::alloc::Global;
use std::io::{Read, Write};
use tk_client::Lints;
use tk_report::{AppFault, View, view_stream};

// A task that was created at 100 and polled from 150 to 170: the stream of a script that publishes at 200.
pub(super) const LOST: &[u8] =
    b"{\"dropped\":[0,0,0],\"new_ops\":[],\"new_resources\":[],\"new_tasks\":[{\"id\":1099511627777,\"kind\":\"spawn\",\"loc\":[\"script\",1,1],\"name\":\"main\"}],\"now\":200,\"op_stats\":[],\"poll_counts\":[],\"resource_stats\":[],\"seq\":1,\"snapshot\":false,\"task_stats\":[{\"busy\":20,\"clones\":0,\"created\":100,\"dropped\":null,\"drops\":0,\"first_poll\":150,\"handles\":1,\"id\":1099511627777,\"last_ended\":170,\"last_started\":150,\"last_wake\":null,\"polling\":false,\"polls\":1,\"sched\":50,\"scheduled\":false,\"self_wakes\":0,\"wakes\":0}],\"v\":1}\n";

// Its report.
pub(super) const LOST_REPORT: &str = "now 200 dropped 0 0 0
task 1.1 spawn idle polls 1 wakes 0 self 0 clones 0 drops 0 busy 20 sched 50 name main
warn 1.1 lost-waker
";

// A task whose waits are counted, polled from 100 to 120, woken at 200, 260 and 290, and polled since 300.
pub(super) const WAITED: &[u8] =
    b"{\"dropped\":[0,0,0],\"new_ops\":[],\"new_resources\":[],\"new_tasks\":[{\"id\":1099511627777,\"kind\":\"spawn\",\"loc\":[\"script\",1,1],\"name\":\"main\"}],\"now\":300,\"op_stats\":[],\"poll_counts\":[],\"resource_stats\":[],\"seq\":1,\"snapshot\":false,\"task_stats\":[{\"busy\":20,\"clones\":0,\"created\":100,\"dropped\":null,\"drops\":0,\"first_poll\":100,\"handles\":1,\"id\":1099511627777,\"last_ended\":120,\"last_started\":300,\"last_wake\":290,\"polling\":true,\"polls\":2,\"sched\":[10,100,0],\"scheduled\":false,\"self_wakes\":0,\"wakes\":3}],\"v\":4}\n";

// Its report.
pub(super) const WAITED_REPORT: &str = "now 300 dropped 0 0 0
task 1.1 spawn polling polls 2 wakes 3 self 0 clones 0 drops 0 busy 20 sched 10 waited 100 name main
";

// A task that woke itself twice and has no waker left, and one in its first poll since 150, at 1000000150.
pub(super) const ODD: &[u8] =
    b"{\"dropped\":[0,0,0],\"new_ops\":[],\"new_resources\":[],\"new_tasks\":[{\"id\":1099511627777,\"kind\":\"spawn\",\"loc\":[\"script\",1,1],\"name\":\"main\"},{\"id\":1099511627778,\"kind\":\"spawn\",\"loc\":[\"script\",2,1],\"name\":\"resize\"}],\"now\":1000000150,\"op_stats\":[],\"poll_counts\":[],\"resource_stats\":[],\"seq\":1,\"snapshot\":false,\"task_stats\":[{\"busy\":20,\"clones\":1,\"created\":100,\"dropped\":null,\"drops\":1,\"first_poll\":150,\"handles\":2,\"id\":1099511627777,\"last_ended\":370,\"last_started\":360,\"last_wake\":310,\"polling\":false,\"polls\":2,\"sched\":100,\"scheduled\":false,\"self_wakes\":2,\"wakes\":3},{\"busy\":0,\"clones\":0,\"created\":100,\"dropped\":null,\"drops\":0,\"first_poll\":150,\"handles\":1,\"id\":1099511627778,\"last_ended\":null,\"last_started\":150,\"last_wake\":null,\"polling\":true,\"polls\":1,\"sched\":50,\"scheduled\":false,\"self_wakes\":0,\"wakes\":0}],\"v\":1}\n";

// Its warnings: each kind of them.
pub(super) const ODD_WARNINGS: &str = "warn 1.1 self-wakes 2 of 3
warn 1.1 lost-waker
warn 1.2 never-yielded 1000000000
";

// A task, a resource with two attributes and a poll operation, and an operation: the stream of a script that publishes at 50.
pub(super) const SEMAPHORE: &[u8] =
    b"{\"dropped\":[0,0,0],\"new_ops\":[{\"attrs\":[],\"id\":1099511627777,\"parent\":null,\"resource\":1099511627777,\"source\":\"Semaphore::acquire\"}],\"new_resources\":[{\"attrs\":[[\"permits\",null,\"u64\"],[\"closed\",null,\"bool\"]],\"id\":1099511627777,\"kind\":\"Sync\",\"loc\":[\"script\",2,1],\"parent\":null,\"type\":\"Semaphore\"}],\"new_tasks\":[{\"id\":1099511627777,\"kind\":\"spawn\",\"loc\":[\"script\",1,1],\"name\":\"worker\"}],\"now\":50,\"op_stats\":[{\"attrs\":[],\"busy\":5,\"created\":30,\"dropped\":null,\"first_poll\":40,\"handles\":1,\"id\":1099511627777,\"last_ended\":45,\"last_started\":40,\"polling\":false,\"polls\":1,\"task\":1099511627777}],\"poll_counts\":[[1099511627777,1,0]],\"resource_stats\":[{\"attrs\":[3,false],\"created\":20,\"dropped\":null,\"handles\":2,\"id\":1099511627777}],\"seq\":1,\"snapshot\":false,\"task_stats\":[{\"busy\":0,\"clones\":0,\"created\":10,\"dropped\":null,\"drops\":0,\"first_poll\":null,\"handles\":1,\"id\":1099511627777,\"last_ended\":null,\"last_started\":null,\"last_wake\":null,\"polling\":false,\"polls\":0,\"sched\":0,\"scheduled\":true,\"self_wakes\":0,\"wakes\":0}],\"v\":1}\n";

// Its report.
pub(super) const SEMAPHORE_REPORT: &str = "now 50 dropped 0 0 0
task 1.1 spawn scheduled polls 0 wakes 0 self 0 clones 0 drops 0 busy 0 sched 0 name worker
resource 1.1 live ready 1 pending 0 type Semaphore kind Sync
  permits = 3
  closed = false
op 1.1 idle polls 1 busy 5 task 1.1 resource 1.1 source Semaphore::acquire
";

// Signed attributes of a resource and of an operation, with units, and beside a number: the stream of one that went below 0.
pub(super) const SIGNED: &[u8] =
    b"{\"dropped\":[0,0,0],\"new_ops\":[{\"attrs\":[[\"least\",null,\"i64\"],[\"wants\",null,\"u64\"]],\"id\":1099511627777,\"parent\":null,\"resource\":1099511627777,\"source\":\"pop\"}],\"new_resources\":[{\"attrs\":[[\"lag\",null,\"i64\"],[\"drift\",\"ms\",\"i64\"],[\"none\",null,\"i64\"]],\"id\":1099511627777,\"kind\":\"Sync\",\"loc\":[\"script\",1,1],\"parent\":null,\"type\":\"S\"}],\"new_tasks\":[],\"now\":2,\"op_stats\":[{\"attrs\":[[-9223372036854775808],5],\"busy\":0,\"created\":1,\"dropped\":null,\"first_poll\":null,\"handles\":1,\"id\":1099511627777,\"last_ended\":null,\"last_started\":null,\"polling\":false,\"polls\":0,\"task\":null}],\"poll_counts\":[],\"resource_stats\":[{\"attrs\":[[-3],[9223372036854775807],[0]],\"created\":1,\"dropped\":null,\"handles\":2,\"id\":1099511627777}],\"seq\":1,\"snapshot\":false,\"task_stats\":[],\"v\":1}\n";

// Its report: a sign only below 0.
pub(super) const SIGNED_REPORT: &str = "now 2 dropped 0 0 0
resource 1.1 live ready 0 pending 0 type S kind Sync
  lag = -3
  drift = 9223372036854775807 ms
  none = 0
op 1.1 idle polls 0 busy 0 task - resource 1.1 source pop
  least = -9223372036854775808
  wants = 5
";

// A line whose signed attribute has a plain value.
pub(super) const UNSIGNED: &[u8] =
    b"{\"dropped\":[0,0,0],\"new_ops\":[],\"new_resources\":[{\"attrs\":[[\"lag\",null,\"i64\"]],\"id\":1099511627777,\"kind\":\"Sync\",\"loc\":[\"script\",1,1],\"parent\":null,\"type\":\"S\"}],\"new_tasks\":[],\"now\":2,\"op_stats\":[],\"poll_counts\":[],\"resource_stats\":[{\"attrs\":[3],\"created\":1,\"dropped\":null,\"handles\":2,\"id\":1099511627777}],\"seq\":1,\"snapshot\":false,\"task_stats\":[],\"v\":1}\n";

// A closed task is told of, stays, and is gone: the stream of a script that publishes at 6, at 14 and at 15.
pub(super) const GONE: &[u8] =
    b"{\"dropped\":[0,0,0],\"gone_ops\":[],\"gone_resources\":[],\"gone_tasks\":[],\"new_ops\":[],\"new_resources\":[],\"new_tasks\":[{\"id\":1099511627777,\"kind\":\"spawn\",\"loc\":[\"script\",2,1],\"name\":\"a\"}],\"now\":6,\"op_stats\":[],\"poll_counts\":[],\"resource_stats\":[],\"seq\":1,\"snapshot\":false,\"task_stats\":[{\"busy\":0,\"clones\":0,\"created\":1,\"dropped\":5,\"drops\":0,\"first_poll\":null,\"handles\":1,\"id\":1099511627777,\"last_ended\":null,\"last_started\":null,\"last_wake\":null,\"polling\":false,\"polls\":0,\"sched\":0,\"scheduled\":false,\"self_wakes\":0,\"wakes\":0}],\"v\":2}
{\"dropped\":[0,0,0],\"gone_ops\":[],\"gone_resources\":[],\"gone_tasks\":[],\"new_ops\":[],\"new_resources\":[],\"new_tasks\":[],\"now\":14,\"op_stats\":[],\"poll_counts\":[],\"resource_stats\":[],\"seq\":2,\"snapshot\":false,\"task_stats\":[],\"v\":2}
{\"dropped\":[0,0,0],\"gone_ops\":[],\"gone_resources\":[],\"gone_tasks\":[1099511627777],\"new_ops\":[],\"new_resources\":[],\"new_tasks\":[],\"now\":15,\"op_stats\":[],\"poll_counts\":[],\"resource_stats\":[],\"seq\":3,\"snapshot\":false,\"task_stats\":[],\"v\":2}\n";

// A first line that says that a task is gone.
pub(super) const GONE_AT_FIRST: &[u8] =
    b"{\"dropped\":[0,0,0],\"gone_ops\":[],\"gone_resources\":[],\"gone_tasks\":[1099511627777],\"new_ops\":[],\"new_resources\":[],\"new_tasks\":[],\"now\":6,\"op_stats\":[],\"poll_counts\":[],\"resource_stats\":[],\"seq\":1,\"snapshot\":false,\"task_stats\":[],\"v\":2}\n";

// Whether the fault has this text.
pub(super) fn is_text_of(alloc: Global, fault: AppFault, text: &str) -> bool {
    match format!(in alloc; "{fault}") {
        Ok(told) => told.as_str() == text,
        Err(_) => false,
    }
}

// Whether the view stops at the fault of this text, or where that is empty answers so many warnings.
pub(super) fn comes_to<R: Read, W: Write>(
    alloc: Global,
    reader: &mut R,
    writer: &mut W,
    view: View,
    warnings: u64,
    fault: &str,
) -> bool {
    match view_stream(alloc, reader, writer, view, &Lints::default()) {
        Ok(count) => fault.is_empty() && count == warnings,
        Err(stop) => is_text_of(alloc, stop, fault),
    }
}

// Whether it does, and has written this text.
pub(super) fn shows_from<R: Read>(
    alloc: Global,
    reader: &mut R,
    view: View,
    warnings: u64,
    fault: &str,
    wanted: &str,
) -> bool {
    let mut written = Vec::new(alloc);
    comes_to(alloc, reader, &mut written, view, warnings, fault)
        && written.as_slice() == wanted.as_bytes()
}
