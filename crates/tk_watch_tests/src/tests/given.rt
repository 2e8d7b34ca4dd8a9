//! Streams, and what is asked for.

use std::alloc::Global;
use std::io::{Read, Write};
use tk_client::Lints;
use tk_fault::AppFault;
use tk_frame::{Column, Query, Typed};
use tk_screen::Canvas;
use tk_watch::{Pace, Screen, watch_stream};

// A task that woke itself twice and has no waker left, and one in its first poll since 150, at 1000000150.
pub(super) const ODD: &[u8] =
    b"{\"dropped\":[0,0,0],\"new_ops\":[],\"new_resources\":[],\"new_tasks\":[{\"id\":1099511627777,\"kind\":\"spawn\",\"loc\":[\"script\",1,1],\"name\":\"main\"},{\"id\":1099511627778,\"kind\":\"spawn\",\"loc\":[\"script\",2,1],\"name\":\"resize\"}],\"now\":1000000150,\"op_stats\":[],\"poll_counts\":[],\"resource_stats\":[],\"seq\":1,\"snapshot\":false,\"task_stats\":[{\"busy\":20,\"clones\":1,\"created\":100,\"dropped\":null,\"drops\":1,\"first_poll\":150,\"handles\":2,\"id\":1099511627777,\"last_ended\":370,\"last_started\":360,\"last_wake\":310,\"polling\":false,\"polls\":2,\"sched\":100,\"scheduled\":false,\"self_wakes\":2,\"wakes\":3},{\"busy\":0,\"clones\":0,\"created\":100,\"dropped\":null,\"drops\":0,\"first_poll\":150,\"handles\":1,\"id\":1099511627778,\"last_ended\":null,\"last_started\":150,\"last_wake\":null,\"polling\":true,\"polls\":1,\"sched\":50,\"scheduled\":false,\"self_wakes\":0,\"wakes\":0}],\"v\":1}\n";

// A task, a resource with two attributes and a poll operation, and an operation, at 50.
pub(super) const SEMAPHORE: &[u8] =
    b"{\"dropped\":[0,0,0],\"new_ops\":[{\"attrs\":[],\"id\":1099511627777,\"parent\":null,\"resource\":1099511627777,\"source\":\"Semaphore::acquire\"}],\"new_resources\":[{\"attrs\":[[\"permits\",null,\"u64\"],[\"closed\",null,\"bool\"]],\"id\":1099511627777,\"kind\":\"Sync\",\"loc\":[\"script\",2,1],\"parent\":null,\"type\":\"Semaphore\"}],\"new_tasks\":[{\"id\":1099511627777,\"kind\":\"spawn\",\"loc\":[\"script\",1,1],\"name\":\"worker\"}],\"now\":50,\"op_stats\":[{\"attrs\":[],\"busy\":5,\"created\":30,\"dropped\":null,\"first_poll\":40,\"handles\":1,\"id\":1099511627777,\"last_ended\":45,\"last_started\":40,\"polling\":false,\"polls\":1,\"task\":1099511627777}],\"poll_counts\":[[1099511627777,1,0]],\"resource_stats\":[{\"attrs\":[3,false],\"created\":20,\"dropped\":null,\"handles\":2,\"id\":1099511627777}],\"seq\":1,\"snapshot\":false,\"task_stats\":[{\"busy\":0,\"clones\":0,\"created\":10,\"dropped\":null,\"drops\":0,\"first_poll\":null,\"handles\":1,\"id\":1099511627777,\"last_ended\":null,\"last_started\":null,\"last_wake\":null,\"polling\":false,\"polls\":0,\"sched\":0,\"scheduled\":true,\"self_wakes\":0,\"wakes\":0}],\"v\":1}\n";

// A task is closed, stays, and is gone: three lines, at 6, 14 and 15.
pub(super) const FIRST: &[u8] =
    b"{\"dropped\":[0,0,0],\"gone_ops\":[],\"gone_resources\":[],\"gone_tasks\":[],\"new_ops\":[],\"new_resources\":[],\"new_tasks\":[{\"id\":1099511627777,\"kind\":\"spawn\",\"loc\":[\"script\",2,1],\"name\":\"a\"}],\"now\":6,\"op_stats\":[],\"poll_counts\":[],\"resource_stats\":[],\"seq\":1,\"snapshot\":false,\"task_stats\":[{\"busy\":0,\"clones\":0,\"created\":1,\"dropped\":5,\"drops\":0,\"first_poll\":null,\"handles\":1,\"id\":1099511627777,\"last_ended\":null,\"last_started\":null,\"last_wake\":null,\"polling\":false,\"polls\":0,\"sched\":0,\"scheduled\":false,\"self_wakes\":0,\"wakes\":0}],\"v\":2}\n";

pub(super) const SECOND: &[u8] =
    b"{\"dropped\":[0,0,0],\"gone_ops\":[],\"gone_resources\":[],\"gone_tasks\":[],\"new_ops\":[],\"new_resources\":[],\"new_tasks\":[],\"now\":14,\"op_stats\":[],\"poll_counts\":[],\"resource_stats\":[],\"seq\":2,\"snapshot\":false,\"task_stats\":[],\"v\":2}\n";

pub(super) const THIRD: &[u8] =
    b"{\"dropped\":[0,0,0],\"gone_ops\":[],\"gone_resources\":[],\"gone_tasks\":[1099511627777],\"new_ops\":[],\"new_resources\":[],\"new_tasks\":[],\"now\":15,\"op_stats\":[],\"poll_counts\":[],\"resource_stats\":[],\"seq\":3,\"snapshot\":false,\"task_stats\":[],\"v\":2}\n";

// A task that has closed, and leaves with the last line: these three lines.
pub(super) const CLOSED: &[u8] =
    b"{\"dropped\":[0,0,0],\"gone_ops\":[],\"gone_resources\":[],\"gone_tasks\":[],\"new_ops\":[],\"new_resources\":[],\"new_tasks\":[{\"id\":1099511627777,\"kind\":\"spawn\",\"loc\":[\"script\",2,1],\"name\":\"a\"}],\"now\":6,\"op_stats\":[],\"poll_counts\":[],\"resource_stats\":[],\"seq\":1,\"snapshot\":false,\"task_stats\":[{\"busy\":0,\"clones\":0,\"created\":1,\"dropped\":5,\"drops\":0,\"first_poll\":null,\"handles\":1,\"id\":1099511627777,\"last_ended\":null,\"last_started\":null,\"last_wake\":null,\"polling\":false,\"polls\":0,\"sched\":0,\"scheduled\":false,\"self_wakes\":0,\"wakes\":0}],\"v\":2}\n{\"dropped\":[0,0,0],\"gone_ops\":[],\"gone_resources\":[],\"gone_tasks\":[],\"new_ops\":[],\"new_resources\":[],\"new_tasks\":[],\"now\":14,\"op_stats\":[],\"poll_counts\":[],\"resource_stats\":[],\"seq\":2,\"snapshot\":false,\"task_stats\":[],\"v\":2}\n{\"dropped\":[0,0,0],\"gone_ops\":[],\"gone_resources\":[],\"gone_tasks\":[1099511627777],\"new_ops\":[],\"new_resources\":[],\"new_tasks\":[],\"now\":15,\"op_stats\":[],\"poll_counts\":[],\"resource_stats\":[],\"seq\":3,\"snapshot\":false,\"task_stats\":[],\"v\":2}\n";

// A task is made 199 ms after the first line, and waits: a line at 200000006.
pub(super) const LATER: &[u8] =
    b"{\"dropped\":[0,0,0],\"gone_ops\":[],\"gone_resources\":[],\"gone_tasks\":[],\"new_ops\":[],\"new_resources\":[],\"new_tasks\":[{\"id\":1099511627778,\"kind\":\"spawn\",\"loc\":[\"script\",3,1],\"name\":\"b\"}],\"now\":200000006,\"op_stats\":[],\"poll_counts\":[],\"resource_stats\":[],\"seq\":2,\"snapshot\":false,\"task_stats\":[{\"busy\":0,\"clones\":0,\"created\":199000006,\"dropped\":null,\"drops\":0,\"first_poll\":null,\"handles\":1,\"id\":1099511627778,\"last_ended\":null,\"last_started\":null,\"last_wake\":null,\"polling\":false,\"polls\":0,\"sched\":0,\"scheduled\":true,\"self_wakes\":0,\"wakes\":0}],\"v\":2}\n";

// The service was started again, and has one task, which waits: a line at 2.
pub(super) const AGAIN: &[u8] =
    b"{\"dropped\":[0,0,0],\"gone_ops\":[],\"gone_resources\":[],\"gone_tasks\":[],\"new_ops\":[],\"new_resources\":[],\"new_tasks\":[{\"id\":1099511627777,\"kind\":\"spawn\",\"loc\":[\"script\",2,1],\"name\":\"a\"}],\"now\":2,\"op_stats\":[],\"poll_counts\":[],\"resource_stats\":[],\"seq\":2,\"snapshot\":true,\"task_stats\":[{\"busy\":0,\"clones\":0,\"created\":1,\"dropped\":null,\"drops\":0,\"first_poll\":null,\"handles\":1,\"id\":1099511627777,\"last_ended\":null,\"last_started\":null,\"last_wake\":null,\"polling\":false,\"polls\":0,\"sched\":0,\"scheduled\":true,\"self_wakes\":0,\"wakes\":0}],\"v\":2}\n";

// Two tasks: the first ran 600 ms before the first line, at 1 s, and does nothing after it. The second runs 10 ms in ten polls up to the
// second line, at 6.5 s.
pub(super) const EARLY: &[u8] =
    b"{\"dropped\":[0,0,0],\"gone_ops\":[],\"gone_resources\":[],\"gone_tasks\":[],\"new_ops\":[],\"new_resources\":[],\"new_tasks\":[{\"id\":1099511627777,\"kind\":\"spawn\",\"loc\":[\"script\",2,1],\"name\":\"a\"},{\"id\":1099511627778,\"kind\":\"spawn\",\"loc\":[\"script\",3,1],\"name\":\"b\"}],\"now\":1000000000,\"op_stats\":[],\"poll_counts\":[],\"resource_stats\":[],\"seq\":1,\"snapshot\":false,\"task_stats\":[{\"busy\":600000000,\"clones\":1,\"created\":0,\"dropped\":null,\"drops\":0,\"first_poll\":1000,\"handles\":1,\"id\":1099511627777,\"last_ended\":991000000,\"last_started\":990000000,\"last_wake\":989000000,\"polling\":false,\"polls\":40,\"sched\":2000000,\"scheduled\":false,\"self_wakes\":1,\"wakes\":45},{\"busy\":100000000,\"clones\":1,\"created\":0,\"dropped\":null,\"drops\":0,\"first_poll\":1000,\"handles\":1,\"id\":1099511627778,\"last_ended\":996000000,\"last_started\":995000000,\"last_wake\":994900000,\"polling\":false,\"polls\":10,\"sched\":1000000,\"scheduled\":false,\"self_wakes\":0,\"wakes\":11}],\"v\":2}\n";

pub(super) const LATE: &[u8] =
    b"{\"dropped\":[0,0,0],\"gone_ops\":[],\"gone_resources\":[],\"gone_tasks\":[],\"new_ops\":[],\"new_resources\":[],\"new_tasks\":[],\"now\":6500000000,\"op_stats\":[],\"poll_counts\":[],\"resource_stats\":[],\"seq\":2,\"snapshot\":false,\"task_stats\":[{\"busy\":110000000,\"clones\":1,\"created\":0,\"dropped\":null,\"drops\":0,\"first_poll\":1000,\"handles\":1,\"id\":1099511627778,\"last_ended\":6401000000,\"last_started\":6400000000,\"last_wake\":6399700000,\"polling\":false,\"polls\":20,\"sched\":4000000,\"scheduled\":false,\"self_wakes\":0,\"wakes\":22}],\"v\":2}\n";

// A task of whose hundred polls 98 ran for less than 16 us, one for less than 4.2 ms, and one for 5 ms.
pub(super) const TIMED: &[u8] =
    b"{\"dropped\":[0,0,0],\"gone_ops\":[],\"gone_resources\":[],\"gone_tasks\":[],\"new_ops\":[],\"new_resources\":[],\"new_tasks\":[{\"id\":1099511627777,\"kind\":\"spawn\",\"loc\":[\"script\",2,1],\"name\":\"a\"}],\"now\":1000000000,\"op_stats\":[],\"poll_counts\":[],\"resource_stats\":[],\"seq\":1,\"snapshot\":false,\"task_stats\":[{\"busy\":600000000,\"clones\":1,\"created\":0,\"dropped\":null,\"drops\":0,\"first_poll\":1000,\"handles\":1,\"id\":1099511627777,\"last_ended\":991000000,\"last_started\":990000000,\"last_wake\":989000000,\"polling\":false,\"polls\":100,\"sched\":2000000,\"scheduled\":false,\"self_wakes\":1,\"wakes\":45}],\"task_times\":[{\"counts\":[[0,98],[8,1],[9,1]],\"id\":1099511627777,\"longest\":5000000}],\"v\":3}\n";

// The screens of these.
pub(super) const FIRST_SCREEN: &str =
    "now 6 ns  tasks 1: 0 polling, 0 scheduled, 0 idle, 1 closed  findings 0
no finding now; who holds up others can't be seen: the lines span 0 ns, and it takes at least 100.0 ms
  TASK STATE         BUSY    SCHED  POLLS  WAKES SELF LOCATION        NAME                 KIND
0 of 0 tasks

";

pub(super) const SECOND_SCREEN: &str =
    "now 14 ns  tasks 1: 0 polling, 0 scheduled, 0 idle, 1 closed  findings 0
waiting  __  at most 0
no finding now; who holds up others can't be seen: the lines span 8 ns, and it takes at least 100.0 ms
  TASK STATE         BUSY    SCHED  POLLS  WAKES SELF LOCATION        NAME                 KIND
0 of 0 tasks

";

pub(super) const THIRD_SCREEN: &str =
    "now 15 ns  tasks 0: 0 polling, 0 scheduled, 0 idle, 0 closed  findings 0
waiting  ___  at most 0
no finding now; who holds up others can't be seen: the lines span 9 ns, and it takes at least 100.0 ms
  TASK STATE         BUSY    SCHED  POLLS  WAKES SELF LOCATION        NAME                 KIND
0 of 0 tasks

";

pub(super) const LATER_SCREEN: &str =
    "now 200.0 ms  tasks 2: 0 polling, 1 scheduled, 0 idle, 1 closed  findings 0
waiting  _#  at most 1
no finding now or earlier: 1 task waits, the longest for 1.0 ms
  TASK STATE         BUSY    SCHED  POLLS  WAKES SELF LOCATION        NAME                 KIND
   1.2 scheduled     0 ns   1.0 ms      0      0    - script:3:1      b                    spawn
1 of 1 tasks

";

pub(super) const AGAIN_SCREEN: &str =
    "now 2 ns, started again 0 ns ago  tasks 1: 0 polling, 1 scheduled, 0 idle, 0 closed  findings 0
waiting  _#  at most 1
no finding now; who holds up others can't be seen: the lines span 0 ns, and it takes at least 100.0 ms
  TASK STATE         BUSY    SCHED  POLLS  WAKES SELF LOCATION        NAME                 KIND
   1.1 scheduled     0 ns     1 ns      0      0    - script:2:1      a                    spawn
1 of 1 tasks

";

// A pace by which a screen is due so often, and then never by itself. It counts how often it is waited for.
#[derive(Drop)]
pub(super) struct Few {
    pub due: u64,
    pub waits: u64,
    pub follows: u64,
}

impl Pace for Few {
    fn is_due(&mut self) -> bool {
        let due = self.due > 0;
        self.due = self.due.saturating_sub(1);
        due
    }

    fn wait(&mut self) {
        self.waits = self.waits.saturating_add(1);
    }

    fn mark(&mut self) {}

    fn goes_on(&mut self) -> bool {
        let goes_on = self.follows > 0;
        self.follows = self.follows.saturating_sub(1);
        goes_on
    }
}

// Whether a fault has this text.
pub(super) fn is_text_of(alloc: Global, fault: AppFault, text: &str) -> bool {
    match format!(in alloc; "{fault}") {
        Ok(told) => told.as_str() == text,
        Err(_) => false,
    }
}

// What a screen is asked for.
#[derive(Clone, Copy)]
pub(super) struct Asked {
    pub sort: Column,
    pub filter: &'static [u8],
    pub resources: bool,
    pub by_place: bool,
    pub canvas: Canvas,
}

// Screens as text, sorted by busy time.
pub(super) const PLAIN: Asked = Asked {
    sort: Column::Busy,
    filter: b"",
    resources: false,
    by_place: false,
    canvas: Canvas::Plain,
};

// Whether watching by ten rows and the default lints stops at the fault of this text, or where that is empty at none.
pub(super) fn comes_to<R: Read, W: Write>(
    alloc: Global,
    reader: &mut R,
    writer: &mut W,
    asked: Asked,
    pace: &mut Few,
    fault: &str,
) -> bool {
    let screen = Screen {
        query: Query {
            sort: asked.sort,
            rising: false,
            rows: Some(10),
            filter: asked.filter,
            typed: Typed::none(),
            resources: asked.resources,
            by_place: asked.by_place,
            recent: false,
        },
        lints: Lints::default(),
        canvas: asked.canvas,
    };
    match watch_stream(alloc, reader, writer, &screen, pace) {
        Ok(()) => fault.is_empty(),
        Err(stop) => is_text_of(alloc, stop, fault),
    }
}
