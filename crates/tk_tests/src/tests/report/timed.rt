//! What views show of poll times, where it is asked for.

use std::alloc::Global;
use tk_client::{Lints, TimeLimits};
use tk_report::{TimesOptions, View, view_stream_with};

// A task whose one poll took 6.5 ms, with its histogram, and one whose poll has run for 5 ms.
const TIMED: &[u8] =
    b"{\"dropped\":[0,0,0],\"gone_ops\":[],\"gone_resources\":[],\"gone_tasks\":[],\"new_ops\":[],\"new_resources\":[],\"new_tasks\":[{\"id\":1099511627777,\"kind\":\"spawn\",\"loc\":[\"a.rs\",1,1],\"name\":\"main\"},{\"id\":1099511627778,\"kind\":\"spawn\",\"loc\":[\"a.rs\",2,1],\"name\":\"parse\"}],\"now\":7000000,\"op_stats\":[],\"poll_counts\":[],\"resource_stats\":[],\"seq\":1,\"snapshot\":false,\"task_stats\":[{\"busy\":6500000,\"clones\":1,\"created\":100,\"dropped\":null,\"drops\":0,\"first_poll\":150,\"handles\":2,\"id\":1099511627777,\"last_ended\":6500150,\"last_started\":150,\"last_wake\":null,\"polling\":false,\"polls\":1,\"sched\":50,\"scheduled\":false,\"self_wakes\":0,\"wakes\":0},{\"busy\":0,\"clones\":0,\"created\":100,\"dropped\":null,\"drops\":0,\"first_poll\":2000000,\"handles\":1,\"id\":1099511627778,\"last_ended\":null,\"last_started\":2000000,\"last_wake\":null,\"polling\":true,\"polls\":1,\"sched\":0,\"scheduled\":false,\"self_wakes\":0,\"wakes\":0}],\"task_times\":[{\"counts\":[[9,1]],\"id\":1099511627777,\"longest\":6500000}],\"v\":3}\n";

// Its report; with histograms; with long polls too, and these alone.
const PLAIN: &str = "now 7000000 dropped 0 0 0
task 1.1 spawn idle polls 1 wakes 0 self 0 clones 1 drops 0 busy 6500000 sched 50 name main
task 1.2 spawn polling polls 1 wakes 0 self 0 clones 0 drops 0 busy 0 sched 0 name parse
";

const WITH_TIMES: &str = "now 7000000 dropped 0 0 0
task 1.1 spawn idle polls 1 wakes 0 self 0 clones 1 drops 0 busy 6500000 sched 50 name main
  polls 1 longest 6500000 p50 4194304 8388608 p90 4194304 8388608 p99 4194304 8388608
task 1.2 spawn polling polls 1 wakes 0 self 0 clones 0 drops 0 busy 0 sched 0 name parse
";

const WITH_BOTH: &str = "now 7000000 dropped 0 0 0
task 1.1 spawn idle polls 1 wakes 0 self 0 clones 1 drops 0 busy 6500000 sched 50 name main
  polls 1 longest 6500000 p50 4194304 8388608 p90 4194304 8388608 p99 4194304 8388608
task 1.2 spawn polling polls 1 wakes 0 self 0 clones 0 drops 0 busy 0 sched 0 name parse
warn 1.1 long-poll 6500000
warn 1.2 long-poll 5000000
";

const LONG: &str = "warn 1.1 long-poll 6500000
warn 1.2 long-poll 5000000
";

// From how many milliseconds on polls are long, and waits.
const NEITHER: TimeLimits = TimeLimits {
    poll_ms: None,
    wait_ms: None,
};

const POLLS_5: TimeLimits = TimeLimits {
    poll_ms: Some(5),
    wait_ms: None,
};

const POLLS_6: TimeLimits = TimeLimits {
    poll_ms: Some(6),
    wait_ms: None,
};

const POLLS_7: TimeLimits = TimeLimits {
    poll_ms: Some(7),
    wait_ms: None,
};

const WAITS_1: TimeLimits = TimeLimits {
    poll_ms: None,
    wait_ms: Some(1),
};

const WAITS_4: TimeLimits = TimeLimits {
    poll_ms: None,
    wait_ms: Some(4),
};

const WAITS_5: TimeLimits = TimeLimits {
    poll_ms: None,
    wait_ms: Some(5),
};

// A task that waited 50 ns for its one poll, and one that waits since 2,600,000 ns, though it was woken again at 5,000,000.
const WAITED: &[u8] =
    b"{\"dropped\":[0,0,0],\"gone_ops\":[],\"gone_resources\":[],\"gone_tasks\":[],\"new_ops\":[],\"new_resources\":[],\"new_tasks\":[{\"id\":1099511627777,\"kind\":\"spawn\",\"loc\":[\"a.rs\",1,1],\"name\":\"main\"},{\"id\":1099511627778,\"kind\":\"spawn\",\"loc\":[\"a.rs\",2,1],\"name\":\"parse\"}],\"now\":7000000,\"op_stats\":[],\"poll_counts\":[],\"resource_stats\":[],\"seq\":1,\"snapshot\":false,\"task_stats\":[{\"busy\":6500000,\"clones\":1,\"created\":100,\"dropped\":null,\"drops\":0,\"first_poll\":150,\"handles\":2,\"id\":1099511627777,\"last_ended\":6500150,\"last_started\":150,\"last_wake\":null,\"polling\":false,\"polls\":1,\"sched\":[50,50,0],\"scheduled\":false,\"self_wakes\":0,\"wakes\":0},{\"busy\":500000,\"clones\":1,\"created\":1000000,\"dropped\":null,\"drops\":0,\"first_poll\":2000000,\"handles\":2,\"id\":1099511627778,\"last_ended\":2500000,\"last_started\":2000000,\"last_wake\":5000000,\"polling\":false,\"polls\":1,\"sched\":[1000000,3400000,2400000],\"scheduled\":true,\"self_wakes\":0,\"wakes\":2}],\"task_times\":[{\"counts\":[[9,1]],\"id\":1099511627777,\"longest\":6500000,\"longest_wait\":50,\"waits\":[[0,1]]},{\"counts\":[[5,1]],\"id\":1099511627778,\"longest\":500000,\"longest_wait\":1000000,\"waits\":[[6,1]]}],\"v\":4}\n";

const WITH_WAITS: &str = "now 7000000 dropped 0 0 0
task 1.1 spawn idle polls 1 wakes 0 self 0 clones 1 drops 0 busy 6500000 sched 50 waited 50 name main
  polls 1 longest 6500000 p50 4194304 8388608 p90 4194304 8388608 p99 4194304 8388608
  waits 1 longest 50 p50 0 16384 p90 0 16384 p99 0 16384
task 1.2 spawn scheduled polls 1 wakes 2 self 0 clones 1 drops 0 busy 500000 sched 1000000 waited 3400000 name parse
  polls 1 longest 500000 p50 262144 524288 p90 262144 524288 p99 262144 524288
  waits 1 longest 1000000 p50 524288 1048576 p90 524288 1048576 p99 524288 1048576 since 2600000
";

// What is asked for, what is then written, and how many warnings there are.
#[rattlefmt::skip]
const VIEWS: [(&str, &[u8], View, TimesOptions, u64, &str); 10] = [
    ("nothing of poll times",     TIMED,  View::Report, TimesOptions { times: false, limits: NEITHER }, 0, PLAIN),
    ("histograms",                TIMED,  View::Report, TimesOptions { times: true,  limits: NEITHER }, 0, WITH_TIMES),
    ("histograms and long polls", TIMED,  View::Report, TimesOptions { times: true,  limits: POLLS_5 }, 2, WITH_BOTH),
    ("long polls alone",          TIMED,  View::Lint,   TimesOptions { times: false, limits: POLLS_5 }, 2, LONG),
    ("those of another limit",    TIMED,  View::Lint,   TimesOptions { times: false, limits: POLLS_6 }, 1, "warn 1.1 long-poll 6500000\n"),
    ("no poll is so long",        TIMED,  View::Lint,   TimesOptions { times: false, limits: POLLS_7 }, 0, ""),
    ("no wait is so long",        TIMED,  View::Lint,   TimesOptions { times: false, limits: WAITS_1 }, 0, ""),
    ("histograms of waits",       WAITED, View::Report, TimesOptions { times: true,  limits: NEITHER }, 0, WITH_WAITS),
    ("a wait that lasts",         WAITED, View::Lint,   TimesOptions { times: false, limits: WAITS_4 }, 1, "warn 1.2 long-wait 4400000\n"),
    ("it isn't so long",          WAITED, View::Lint,   TimesOptions { times: false, limits: WAITS_5 }, 0, ""),
];

fn shows(
    alloc: Global,
    stream: &[u8],
    view: View,
    options: &TimesOptions,
    warnings: u64,
    wanted: &str,
) -> bool {
    let mut reader = stream;
    let mut written = Vec::new(alloc);
    let lints = Lints::default();
    match view_stream_with(alloc, &mut reader, &mut written, view, &lints, options) {
        Ok(viewed) => viewed.warnings == warnings && written.as_slice() == wanted.as_bytes(),
        Err(_) => false,
    }
}

#[test]
fn views_show_of_poll_times_what_is_asked_for(rt: HostRuntime) {
    for (case, stream, view, options, warnings, wanted) in VIEWS {
        assert!(rt;
            shows(rt.alloc(), stream, view, &options, warnings, wanted),
            "{case}"
        );
    }
}
