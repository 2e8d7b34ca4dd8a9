//! What views of whole streams write.

use super::given::{
    GONE, GONE_AT_FIRST, LOST, LOST_REPORT, ODD, ODD_WARNINGS, SEMAPHORE, SEMAPHORE_REPORT, SIGNED,
    SIGNED_REPORT, UNSIGNED, WAITED, WAITED_REPORT, is_text_of, shows_from,
};
use std::alloc::Global;
use tk_client::Fault;
use tk_report::{AppFault, View};

// A line without items, by its number.
const FIRST: &[u8] =
    b"{\"dropped\":[0,0,0],\"new_ops\":[],\"new_resources\":[],\"new_tasks\":[],\"now\":5,\"op_stats\":[],\"poll_counts\":[],\"resource_stats\":[],\"seq\":1,\"snapshot\":false,\"task_stats\":[],\"v\":1}\n";

// Lines 1, 2 and 4.
const GAP: &[u8] =
    b"{\"dropped\":[0,0,0],\"new_ops\":[],\"new_resources\":[],\"new_tasks\":[],\"now\":5,\"op_stats\":[],\"poll_counts\":[],\"resource_stats\":[],\"seq\":1,\"snapshot\":false,\"task_stats\":[],\"v\":1}
{\"dropped\":[0,0,0],\"new_ops\":[],\"new_resources\":[],\"new_tasks\":[],\"now\":5,\"op_stats\":[],\"poll_counts\":[],\"resource_stats\":[],\"seq\":2,\"snapshot\":false,\"task_stats\":[],\"v\":1}
{\"dropped\":[0,0,0],\"new_ops\":[],\"new_resources\":[],\"new_tasks\":[],\"now\":5,\"op_stats\":[],\"poll_counts\":[],\"resource_stats\":[],\"seq\":4,\"snapshot\":false,\"task_stats\":[],\"v\":1}\n";

// What the view of a stream writes and how many warnings it has, or the fault that it stops at.
#[rattlefmt::skip]
const VIEWS: [(&str, &[u8], View, u64, &str, &str); 15] = [
    ("a task whose waker is lost",            LOST,                 View::Report, 1, "", LOST_REPORT),
    ("its warnings alone",                    LOST,                 View::Lint,   1, "", "warn 1.1 lost-waker\n"),
    ("each kind of warning",                  ODD,                  View::Lint,   3, "", ODD_WARNINGS),
    ("a task whose waits are counted",        WAITED,               View::Report, 0, "", WAITED_REPORT),
    ("one item of each kind",                 SEMAPHORE,            View::Report, 0, "", SEMAPHORE_REPORT),
    ("no warning of them",                    SEMAPHORE,            View::Lint,   0, "", ""),
    ("signed attributes",                     SIGNED,               View::Report, 0, "", SIGNED_REPORT),
    ("a value of another kind",               UNSIGNED,             View::Report, 0, "stream after 0 lines: Misfit", ""),
    ("a task that is gone",                   GONE,                 View::Report, 0, "", "now 15 dropped 0 0 0\n"),
    ("a task that is gone and never was",     GONE_AT_FIRST,        View::Report, 0, "stream after 0 lines: UnknownId", ""),
    ("an empty stream",                       b"",                  View::Report, 0, "", "now 0 dropped 0 0 0\n"),
    ("no warning of it",                      b"",                  View::Lint,   0, "", ""),
    ("a last line without its end is ignored", b"{\"dropped\":[0,", View::Report, 0, "", "now 0 dropped 0 0 0\n"),
    ("a gap, with its numbers",               GAP,                  View::Report, 0, "stream after 2 lines: Gap expected 3 found 4", ""),
    ("a line that is no JSON",                b"{\n",               View::Lint,   0, "stream after 0 lines: BadJson", ""),
];

fn shows(
    alloc: Global,
    stream: &'static [u8],
    view: View,
    warnings: u64,
    fault: &str,
    wanted: &str,
) -> bool {
    let mut reader = stream;
    shows_from(alloc, &mut reader, view, warnings, fault, wanted)
}

#[test]
fn views_write_what_tables_show(rt: HostRuntime) {
    for (case, stream, view, warnings, fault, wanted) in VIEWS {
        assert!(rt;
            shows(rt.alloc(), stream, view, warnings, fault, wanted),
            "{case}"
        );
    }
}

// The number and the text of each fault.
#[rattlefmt::skip]
const CODES: [(AppFault, u32, &str); 6] = [
    (AppFault::Memory,                                                                      1, "Memory"),
    (AppFault::Read,                                                                        2, "Read"),
    (AppFault::Write,                                                                       3, "Write"),
    (AppFault::Script { line: 3, name: "NotPolling" },                                      4, "line 3: NotPolling"),
    (AppFault::Stream { lines: 0, fault: Fault::TooLong },                                  5, "stream after 0 lines: TooLong"),
    (AppFault::Stream { lines: 2, fault: Fault::Gap { expected: 3, found: 4 } },            5, "stream after 2 lines: Gap expected 3 found 4"),
];

fn has(alloc: Global, fault: AppFault, code: u32, text: &str) -> bool {
    fault.code() == code && is_text_of(alloc, fault, text)
}

#[test]
fn each_fault_has_its_number_and_text(rt: HostRuntime) {
    for (fault, code, text) in CODES {
        assert!(rt; has(rt.alloc(), fault, code, text), "{text}");
    }
}

#[test]
fn a_stream_of_one_line_without_items_shows_its_moment(rt: HostRuntime) {
    assert!(rt;
        shows(
            rt.alloc(),
            FIRST,
            View::Report,
            0,
            "",
            "now 5 dropped 0 0 0\n"
        )
    );
}
