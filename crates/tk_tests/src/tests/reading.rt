//! Tests of `tk_reading`: what watches the lines of a stream.
ghost use Rattle.std.specs.Prelude.{⊤};

use std::alloc::{AllocError, Global};
use tk_client::{Change, Client, Fault, Times};
use tk_fault::AppFault;
use tk_reading::{Both, MAX_LINE, Observes, Unwatched, read_stream};
use tk_stream::Tables;

// Two lines, at 5 and at 9, and a part of a third.
const LINES: &[u8] =
    b"{\"dropped\":[0,0,0],\"new_ops\":[],\"new_resources\":[],\"new_tasks\":[],\"now\":5,\"op_stats\":[],\"poll_counts\":[],\"resource_stats\":[],\"seq\":1,\"snapshot\":false,\"task_stats\":[],\"v\":1}\n{\"dropped\":[0,0,0],\"new_ops\":[],\"new_resources\":[],\"new_tasks\":[],\"now\":9,\"op_stats\":[],\"poll_counts\":[],\"resource_stats\":[],\"seq\":2,\"snapshot\":false,\"task_stats\":[],\"v\":1}\n{\"dropped\"";

// A line at 5, and one that is none.
const FAULTY: &[u8] =
    b"{\"dropped\":[0,0,0],\"new_ops\":[],\"new_resources\":[],\"new_tasks\":[],\"now\":5,\"op_stats\":[],\"poll_counts\":[],\"resource_stats\":[],\"seq\":1,\"snapshot\":false,\"task_stats\":[],\"v\":1}\n[\n";

// Keeps the moment of each line.
#[derive(Drop)]
struct Moments(Vec<u64>);

impl Observes for Moments {
    ghost saw = { λ from seen it. ⊤ };

    fn line(
        &mut self,
        tables: &Tables,
        _times: &Times,
        _change: &Change,
    ) -> Result<(), AllocError> {
        self.0.push(tables.now())?;
        Ok(())
    }
}

// Whether reading these bytes comes to the fault, if one is named, and two that watch see lines of these moments.
fn sees(alloc: Global, bytes: &'static [u8], fault: Option<AppFault>, moments: &[u64]) -> bool {
    let Ok(mut client) = Client::new(alloc, MAX_LINE) else {
        return false;
    };
    let mut both = Both {
        first: Moments(Vec::new(alloc)),
        second: Moments(Vec::new(alloc)),
    };
    let mut reader = bytes;
    let came = read_stream(&mut client, &mut both, &mut reader).err();
    came == fault && both.first.0.as_slice() == moments && both.second.0.as_slice() == moments
}

#[test]
fn both_of_two_see_each_line(rt: HostRuntime) {
    assert!(rt; sees(rt.alloc(), b"", None, &[]), "no line");
    assert!(rt;
        sees(rt.alloc(), LINES, None, &[5, 9]),
        "two lines and a part"
    );
}

#[test]
fn the_lines_before_a_fault_are_seen(rt: HostRuntime) {
    let fault = AppFault::Stream {
        lines: 1,
        fault: Fault::BadJson,
    };
    assert!(rt;
        sees(rt.alloc(), FAULTY, Some(fault), &[5]),
        "one line, and one that is none"
    );
}

// Whether a stream can be read that nothing watches.
fn is_read(alloc: Global) -> bool {
    let Ok(mut client) = Client::new(alloc, MAX_LINE) else {
        return false;
    };
    let mut reader = LINES;
    read_stream(&mut client, &mut Unwatched, &mut reader).is_ok() && client.tables().now() == 9
}

#[test]
fn nothing_need_watch(rt: HostRuntime) {
    assert!(rt; is_read(rt.alloc()));
}
