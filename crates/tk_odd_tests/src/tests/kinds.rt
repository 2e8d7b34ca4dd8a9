//! Which kinds of findings help tells of.

use std::alloc::Global;
use tk_found::kinds_text;

const KINDS: &str = "  holds-up: split its polls, or move the work to a blocking task
  stands-still: split its polls, or move the work to a blocking task: timers and sockets stood still, too
  nobody-ran: look for what blocks a thread outside of tasks, or for a busy machine
  overloaded: less work, or more threads: no single task is to blame
  long-poll: split its polls, or move the work to a blocking task
  never-yielded: it blocks, or loops without an await: move it to a blocking task
  lost-waker: keep a waker of it until the wake
  passed-over: look whether the executor has lost it, keeps it behind a blocked thread, or always takes the latest first
  never-polled: look at what holds the threads
  self-wakes: let an event or a timer wake it
";

fn tells_of_all(alloc: Global) -> bool {
    match kinds_text(alloc) {
        Ok(text) => text.as_str() == KINDS,
        Err(_) => false,
    }
}

#[test]
fn help_tells_of_each_kind(rt: HostRuntime) {
    assert!(rt; tells_of_all(rt.alloc()));
}
