//! A stream of many tasks.

use super::given::shows_from;
use std::alloc::{AllocError, Global};
use std::fmt::Write;
use std::test::Fail;
use tk_report::View;

// How many tasks there are.
const TASKS: u64 = 100_000;

// The id before that of the first task of recorder 1.
const BEFORE_FIRST: u64 = 1_099_511_627_776;

fn put_infos(out: &mut String) -> Result<(), AllocError> {
    for n in 1..=TASKS {
        let comma = if n == 1 { "" } else { "," };
        let id = BEFORE_FIRST + n;
        write!(
            out,
            "{comma}{{\"id\":{id},\"kind\":\"spawn\",\"loc\":[\"main.rs\",{n},1],\"name\":\"t{n}\"}}"
        )?;
    }
    Ok(())
}

// Each task was polled from 150 to 170, and waits.
fn put_rows(out: &mut String) -> Result<(), AllocError> {
    for n in 1..=TASKS {
        let comma = if n == 1 { "" } else { "," };
        let id = BEFORE_FIRST + n;
        write!(
            out,
            "{comma}{{\"busy\":20,\"clones\":0,\"created\":100,\"dropped\":null,\"drops\":0,\"first_poll\":150,\"handles\":1,\"id\":{id},\"last_ended\":170,\"last_started\":150,\"last_wake\":null,\"polling\":false,\"polls\":1,\"sched\":50,\"scheduled\":false,\"self_wakes\":0,\"wakes\":0}}"
        )?;
    }
    Ok(())
}

// A line that tells of all tasks.
fn stream_of_many(alloc: Global) -> Result<String, AllocError> {
    let mut out = String::new(alloc);
    out.push_str("{\"dropped\":[0,0,0],\"new_ops\":[],\"new_resources\":[],\"new_tasks\":[")?;
    put_infos(&mut out)?;
    out.push_str(
        "],\"now\":200,\"op_stats\":[],\"poll_counts\":[],\"resource_stats\":[],\"seq\":1,\"snapshot\":false,\"task_stats\":[",
    )?;
    put_rows(&mut out)?;
    out.push_str("],\"v\":1}\n")?;
    Ok(out)
}

fn put_task_lines(out: &mut String) -> Result<(), AllocError> {
    for n in 1..=TASKS {
        writeln!(
            out,
            "task 1.{n} spawn idle polls 1 wakes 0 self 0 clones 0 drops 0 busy 20 sched 50 name t{n}"
        )?;
    }
    Ok(())
}

fn put_warnings(out: &mut String) -> Result<(), AllocError> {
    for n in 1..=TASKS {
        writeln!(out, "warn 1.{n} lost-waker")?;
    }
    Ok(())
}

// The report of that line.
fn report_of_many(alloc: Global) -> Result<String, AllocError> {
    let mut out = String::new(alloc);
    out.push_str("now 200 dropped 0 0 0\n")?;
    put_task_lines(&mut out)?;
    put_warnings(&mut out)?;
    Ok(out)
}

fn shows(alloc: Global, stream: &str, wanted: &str) -> bool {
    let mut reader = stream.as_bytes();
    shows_from(alloc, &mut reader, View::Report, TASKS, "", wanted)
}

fn is_shown(alloc: Global, stream: &str) -> Result<bool, AllocError> {
    let wanted = report_of_many(alloc)?;
    Ok(shows(alloc, stream, wanted.as_str()))
}

fn shows_many(alloc: Global) -> Result<bool, AllocError> {
    let stream = stream_of_many(alloc)?;
    is_shown(alloc, stream.as_str())
}

#[test]
fn a_hundred_thousand_tasks_have_a_line_each_and_a_warning_each(
    rt: HostRuntime,
) -> Result<(), Fail> {
    assert!(rt; shows_many(rt.alloc())?);
    Ok(())
}
