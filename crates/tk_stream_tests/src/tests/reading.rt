//! Texts that are lines.

use super::given::{changed, error_of, on_line, writes};
use super::texts::{
    CHANGED, EMPTY, FIRST, FULL, GONE, SIGNED, TIMED, TWO, UNCHANGED, WAIT_TIMED, WAITED,
    WAITED_GONE, WAITED_TIMED,
};
use std::alloc::Global;
use tk_ids::{OpInfo, ResourceInfo, TaskInfo};
use tk_stream::Line;

// Texts of lines, written as a line writes itself.
const SAME: [&str; 13] = [
    EMPTY,
    FIRST,
    CHANGED,
    UNCHANGED,
    FULL,
    TWO,
    SIGNED,
    GONE,
    TIMED,
    WAITED,
    WAITED_GONE,
    WAITED_TIMED,
    WAIT_TIMED,
];

// The line without items in other texts: with white space, in another order, and with keys twice or often,
// lists among them, of which the last counts.
#[rattlefmt::skip]
const OTHERS: [&str; 6] = [
    " {\t\"dropped\" : [ 0 , 0 , 0 ] ,\n\"new_ops\":[ ],\"new_resources\":[],\"new_tasks\":[],\"now\":5,\"op_stats\":[],\"poll_counts\":[],\"resource_stats\":[],\"seq\":1,\"snapshot\":false,\"task_stats\":[],\"v\":1}\r\n",
    r#"{"v":1,"task_stats":[],"snapshot":false,"seq":1,"resource_stats":[],"poll_counts":[],"op_stats":[],"now":5,"new_tasks":[],"new_resources":[],"new_ops":[],"dropped":[0,0,0]}"#,
    r#"{"now":7,"dropped":[0,0,0],"new_ops":[],"new_resources":[],"new_tasks":[],"now":5,"op_stats":[],"poll_counts":[],"resource_stats":[],"seq":1,"snapshot":false,"task_stats":[],"v":1}"#,
    r#"{"now":null,"dropped":[0,0,0],"new_ops":[],"new_resources":[],"new_tasks":[],"now":5,"op_stats":[],"poll_counts":[],"resource_stats":[],"seq":0,"snapshot":false,"task_stats":[],"v":1,"seq":1}"#,
    r#"{"new_tasks":[{"id":1099511627777,"kind":"spawn","loc":["script",1,1],"name":"main"},0],"task_stats":null,"v":[[[[0]]]],"dropped":[0,0,0],"new_ops":[],"new_resources":[],"new_tasks":[],"now":5,"op_stats":[],"poll_counts":[],"resource_stats":[],"seq":1,"snapshot":false,"task_stats":[],"v":1}"#,
    r#"{"now":0,"now":1,"now":2,"now":3,"now":4,"now":5,"now":6,"now":7,"now":8,"now":9,"now":10,"now":11,"now":12,"now":13,"now":14,"now":15,"now":16,"now":17,"now":18,"now":19,"dropped":[0,0,0],"new_ops":[],"new_resources":[],"new_tasks":[],"now":5,"op_stats":[],"poll_counts":[],"resource_stats":[],"seq":1,"snapshot":false,"task_stats":[],"v":1}"#,
];

// Parts of the line with signed attributes, and other spellings of them: with white space, and a kind by its codes.
#[rattlefmt::skip]
const SIGNED_OTHERS: [(&str, &str); 4] = [
    ("[[-3],",    "[[ -3\n] , "),
    ("[0]]",      "[\t0 ]\r\n]"),
    ("[[7],",     " [ [7 ],"),
    ("\"i64\"]]", "\"\\u0069\\u0036\\u0034\"]]"),
];

// Parts of the line that says what is gone, and other spellings of them.
#[rattlefmt::skip]
const GONE_OTHERS: [(&str, &str); 3] = [
    ("[1099511627780]", "[ 1099511627780\n] "),
    ("\"v\":2",         "\"v\" : 2"),
    ("\"gone_ops\"",    "\"\\u0067one_ops\""),
];

// Parts of the line that tells histograms, and other spellings of them.
#[rattlefmt::skip]
const TIMED_OTHERS: [(&str, &str); 5] = [
    ("[4,120]",          "[ 4 , 120 ]"),
    ("\"counts\":[]",    "\"counts\" : [ ]"),
    ("\"v\":3",          "\"v\" :3"),
    ("\"task_times\"",   "\"task\\u005ftimes\""),
    ("\"counts\":[[0,18446744073709551615],[4,120],[13,1]],\"id\":1099511627777,\"longest\":2000000000",
     "\"longest\":2000000000,\"counts\":[[0,18446744073709551615],[4,120],[13,1]],\"id\":1099511627777"),
];

// Parts of the lines of version 4, and other spellings of them.
#[rattlefmt::skip]
const WAITED_OTHERS: [(&str, &str); 3] = [
    ("[5,18446744073709551615,72057594037927935]", "[ 5 ,\t18446744073709551615 , 72057594037927935 ]"),
    ("\"v\":4",                "\"v\" : 4"),
    ("\"sched\":7",            "\"sch\\u0065d\":7"),
];

// Parts of the line that tells histograms of waits, and other spellings of them.
#[rattlefmt::skip]
const WAIT_TIMED_OTHERS: [(&str, &str); 5] = [
    ("[3,5]",              "[ 3 , 5 ]"),
    ("\"waits\":[]",       "\"waits\" : [ ]"),
    ("\"longest_wait\":0", "\"longest\\u005fwait\" :0"),
    ("\"longest\":0,\"longest_wait\":0,\"waits\":[]", "\"waits\":[],\"longest_wait\":0,\"longest\":0"),
    ("\"waits\":[]",       "\"waits\":null,\"waits\":[]"),
];

// Whether the text is a line that writes itself so.
fn reads_as(alloc: Global, text: &str, wanted: &str) -> bool {
    on_line(
        alloc,
        text.as_bytes(),
        |line| writes(line, wanted.as_bytes()),
    )
}

fn all_read_as_written(alloc: Global, texts: &[&str]) -> bool {
    for text in texts {
        if !reads_as(alloc, text, text) {
            return false;
        }
    }
    true
}

fn all_read_as(alloc: Global, texts: &[&str], wanted: &str) -> bool {
    for text in texts {
        if !reads_as(alloc, text, wanted) {
            return false;
        }
    }
    true
}

// Whether the line with another spelling of a part is read as the line.
fn reads_respelled(alloc: Global, text: &str, part: &str, spelling: &str) -> bool {
    match changed(alloc, text, part, spelling) {
        Some(other) => reads_as(alloc, other.as_str(), text),
        None => false,
    }
}

fn all_read_respelled(alloc: Global, text: &str, spellings: &[(&str, &str)]) -> bool {
    for (part, spelling) in spellings {
        if !reads_respelled(alloc, text, part, spelling) {
            return false;
        }
    }
    true
}

#[test]
fn writes_what_it_read(rt: HostRuntime) {
    assert!(rt; all_read_as_written(rt.alloc(), SAME.as_slice()));
}

#[test]
fn reads_other_texts_of_a_line(rt: HostRuntime) {
    assert!(rt; all_read_as(rt.alloc(), OTHERS.as_slice(), EMPTY));
    assert!(rt; all_read_respelled(rt.alloc(), SIGNED, SIGNED_OTHERS.as_slice()));
    assert!(rt; all_read_respelled(rt.alloc(), GONE, GONE_OTHERS.as_slice()));
    assert!(rt; all_read_respelled(rt.alloc(), TIMED, TIMED_OTHERS.as_slice()));
    assert!(rt; all_read_respelled(rt.alloc(), WAIT_TIMED, WAIT_TIMED_OTHERS.as_slice()));
    for text in [WAITED, WAITED_GONE, WAITED_TIMED] {
        assert!(rt; all_read_respelled(rt.alloc(), text, WAITED_OTHERS.as_slice()));
    }
}

fn shows_numbers(line: &Line) -> bool {
    line.dropped().resources == 2
        && line.snapshot()
        && line.version() == 1
        && line.now() == u64::MAX
}

fn sched_of_task(line: &Line) -> Option<u64> {
    let (_, row) = line.task_stats().get(0)?;
    Some(row.sched)
}

fn busy_of_op(line: &Line) -> Option<u64> {
    let (_, row) = line.op_stats().get(0)?;
    Some(row.busy)
}

fn handles_of_resource(line: &Line) -> Option<u64> {
    let (_, row) = line.resource_stats().get(0)?;
    Some(row.handles)
}

fn counts_of_first(line: &Line) -> Option<(u64, u64)> {
    let (_, ready, pending) = line.poll_counts().get(0)?;
    Some((*ready, *pending))
}

// Each reader shows what stands at its key.
fn shows_each(line: &Line) -> bool {
    shows_numbers(line)
        && sched_of_task(line) == Some(14)
        && busy_of_op(line) == Some(5)
        && handles_of_resource(line) == Some(2)
        && counts_of_first(line) == Some((1, 0))
}

#[test]
fn shows_each_key(rt: HostRuntime) {
    assert!(rt; on_line(rt.alloc(), FULL.as_bytes(), |line| shows_each(line)));
}

fn are_gone(line: &Line, tasks: &[u64], resources: usize, op: u64) -> bool {
    for (i, id) in tasks.iter().enumerate() {
        match line.gone_tasks().get(i) {
            Some(task) => {
                if task.value() != *id {
                    return false;
                }
            }
            None => return false,
        }
    }
    match line.gone_ops() {
        [only] => {
            only.value() == op
                && line.gone_tasks().len() == tasks.len()
                && line.gone_resources().len() == resources
        }
        _ => false,
    }
}

fn says_nothing_of_what_is_gone(line: &Line) -> bool {
    line.version() == 1
        && line.gone_tasks().is_empty()
        && line.gone_resources().is_empty()
        && line.gone_ops().is_empty()
}

// What a line of version 2 says is gone, and that one of version 1 says nothing of it.
#[test]
fn shows_what_is_gone(rt: HostRuntime) {
    let tasks = [1099511627777, 1099511627779];
    let is_told = on_line(rt.alloc(), GONE.as_bytes(), |line| {
        line.version() == 2 && are_gone(line, &tasks, 0, 1099511627780)
    });
    assert!(rt; is_told);
    assert!(rt;
        on_line(
            rt.alloc(),
            FULL.as_bytes(),
            |line| says_nothing_of_what_is_gone(line)
        )
    );
}

// The count of a bucket in one of the histograms that a line tells.
fn count_of(line: &Line, place: usize, bucket: usize) -> Option<u64> {
    let (_, times) = line.task_times().get(place)?;
    times.counts.get(bucket).copied()
}

fn longest_of(line: &Line, place: usize) -> Option<u64> {
    let (_, times) = line.task_times().get(place)?;
    Some(times.longest)
}

fn percentile_of(line: &Line, place: usize, percent: u64) -> Option<usize> {
    let (_, times) = line.task_times().get(place)?;
    if percent == 0 || percent > 100 {
        return None;
    }
    times.percentile(percent)
}

fn shows_histograms(line: &Line) -> bool {
    line.version() == 3
        && line.task_times().len() == 3
        && count_of(line, 0, 0) == Some(u64::MAX)
        && count_of(line, 0, 1) == Some(0)
        && count_of(line, 0, 4) == Some(120)
        && longest_of(line, 0) == Some(2000000000)
        && percentile_of(line, 1, 50).is_none()
        && count_of(line, 2, 13) == Some(14)
        && percentile_of(line, 2, 50) == Some(9)
        && percentile_of(line, 2, 100) == Some(13)
}

// What a line of version 3 tells of poll times, and that one of version 2 tells none.
#[test]
fn shows_histograms_of_poll_times(rt: HostRuntime) {
    assert!(rt; on_line(rt.alloc(), TIMED.as_bytes(), |line| shows_histograms(line)));
    assert!(rt;
        on_line(
            rt.alloc(),
            GONE.as_bytes(),
            |line| line.task_times().is_empty()
        )
    );
}

fn has_waits(line: &Line, place: usize, longest: u64, bucket: usize, count: u64) -> Option<bool> {
    let (_, times) = line.task_times().get(place)?;
    let waits = times.waits?;
    let shown = waits.counts.get(bucket).copied()?;
    Some(waits.longest == longest && shown == count)
}

fn half_of_waits(line: &Line, place: usize) -> Option<usize> {
    let (_, times) = line.task_times().get(place)?;
    times.waits?.percentile(50)
}

fn shows_waits(line: &Line) -> bool {
    line.version() == 4
        && line.task_times().len() == 4
        && has_waits(line, 0, 80000000, 0, u64::MAX) == Some(true)
        && has_waits(line, 0, 80000000, 13, 1) == Some(true)
        && has_waits(line, 1, 0, 13, 0) == Some(true)
        && has_waits(line, 2, 0, 0, 0).is_none()
        && has_waits(line, 3, u64::MAX - 1, 0, 14) == Some(true)
        && count_of(line, 3, 0) == Some(1)
        && half_of_waits(line, 0) == Some(0)
        && half_of_waits(line, 1).is_none()
        && half_of_waits(line, 3) == Some(13)
}

// What a line of version 4 tells of waits beside polls, and that one of version 3 tells none.
#[test]
fn shows_histograms_of_waits(rt: HostRuntime) {
    assert!(rt; on_line(rt.alloc(), WAIT_TIMED.as_bytes(), |line| shows_waits(line)));
    assert!(rt;
        on_line(
            rt.alloc(),
            TIMED.as_bytes(),
            |line| has_waits(line, 0, 0, 0, 0).is_none()
        )
    );
}

fn copies_task(info: &TaskInfo) -> bool {
    match info.copy() {
        Ok(copy) => copy == *info && copy.name.as_str() == "a\"b\\c/ ~",
        Err(_) => false,
    }
}

fn copies_resource(info: &ResourceInfo) -> bool {
    match info.copy() {
        Ok(copy) => copy == *info && copy.concrete.as_str() == "Semaphore",
        Err(_) => false,
    }
}

fn copies_op(info: &OpInfo) -> bool {
    match info.copy() {
        Ok(copy) => copy == *info && copy.source.as_str() == "Semaphore::acquire",
        Err(_) => false,
    }
}

fn copies_each(line: &Line) -> Option<bool> {
    let task = copies_task(line.new_tasks().get(0)?);
    let resource = copies_resource(line.new_resources().get(0)?);
    let op = copies_op(line.new_ops().get(0)?);
    Some(task && resource && op)
}

// Each info's copy is equal to it, and shows its name.
#[test]
fn copies_infos(rt: HostRuntime) {
    assert!(rt;
        on_line(
            rt.alloc(),
            FULL.as_bytes(),
            |line| copies_each(line) == Some(true)
        )
    );
}

// A text of so many bytes between quotation marks.
fn quoted(alloc: Global, length: u32) -> Option<String> {
    let mut name = String::from_str(alloc, "\"").ok()?;
    for _i in 0..length {
        name.push('x').ok()?;
    }
    name.push('"').ok()?;
    Some(name)
}

// Whether there is a line with a name of so many bytes.
fn reads_name_of(alloc: Global, length: u32) -> Option<bool> {
    let name = quoted(alloc, length)?;
    let text = changed(alloc, FULL, "\"Sync\"", name.as_str())?;
    Some(error_of(alloc, text.as_bytes()).is_none())
}

#[test]
fn reads_names_of_up_to_1024_bytes(rt: HostRuntime) {
    assert!(rt; reads_name_of(rt.alloc(), 0) == Some(false));
    assert!(rt; reads_name_of(rt.alloc(), 1) == Some(true));
    assert!(rt; reads_name_of(rt.alloc(), 1024) == Some(true));
    assert!(rt; reads_name_of(rt.alloc(), 1025) == Some(false));
}

fn waits_at(line: &Line, place: usize) -> Option<(u64, Option<(u64, u64)>)> {
    let (_, row) = line.task_stats().get(place)?;
    let waits = row.waits.map(|waits| (waits.total, waits.so_far.nanos()));
    Some((row.sched, waits))
}

#[test]
fn shows_what_was_waited(rt: HostRuntime) {
    for text in [WAITED, WAITED_GONE, WAITED_TIMED] {
        assert!(rt;
            on_line(rt.alloc(), text.as_bytes(), |line| {
                line.version() == 4
                    && waits_at(line, 0) == Some((5, Some((u64::MAX, 72057594037927935))))
                    && waits_at(line, 1) == Some((7, None))
            })
        );
    }
}
