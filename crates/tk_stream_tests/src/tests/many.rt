//! A line of many tasks.

use super::given::{on_line, on_made, on_new, put_task, writes};
use super::texts::FIRST;
use std::alloc::Global;
use tk_ids::{TaskId, TaskInfo};
use tk_stream::{Line, Tables};

fn copy_with_id(info: &TaskInfo, id: TaskId) -> Option<TaskInfo> {
    let copy = info.copy().ok()?;
    Some(TaskInfo { id, ..copy })
}

// A task like the line's first, with an id that is so much higher.
fn put_like(tables: &mut Tables, line: &Line, i: u32) -> Option<()> {
    let (id, row) = line.task_stats().get(0)?;
    let id = TaskId::from_value(id.value().checked_add(u64::from(i))?).ok()?;
    let info = copy_with_id(line.new_tasks().get(0)?, id)?;
    put_task(tables, info, *row)
}

fn put_many(tables: &mut Tables, line: &Line, count: u32) -> bool {
    for i in 0..count {
        if put_like(tables, line, i).is_none() {
            return false;
        }
    }
    true
}

// Whether the text is a line of so many tasks that writes itself so.
fn reads_back(alloc: Global, text: &[u8], count: u32) -> bool {
    on_line(alloc, text, |line| {
        line.new_tasks().len() == count as usize && writes(line, text)
    })
}

fn text_reads_back(alloc: Global, line: &Line, count: u32) -> bool {
    match line.write() {
        Ok(text) => reads_back(alloc, text.as_slice(), count),
        Err(_) => false,
    }
}

fn line_reads_back(alloc: Global, old: &Tables, new: &Tables, line: &Line, count: u32) -> bool {
    on_made(
        Line::between(alloc, old, new, line.seq(), false),
        |line| text_reads_back(alloc, line, count),
    )
}

fn tables_read_back(alloc: Global, new: &Tables, line: &Line, count: u32) -> bool {
    on_new(
        alloc,
        |empty| line_reads_back(alloc, empty, new, line, count),
    )
}

fn many_read_back(alloc: Global, line: &Line, count: u32) -> bool {
    on_new(alloc, |tables| {
        put_many(tables, line, count) && tables_read_back(alloc, tables, line, count)
    })
}

#[test]
fn writes_and_reads_ten_thousand_tasks(rt: HostRuntime) {
    let alloc = rt.alloc();
    assert!(rt;
        on_line(
            alloc,
            FIRST.as_bytes(),
            |line| many_read_back(alloc, line, 10_000)
        )
    );
}
