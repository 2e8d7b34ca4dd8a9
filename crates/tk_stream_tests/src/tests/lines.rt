//! Lines between tables, by their whole texts.
ghost use Rattle.std.specs.Prelude.{◌≡◌};
ghost use Rattle.tk_stream.specs.Tables.{empty_tables};

use super::given::{fill, leads, on_line, on_made, on_new, put_counts, writes};
use super::texts::{CHANGED, FIRST, FULL, UNCHANGED};
use std::alloc::Global;
use tk_stream::{Line, Tables};

// Whether the line from empty tables to these, with the line's number, writes itself so.
fn leads_from_empty(alloc: Global, new: &Tables, line: &Line, text: &str) -> bool {
    on_new(
        alloc,
        |empty| leads(alloc, empty, new, line, text.as_bytes()),
    )
}

// Whether the line from empty tables to a copy of these writes itself so.
fn copy_leads_from_empty(alloc: Global, new: &Tables, line: &Line, text: &str) -> bool {
    on_made(new.copy(), |copy| leads_from_empty(alloc, copy, line, text))
}

fn leads_to_filled(alloc: Global, line: &Line, text: &str) -> bool {
    on_new(alloc, |tables| {
        fill(tables, line).is_some()
            && leads_from_empty(alloc, tables, line, text)
            && copy_leads_from_empty(alloc, tables, line, text)
    })
}

// Tables that are filled from a line, and their copy, have that line between them and empty ones.
#[test]
fn tells_all_of_what_is_new(rt: HostRuntime) {
    let alloc = rt.alloc();
    assert!(rt;
        on_line(
            alloc,
            FIRST.as_bytes(),
            |line| leads_to_filled(alloc, line, FIRST)
        )
    );
}

fn is_snapshot_over(alloc: Global, none: &Tables, new: &Tables, line: &Line, text: &str) -> bool
    requires { none.now ≡ empty_tables }
{
    on_made(
        Line::between(alloc, none, new, line.seq(), true),
        |line| writes(line, text.as_bytes()),
    )
}

fn is_snapshot(alloc: Global, new: &Tables, line: &Line, text: &str) -> bool {
    match Tables::new(alloc) {
        Ok(none) => is_snapshot_over(alloc, &none, new, line, text),
        Err(_) => false,
    }
}

fn is_snapshot_of_filled(alloc: Global, line: &Line, text: &str) -> bool {
    on_new(alloc, |tables| {
        fill(tables, line).is_some() && is_snapshot(alloc, tables, line, text)
    })
}

#[test]
fn tells_a_snapshot(rt: HostRuntime) {
    let alloc = rt.alloc();
    assert!(rt;
        on_line(
            alloc,
            FULL.as_bytes(),
            |line| is_snapshot_of_filled(alloc, line, FULL)
        )
    );
}

fn set_task(tables: &mut Tables, line: &Line) {
    if let Some((_, row)) = line.task_stats().get(0) {
        if tables.task_count() > 0 {
            tables.set_task(0, *row);
        }
    }
}

fn set_resource(tables: &mut Tables, line: &Line) {
    if let Some((_, row)) = line.resource_stats().get(0) {
        if tables.resource_count() > 0 {
            tables.set_resource(0, *row);
        }
    }
}

fn set_op(tables: &mut Tables, line: &Line) {
    if let Some((_, row)) = line.op_stats().get(0) {
        if tables.op_count() > 0 {
            tables.set_op(0, *row);
        }
    }
}

// Replaces the first row of each kind, the counts and the totals by the line's.
fn change(tables: &mut Tables, line: &Line) -> bool {
    set_task(tables, line);
    set_resource(tables, line);
    set_op(tables, line);
    tables.set_totals(line.dropped(), line.now());
    put_counts(tables, line).is_some()
}

fn leads_to_changed(alloc: Global, old: &Tables, line: &Line, text: &str) -> bool {
    on_made(old.copy(), |new| {
        change(new, line) && leads(alloc, old, new, line, text.as_bytes())
    })
}

fn leads_from_filled(alloc: Global, first: &Line, line: &Line, text: &str) -> bool {
    on_new(alloc, |old| {
        fill(old, first).is_some() && leads_to_changed(alloc, old, line, text)
    })
}

fn leads_from_first(alloc: Global, line: &Line, text: &str) -> bool {
    on_line(
        alloc,
        FIRST.as_bytes(),
        |first| leads_from_filled(alloc, first, line, text),
    )
}

#[test]
fn tells_rows_and_counts_that_differ(rt: HostRuntime) {
    let alloc = rt.alloc();
    assert!(rt;
        on_line(
            alloc,
            CHANGED.as_bytes(),
            |line| leads_from_first(alloc, line, CHANGED)
        )
    );
}

#[test]
fn tells_nothing_where_nothing_differs(rt: HostRuntime) {
    let alloc = rt.alloc();
    assert!(rt;
        on_line(
            alloc,
            UNCHANGED.as_bytes(),
            |line| leads_from_first(alloc, line, UNCHANGED)
        )
    );
}
