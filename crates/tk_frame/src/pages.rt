//! Which of the tasks that are shown stand on a screen.
ghost use Rattle.std.specs.Prelude.{◌≡◌, ◌<◌, ◌+◌, min, OnOk, string_bytes};
ghost use Rattle.tk_screen.specs.Texts.{Puts};
ghost use Rattle.tk_frame.specs.Pages as spec;

use crate::course::course_height;
use crate::odd::Odd;
use crate::odd_lines::{any_now, most_of};
use crate::query::Query;
use std::alloc::AllocError;
use std::fmt::Write;
use tk_screen::Canvas;

/// A page of tasks: from which of those that are shown on, up to which, and how many of them there are.
#[derive(Clone, Copy, Debug, PartialEq, Eq)]
pub struct Page {
    pub from: usize,
    pub to: usize,
    pub all: usize,
}

// ---- how many rows fit

fn calm_height(odd: &Odd) -> usize
    ensures { result ≡ spec.calm_height odd.now.findings }
{
    if any_now(odd.findings()) { 0 } else { 1 }
}

fn list_height(most: usize, findings: usize) -> usize
    ensures { result ≡ spec.list_height most findings }
{
    if most < findings { most + 1 } else { findings }
}

// How many lines of a terminal are left for rows.
fn lines_left(lines: usize, most: usize, above: usize, odd: &Odd) -> usize
    ensures { result ≡ spec.lines_left lines most above odd.now }
{
    let course = course_height(odd.waits());
    let calm = calm_height(odd);
    let list = list_height(most, odd.count());
    lines
        .saturating_sub(4)
        .saturating_sub(above)
        .saturating_sub(course)
        .saturating_sub(calm)
        .saturating_sub(list)
}

fn share(resources: bool, left: usize) -> usize
    ensures { result ≡ spec.share resources left }
{
    if resources {
        left.saturating_sub(2) / 3
    } else {
        left
    }
}

fn at_most(rows: Option<usize>, n: usize) -> usize
    ensures { result ≡ spec.at_most rows n }
{
    match rows {
        Some(rows) => if rows < n { rows } else { n },
        None => n,
    }
}

fn text_rows(rows: Option<usize>) -> usize
    ensures { result ≡ spec.text_rows rows }
{
    match rows {
        Some(rows) => rows,
        None => 20,
    }
}

fn fitting_rows(canvas: Canvas, query: &Query<'_>, odd: &Odd, above: usize) -> usize
    ensures { result ≡ spec.fitting_rows canvas query.now odd.now above }
{
    match canvas {
        Canvas::Plain => text_rows(query.rows),
        Canvas::Terminal { size, colors: _ } => {
            let left = lines_left(size.lines, most_of(canvas), above, odd);
            at_most(query.rows, share(query.resources, left))
        }
    }
}

fn one_at_least(n: usize) -> usize
    ensures is { result ≡ spec.one_at_least n }
    ensures some { 0 < result }
{
    if n == 0 { 1 } else { n }
}

/// How many rows of a table fit on a screen, below so many lines above it.
pub(crate) fn table_rows(canvas: Canvas, query: &Query<'_>, odd: &Odd, above: usize) -> usize
    ensures is { result ≡ spec.table_rows canvas query.now odd.now above }
    ensures some { 0 < result }
{
    one_at_least(fitting_rows(canvas, query, odd, above))
}

// ---- pages

/// Of so many tasks, the one at a place, or the last where fewer are left.
pub(crate) fn chosen_of(chosen: usize, all: usize) -> usize
    ensures { result ≡ spec.chosen_of chosen all }
{
    let last = all.saturating_sub(1);
    if chosen < last { chosen } else { last }
}

fn page_start(rows: usize, place: usize) -> usize
    requires { 0 < rows }
    ensures { result ≡ spec.page_start rows place }
{
    place.saturating_sub(place % rows)
}

// Where so many rows from a place on end.
fn page_end(rows: usize, from: usize, all: usize) -> usize
    ensures { result ≡ min all (from + rows) }
{
    if from < all && rows < all - from {
        from + rows
    } else {
        all
    }
}

/// The page of so many rows on which the chosen one of all tasks stands.
pub(crate) fn page_of(rows: usize, chosen: usize, all: usize) -> Page
    requires { 0 < rows }
    ensures { result ≡ spec.page_of rows chosen all }
{
    let from = page_start(rows, chosen_of(chosen, all));
    Page {
        from,
        to: page_end(rows, from, all),
        all,
    }
}

fn put_from(out: &mut String, from: usize) -> Result<(), AllocError>
    ensures { OnOk result (Puts (string_bytes out.old) (string_bytes out.new) (spec.from_text from)) }
{
    if from == 0 {
        return Ok(());
    }
    write!(out, ", after the first {from}")
}

fn put_counts(out: &mut String, page: Page) -> Result<(), AllocError>
    ensures { OnOk result (Puts (string_bytes out.old) (string_bytes out.new) (spec.counts_text page)) }
{
    let some = page.to.saturating_sub(page.from);
    let all = page.all;
    write!(out, "{some} of {all} tasks")
}

/// Puts how many tasks a page has, and of how many.
pub(crate) fn put_page(out: &mut String, page: Page) -> Result<(), AllocError>
    ensures { OnOk result (Puts (string_bytes out.old) (string_bytes out.new) (spec.page_text page)) }
{
    put_counts(out, page)?;
    put_from(out, page.from)?;
    Ok(())
}

fn put_place_counts(out: &mut String, page: Page) -> Result<(), AllocError>
    ensures { OnOk result (Puts (string_bytes out.old) (string_bytes out.new) (spec.place_counts_text page)) }
{
    let some = page.to.saturating_sub(page.from);
    let all = page.all;
    write!(out, "{some} of {all} places")
}

/// Puts how many places a page has, and of how many.
pub(crate) fn put_places(out: &mut String, page: Page) -> Result<(), AllocError>
    ensures { OnOk result (Puts (string_bytes out.old) (string_bytes out.new) (spec.places_text page)) }
{
    put_place_counts(out, page)?;
    put_from(out, page.from)?;
    Ok(())
}
