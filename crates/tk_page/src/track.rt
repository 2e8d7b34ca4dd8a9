//! The course of a task, which is caught up with the lines that don't tell of it.
ghost use Rattle.std.specs.Prelude.{◌≡◌, ◌≤◌, ◌<◌, drop, length, IfOk, OnOk};
ghost use Rattle.tk_page.specs.Kept as spec;
ghost use Rattle.tk_paper.specs.Courses.{with_items};

use crate::sample::Sample;
use std::alloc::{AllocError, Global};
use tk_core::TaskRow;
use tk_paper::Course;

/// The course of a task up to some line, its row as it was last told, and how many lines there were up to that one.
#[derive(Drop)]
pub(crate) struct Track {
    course: Course<Sample>,
    pub row: TaskRow,
    lines: usize,
}

// Takes what a row had come to at moments from a place on, up to the next that is kept, and answers where the others begin.
fn catch_up_some(
    course: &mut Course<Sample>,
    row: &TaskRow,
    moments: &[u64],
    at: usize,
) -> Result<usize, AllocError>
    requires { at < length moments.now }
    ensures further { IfOk result (λ next. at < next) }
    ensures within { IfOk result (λ next. next ≤ length moments.now) }
    ensures others { IfOk result (λ next. with_items course.new (spec.samples_at row.now (drop next moments.now))
        ≡ with_items course.old (spec.samples_at row.now (drop at moments.now))) }
{
    let next = at + course.pass(moments.len() - at);
    match moments.get(next) {
        Some(now) => {
            course.push(Sample::of(row, *now))?;
            Ok(next + 1)
        }
        None => Ok(next),
    }
}

// Takes what a row had come to at moments from a place on.
fn catch_up(
    course: &mut Course<Sample>,
    row: &TaskRow,
    moments: &[u64],
    from: usize,
) -> Result<(), AllocError>
    ensures { OnOk result (course.new ≡ with_items course.old (spec.samples_at row.now (drop from moments.now))) }
{
    let mut at = from;
    while at < moments.len() {
        at = catch_up_some(course, row, moments, at)?;
    }
    Ok(())
}

impl Track {
    // Of a task that comes after the lines at these moments.
    fn begun(alloc: Global, moments: &[u64], row: &TaskRow) -> Track
        ensures { result ≡ spec.begun moments.now row.now }
    {
        Track {
            course: Course::new(alloc),
            row: *row,
            lines: moments.len(),
        }
    }

    /// Takes the row that a task has after one line more, which tells of it.
    pub(crate) fn tell(
        &mut self,
        moments: &[u64],
        now: u64,
        row: &TaskRow,
    ) -> Result<(), AllocError>
        ensures { OnOk result (self.new ≡ spec.told_again moments.now now row.now self.old) }
    {
        let before = self.row;
        catch_up(&mut self.course, &before, moments, self.lines)?;
        self.course.push(Sample::of(row, now))?;
        self.row = *row;
        self.lines = moments.len() + 1;
        Ok(())
    }

    /// The track of a task that comes with a line, after those at these moments.
    pub(crate) fn begin(
        alloc: Global,
        moments: &[u64],
        now: u64,
        row: &TaskRow,
    ) -> Result<Track, AllocError>
        ensures { IfOk result (λ track. track ≡ spec.told_again moments.now now row.now (spec.begun moments.now row.now)) }
    {
        let mut track = Track::begun(alloc, moments, row);
        track.tell(moments, now, row)?;
        Ok(track)
    }

    /// The course with the lines since.
    pub(crate) fn caught_up(
        &self,
        alloc: Global,
        moments: &[u64],
    ) -> Result<Course<Sample>, AllocError>
        ensures { IfOk result (λ course. course ≡ spec.caught_up moments.now self.now) }
    {
        let mut course = self.course.copied(alloc)?;
        catch_up(&mut course, &self.row, moments, self.lines)?;
        Ok(course)
    }
}
