//! The courses of time of a stream's tasks, thinned while its lines are read.
ghost use Rattle.std.specs.Prelude.{◌≡◌, ◌≤◌, ◌+◌, ◌^◌, ◌++◌, ◌∷◌, [], List, length, IfOk, OnOk, slice_get, unwrap_or};
ghost use Rattle.tk_core.specs.Lists.{capped};
ghost use Rattle.tk_page.specs.Kept as spec;
ghost use Rattle.tk_paper.specs.Courses.{IsCourse};

use crate::sample::Sample;
use crate::tracks::Tracks;
use std::alloc::{AllocError, Global};
use tk_client::{Change, Times};
use tk_paper::Course;
use tk_reading::Observes;
use tk_stream::Tables;

/// The courses of the tasks of tables, and that of what all tasks gained in each line, those that left among them.
///
/// A line costs what it tells, and the tasks that run or wait.
#[derive(Drop)]
pub(crate) struct History {
    alloc: Global,
    // When each line was.
    moments: Vec<u64>,
    tracks: Tracks,
    sums: Course<Sample>,
    // The sums of the last line, which need not be kept.
    last: Sample,
    // How many tasks have left.
    gone: u64,
}

impl History {
    /// The courses of no lines.
    pub fn new(alloc: Global) -> History
        ensures { spec.Tells [] result }
    {
        History {
            alloc,
            moments: Vec::new(alloc),
            tracks: Tracks::new(alloc),
            sums: Course::new(alloc),
            last: Sample::none(0),
            gone: 0,
        }
    }

    // Ends a line in which all tasks came to this, and so many left.
    fn end_line(&mut self, now: u64, sum: Sample, left: usize) -> Result<(), AllocError>
        ensures moments { OnOk result (self.new.moments.items ≡ self.old.moments.items ++ now ∷ []) }
        ensures tracks { self.new.tracks ≡ self.old.tracks }
        ensures sums { (xs : List Sample) → length xs ≤ 2 ^ 62 → IsCourse xs self.old.sums
            → OnOk result (IsCourse (xs ++ sum ∷ []) self.new.sums) }
        ensures last { OnOk result (self.new.last ≡ sum) }
        ensures gone { OnOk result (self.new.gone ≡ capped (self.old.gone + left)) }
    {
        self.moments.push(now)?;
        self.sums.push(sum)?;
        self.last = sum;
        self.gone = self.gone.saturating_add(left as u64);
        Ok(())
    }

    /// The course of the task with an id. `AllocError`: there was no memory for it.
    pub fn of(&self, id: u64) -> Result<Course<Sample>, AllocError>
        ensures { IfOk result (λ course. course.kept ≡ spec.kept_of self.now id) }
    {
        self.tracks
            .course_of(self.alloc, self.moments.as_slice(), id)
    }

    /// The samples of all tasks' sums.
    pub fn sums(&self) -> &[Sample]
        ensures { result.now ≡ self.now.sums.kept }
    {
        self.sums.kept()
    }

    /// The sums of the last line.
    pub fn last(&self) -> Sample
        ensures { result ≡ self.now.last }
    {
        self.last
    }

    /// How many lines there were.
    pub fn lines(&self) -> u64
        ensures { result ≡ length self.now.moments.items }
    {
        self.moments.len() as u64
    }

    /// The moment of the first line.
    pub fn first(&self) -> u64
        ensures { result ≡ unwrap_or (slice_get self.now.moments.items 0) 0 }
    {
        match self.moments.as_slice().get(0) {
            Some(moment) => *moment,
            None => 0,
        }
    }

    /// How many tasks have left.
    pub fn gone(&self) -> u64
        ensures { result ≡ self.now.gone }
    {
        self.gone
    }
}

impl Observes for History {
    ghost use Rattle.tk_reading.specs.Shown.{tables_of};

    ghost saw = { λ from seen history. spec.Tells (tables_of seen) history };

    fn line(&mut self, tables: &Tables, _times: &Times, change: &Change) -> Result<(), AllocError> {
        let sum = self
            .tracks
            .total_after(self.alloc, tables, change, self.last)?;
        self.tracks
            .follow(self.alloc, tables, change, self.moments.as_slice())?;
        self.end_line(tables.now(), sum, change.left().len())?;
        Ok(())
    }
}
