//! For how long the tasks of each place held up others, while the lines of a stream are read.
ghost use Rattle.std.specs.Prelude.{◌≡◌, ◌≤◌, ◌+◌, [], ℕ, List, IfOk, OnOk, get_or, length};
ghost use Rattle.tk_odd.specs.Inner.{Follows};
ghost use Rattle.tk_page.specs.Charges as spec;
ghost use Rattle.tk_paper.specs.Courses.{CourseView, with_item};
ghost use Rattle.tk_stream.specs.Tables.{TablesView};

use std::alloc::{AllocError, Global};
use tk_client::{Change, Times};
use tk_odd::{Diagnosis, Held, Limits};
use tk_paper::Course;
use tk_reading::Observes;
use tk_series::Series;
use tk_stream::Tables;

/// What a place was charged with up to a line. Times are nanoseconds.
#[derive(Clone, Copy, Debug, PartialEq, Eq)]
pub(crate) struct Charge {
    /// The line's moment.
    pub now: u64,
    /// For how long others had waited for its tasks, at least.
    pub charged: u64,
}

/// What a stream's steps came to, and of each place the course of what it was charged with.
///
/// A line costs what its diagnosis costs, and a little for each place.
#[derive(Drop)]
pub(crate) struct Blame {
    alloc: Global,
    pub diagnosis: Diagnosis,
    // That of the place at each position.
    courses: Vec<Course<Charge>>,
    // That of a place which isn't there yet.
    none: Course<Charge>,
}

// What the place at a position is charged with: nothing where there is none.
fn charge_at(held: &Series<Held>, now: u64, i: usize) -> Charge
    ensures { result ≡ spec.charge_at now held.now i }
{
    let charged = match held.at(i) {
        Some((_, one)) => one.charged,
        None => 0,
    };
    Charge { now, charged }
}

// Lets there be a course for each of so many places.
fn grow(
    courses: &mut Vec<Course<Charge>>,
    alloc: Global,
    none: &Course<Charge>,
    len: usize,
) -> Result<(), AllocError>
    ensures { OnOk result (spec.Grown none.now len courses.old.items courses.new.items) }
{
    let mut count = courses.len();
    while count < len {
        let course = none.copied(alloc)?;
        courses.push(course)?;
        count += 1;
    }
    Ok(())
}

// The course of a place takes the next item.
fn push_at(courses: &mut Vec<Course<Charge>>, i: usize, charge: Charge) -> Result<(), AllocError>
    requires { i + 1 ≤ length courses.old.items }
    ensures long { length courses.new.items ≡ length courses.old.items }
    ensures here { (d : CourseView Charge) → OnOk result (get_or courses.new.items i d ≡ with_item (get_or courses.old.items i d) charge) }
    ensures others { (d : CourseView Charge) (j : ℕ) → (j ≡ i → ⊥) → get_or courses.new.items j d ≡ get_or courses.old.items j d }
{
    courses[i].push(charge)
}

// Each course takes what its place is charged with at a moment.
fn push_all(
    courses: &mut Vec<Course<Charge>>,
    held: &Series<Held>,
    now: u64,
) -> Result<(), AllocError>
    ensures { OnOk result (spec.Pushed now held.now courses.old.items courses.new.items) }
{
    for i in 0..courses.len() {
        push_at(courses, i, charge_at(held, now, i))?;
    }
    Ok(())
}

impl Blame {
    /// Of no lines yet. `AllocError`: there was no memory.
    pub fn new(alloc: Global, limits: Limits) -> Result<Blame, AllocError>
        ensures nothing { IfOk result (λ b. spec.Blames [] b) }
        ensures limits { IfOk result (λ b. b.diagnosis.limits ≡ limits) }
    {
        Ok(Blame {
            alloc,
            diagnosis: Diagnosis::new(alloc, limits)?,
            courses: Vec::new(alloc),
            none: Course::new(alloc),
        })
    }

    // Takes what each place is charged with after the last line, which was at this moment.
    fn note_charges(&mut self, now: u64) -> Result<(), AllocError>
        ensures same { self.new.diagnosis ≡ self.old.diagnosis }
        ensures courses { (shown : List TablesView) → Follows shown self.old.diagnosis → OnOk result ((i : ℕ)
            → spec.course_of self.new i ≡ with_item (spec.course_of self.old i) (spec.charge_at now (spec.places_of self.old.diagnosis.limits shown) i)) }
    {
        let held = self.diagnosis.held();
        grow(&mut self.courses, self.alloc, &self.none, held.len())?;
        push_all(&mut self.courses, held, now)?;
        self.none.push(Charge { now, charged: 0 })?;
        Ok(())
    }

    /// What is kept of the charges of the place at a position.
    pub fn kept(&self, i: usize) -> &[Charge]
        ensures { result.now ≡ (spec.course_of self.now i).kept }
    {
        match self.courses.as_slice().get(i) {
            Some(course) => course.kept(),
            None => self.none.kept(),
        }
    }
}

impl Observes for Blame {
    ghost use Rattle.std.specs.Prelude.{◌≡◌};
    ghost use Rattle.tk_reading.specs.Shown.{tables_of};

    ghost saw = { λ from seen b. spec.Blames (tables_of seen) b × (b.diagnosis.limits ≡ from.diagnosis.limits) };

    fn line(&mut self, tables: &Tables, _times: &Times, change: &Change) -> Result<(), AllocError> {
        self.diagnosis.note(tables, change)?;
        self.note_charges(tables.now())
    }
}
