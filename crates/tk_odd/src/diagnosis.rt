//! What a stream's steps came to, while its lines are read.
ghost use Rattle.std.specs.Prelude.{◌≡◌, ◌≤◌, ◌^◌, ◌+◌, ◌-◌, ◌++◌, ◌∷◌, [], List, IfOk, OnOk, length};
ghost use Rattle.tk_core.specs.Lists.{capped};
ghost use Rattle.tk_odd.specs.Charging as charging;
ghost use Rattle.tk_odd.specs.Diagnosis as spec;
ghost use Rattle.tk_odd.specs.Inner as inner;
ghost use Rattle.tk_odd.specs.Sharing as sharing;
ghost use Rattle.tk_client.specs.Changes.{Leads};
ghost use Rattle.tk_odd.specs.Keeping.{Keeps};
ghost use Rattle.tk_reading.specs.Shown.{last_shown};
ghost use Rattle.tk_stream.specs.Tables.{TablesView, empty_tables};

use crate::apart::Stretch;
use crate::free::Free;
use crate::held::Held;
use crate::limits::Limits;
use crate::members::{Members, add_line, moved_of};
use crate::places::{Places, Step, Totals, totals_of};
use crate::rows::Rows;
use crate::shares::Shares;
use crate::sharing::{all_charged, all_held, all_waited};
use crate::step::{are_left_alone, free_after, is_overloaded, passed_over};
use crate::victims::add_pairs;
use crate::waited::Waited;
use crate::waiters::Waiters;
use indexmap::IndexMap;
use std::alloc::{AllocError, Global};
use std::mem;
use tk_client::Change;
use tk_series::Series;
use tk_stream::Tables;

/// What a stream's steps came to, as far as its lines were read.
#[derive(Drop)]
pub struct Diagnosis {
    alloc: Global,
    pub(crate) limits: Limits,
    lines: u64,
    // Who waited at the begin of the step that isn't over, and the rows of the last line's tasks.
    pub(crate) first: Waiters,
    rows: Rows,
    // Who ran or waited in that step.
    members: Members,
    pub(crate) places: Places,
    pub(crate) pairs: Series<Waited>,
    free: Free,
    shares: Shares,
    pub(crate) overloaded: Option<Stretch>,
    pub(crate) alone: Option<Stretch>,
    // Who was passed over in the last step.
    pub(crate) passed: Vec<u64>,
}

// What was waited in a step, shared out: what is charged, what was waited in the queue, and what is nobody's.
fn split(step: &Step<'_>, totals: Totals) -> (u128, u128, u128)
    requires few { length step.now.moved.now ≤ 2 ^ 31 }
    requires ran { totals.ran ≡ sharing.all_ran step.now.moved.now }
    requires parts { totals.parts ≡ sharing.all_parts step.now.moved.now }
    requires most { totals.parts ≤ 2 ^ 63 }
    ensures charged { result.0 ≡ charging.all_charged step.now.long (step.now.to - step.now.from) step.now.to step.now.moved.now }
    ensures queued { result.1 ≡ charging.queued step.now.long (step.now.to - step.now.from) step.now.to step.now.moved.now }
    ensures nobody { result.2 ≡ sharing.nobody step.now.moved.now }
{
    let time = step.to.saturating_sub(step.from);
    let moved = step.moved;
    let charged = all_charged(step.long, time, step.to, moved, totals.ran, totals.parts);
    let held = all_held(moved, totals.ran, totals.parts);
    let nobody = all_waited(moved).saturating_sub(held);
    (charged, held.saturating_sub(charged), nobody)
}

// A sum that stays at the greatest `u64` once it is there.
fn add_wide(sum: u64, more: u128) -> u64
    ensures { result ≡ capped (sum + more) }
{
    let both = more.saturating_add(u128::from(sum));
    both.min(u128::from(u64::MAX)) as u64
}

impl Shares {
    // What was waited, with a step more.
    fn with(self, parts: (u128, u128, u128)) -> Shares
        ensures { result ≡ record { charged = capped (self.charged + parts.0); queued = capped (self.queued + parts.1); nobody = capped (self.nobody + parts.2) } }
    {
        let (charged, queued, nobody) = parts;
        Shares {
            charged: add_wide(self.charged, charged),
            queued: add_wide(self.queued, queued),
            nobody: add_wide(self.nobody, nobody),
        }
    }
}

// From the first step of a kind to the last.
fn also(holds: bool, from: u64, to: u64, span: Option<Stretch>) -> Option<Stretch>
    ensures { result ≡ spec.also holds from to span }
{
    if !holds {
        return span;
    }
    let from = match span {
        Some(first) => first.from,
        None => from,
    };
    Some(Stretch { from, to })
}

impl Diagnosis {
    // Of no lines yet, with the rows of the last line's tasks.
    fn over(alloc: Global, limits: Limits, rows: Rows) -> Diagnosis
        ensures nothing { inner.standing_in empty_tables result ≡ spec.nothing }
        ensures rows { result.rows ≡ rows }
        ensures limits { result.limits ≡ limits }
    {
        Diagnosis {
            alloc,
            limits,
            lines: 0,
            first: Waiters::none(alloc),
            rows,
            members: IndexMap::new(alloc),
            places: Places {
                held: Series::new(alloc),
                guilty: Vec::new(alloc),
            },
            pairs: Series::new(alloc),
            free: Free::none(),
            shares: Shares {
                charged: 0,
                queued: 0,
                nobody: 0,
            },
            overloaded: None,
            alone: None,
            passed: Vec::new(alloc),
        }
    }

    /// Of no lines yet.
    pub fn new(alloc: Global, limits: Limits) -> Result<Diagnosis, AllocError>
        ensures nothing { IfOk result (λ d. inner.Follows [] d) }
        ensures limits { IfOk result (λ d. d.limits ≡ limits) }
    {
        Ok(Diagnosis::over(alloc, limits, Rows::new(alloc)))
    }

    // Ends the step with these tables.
    fn end_step(&mut self, tables: &Tables) -> Result<(), AllocError>
        ensures ends { OnOk result (inner.standing_in empty_tables self.new ≡ spec.ends self.old.limits (inner.standing_in empty_tables self.old) tables.now) }
        ensures rows { self.new.rows ≡ self.old.rows }
        ensures limits { self.new.limits ≡ self.old.limits }
    {
        let Limits { long, lints } = self.limits;
        let wait = lints.never_yielded_ns();
        let moved = moved_of(self.alloc, &self.members)?;
        let (from, to) = (self.first.moment(), tables.now());
        let step = Step {
            long,
            from,
            to,
            moved: &moved,
        };
        let totals = totals_of(&moved);
        self.places
            .add_step(self.alloc, &step, self.free, totals, &self.members)?;
        add_pairs(&mut self.pairs, self.alloc, &step, totals, &self.members)?;
        let parts = split(&step, totals);
        let first = &self.first;
        let over = is_overloaded(long, wait, first, &moved, totals.polls, parts.1);
        let left = are_left_alone(long, wait, first, &moved, totals.ran);
        let passed = passed_over(self.alloc, wait, first, &moved)?;
        let time = to.saturating_sub(from);
        self.free = free_after(long, time, &moved, totals.polls, self.free);
        self.shares = self.shares.with(parts);
        self.overloaded = also(over, from, to, self.overloaded);
        self.alone = also(left, from, to, self.alone);
        self.passed = passed;
        Ok(())
    }

    // Begins a step with these tables, whose rows are kept.
    fn begin_step(&mut self, tables: &Tables) -> Result<(), AllocError>
        ensures begins { Keeps tables.now self.old.rows
            → OnOk result ((before : TablesView) → inner.standing_in before self.new ≡ spec.begins (inner.standing_in before self.old) tables.now) }
        ensures rows { self.new.rows ≡ self.old.rows }
        ensures limits { self.new.limits ≡ self.old.limits }
    {
        self.first = Waiters::of(self.alloc, &self.rows, tables)?;
        self.members = IndexMap::new(self.alloc);
        Ok(())
    }

    // Begins the first step with these tables.
    fn open(&mut self, tables: &Tables, change: &Change) -> Result<(), AllocError>
        ensures opens { (before : TablesView) → Leads before tables.now change.now → Keeps before self.old.rows
            → OnOk result (inner.Goes spec.opens before tables.now self.old self.new) }
        ensures limits { self.new.limits ≡ self.old.limits }
    {
        self.lines = 1;
        self.rows.follow(tables, change)?;
        self.begin_step(tables)
    }

    // Goes on with the step.
    fn go_on(&mut self, tables: &Tables, change: &Change) -> Result<(), AllocError>
        ensures goes_on { (before : TablesView) → Leads before tables.now change.now → Keeps before self.old.rows
            → OnOk result (inner.Goes spec.goes_on before tables.now self.old self.new) }
        ensures limits { self.new.limits ≡ self.old.limits }
    {
        add_line(&mut self.members, self.alloc, &self.rows, tables, change)?;
        self.lines = self.lines.saturating_add(1);
        self.rows.follow(tables, change)
    }

    // Whether the step is over with these tables.
    fn is_over(&self, tables: &Tables) -> bool
        ensures { (before : TablesView) → result ≡ spec.is_over self.now.limits (inner.standing_in before self.now) tables.now }
    {
        self.limits.long <= tables.now().saturating_sub(self.first.moment())
    }

    // Takes the tables after a line, which changed this in those before it.
    fn after_line(&mut self, tables: &Tables, change: &Change) -> Result<(), AllocError>
        ensures line { (before : TablesView) → Leads before tables.now change.now → Keeps before self.old.rows
            → OnOk result (inner.Goes (spec.after_line self.old.limits) before tables.now self.old self.new) }
        ensures limits { self.new.limits ≡ self.old.limits }
    {
        if self.lines == 0 {
            return self.open(tables, change);
        }
        let over = self.is_over(tables);
        self.go_on(tables, change)?;
        if !over {
            return Ok(());
        }
        self.end_step(tables)?;
        self.begin_step(tables)
    }

    /// For how long the tasks of each place held up others in the steps that are over: in the order in which places first came.
    pub fn held(&self) -> &Series<Held>
        ensures { (shown : List TablesView) → inner.Follows shown self.now → result.now ≡ (spec.standing_of self.now.limits shown).places.0 }
    {
        &self.places.held
    }

    /// What was waited in the steps that are over, shared out.
    pub fn shares(&self) -> Shares
        ensures { (shown : List TablesView) → inner.Follows shown self.now → result ≡ (spec.standing_of self.now.limits shown).shares }
    {
        self.shares
    }

    /// Takes the tables after a line, which changed this in those before it. It costs what the line changed, and the tasks that run or wait.
    pub fn note(&mut self, tables: &Tables, change: &Change) -> Result<(), AllocError>
        ensures follows { (shown : List TablesView) → Leads (last_shown empty_tables shown) tables.now change.now → inner.Follows shown self.old
            → OnOk result (inner.Follows (shown ++ tables.now ∷ []) self.new) }
        ensures limits { self.new.limits ≡ self.old.limits }
    {
        self.after_line(tables, change)
    }

    /// Begins anew with the tables after a line, which changed this in those before it: what was read before counts no longer. It costs what the
    /// line changed, and the tasks that wait.
    ///
    /// `AllocError`: there was no memory. Of what this then is nothing is known.
    pub fn begin_with(&mut self, tables: &Tables, change: &Change) -> Result<(), AllocError>
        ensures begins { (shown : List TablesView) → Leads (last_shown empty_tables shown) tables.now change.now → inner.Follows shown self.old
            → OnOk result (inner.Follows (tables.now ∷ []) self.new) }
        ensures limits { self.new.limits ≡ self.old.limits }
    {
        let rows = mem::replace(&mut self.rows, Rows::new(self.alloc));
        *self = Diagnosis::over(self.alloc, self.limits, rows);
        self.open(tables, change)
    }
}
