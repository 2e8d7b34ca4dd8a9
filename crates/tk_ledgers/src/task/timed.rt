//! Inner: the histogram of a task, as the task's owner has it. It takes in how long each poll ran.
ghost use Rattle.std.specs.Prelude.{◌≡◌, Some, None, is_some, IfOk, IfSome};
ghost use Rattle.std.specs.Option.{option_map};
ghost use Rattle.tk_core.specs.Times.{opening_row};
ghost use Rattle.tk_cell.specs.Views.{opened};
ghost use Rattle.tk_ledgers.specs.Times.{known_times, IsOfTask, IsSameHistogram, IsOfHistogram};
ghost use Rattle.tk_ledgers.specs.Timed.{restarted, times_of, Ends, EndsAny, Inspects, InspectsAny};

use crate::times::{TimesInspector, TimesOwner, TimesReceipt};
use std::alloc::{AllocError, Global};
use std::marker::Model;
use std::sync::Wait;
use tk_core::Refusal;
use tk_ids::TaskId;

/// The owner of a task's histogram, and when the last poll of the task started.
#[derive(Drop)]
pub struct Timed {
    times: TimesOwner,
    started: Option<u64>,
}

impl Model for Timed {
    ghost use Rattle.tk_ledgers.specs.Timed.{Timing, timing};

    ghost Value = { Timing };

    ghost view = { λ t. timing t.times.id t.times.token t.started };
}

impl Timed {
    /// A histogram without times, of a task without polls.
    pub fn new<R: Wait>(rt: &R, alloc: Global, id: TaskId) -> Result<Timed, AllocError>
        ensures id { IfOk result (λ timed. timed.id ≡ id) }
        ensures started { IfOk result (λ timed. timed.started ≡ None) }
        ensures opened { IfOk result (λ timed. timed.times.view ≡ opened opening_row) }
    {
        let times = TimesOwner::new(rt, alloc, id)?;
        Ok(Timed {
            times,
            started: None,
        })
    }

    fn start(&mut self, moment: u64)
        ensures { self.new ≡ restarted moment self.old }
    {
        self.started = Some(moment);
    }

    fn end<R: Wait>(&mut self, rt: &R, moment: u64)
        ensures { Ends moment self.old self.new }
    {
        let started = self.started.unwrap_or(moment);
        self.times.add(rt, moment.saturating_sub(started));
    }

    fn inspect<R: Wait>(&mut self, rt: &R) -> Result<TimesInspector, Refusal>
        ensures { Inspects self.old result self.new }
    {
        self.times.inspect(rt)
    }

    /// Its owner.
    pub fn into_times(self) -> TimesOwner
        ensures id { result.id ≡ self.id }
        ensures token { result.token ≡ self.times }
    {
        self.times
    }

    fn retire(self) -> TimesReceipt
        ensures id { result.id ≡ self.id }
        ensures token { result.token ≡ self.times }
    {
        self.times.retire()
    }
}

/// A poll of the task started.
pub fn start(timed: &mut Option<Timed>, moment: u64)
    ensures { timed.new ≡ option_map (restarted moment) timed.old }
{
    if let Some(timed) = timed {
        timed.start(moment);
    }
}

/// A poll of the task ended: how long it ran is added to the histogram, if there is one.
pub fn end<R: Wait>(timed: &mut Option<Timed>, rt: &R, moment: u64)
    ensures ledger { IsSameHistogram (times_of timed.old) (times_of timed.new) }
    ensures ends { EndsAny moment timed.old timed.new }
{
    if let Some(timed) = timed {
        timed.end(rt, moment);
    }
}

/// An inspector of the histogram, if there is one. Refused with `Memory`, `HandlesSpent`.
pub fn inspect<R: Wait>(
    timed: &mut Option<Timed>,
    rt: &R,
) -> Option<Result<TimesInspector, Refusal>>
    ensures ledger { IsSameHistogram (times_of timed.old) (times_of timed.new) }
    ensures has { is_some result ≡ is_some timed.old }
    ensures made { (id : _) → ((t : _) → timed.old ≡ Some t → t.id ≡ id) → IfSome result (λ drawn. IfOk drawn (λ made. made.id ≡ id)) }
    ensures made_ledger { IfSome result (λ drawn. IfOk drawn (λ made. IsOfHistogram (times_of timed.old) made.token)) }
    ensures inspects { InspectsAny timed.old result timed.new }
{
    match timed {
        Some(timed) => Some(timed.inspect(rt)),
        None => None,
    }
}

/// The histogram takes in no more polls.
pub fn retire(timed: Option<Timed>, id: TaskId) -> Option<TimesReceipt>
    requires { (t : _) → timed ≡ Some t → t.id ≡ id }
    ensures times { known_times result ≡ times_of timed }
    ensures task { IsOfTask id result }
{
    match timed {
        Some(timed) => Some(timed.retire()),
        None => None,
    }
}
