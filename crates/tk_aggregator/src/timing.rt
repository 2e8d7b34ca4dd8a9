//! The histograms of poll times of an aggregator's tasks: which ones it shows, which ones lines told, and who reads them.
//!
//! A task's histogram is a ledger of its own, so it has a reader of its own. It goes in together with its task, which may find no
//! memory when the histogram has found some, and a reading can't be undone. So [`Timing::open`] takes all memory, and then
//! [`Timing::fill`] reads, or [`Timing::cancel`] takes the entry off again.
//!
//! `specs/Timing.antt` says what each call makes of them.
ghost use Rattle.std.specs.Prelude.{◌≡◌, ◌≤◌, ◌<◌, ◌+◌, ◌++◌, ◌∷◌, [], ℕ, length, slice_get, vec_capacity, map, take, nat_eq, true, false, Some, None, option_map, unwrap_or, OnOk, OnErr, IfOk, IfErr};
ghost use Rattle.std.specs.List.{IsDistinct, AllByRecursion};
ghost use Rattle.std.specs.Option.{option_map_or};
ghost use Rattle.tk_core.specs.declared.times.row.TimesRow.{TimesRow};
ghost use Rattle.tk_ledgers.specs.Times.{TimesSight};
ghost use Rattle.tk_stream.specs.Applied.{times_kind, BeginWith};
ghost use Rattle.tk_stream.specs.Lines.{none_gone, with_times};
ghost use Rattle.tk_stream.specs.Ranges.{AreTimes};
ghost use Rattle.tk_stream.specs.Tables.{item_with, changed_at, staying};
ghost use Rattle.tk_stream.specs.Times.{times_id, times_shown, times_with};
ghost use Rattle.tk_aggregator.specs.Readings.{Reads};
ghost use Rattle.tk_stream.specs.Places.{place_with};
ghost use Rattle.tk_aggregator.specs.Timing.{times_ledger, no_timing, ReadsTimes, ReadsTimesBeside, StaysOwner, timing_opened, told_by, timing_told};

use crate::ledgered::{read_at, refresh_all};
use std::alloc::{AllocError, Global};
use std::marker::Model;
use std::sync::Wait;
use tk_core::TimesRow;
use tk_ids::TaskId;
use tk_ledgers::{TimesInspector, TimesOwner};
use tk_stream::{Leaving, Line, LineError, PollTimes, Table, ToldRows};

/// The histograms of the tasks that have one, in order of arrival, what lines told of them, and who reads them, in the same order.
///
/// Contracts see whether histograms are read, those of the tasks, those that were told last, and the readers.
#[derive(Drop)]
pub(crate) struct Timing {
    reads: bool,
    times: Table<(TaskId, PollTimes)>,
    told: ToldRows<(TaskId, PollTimes)>,
    readers: Vec<TimesInspector>,
}

impl Model for Timing {
    ghost use Rattle.std.specs.Prelude.{vec_capacity};
    ghost use Rattle.tk_stream.specs.Fronts.{as_told, with_rows};
    ghost use Rattle.tk_stream.specs.Times.{times_with};
    ghost use Rattle.tk_aggregator.specs.Timing.{TimingView, AreTimed};

    ghost Value = { TimingView };

    ghost view = { λ t. record {
      reads = t.reads;
      shown = t.times;
      told = with_rows (as_told times_with) t.times t.told.rows;
      readers = t.readers.items;
    } };

    ghost invariant = { λ t. AreTimed t.reads t.times t.told (vec_capacity t.readers) };
}

/// Lets the readers of the tasks go that leave.
fn keep_readers(readers: &mut Vec<TimesInspector>, leaving: &Leaving)
    ensures items { readers.new.items ≡ staying (λ (s : TimesSight). s.id) leaving.now.tasks readers.old.items }
    ensures seats { vec_capacity readers.new ≡ vec_capacity readers.old }
{
    readers.retain(|reader| !leaving.has_task(reader.task()));
}

/// Removes the histograms of the tasks that leave, if any do, and lets their readers go.
fn remove(
    leaving: &Option<Leaving>,
    times: &mut Table<(TaskId, PollTimes)>,
    readers: &mut Vec<TimesInspector>,
)
    ensures times { times.new ≡ staying times_id (unwrap_or leaving.now none_gone).tasks times.old }
    ensures readers { readers.new.items ≡ staying (λ (s : TimesSight). s.id) (unwrap_or leaving.now none_gone).tasks readers.old.items }
    ensures seats { vec_capacity readers.new ≡ vec_capacity readers.old }
{
    if let Some(leaving) = leaving {
        leaving.remove_times(times);
        keep_readers(readers, leaving);
    }
}

impl Timing {
    /// None. They are read and told, or neither.
    pub(crate) fn new(alloc: Global, reads: bool) -> Timing
        ensures { result ≡ no_timing reads }
    {
        Timing {
            reads,
            times: Table::new(alloc),
            told: ToldRows::new(alloc),
            readers: Vec::new(alloc),
        }
    }

    /// Whether histograms are read, and lines tell them.
    pub(crate) fn reads(&self) -> bool
        ensures { result ≡ self.now.reads }
    {
        self.reads
    }

    /// The histograms of the tasks that have one, in order of arrival.
    pub(crate) fn times(&self) -> &Table<(TaskId, PollTimes)>
        ensures { result.now ≡ self.now.shown }
    {
        &self.times
    }

    /// No task stands twice, each histogram is in range, the first ones are those that were told, and where none are read there are
    /// none. This does nothing.
    pub(crate) fn see(&self)
        ensures distinct { IsDistinct nat_eq (map times_id self.now.shown) }
        ensures in_range { AllByRecursion AreTimes self.now.shown }
        ensures begins { BeginWith times_kind self.now.told self.now.shown }
        ensures few { length self.now.told ≤ length self.now.shown }
        ensures unread { self.now.reads ≡ false → self.now.shown ≡ [] }
    {
        self.times.len();
    }

    /// Takes the memory for the histogram of a further task, whose entry goes last and shows no poll yet. [`Timing::fill`] or
    /// [`Timing::cancel`] comes next.
    ///
    /// Where there is no memory nothing has changed.
    pub(crate) fn open(&mut self, task: TaskId) -> Result<(), AllocError>
        requires reads { self.old.reads ≡ true }
        requires absent { item_with times_id task self.old.shown ≡ None }
        requires in_step { length self.old.readers ≡ length self.old.shown }
        ensures ok { OnOk result (self.new ≡ timing_opened task self.old) }
        ensures err { OnErr result (self.new ≡ self.old) }
    {
        self.told.make_room(self.times.len())?;
        self.readers.reserve(1)?;
        let nothing = PollTimes::of(&TimesRow::opening());
        let Ok(()) = self.times.push((task, nothing)) else {
            return Err(AllocError);
        };
        Ok(())
    }

    /// The reader of the entry that was opened reads, stands last among the readers, and the entry shows what it read.
    pub(crate) fn fill<R: Wait>(&mut self, rt: &R, reader: TimesInspector)
        requires { length self.old.readers + 1 ≡ length self.old.shown }
        ensures { (row : TimesRow) × (read : TimesSight) × Reads times_ledger reader row read
            × (self.new ≡ record self.old {
              shown = changed_at (λ t. times_with t (times_shown row)) self.old.shown (length self.old.readers);
              readers = self.old.readers ++ read ∷ [];
            }) }
    {
        let mut reader = reader;
        let row = reader.read(rt);
        let place = self.readers.len();
        self.told.set(&mut self.times, place, &PollTimes::of(&row));
        match self.readers.push(reader) {
            Ok(()) => {}
            Err(_) => unreachable!(),
        }
    }

    /// The entry that was opened is taken off again.
    pub(crate) fn cancel(&mut self)
        requires { length self.old.told ≤ length self.old.readers }
        ensures { self.new ≡ record self.old { shown = take (length self.old.readers) self.old.shown } }
    {
        self.times.cut(self.readers.len());
    }

    /// Each reader reads once, and the histogram of its task is what it read. It takes no memory.
    pub(crate) fn refresh<R: Wait>(&mut self, rt: &R)
        requires { length self.old.readers ≡ length self.old.shown }
        ensures { ReadsTimes self.old self.new }
    {
        refresh_all(rt, &mut self.times, &mut self.told, &mut self.readers);
    }

    /// The reader of the histogram of an owner's task reads beside the owner, if there is one. It takes no memory.
    pub(crate) fn read_beside<R: Wait>(&mut self, rt: &R, owner: &mut TimesOwner)
        requires in_step { length self.old.readers ≡ length self.old.shown }
        requires of { (place : ℕ) (reader : TimesSight) → place_with times_id owner.old.id self.old.shown ≡ Some place → slice_get self.old.readers place ≡ Some reader
            → reader.token.ledger ≡ owner.old.token.ledger }
        ensures reads { ReadsTimesBeside owner.old self.old self.new (place_with times_id owner.old.id self.old.shown) }
        ensures owner { StaysOwner owner.old owner.new }
    {
        if let Some(place) = self.times.place(owner.task().value()) {
            self.read_at(rt, place, owner);
        }
    }

    // The one at a place.
    fn read_at<R: Wait>(&mut self, rt: &R, place: usize, owner: &mut TimesOwner)
        requires place { place < length self.old.shown }
        requires in_step { length self.old.readers ≡ length self.old.shown }
        requires of { (reader : TimesSight) → slice_get self.old.readers place ≡ Some reader → reader.token.ledger ≡ owner.old.token.ledger }
        ensures reads { ReadsTimesBeside owner.old self.old self.new (Some place) }
        ensures owner { StaysOwner owner.old owner.new }
    {
        read_at(
            rt,
            &mut self.times,
            &mut self.told,
            &mut self.readers,
            place,
            owner,
        );
    }

    /// The line as one that tells histograms, where these are read: those that are new since they were told, or others now, but for
    /// those of tasks that leave. A snapshot tells all that stay.
    ///
    /// Its one error is `Memory`.
    pub(crate) fn line(
        &self,
        line: Line,
        leaving: Option<&Leaving>,
        snapshot: bool,
    ) -> Result<Line, LineError>
        ensures ok { IfOk result (λ made. made ≡ option_map_or (λ times. with_times times line)
            (told_by snapshot self.now (unwrap_or (option_map (λ l. l.now) leaving.entry) none_gone).tasks) line) }
        ensures memory { IfErr result (λ e. e ≡ LineError.Memory) }
    {
        if !self.reads {
            return Ok(line);
        }
        if snapshot {
            let nothing = ToldRows::new(*self.readers.allocator());
            return line.telling(&nothing, &self.times, leaving);
        }
        line.telling(&self.told, &self.times, leaving)
    }

    /// A whole line went out with which these tasks leave, if any do: their histograms and readers are let go, and all others are
    /// told.
    pub(crate) fn tell(&mut self, leaving: &Option<Leaving>)
        ensures { self.new ≡ timing_told (unwrap_or leaving.now none_gone).tasks self.old }
    {
        remove(leaving, &mut self.times, &mut self.readers);
        self.told.tell(&self.times);
    }
}
