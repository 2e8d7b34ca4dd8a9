//! How events are taken in: a new item goes last, with the row that its handle then reads, and a poll operation is counted.
ghost use Rattle.std.specs.Prelude.{◌≡◌, ◌<◌, Some, None, false, true, OnOk, OnErr, IfOk, IfErr, IfSome, IfNone, ◌⊎◌};
ghost use Rattle.tk_events.specs.declared.event.Event.TheVariants as events;
ghost use Rattle.tk_events.specs.Handles.{dropped_by};
ghost use Rattle.tk_events.specs.Items.{Agrees};
ghost use Rattle.tk_aggregator.specs.Absorbing.{infos_of};
ghost use Rattle.tk_aggregator.specs.Finished.{HoldKept};
ghost use Rattle.tk_aggregator.specs.Aggregates.{IsLaterOf, IsSameStream, TakesIn, Collects, RunsOut, TookMore, FollowsTaker, GathersUpTo, Comes, TellsTotals, WasEmpty, dropped_in};
ghost use Rattle.tk_aggregator.specs.Beside.{TookAll, GathersUpToBeside, CollectsBeside, StaysRecorder, KnowsAllTaken};
ghost use Rattle.tk_ledgers.specs.Handles.{sight_with};
ghost use Rattle.tk_stream.specs.Tables.{task_with};
ghost use Rattle.tk_stream.specs.Polls.{counted};
ghost use Rattle.tk_aggregator.specs.declared.stream_error.StreamError.TheVariants.{Memory};

use super::Aggregator;
use crate::ledgered::{put_op, put_poll, put_resource, put_task};
use crate::stream_error::StreamError;
use std::alloc::AllocError;
use std::sync::Wait;
use tk_events::{Event, Recorder, Taker};
use tk_ids::{OpInfo, ResourceId, ResourceInfo, TaskInfo};
use tk_ledgers::{OpInspector, ResourceInspector, TaskInspector, TimesInspector};

impl Aggregator {
    /// Takes up to `limit` events, a held one first, and stops at the first empty answer of the taker. Each is taken in: a
    /// new item goes last, with the row that its handle then reads; one that is there changes nothing; a poll operation is
    /// counted. The totals of dropped events become the taker's. It answers how many were taken in.
    ///
    /// Where the taker is finished and all that it took came here, an answer below `limit` leaves just what the recorders kept:
    /// the new items of each in its order, each once, and of each resource the totals of its poll operations. With a retention
    /// some of these items may have left.
    ///
    /// - `Memory`: there is none for an event. It is held, and the next call takes it first; those before it stand in the
    ///   tables. Totals stay.
    pub fn collect<R: Wait>(
        &mut self,
        rt: &R,
        taker: &mut Taker,
        limit: u64,
    ) -> Result<u64, StreamError>
        ensures ok { IfOk result (λ count. Collects self.old taker.old limit count self.new taker.new) }
        ensures err { IfErr result (λ e. (e ≡ Memory) × RunsOut self.old taker.old limit self.new taker.new) }
        ensures took { TookMore taker.old taker.new }
        ensures follows { FollowsTaker self.old taker.old → FollowsTaker self.new taker.new }
        ensures kept { IfOk result (λ count. FollowsTaker self.old taker.old → taker.old.finished ≡ true → count < limit
            → HoldKept self.new.retention (infos_of self.new.tables) taker.new.known) }
        ensures later { IsLaterOf self.old self.new }
        ensures stays { IsSameStream self.old self.new }
    {
        let count = self.gather(rt, taker, limit)?;
        self.take_totals(taker);
        Ok(count)
    }

    /// Takes events in as [`Aggregator::collect`] does, beside a recorder of the taker's console, which then knows how many of its events
    /// were taken, and otherwise stays as it is. An answer below `limit` says that all that this recorder kept by then was taken, and the
    /// recorder knows it. Where it is the console's only one, the totals are exactly what it dropped. The taker isn't finished.
    ///
    /// Its one error is that of `collect`.
    pub fn collect_beside<R: Wait>(
        &mut self,
        rt: &R,
        taker: &mut Taker,
        recorder: &mut Recorder,
        limit: u64,
    ) -> Result<u64, StreamError>
        requires console { recorder.old.console ≡ taker.old.console }
        requires recorders { recorder.old.recorders ≡ taker.old.recorders }
        requires unfinished { taker.old.finished ≡ false }
        ensures same { StaysRecorder recorder.old recorder.new }
        ensures knows { IfOk result (λ count. count < limit → KnowsAllTaken recorder.new) }
        ensures ok { IfOk result (λ count. CollectsBeside recorder.old self.old taker.old limit count self.new taker.new) }
        ensures err { IfErr result (λ e. (e ≡ Memory) × RunsOut self.old taker.old limit self.new taker.new) }
        ensures took { TookMore taker.old taker.new }
        ensures later { IsLaterOf self.old self.new }
        ensures stays { IsSameStream self.old self.new }
    {
        let count = self.gather_beside(rt, taker, recorder, limit)?;
        self.take_totals_beside(taker, recorder);
        Ok(count)
    }

    // The totals of dropped events become the taker's.
    fn take_totals(&mut self, taker: &mut Taker)
        ensures totals { TellsTotals taker.old taker.new }
        ensures now { self.new ≡ record self.old { tables = record self.old.tables { dropped = dropped_in taker.new.last } } }
    {
        let dropped = taker.dropped();
        self.tables.set_totals(dropped, self.tables.now());
    }

    // The totals of dropped events become the taker's, beside a recorder.
    fn take_totals_beside(&mut self, taker: &mut Taker, recorder: &mut Recorder)
        requires console { recorder.old.console ≡ taker.old.console }
        requires recorders { recorder.old.recorders ≡ taker.old.recorders }
        requires unfinished { taker.old.finished ≡ false }
        ensures same { recorder.new ≡ recorder.old }
        ensures totals { TellsTotals taker.old taker.new }
        ensures exact { taker.old.recorders ≡ 1 → taker.new.last ≡ dropped_by recorder.old }
        ensures now { self.new ≡ record self.old { tables = record self.old.tables { dropped = dropped_in taker.new.last } } }
    {
        let dropped = taker.dropped_beside(recorder);
        self.tables.set_totals(dropped, self.tables.now());
    }

    // Takes events in, and leaves the totals.
    fn gather<R: Wait>(&mut self, rt: &R, taker: &mut Taker, limit: u64) -> Result<u64, StreamError>
        ensures ok { IfOk result (λ count. GathersUpTo self.old taker.old limit count self.new taker.new) }
        ensures err { IfErr result (λ e. (e ≡ Memory) × RunsOut self.old taker.old limit self.new taker.new) }
    {
        for count in 0..limit {
            let Some(event) = self.next_event(rt, taker) else {
                return Ok(count);
            };
            if let Err(event) = self.take_in(rt, event) {
                self.held = Some(event);
                return Err(StreamError::Memory);
            }
        }
        Ok(limit)
    }

    // The held event, or the next one of the taker.
    fn next_event<R: Wait>(&mut self, rt: &R, taker: &mut Taker) -> Option<Event>
        ensures some { IfSome result (λ event. Comes self.old taker.old event self.new taker.new) }
        ensures agrees { IfSome result (λ event. Agrees event) }
        ensures none { IfNone result ((self.new ≡ self.old) × (self.old.held ≡ None) × (taker.new ≡ taker.old) × WasEmpty taker.new) }
    {
        if let Some(event) = self.held.take() {
            return Some(event);
        }
        let event = taker.take(rt)?;
        Some(event)
    }

    // Takes events in beside a recorder, and leaves the totals.
    fn gather_beside<R: Wait>(
        &mut self,
        rt: &R,
        taker: &mut Taker,
        recorder: &mut Recorder,
        limit: u64,
    ) -> Result<u64, StreamError>
        requires console { recorder.old.console ≡ taker.old.console }
        requires recorders { recorder.old.recorders ≡ taker.old.recorders }
        requires unfinished { taker.old.finished ≡ false }
        ensures same { StaysRecorder recorder.old recorder.new }
        ensures knows { IfOk result (λ count. count < limit → KnowsAllTaken recorder.new) }
        ensures ok { IfOk result (λ count. GathersUpToBeside recorder.old self.old taker.old limit count self.new taker.new) }
        ensures err { IfErr result (λ e. (e ≡ Memory) × RunsOut self.old taker.old limit self.new taker.new) }
    {
        for count in 0..limit {
            let Some(event) = self.next_beside(rt, taker, recorder) else {
                return Ok(count);
            };
            if let Err(event) = self.take_in(rt, event) {
                self.held = Some(event);
                return Err(StreamError::Memory);
            }
        }
        Ok(limit)
    }

    // The held event, or the next one of the taker, beside a recorder.
    fn next_beside<R: Wait>(
        &mut self,
        rt: &R,
        taker: &mut Taker,
        recorder: &mut Recorder,
    ) -> Option<Event>
        requires console { recorder.old.console ≡ taker.old.console }
        requires recorders { recorder.old.recorders ≡ taker.old.recorders }
        requires unfinished { taker.old.finished ≡ false }
        ensures same { StaysRecorder recorder.old recorder.new }
        ensures some { IfSome result (λ event. Comes self.old taker.old event self.new taker.new) }
        ensures agrees { IfSome result (λ event. Agrees event) }
        ensures none { IfNone result ((self.new ≡ self.old) × (self.old.held ≡ None) × (taker.new ≡ taker.old) × TookAll recorder.old taker.new × KnowsAllTaken recorder.new) }
    {
        if let Some(event) = self.held.take() {
            return Some(event);
        }
        let event = taker.take_beside(rt, recorder)?;
        Some(event)
    }

    // Takes an event in, or gives it back.
    fn take_in<R: Wait>(&mut self, rt: &R, event: Event) -> Result<(), Event>
        requires { Agrees event }
        ensures ok { OnOk result (TakesIn self.old event self.new) }
        ensures err { OnErr result (self.new ≡ self.old) }
        ensures returned { IfErr result (λ back. back ≡ event) }
    {
        match event {
            Event::Task(info, handle) => match self.add_task(rt, info, handle) {
                Ok(()) => Ok(()),
                Err((info, handle)) => Err(Event::Task(info, handle)),
            },
            Event::Resource(info, handle) => match self.add_resource(rt, info, handle) {
                Ok(()) => Ok(()),
                Err((info, handle)) => Err(Event::Resource(info, handle)),
            },
            Event::Op(info, handle) => match self.add_op(rt, info, handle) {
                Ok(()) => Ok(()),
                Err((info, handle)) => Err(Event::Op(info, handle)),
            },
            Event::Poll(op) => match self.count_poll(op.resource, op.ready) {
                Ok(()) => Ok(()),
                Err(_) => Err(Event::Poll(op)),
            },
        }
    }

    // Puts a task last where its id isn't there. At want of memory info and handle come back.
    fn add_task<R: Wait>(
        &mut self,
        rt: &R,
        info: TaskInfo,
        handle: TaskInspector,
    ) -> Result<(), (TaskInfo, TaskInspector)>
        requires { Agrees (events.Task info handle) }
        ensures ok { OnOk result (TakesIn self.old (events.Task info handle) self.new) }
        ensures err { OnErr result (self.new ≡ self.old) }
        ensures returned { IfErr result (λ e. (e.0 ≡ info) × (e.1 ≡ handle)) }
    {
        if self.tables.task(info.id).is_some() {
            return Ok(());
        }
        let mut handle = handle;
        match self.reader_of(&mut handle) {
            Some(reader) => self.put_timed(rt, info, handle, reader),
            None => self.put_untimed(rt, info, handle),
        }
    }

    // Takes the reader of a task's histogram, where it has one and histograms are read.
    fn reader_of(&self, handle: &mut TaskInspector) -> Option<TimesInspector>
        ensures task { IfSome result (λ reader. (reader.id ≡ handle.old.id) × (handle.old ≡ sight_with handle.old.id handle.old.token (Some reader.token))) }
        ensures id { handle.new.id ≡ handle.old.id }
        ensures token { handle.new.token ≡ handle.old.token }
        ensures some { IfSome result (λ reader. self.now.timing.reads ≡ true) }
        ensures none { IfNone result ((handle.new ≡ handle.old) × ((self.now.timing.reads ≡ false) ⊎ (handle.old.times ≡ None))) }
    {
        if self.timing.reads() {
            handle.take_times()
        } else {
            None
        }
    }

    // Puts a new task last, without a histogram.
    fn put_untimed<R: Wait>(
        &mut self,
        rt: &R,
        info: TaskInfo,
        handle: TaskInspector,
    ) -> Result<(), (TaskInfo, TaskInspector)>
        requires agrees { Agrees (events.Task info handle) }
        requires absent { task_with info.id self.old.tables.tasks ≡ None }
        requires untimed { (self.old.timing.reads ≡ false) ⊎ (handle.times ≡ None) }
        ensures ok { OnOk result (TakesIn self.old (events.Task info handle) self.new) }
        ensures err { OnErr result (self.new ≡ self.old) }
        ensures returned { IfErr result (λ e. (e.0 ≡ info) × (e.1 ≡ handle)) }
    {
        put_task(
            rt,
            &mut self.tables,
            &mut self.told,
            &mut self.tasks,
            info,
            handle,
        )?;
        Ok(())
    }

    // Puts a new task last, with the histogram that this reads.
    fn put_timed<R: Wait>(
        &mut self,
        rt: &R,
        info: TaskInfo,
        handle: TaskInspector,
        reader: TimesInspector,
    ) -> Result<(), (TaskInfo, TaskInspector)>
        requires agrees { Agrees (events.Task info handle) }
        requires task { reader.id ≡ info.id }
        requires absent { task_with info.id self.old.tables.tasks ≡ None }
        requires reads { self.old.timing.reads ≡ true }
        ensures ok { OnOk result (TakesIn self.old (events.Task info (sight_with handle.id handle.token (Some reader.token))) self.new) }
        ensures err { OnErr result (self.new ≡ self.old) }
        ensures returned { IfErr result (λ e. (e.0 ≡ info) × (e.1 ≡ sight_with handle.id handle.token (Some reader.token))) }
    {
        self.timing.see();
        let Ok(()) = self.timing.open(info.id) else {
            return Err((info, handle.with_times(reader)));
        };
        match put_task(
            rt,
            &mut self.tables,
            &mut self.told,
            &mut self.tasks,
            info,
            handle,
        ) {
            Ok(()) => {
                self.timing.fill(rt, reader);
                Ok(())
            }
            Err((info, handle)) => {
                self.timing.cancel();
                Err((info, handle.with_times(reader)))
            }
        }
    }

    // Puts a resource last where its id isn't there. At want of memory info and handle come back.
    fn add_resource<R: Wait>(
        &mut self,
        rt: &R,
        info: ResourceInfo,
        handle: ResourceInspector,
    ) -> Result<(), (ResourceInfo, ResourceInspector)>
        requires { Agrees (events.Resource info handle) }
        ensures ok { OnOk result (TakesIn self.old (events.Resource info handle) self.new) }
        ensures err { OnErr result (self.new ≡ self.old) }
        ensures returned { IfErr result (λ e. (e.0 ≡ info) × (e.1 ≡ handle)) }
    {
        if self.tables.resource(info.id).is_some() {
            return Ok(());
        }
        put_resource(
            rt,
            &mut self.tables,
            &mut self.told,
            &mut self.resources,
            info,
            handle,
        )?;
        Ok(())
    }

    // Puts an async operation last where its id isn't there. At want of memory info and handle come back.
    fn add_op<R: Wait>(
        &mut self,
        rt: &R,
        info: OpInfo,
        handle: OpInspector,
    ) -> Result<(), (OpInfo, OpInspector)>
        requires { Agrees (events.Op info handle) }
        ensures ok { OnOk result (TakesIn self.old (events.Op info handle) self.new) }
        ensures err { OnErr result (self.new ≡ self.old) }
        ensures returned { IfErr result (λ e. (e.0 ≡ info) × (e.1 ≡ handle)) }
    {
        if self.tables.op(info.id).is_some() {
            return Ok(());
        }
        put_op(
            rt,
            &mut self.tables,
            &mut self.told,
            &mut self.ops,
            info,
            handle,
        )?;
        Ok(())
    }

    // Counts a poll operation of a resource, also of one that is in no table.
    fn count_poll(&mut self, resource: ResourceId, ready: bool) -> Result<(), AllocError>
        ensures ok { OnOk result (self.new ≡ record self.old { tables = record self.old.tables { counts = counted resource ready self.old.tables.counts } }) }
        ensures err { OnErr result (self.new ≡ self.old) }
    {
        put_poll(&mut self.tables, &mut self.told, resource, ready)?;
        Ok(())
    }
}
