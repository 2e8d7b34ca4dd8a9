//! Items whose rows are read from their ledgers.
ghost use Rattle.std.specs.Prelude.{◌≡◌, ◌≤◌, ◌<◌, ◌++◌, ◌∷◌, [], List, length, slice_get, slice_set, vec_capacity, Some, None, OnOk, OnErr, IfErr};
ghost use Rattle.tk_core.specs.declared.op.row.OpRow.{OpRow};
ghost use Rattle.tk_core.specs.declared.resource.row.ResourceRow.{ResourceRow};
ghost use Rattle.tk_core.specs.declared.task.row.TaskRow.{TaskRow};
ghost use Rattle.tk_stream.specs.Fronts.{with_rows, task_at, resource_at, op_at, counts_at};
ghost use Rattle.tk_aggregator.specs.Standing.{TellsSame, told_list};
ghost use Rattle.tk_aggregator.specs.Beside.{ReadsBeside};
ghost use Rattle.tk_aggregator.specs.Readings.{EachReads, ReadAll, Reads, task_ledger, resource_ledger, op_ledger};
ghost use Rattle.tk_ledgers.specs.Ops.{OpSight};
ghost use Rattle.tk_ledgers.specs.Resources.{ResourceSight};
ghost use Rattle.tk_ledgers.specs.Tasks.{TaskSight};
ghost use Rattle.tk_stream.specs.Polls as polls;
ghost use Rattle.tk_stream.specs.Polls.{counted};
ghost use Rattle.tk_stream.specs.Tables.{changed_at, item_with, task_with, with_task, resource_with, with_resource, op_with, with_op};

use std::alloc::AllocError;
use std::sync::Wait;
use tk_core::{OpRow, ResourceRow, TaskRow};
use tk_ids::{OpInfo, ResourceId, ResourceInfo, TaskId, TaskInfo};
use tk_ledgers::{
    OpCallers, OpInspector, ResourceCallers, ResourceInspector, TaskCallers, TaskInspector,
    TimesInspector, TimesOwner,
};
use tk_stream::{Op, PollTimes, Resource, Table, Tables, Task, Told, ToldRows, ToldTables};

/// An item that has a handle of its ledger.
pub(crate) trait Ledgered: Told {
    type Handle: Drop;

    // The handle before a reading, the row that it read, and the handle after it.
    ghost reads: { Self.Handle → Self.Row → Self.Handle → Type 0 };

    fn read<R: Wait>(handle: &mut Self::Handle, rt: &R) -> Self::Row
        ensures { reads handle.old result handle.new };
}

impl Ledgered for Task {
    ghost use Rattle.tk_aggregator.specs.Readings.{Reads, task_ledger};

    type Handle = TaskInspector;

    ghost reads = { Reads task_ledger };

    fn read<R: Wait>(handle: &mut TaskInspector, rt: &R) -> TaskRow {
        handle.read(rt)
    }
}

impl Ledgered for Resource {
    ghost use Rattle.tk_aggregator.specs.Readings.{Reads, resource_ledger};

    type Handle = ResourceInspector;

    ghost reads = { Reads resource_ledger };

    fn read<R: Wait>(handle: &mut ResourceInspector, rt: &R) -> ResourceRow {
        handle.read(rt)
    }
}

impl Ledgered for Op {
    ghost use Rattle.tk_aggregator.specs.Readings.{Reads, op_ledger};

    type Handle = OpInspector;

    ghost reads = { Reads op_ledger };

    fn read<R: Wait>(handle: &mut OpInspector, rt: &R) -> OpRow {
        handle.read(rt)
    }
}

impl Ledgered for (TaskId, PollTimes) {
    ghost use Rattle.tk_aggregator.specs.Timing.{ReadsShown};

    type Handle = TimesInspector;

    ghost reads = { ReadsShown };

    fn read<R: Wait>(handle: &mut TimesInspector, rt: &R) -> PollTimes {
        PollTimes::of(&handle.read(rt))
    }
}

/// An item whose handle reads beside the hand that holds its other callers.
pub(crate) trait Handed: Ledgered {
    type Hand: Drop;

    // The handle is of the hand's ledger.
    ghost of: { Self.Hand → Self.Handle → Type 0 };

    // Hand and handle before a reading, the row that it read, and both after it.
    ghost beside: { Self.Hand → Self.Handle → Self.Row → Self.Hand → Self.Handle → Type 0 };

    fn read_beside<R: Wait>(hand: &mut Self::Hand, handle: &mut Self::Handle, rt: &R) -> Self::Row
        requires { of hand.old handle.old }
        ensures { beside hand.old handle.old result hand.new handle.new };
}

impl Handed for Task {
    ghost use Rattle.std.specs.Prelude.{◌≡◌};
    ghost use Rattle.tk_aggregator.specs.Beside.{ReadsBeside};
    ghost use Rattle.tk_aggregator.specs.Readings.{task_ledger};

    type Hand = TaskCallers;

    ghost of = { λ hand handle. handle.token.ledger ≡ hand.token.ledger };

    ghost beside = { ReadsBeside task_ledger };

    fn read_beside<R: Wait>(hand: &mut TaskCallers, handle: &mut TaskInspector, rt: &R) -> TaskRow {
        hand.read_beside(rt, handle)
    }
}

impl Handed for Resource {
    ghost use Rattle.std.specs.Prelude.{◌≡◌};
    ghost use Rattle.tk_aggregator.specs.Beside.{ReadsBeside};
    ghost use Rattle.tk_aggregator.specs.Readings.{resource_ledger};

    type Hand = ResourceCallers;

    ghost of = { λ hand handle. handle.token.ledger ≡ hand.token.ledger };

    ghost beside = { ReadsBeside resource_ledger };

    fn read_beside<R: Wait>(
        hand: &mut ResourceCallers,
        handle: &mut ResourceInspector,
        rt: &R,
    ) -> ResourceRow {
        hand.read_beside(rt, handle)
    }
}

impl Handed for Op {
    ghost use Rattle.std.specs.Prelude.{◌≡◌};
    ghost use Rattle.tk_aggregator.specs.Beside.{ReadsBeside};
    ghost use Rattle.tk_aggregator.specs.Readings.{op_ledger};

    type Hand = OpCallers;

    ghost of = { λ hand handle. handle.token.ledger ≡ hand.token.ledger };

    ghost beside = { ReadsBeside op_ledger };

    fn read_beside<R: Wait>(hand: &mut OpCallers, handle: &mut OpInspector, rt: &R) -> OpRow {
        hand.read_beside(rt, handle)
    }
}

impl Handed for (TaskId, PollTimes) {
    ghost use Rattle.std.specs.Prelude.{◌≡◌};
    ghost use Rattle.tk_aggregator.specs.Timing.{ReadsShownBeside};

    type Hand = TimesOwner;

    ghost of = { λ hand handle. handle.token.ledger ≡ hand.token.ledger };

    ghost beside = { ReadsShownBeside };

    fn read_beside<R: Wait>(
        hand: &mut TimesOwner,
        handle: &mut TimesInspector,
        rt: &R,
    ) -> PollTimes {
        PollTimes::of(&hand.read_beside(rt, handle))
    }
}

/// The handle at a place reads beside a hand, and the row of its item is what it read. A row that is the same is not written.
pub(crate) fn read_at<T: Handed, R: Wait>(
    rt: &R,
    table: &mut Table<T>,
    told: &mut ToldRows<T>,
    handles: &mut Vec<T::Handle>,
    place: usize,
    hand: &mut T::Hand,
)
    requires place { place < length table.old }
    requires handles { length handles.old.items ≡ length table.old }
    requires of { (handle : T.Handle) → slice_get handles.old.items place ≡ Some handle → T.of hand.old handle }
    ensures reads { (handle : T.Handle) × (read : T.Handle) × (row : T.Row) × (slice_get handles.old.items place ≡ Some handle) × T.beside hand.old handle row hand.new read
        × (handles.new.items ≡ slice_set handles.old.items place read) × (table.new ≡ changed_at (λ item. T.with_row item row) table.old place) }
    ensures told { TellsSame T.with_row table.old told.old table.new told.new }
    ensures seats { vec_capacity handles.new ≡ vec_capacity handles.old }
{
    let row = T::read_beside(hand, &mut handles[place], rt);
    told.set(table, place, &row);
}

/// Each handle reads once, and the row of its item is what it read. A row that is the same is not written.
pub(crate) fn refresh_all<T: Ledgered, R: Wait>(
    rt: &R,
    table: &mut Table<T>,
    told: &mut ToldRows<T>,
    handles: &mut Vec<T::Handle>,
)
    requires { length handles.old.items ≡ length table.old }
    ensures reads { (rows : List T.Row) × EachReads T.reads handles.old.items rows handles.new.items × (table.new ≡ with_rows T.with_row table.old rows) }
    ensures told { TellsSame T.with_row table.old told.old table.new told.new }
    ensures seats { vec_capacity handles.new ≡ vec_capacity handles.old }
{
    for i in 0..handles.len() {
        let row = T::read(&mut handles[i], rt);
        told.set(table, i, &row);
    }
}

/// Each handle of a task reads once.
pub(crate) fn read_tasks<R: Wait>(
    rt: &R,
    tables: &mut Tables,
    told: &mut ToldTables,
    handles: &mut Vec<TaskInspector>,
)
    requires { length handles.old.items ≡ length tables.old.tasks }
    ensures reads { (rows : List TaskRow) × ReadAll task_ledger handles.old.items rows handles.new.items
        × (tables.new ≡ record tables.old { tasks = with_rows task_at tables.old.tasks rows }) }
    ensures alone { told.new ≡ record told.old { tasks = told.new.tasks } }
    ensures told { TellsSame task_at tables.old.tasks told.old.tasks tables.new.tasks told.new.tasks }
{
    refresh_all(rt, &mut tables.tasks, &mut told.tasks, handles);
}

/// Each handle of a resource reads once.
pub(crate) fn read_resources<R: Wait>(
    rt: &R,
    tables: &mut Tables,
    told: &mut ToldTables,
    handles: &mut Vec<ResourceInspector>,
)
    requires { length handles.old.items ≡ length tables.old.resources }
    ensures reads { (rows : List ResourceRow) × ReadAll resource_ledger handles.old.items rows handles.new.items
        × (tables.new ≡ record tables.old { resources = with_rows resource_at tables.old.resources rows }) }
    ensures alone { told.new ≡ record told.old { resources = told.new.resources } }
    ensures told { TellsSame resource_at tables.old.resources told.old.resources tables.new.resources told.new.resources }
{
    refresh_all(rt, &mut tables.resources, &mut told.resources, handles);
}

/// Each handle of an async operation reads once.
pub(crate) fn read_ops<R: Wait>(
    rt: &R,
    tables: &mut Tables,
    told: &mut ToldTables,
    handles: &mut Vec<OpInspector>,
)
    requires { length handles.old.items ≡ length tables.old.ops }
    ensures reads { (rows : List OpRow) × ReadAll op_ledger handles.old.items rows handles.new.items
        × (tables.new ≡ record tables.old { ops = with_rows op_at tables.old.ops rows }) }
    ensures alone { told.new ≡ record told.old { ops = told.new.ops } }
    ensures told { TellsSame op_at tables.old.ops told.old.ops tables.new.ops told.new.ops }
{
    refresh_all(rt, &mut tables.ops, &mut told.ops, handles);
}

/// Puts an item last, with the row that its handle then reads. Where there is no memory for it, item and handle come back,
/// and the handle has not read.
pub(crate) fn add<T: Ledgered, R: Wait>(
    rt: &R,
    table: &mut Table<T>,
    told: &mut ToldRows<T>,
    handles: &mut Vec<T::Handle>,
    item: T,
    handle: T::Handle,
) -> Result<(), (T, T::Handle)>
    requires absent { item_with T.id_of (T.id_of item) table.old ≡ None }
    requires near { length table.old ≤ told.old.room }
    ensures ok { OnOk result ((row : T.Row) × (read : T.Handle) × T.reads handle row read
        × (table.new ≡ table.old ++ T.with_row item row ∷ []) × (handles.new.items ≡ handles.old.items ++ read ∷ [])) }
    ensures room { OnOk result (length table.new ≤ told.new.room) }
    ensures told { told.new.rows ≡ told.old.rows }
    ensures kept_room { told.old.room ≤ told.new.room }
    ensures err { OnErr result ((table.new ≡ table.old) × (handles.new.items ≡ handles.old.items)) }
    ensures returned { IfErr result (λ e. (e.0 ≡ item) × (e.1 ≡ handle)) }
{
    let place = table.len();
    let Ok(()) = told.make_room(place) else {
        return Err((item, handle));
    };
    let Ok(()) = handles.reserve(1) else {
        return Err((item, handle));
    };
    match table.push(item) {
        Ok(()) => {}
        Err(item) => return Err((item, handle)),
    }
    let mut handle = handle;
    let row = T::read(&mut handle, rt);
    table.set(place, row);
    match handles.push(handle) {
        Ok(()) => Ok(()),
        Err(_) => unreachable!(),
    }
}

/// Puts a task last, with the row that its handle then reads, or gives info and handle back.
pub(crate) fn put_task<R: Wait>(
    rt: &R,
    tables: &mut Tables,
    told: &mut ToldTables,
    handles: &mut Vec<TaskInspector>,
    info: TaskInfo,
    handle: TaskInspector,
) -> Result<(), (TaskInfo, TaskInspector)>
    requires absent { task_with info.id tables.old.tasks ≡ None }
    requires near { length tables.old.tasks ≤ told.old.tasks.room }
    ensures ok { OnOk result ((row : TaskRow) × (read : TaskSight) × Reads task_ledger handle row read
        × (tables.new ≡ with_task tables.old info row) × (handles.new.items ≡ handles.old.items ++ read ∷ [])) }
    ensures room { OnOk result (length tables.new.tasks ≤ told.new.tasks.room) }
    ensures told { told.new ≡ record told.old { tasks = record told.old.tasks { room = told.new.tasks.room } } }
    ensures kept_room { told.old.tasks.room ≤ told.new.tasks.room }
    ensures err { OnErr result ((tables.new ≡ tables.old) × (handles.new.items ≡ handles.old.items)) }
    ensures returned { IfErr result (λ e. (e.0 ≡ info) × (e.1 ≡ handle)) }
{
    let row = TaskRow::opening(0);
    match add(
        rt,
        &mut tables.tasks,
        &mut told.tasks,
        handles,
        Task { info, row },
        handle,
    ) {
        Ok(()) => Ok(()),
        Err((item, handle)) => Err((item.info, handle)),
    }
}

/// Puts a resource last, with the row that its handle then reads, or gives info and handle back.
pub(crate) fn put_resource<R: Wait>(
    rt: &R,
    tables: &mut Tables,
    told: &mut ToldTables,
    handles: &mut Vec<ResourceInspector>,
    info: ResourceInfo,
    handle: ResourceInspector,
) -> Result<(), (ResourceInfo, ResourceInspector)>
    requires absent { resource_with info.id tables.old.resources ≡ None }
    requires near { length tables.old.resources ≤ told.old.resources.room }
    ensures ok { OnOk result ((row : ResourceRow) × (read : ResourceSight) × Reads resource_ledger handle row read
        × (tables.new ≡ with_resource tables.old info row) × (handles.new.items ≡ handles.old.items ++ read ∷ [])) }
    ensures room { OnOk result (length tables.new.resources ≤ told.new.resources.room) }
    ensures told { told.new ≡ record told.old { resources = record told.old.resources { room = told.new.resources.room } } }
    ensures kept_room { told.old.resources.room ≤ told.new.resources.room }
    ensures err { OnErr result ((tables.new ≡ tables.old) × (handles.new.items ≡ handles.old.items)) }
    ensures returned { IfErr result (λ e. (e.0 ≡ info) × (e.1 ≡ handle)) }
{
    let row = ResourceRow::opening(0, &[]);
    match add(
        rt,
        &mut tables.resources,
        &mut told.resources,
        handles,
        Resource { info, row },
        handle,
    ) {
        Ok(()) => Ok(()),
        Err((item, handle)) => Err((item.info, handle)),
    }
}

/// Puts an async operation last, with the row that its handle then reads, or gives info and handle back.
pub(crate) fn put_op<R: Wait>(
    rt: &R,
    tables: &mut Tables,
    told: &mut ToldTables,
    handles: &mut Vec<OpInspector>,
    info: OpInfo,
    handle: OpInspector,
) -> Result<(), (OpInfo, OpInspector)>
    requires absent { op_with info.id tables.old.ops ≡ None }
    requires near { length tables.old.ops ≤ told.old.ops.room }
    ensures ok { OnOk result ((row : OpRow) × (read : OpSight) × Reads op_ledger handle row read
        × (tables.new ≡ with_op tables.old info row) × (handles.new.items ≡ handles.old.items ++ read ∷ [])) }
    ensures room { OnOk result (length tables.new.ops ≤ told.new.ops.room) }
    ensures told { told.new ≡ record told.old { ops = record told.old.ops { room = told.new.ops.room } } }
    ensures kept_room { told.old.ops.room ≤ told.new.ops.room }
    ensures err { OnErr result ((tables.new ≡ tables.old) × (handles.new.items ≡ handles.old.items)) }
    ensures returned { IfErr result (λ e. (e.0 ≡ info) × (e.1 ≡ handle)) }
{
    let row = OpRow::opening(0, &[]);
    match add(
        rt,
        &mut tables.ops,
        &mut told.ops,
        handles,
        Op { info, row },
        handle,
    ) {
        Ok(()) => Ok(()),
        Err((item, handle)) => Err((item.info, handle)),
    }
}

/// The counts with one more that was ready, or pending.
fn one_more(ready: bool, counts: (u64, u64)) -> (u64, u64)
    ensures { result ≡ polls.one_more ready counts }
{
    let (was_ready, was_pending) = counts;
    if ready {
        (was_ready.saturating_add(1), was_pending)
    } else {
        (was_ready, was_pending.saturating_add(1))
    }
}

/// Counts a poll operation of a resource. One without any goes last, and room for what is told of it is made first.
pub(crate) fn put_poll(
    tables: &mut Tables,
    told: &mut ToldTables,
    resource: ResourceId,
    ready: bool,
) -> Result<(), AllocError>
    requires near { length tables.old.counts ≤ told.old.counts.room }
    requires fits { length told.old.counts.rows ≤ length tables.old.counts }
    ensures ok { OnOk result (tables.new ≡ record tables.old { counts = counted resource ready tables.old.counts }) }
    ensures room { length tables.new.counts ≤ told.new.counts.room }
    ensures fit { length told.new.counts.rows ≤ length tables.new.counts }
    ensures alone { told.new ≡ record told.old { counts = told.new.counts } }
    ensures told { told_list counts_at tables.new.counts told.new.counts ≡ told_list counts_at tables.old.counts told.old.counts }
    ensures err { OnErr result (tables.new ≡ tables.old) }
{
    let (ready, pending) = one_more(ready, tables.poll_counts(resource));
    match tables.counts_place(resource) {
        Some(place) => {
            told.counts
                .set(&mut tables.counts, place, &(ready, pending));
            Ok(())
        }
        None => {
            told.counts.make_room(tables.counted())?;
            tables.set_counts(resource, ready, pending)?;
            Ok(())
        }
    }
}

/// The handle of a task at a place reads beside its hand.
pub(crate) fn read_task_at<R: Wait>(
    rt: &R,
    tables: &mut Tables,
    told: &mut ToldTables,
    handles: &mut Vec<TaskInspector>,
    place: usize,
    hand: &mut TaskCallers,
)
    requires place { place < length tables.old.tasks }
    requires handles { length handles.old.items ≡ length tables.old.tasks }
    requires of { (handle : TaskSight) → slice_get handles.old.items place ≡ Some handle → handle.token.ledger ≡ hand.old.token.ledger }
    ensures reads { (handle : TaskSight) × (read : TaskSight) × (row : TaskRow) × (slice_get handles.old.items place ≡ Some handle) × ReadsBeside task_ledger hand.old handle row hand.new read
        × (handles.new.items ≡ slice_set handles.old.items place read)
        × (tables.new ≡ record tables.old { tasks = changed_at (λ item. task_at item row) tables.old.tasks place }) }
    ensures alone { told.new ≡ record told.old { tasks = told.new.tasks } }
    ensures told { TellsSame task_at tables.old.tasks told.old.tasks tables.new.tasks told.new.tasks }
{
    read_at(rt, &mut tables.tasks, &mut told.tasks, handles, place, hand);
}

/// The handle of a resource at a place reads beside its hand.
pub(crate) fn read_resource_at<R: Wait>(
    rt: &R,
    tables: &mut Tables,
    told: &mut ToldTables,
    handles: &mut Vec<ResourceInspector>,
    place: usize,
    hand: &mut ResourceCallers,
)
    requires place { place < length tables.old.resources }
    requires handles { length handles.old.items ≡ length tables.old.resources }
    requires of { (handle : ResourceSight) → slice_get handles.old.items place ≡ Some handle → handle.token.ledger ≡ hand.old.token.ledger }
    ensures reads { (handle : ResourceSight) × (read : ResourceSight) × (row : ResourceRow) × (slice_get handles.old.items place ≡ Some handle) × ReadsBeside resource_ledger hand.old handle row hand.new read
        × (handles.new.items ≡ slice_set handles.old.items place read)
        × (tables.new ≡ record tables.old { resources = changed_at (λ item. resource_at item row) tables.old.resources place }) }
    ensures alone { told.new ≡ record told.old { resources = told.new.resources } }
    ensures told { TellsSame resource_at tables.old.resources told.old.resources tables.new.resources told.new.resources }
{
    read_at(
        rt,
        &mut tables.resources,
        &mut told.resources,
        handles,
        place,
        hand,
    );
}

/// The handle of an async operation at a place reads beside its hand.
pub(crate) fn read_op_at<R: Wait>(
    rt: &R,
    tables: &mut Tables,
    told: &mut ToldTables,
    handles: &mut Vec<OpInspector>,
    place: usize,
    hand: &mut OpCallers,
)
    requires place { place < length tables.old.ops }
    requires handles { length handles.old.items ≡ length tables.old.ops }
    requires of { (handle : OpSight) → slice_get handles.old.items place ≡ Some handle → handle.token.ledger ≡ hand.old.token.ledger }
    ensures reads { (handle : OpSight) × (read : OpSight) × (row : OpRow) × (slice_get handles.old.items place ≡ Some handle) × ReadsBeside op_ledger hand.old handle row hand.new read
        × (handles.new.items ≡ slice_set handles.old.items place read)
        × (tables.new ≡ record tables.old { ops = changed_at (λ item. op_at item row) tables.old.ops place }) }
    ensures alone { told.new ≡ record told.old { ops = told.new.ops } }
    ensures told { TellsSame op_at tables.old.ops told.old.ops tables.new.ops told.new.ops }
{
    read_at(rt, &mut tables.ops, &mut told.ops, handles, place, hand);
}
