//! How rows are read from the ledgers of the items, all of them, or one beside the hand that holds its other callers.
ghost use Rattle.std.specs.Prelude.{◌≡◌, ◌<◌, length, slice_get, Some};
ghost use Rattle.tk_aggregator.specs.Absorbing.{infos_of};
ghost use Rattle.tk_aggregator.specs.Aggregates.{ReadsHistograms, ReadsHistogramBeside, IsLaterOf, IsSameStream, Refreshes, ReadsTasks, ReadsResources, ReadsOps};
ghost use Rattle.tk_aggregator.specs.Timing.{AreOfOwner, StaysOwner};
ghost use Rattle.tk_aggregator.specs.Beside.{AreOf, StaysHand, ReadsTaskBeside, ReadsResourceBeside, ReadsOpBeside};
ghost use Rattle.tk_core.specs.OpMeaning.{op_meaning};
ghost use Rattle.tk_core.specs.ResourceMeaning.{resource_meaning};
ghost use Rattle.tk_core.specs.TaskMeaning.{task_meaning};
ghost use Rattle.tk_ledgers.specs.Ops.{OpSight};
ghost use Rattle.tk_ledgers.specs.Resources.{ResourceSight};
ghost use Rattle.tk_ledgers.specs.Tasks.{TaskSight};
ghost use Rattle.tk_stream.specs.Places.{place_with};
ghost use Rattle.tk_stream.specs.Tables.{task_id, resource_id, op_id};

use super::Aggregator;
use crate::ledgered::{
    read_op_at, read_ops, read_resource_at, read_resources, read_task_at, read_tasks,
};
use std::sync::Wait;
use tk_ledgers::{OpCallers, ResourceCallers, TaskCallers, TimesOwner};

impl Aggregator {
    /// Reads the ledger of each item once, and the row of the item is what was read; where histograms are read, each of these once
    /// too. It takes no memory, and nothing else changes: the lines after it tell of the new rows.
    pub fn refresh<R: Wait>(&mut self, rt: &R)
        ensures reads { Refreshes self.old self.new }
        ensures later { IsLaterOf self.old self.new }
        ensures stays { IsSameStream self.old self.new }
        ensures same_infos { infos_of self.new.tables ≡ infos_of self.old.tables }
        ensures held { self.new.held ≡ self.old.held }
    {
        self.tables();
        self.refresh_tasks(rt);
        self.refresh_resources(rt);
        self.refresh_ops(rt);
        self.refresh_times(rt);
    }

    fn refresh_tasks<R: Wait>(&mut self, rt: &R)
        ensures { ReadsTasks self.old self.new }
    {
        read_tasks(rt, &mut self.tables, &mut self.told, &mut self.tasks);
    }

    fn refresh_resources<R: Wait>(&mut self, rt: &R)
        ensures { ReadsResources self.old self.new }
    {
        read_resources(rt, &mut self.tables, &mut self.told, &mut self.resources);
    }

    fn refresh_ops<R: Wait>(&mut self, rt: &R)
        ensures { ReadsOps self.old self.new }
    {
        read_ops(rt, &mut self.tables, &mut self.told, &mut self.ops);
    }

    /// Reads each histogram once, where they are read. It takes no memory, and nothing else changes.
    pub fn refresh_times<R: Wait>(&mut self, rt: &R)
        ensures { ReadsHistograms self.old self.new }
    {
        self.timing.refresh(rt);
    }

    /// Reads a task's histogram beside its owner: where there is one of the owner's task, it is that of the times that the owner has added, and
    /// of no others, and nothing else changes; where there is none, nothing does. It takes no memory. Readers of the owner's task have to be
    /// of its histogram.
    pub fn read_times_beside<R: Wait>(&mut self, rt: &R, owner: &mut TimesOwner)
        requires { AreOfOwner owner.old self.old.timing.readers }
        ensures reads { ReadsHistogramBeside owner.old self.old self.new }
        ensures owner { StaysOwner owner.old owner.new }
    {
        self.timing.read_beside(rt, owner);
    }

    /// Reads a task beside the hand that holds its other callers: where the tables have it, its row is that after just the calls of the
    /// hand, and nothing else changes; where they don't, nothing does. It takes no memory. Readers with the hand's id have to be of
    /// its ledger.
    pub fn read_task_beside<R: Wait>(&mut self, rt: &R, callers: &mut TaskCallers)
        requires { AreOf task_meaning callers.old self.old.tasks }
        ensures reads { ReadsTaskBeside callers.old self.old self.new (place_with task_id callers.old.id self.old.tables.tasks) }
        ensures hand { StaysHand task_meaning callers.old callers.new }
    {
        self.tables();
        if let Some(place) = self.tables.task_place(callers.id()) {
            self.read_task_at(rt, place, callers);
        }
    }

    // Reads the one at a place.
    fn read_task_at<R: Wait>(&mut self, rt: &R, place: usize, callers: &mut TaskCallers)
        requires place { place < length self.old.tables.tasks }
        requires of { (reader : TaskSight) → slice_get self.old.tasks place ≡ Some reader → reader.token.ledger ≡ callers.old.token.ledger }
        ensures reads { ReadsTaskBeside callers.old self.old self.new (Some place) }
        ensures hand { StaysHand task_meaning callers.old callers.new }
    {
        read_task_at(
            rt,
            &mut self.tables,
            &mut self.told,
            &mut self.tasks,
            place,
            callers,
        );
    }

    /// Reads a resource beside the hand that holds its other callers: where the tables have it, its row is that after just the calls of the
    /// hand, and nothing else changes; where they don't, nothing does. It takes no memory. Readers with the hand's id have to be of
    /// its ledger.
    pub fn read_resource_beside<R: Wait>(&mut self, rt: &R, callers: &mut ResourceCallers)
        requires { AreOf resource_meaning callers.old self.old.resources }
        ensures reads { ReadsResourceBeside callers.old self.old self.new (place_with resource_id callers.old.id self.old.tables.resources) }
        ensures hand { StaysHand resource_meaning callers.old callers.new }
    {
        self.tables();
        if let Some(place) = self.tables.resource_place(callers.id()) {
            self.read_resource_at(rt, place, callers);
        }
    }

    // Reads the one at a place.
    fn read_resource_at<R: Wait>(&mut self, rt: &R, place: usize, callers: &mut ResourceCallers)
        requires place { place < length self.old.tables.resources }
        requires of { (reader : ResourceSight) → slice_get self.old.resources place ≡ Some reader → reader.token.ledger ≡ callers.old.token.ledger }
        ensures reads { ReadsResourceBeside callers.old self.old self.new (Some place) }
        ensures hand { StaysHand resource_meaning callers.old callers.new }
    {
        read_resource_at(
            rt,
            &mut self.tables,
            &mut self.told,
            &mut self.resources,
            place,
            callers,
        );
    }

    /// Reads an async operation beside the hand that holds its other callers: where the tables have it, its row is that after just the calls of the
    /// hand, and nothing else changes; where they don't, nothing does. It takes no memory. Readers with the hand's id have to be of
    /// its ledger.
    pub fn read_op_beside<R: Wait>(&mut self, rt: &R, callers: &mut OpCallers)
        requires { AreOf op_meaning callers.old self.old.ops }
        ensures reads { ReadsOpBeside callers.old self.old self.new (place_with op_id callers.old.id self.old.tables.ops) }
        ensures hand { StaysHand op_meaning callers.old callers.new }
    {
        self.tables();
        if let Some(place) = self.tables.op_place(callers.id()) {
            self.read_op_at(rt, place, callers);
        }
    }

    // Reads the one at a place.
    fn read_op_at<R: Wait>(&mut self, rt: &R, place: usize, callers: &mut OpCallers)
        requires place { place < length self.old.tables.ops }
        requires of { (reader : OpSight) → slice_get self.old.ops place ≡ Some reader → reader.token.ledger ≡ callers.old.token.ledger }
        ensures reads { ReadsOpBeside callers.old self.old self.new (Some place) }
        ensures hand { StaysHand op_meaning callers.old callers.new }
    {
        read_op_at(
            rt,
            &mut self.tables,
            &mut self.told,
            &mut self.ops,
            place,
            callers,
        );
    }
}
