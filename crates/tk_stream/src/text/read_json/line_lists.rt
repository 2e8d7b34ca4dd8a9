//! The lists of a line, each found by its key.
ghost use Rattle.std.specs.Prelude.{◌≡◌, Some, None, Err, IfOk, MatchBool};
ghost use Rattle.json.specs.Json.{parse_map};
ghost use Rattle.serde_json.specs.Data.{no_members};
ghost use Rattle.tk_json.specs.Values.{value_read};
ghost use Rattle.tk_stream.specs.Spelled.{is_list_key, lists_in, lists_put, has_infos, has_stats, are_whole};

use crate::tables::times::PollTimes;
use crate::text::read_json::listed::{Listed, read_list};
use json::Reader;
use std::alloc::Global;
use std::marker::Model;
use tk_core::{OpRow, ResourceRow, TaskRow};
use tk_ids::{AsyncOpId, OpInfo, ResourceId, ResourceInfo, TaskId, TaskInfo};
use tk_json::JsonFault;

/// The lists of a line, as far as its keys were read.
#[derive(Drop)]
pub(crate) struct LineLists {
    pub(crate) gone_ops: Listed<AsyncOpId>,
    pub(crate) gone_resources: Listed<ResourceId>,
    pub(crate) gone_tasks: Listed<TaskId>,
    pub(crate) new_ops: Listed<OpInfo>,
    pub(crate) new_resources: Listed<ResourceInfo>,
    pub(crate) new_tasks: Listed<TaskInfo>,
    pub(crate) op_stats: Listed<(AsyncOpId, OpRow)>,
    pub(crate) poll_counts: Listed<(ResourceId, u64, u64)>,
    pub(crate) resource_stats: Listed<(ResourceId, ResourceRow)>,
    pub(crate) task_stats: Listed<(TaskId, TaskRow)>,
    pub(crate) task_times: Listed<(TaskId, PollTimes)>,
}

impl Model for LineLists {
    ghost use Rattle.std.specs.Prelude.{option_map};
    ghost use Rattle.tk_stream.specs.Spelled.{ListsView};

    ghost Value = { ListsView };

    ghost view = { λ s. record {
      gone_ops = option_map (λ v. v.items) s.gone_ops;
      gone_resources = option_map (λ v. v.items) s.gone_resources;
      gone_tasks = option_map (λ v. v.items) s.gone_tasks;
      new_ops = option_map (λ v. v.items) s.new_ops;
      new_resources = option_map (λ v. v.items) s.new_resources;
      new_tasks = option_map (λ v. v.items) s.new_tasks;
      op_stats = option_map (λ v. v.items) s.op_stats;
      poll_counts = option_map (λ v. v.items) s.poll_counts;
      resource_stats = option_map (λ v. v.items) s.resource_stats;
      task_stats = option_map (λ v. v.items) s.task_stats;
      task_times = option_map (λ v. v.items) s.task_times;
    } };
}

impl LineLists {
    /// Of a line of which no key was read.
    pub(crate) fn new() -> LineLists
        ensures { result ≡ lists_in no_members }
    {
        LineLists {
            gone_ops: None,
            gone_resources: None,
            gone_tasks: None,
            new_ops: None,
            new_resources: None,
            new_tasks: None,
            op_stats: None,
            poll_counts: None,
            resource_stats: None,
            task_stats: None,
            task_times: None,
        }
    }

    /// Reads the value that is next, where its key is that of a list. Where it isn't, nothing is read, and the answer is `false`.
    pub(crate) fn read_at(
        &mut self,
        alloc: Global,
        reader: &mut Reader<'_>,
        depth: usize,
        key: &str,
    ) -> Result<bool, JsonFault>
        ensures key { IfOk result (λ read. read ≡ is_list_key key.now) }
        ensures read { IfOk result (λ read. MatchBool read
            (parse_map (λ d. lists_put key.now d self.old) (value_read depth reader.old) ≡ Some (self.new, reader.new))
            ((self.new ≡ self.old) × (reader.new ≡ reader.old))) }
        ensures refused { result ≡ Err JsonFault.BadJson → value_read depth reader.old ≡ None }
    {
        if key == "gone_ops" {
            read_list(alloc, reader, depth, &mut self.gone_ops)?;
        } else if key == "gone_resources" {
            read_list(alloc, reader, depth, &mut self.gone_resources)?;
        } else if key == "gone_tasks" {
            read_list(alloc, reader, depth, &mut self.gone_tasks)?;
        } else if key == "new_ops" {
            read_list(alloc, reader, depth, &mut self.new_ops)?;
        } else if key == "new_resources" {
            read_list(alloc, reader, depth, &mut self.new_resources)?;
        } else if key == "new_tasks" {
            read_list(alloc, reader, depth, &mut self.new_tasks)?;
        } else if key == "op_stats" {
            read_list(alloc, reader, depth, &mut self.op_stats)?;
        } else if key == "poll_counts" {
            read_list(alloc, reader, depth, &mut self.poll_counts)?;
        } else if key == "resource_stats" {
            read_list(alloc, reader, depth, &mut self.resource_stats)?;
        } else if key == "task_stats" {
            read_list(alloc, reader, depth, &mut self.task_stats)?;
        } else if key == "task_times" {
            read_list(alloc, reader, depth, &mut self.task_times)?;
        } else {
            return Ok(false);
        }
        Ok(true)
    }

    fn has_infos(&self) -> bool
        ensures { result ≡ has_infos self.now }
    {
        self.new_ops.is_some() && self.new_resources.is_some() && self.new_tasks.is_some()
    }

    fn has_stats(&self) -> bool
        ensures { result ≡ has_stats self.now }
    {
        self.op_stats.is_some()
            && self.poll_counts.is_some()
            && self.resource_stats.is_some()
            && self.task_stats.is_some()
    }

    /// Whether each list is there that a line of any version has.
    pub(crate) fn are_whole(&self) -> bool
        ensures { result ≡ are_whole self.now }
    {
        self.has_infos() && self.has_stats()
    }
}
