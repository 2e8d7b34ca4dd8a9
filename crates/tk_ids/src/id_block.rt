//! Where a recorder's ids come from: one count for each kind of item.
ghost use Rattle.std.specs.Prelude.{◌≡◌, ◌≤◌, ◌+◌, true, if◌then◌else◌, IfOk};
ghost use Rattle.tk_ids.specs.Ids.{is_id, recorder_of, number_of};
ghost use Rattle.tk_ids.specs.IdBlocks.{Given, is_recorder, is_given, next_id, given_after, last_number};

use crate::error::IdError;
use crate::id::{AsyncOpId, MOST_RECORDERS, ResourceId, TaskId};
use std::marker::Model;

const LAST_NUMBER: u64 = (1 << 40) - 1;

/// The ids that one recorder gives out: of each kind the next is one above the last.
///
/// Two blocks of one recorder would give out the same ids, so that a recorder keeps to one.
#[derive(Debug, Drop)]
pub struct IdBlock {
    recorder: u64,
    tasks: u64,
    resources: u64,
    ops: u64,
}

impl Model for IdBlock {
    ghost use Rattle.std.specs.Prelude.{◌≡◌, true};
    ghost use Rattle.tk_ids.specs.IdBlocks.{Given, is_given};

    ghost Value = { Given };

    ghost view = { λ b. record { recorder = b.recorder; tasks = b.tasks; resources = b.resources; ops = b.ops } };

    ghost invariant = { λ b. is_given (record {
      recorder = b.recorder;
      tasks = b.tasks;
      resources = b.resources;
      ops = b.ops;
    }) ≡ true };
}

fn next_id(recorder: u64, given: u64) -> Result<u64, IdError>
    requires recorder { is_recorder recorder ≡ true }
    requires given { given ≤ last_number }
    ensures next { result ≡ next_id recorder given }
    ensures id { IfOk result (λ id. is_id id ≡ true) }
    ensures parts { IfOk result (λ id. (recorder_of id ≡ recorder) × (number_of id ≡ given + 1)) }
{
    if given == LAST_NUMBER {
        Err(IdError::IdsSpent)
    } else {
        Ok((recorder << 40) + given + 1)
    }
}

impl IdBlock {
    /// A block of recorder `r` that has given out no id.
    ///
    /// `BadId` where `r` is not in 1 to 64.
    pub fn new(r: u64) -> Result<IdBlock, IdError>
        ensures { let none : Given = record { recorder = r; tasks = 0; resources = 0; ops = 0 } in
            result ≡ if is_recorder r then Ok none else Err IdError.BadId }
    {
        IdBlock::resume(r, 0, 0, 0)
    }

    /// A block of recorder `r` that has given out so many ids of each kind, as an earlier block of this recorder did.
    ///
    /// `BadId` where `r` is not in 1 to 64, or a count is above 2^40 - 1.
    pub fn resume(r: u64, tasks: u64, resources: u64, ops: u64) -> Result<IdBlock, IdError>
        ensures { let given : Given = record { recorder = r; tasks = tasks; resources = resources; ops = ops } in
            result ≡ if is_given given then Ok given else Err IdError.BadId }
    {
        let counts_fit = tasks <= LAST_NUMBER && resources <= LAST_NUMBER && ops <= LAST_NUMBER;
        if 1 <= r && r <= MOST_RECORDERS && counts_fit {
            Ok(IdBlock {
                recorder: r,
                tasks,
                resources,
                ops,
            })
        } else {
            Err(IdError::BadId)
        }
    }

    /// The id of the recorder's next task.
    ///
    /// `IdsSpent` where the last one had the number 2^40 - 1, and then the block stays as it is.
    pub fn next_task(&mut self) -> Result<TaskId, IdError>
        ensures id { result ≡ next_id self.old.recorder self.old.tasks }
        ensures parts { IfOk result (λ id.
            (recorder_of id ≡ self.old.recorder) × (number_of id ≡ self.old.tasks + 1)) }
        ensures block { self.new ≡ record self.old { tasks = given_after self.old.tasks } }
    {
        let id = next_id(self.recorder, self.tasks)?;
        self.tasks += 1;
        TaskId::from_value(id)
    }

    /// The id of the recorder's next resource.
    ///
    /// `IdsSpent` where the last one had the number 2^40 - 1, and then the block stays as it is.
    pub fn next_resource(&mut self) -> Result<ResourceId, IdError>
        ensures id { result ≡ next_id self.old.recorder self.old.resources }
        ensures parts { IfOk result (λ id.
            (recorder_of id ≡ self.old.recorder) × (number_of id ≡ self.old.resources + 1)) }
        ensures block { self.new ≡ record self.old { resources = given_after self.old.resources } }
    {
        let id = next_id(self.recorder, self.resources)?;
        self.resources += 1;
        ResourceId::from_value(id)
    }

    /// The id of the recorder's next async operation.
    ///
    /// `IdsSpent` where the last one had the number 2^40 - 1, and then the block stays as it is.
    pub fn next_op(&mut self) -> Result<AsyncOpId, IdError>
        ensures id { result ≡ next_id self.old.recorder self.old.ops }
        ensures parts { IfOk result (λ id.
            (recorder_of id ≡ self.old.recorder) × (number_of id ≡ self.old.ops + 1)) }
        ensures block { self.new ≡ record self.old { ops = given_after self.old.ops } }
    {
        let id = next_id(self.recorder, self.ops)?;
        self.ops += 1;
        AsyncOpId::from_value(id)
    }

    /// The recorder.
    pub fn recorder(&self) -> u64
        ensures recorder { result ≡ self.now.recorder }
        ensures given { is_given self.now ≡ true }
    {
        self.recorder
    }

    /// How many ids of tasks it has given out.
    pub fn tasks(&self) -> u64
        ensures { result ≡ self.now.tasks }
    {
        self.tasks
    }

    /// How many ids of resources it has given out.
    pub fn resources(&self) -> u64
        ensures { result ≡ self.now.resources }
    {
        self.resources
    }

    /// How many ids of async operations it has given out.
    pub fn ops(&self) -> u64
        ensures { result ≡ self.now.ops }
    {
        self.ops
    }
}
