//! Which items a line says are gone.
ghost use Rattle.std.specs.Prelude.{◌≡◌, ◌++◌, option_map, IfOk, IfSome, OnOk};
ghost use Rattle.serde_json.specs.View.{view};
ghost use Rattle.serde_json.specs.Written.{compact_text, comma_if};
ghost use Rattle.tk_stream.specs.Pieces.{Puts, Takes};
ghost use Rattle.tk_stream.specs.Ranges as ranges;
ghost use Rattle.tk_stream.specs.Spelled as spelled;
ghost use Rattle.tk_stream.specs.Spelling as spec;

use crate::error::LineError;
use crate::tables::ranged::{Ranged, see_all};
use crate::text::read_json::fields::{op_id_of, resource_id_of, task_id_of};
use crate::text::read_json::listed::Listed;
use crate::text::read_json::shaped::Shaped;
use crate::text::read_own::pieces::{op_id, resource_id, take_number, take_text, task_id};
use crate::text::read_own::taken::{Taken, some_of, take_list};
use crate::text::write::pieces::put_text;
use crate::text::write::short::{ROOM, comma_before, number_before, put_short};
use crate::text::write::written::{Written, put_open};
use serde_json::Value;
use std::alloc::{AllocError, Global};
use std::marker::Model;
use tk_ids::{AsyncOpId, ResourceId, TaskId};

/// The ids of the items that are gone, each list in the order of the tables before.
#[derive(Debug, Drop)]
pub(crate) struct Gone {
    pub(crate) ops: Vec<AsyncOpId>,
    pub(crate) resources: Vec<ResourceId>,
    pub(crate) tasks: Vec<TaskId>,
}

impl Model for Gone {
    ghost use Rattle.tk_stream.specs.Lines.{GoneView};

    ghost Value = { GoneView };

    ghost view = { λ g. record { ops = g.ops.items; resources = g.resources.items; tasks = g.tasks.items } };
}

// ---- ids in lines

fn put_id(
    out: &mut Vec<u8>,
    scratch: &mut [u8; ROOM],
    later: bool,
    id: u64,
) -> Result<(), AllocError>
    ensures { OnOk result (Puts out.old.items out.new.items (comma_if later ++ compact_text (spec.number_data id))) }
{
    let at = number_before(scratch, ROOM, b"", id);
    let at = comma_before(scratch, at, later);
    put_short(out, scratch, at)?;
    Ok(())
}

impl Written for TaskId {
    ghost use Rattle.tk_stream.specs.Spelling.{number_data};

    ghost spelling = { number_data };

    fn write(
        &self,
        out: &mut Vec<u8>,
        scratch: &mut [u8; ROOM],
        later: bool,
    ) -> Result<(), AllocError> {
        put_id(out, scratch, later, self.value())
    }
}

impl Written for ResourceId {
    ghost use Rattle.tk_stream.specs.Spelling.{number_data};

    ghost spelling = { number_data };

    fn write(
        &self,
        out: &mut Vec<u8>,
        scratch: &mut [u8; ROOM],
        later: bool,
    ) -> Result<(), AllocError> {
        put_id(out, scratch, later, self.value())
    }
}

impl Written for AsyncOpId {
    ghost use Rattle.tk_stream.specs.Spelling.{number_data};

    ghost spelling = { number_data };

    fn write(
        &self,
        out: &mut Vec<u8>,
        scratch: &mut [u8; ROOM],
        later: bool,
    ) -> Result<(), AllocError> {
        put_id(out, scratch, later, self.value())
    }
}

impl Taken for TaskId {
    ghost use Rattle.tk_stream.specs.Spelling.{number_data};

    ghost spelling = { number_data };

    fn take(_alloc: Global, bytes: &[u8]) -> Result<Option<(TaskId, &[u8])>, AllocError> {
        let (number, rest) = some_of!(take_number(bytes, b""));
        let id = some_of!(task_id(number));
        Ok(Some((id, rest)))
    }
}

impl Taken for ResourceId {
    ghost use Rattle.tk_stream.specs.Spelling.{number_data};

    ghost spelling = { number_data };

    fn take(_alloc: Global, bytes: &[u8]) -> Result<Option<(ResourceId, &[u8])>, AllocError> {
        let (number, rest) = some_of!(take_number(bytes, b""));
        let id = some_of!(resource_id(number));
        Ok(Some((id, rest)))
    }
}

impl Taken for AsyncOpId {
    ghost use Rattle.tk_stream.specs.Spelling.{number_data};

    ghost spelling = { number_data };

    fn take(_alloc: Global, bytes: &[u8]) -> Result<Option<(AsyncOpId, &[u8])>, AllocError> {
        let (number, rest) = some_of!(take_number(bytes, b""));
        let id = some_of!(op_id(number));
        Ok(Some((id, rest)))
    }
}

impl Shaped for TaskId {
    ghost use Rattle.tk_stream.specs.Reading.{id_of as shape_of_id};
    ghost use Rattle.tk_stream.specs.SmallShapes.{id_small};

    ghost shape = { shape_of_id };

    fn of_value(_alloc: Global, value: &Value) -> Result<TaskId, LineError> {
        match task_id_of(value) {
            Some(id) => Ok(id),
            None => Err(LineError::BadShape),
        }
    }

    ghost keeps = { id_small };
}

impl Shaped for ResourceId {
    ghost use Rattle.tk_stream.specs.Reading.{id_of as shape_of_id};
    ghost use Rattle.tk_stream.specs.SmallShapes.{id_small};

    ghost shape = { shape_of_id };

    fn of_value(_alloc: Global, value: &Value) -> Result<ResourceId, LineError> {
        match resource_id_of(value) {
            Some(id) => Ok(id),
            None => Err(LineError::BadShape),
        }
    }

    ghost keeps = { id_small };
}

impl Shaped for AsyncOpId {
    ghost use Rattle.tk_stream.specs.Reading.{id_of as shape_of_id};
    ghost use Rattle.tk_stream.specs.SmallShapes.{id_small};

    ghost shape = { shape_of_id };

    fn of_value(_alloc: Global, value: &Value) -> Result<AsyncOpId, LineError> {
        match op_id_of(value) {
            Some(id) => Ok(id),
            None => Err(LineError::BadShape),
        }
    }

    ghost keeps = { id_small };
}

impl Gone {
    ghost use Rattle.tk_stream.specs.Ranges.{IsGone};

    /// Its ids are in the range of ids.
    pub(crate) fn see(&self)
        ensures { IsGone self.now }
    {
        see_all(&self.ops);
        see_all(&self.resources);
        see_all(&self.tasks);
    }
}

/// The ids of what is gone, where a line says it, are in the range of ids.
pub(crate) fn see_gone(gone: &Option<Gone>)
    ensures { IfSome gone.now ranges.IsGone }
{
    match gone {
        Some(gone) => gone.see(),
        None => {}
    }
}

/// The lists of what is gone, where a line says it, after another member.
pub(crate) fn put_gone(
    out: &mut Vec<u8>,
    scratch: &mut [u8; ROOM],
    gone: &Option<Gone>,
) -> Result<(), AllocError>
    ensures { OnOk result (Puts out.old.items out.new.items (spec.text_after (spec.gone_members gone.now))) }
{
    match gone {
        Some(gone) => put_lists(out, scratch, gone),
        None => Ok(()),
    }
}

fn put_lists(out: &mut Vec<u8>, scratch: &mut [u8; ROOM], gone: &Gone) -> Result<(), AllocError>
    ensures { OnOk result (Puts out.old.items out.new.items (spec.text_after (spec.gone_fields gone.now))) }
{
    put_open(out, scratch, b",\"gone_ops\":[", gone.ops.as_slice())?;
    put_open(
        out,
        scratch,
        b"],\"gone_resources\":[",
        gone.resources.as_slice(),
    )?;
    put_open(out, scratch, b"],\"gone_tasks\":[", gone.tasks.as_slice())?;
    put_text(out, b"]")?;
    Ok(())
}

/// The lists of what is gone, where they come next.
pub(crate) fn take_gone(
    alloc: Global,
    bytes: &[u8],
) -> Result<Option<(Option<Gone>, &[u8])>, AllocError>
    ensures { IfOk result (λ o. IfSome o (λ x. Takes bytes.now (spec.text_after (spec.gone_members x.0)) x.1.now)) }
{
    if take_text(bytes, b",\"gone_ops\":").is_none() {
        return Ok(Some((None, bytes)));
    }
    let (gone, rest) = some_of!(take_lists(alloc, bytes)?);
    Ok(Some((Some(gone), rest)))
}

fn take_lists(alloc: Global, bytes: &[u8]) -> Result<Option<(Gone, &[u8])>, AllocError>
    ensures { IfOk result (λ o. IfSome o (λ x. Takes bytes.now (spec.text_after (spec.gone_fields x.0)) x.1.now)) }
{
    let (ops, rest) = some_of!(take_list(alloc, bytes, b",\"gone_ops\":[")?);
    let (resources, rest) = some_of!(take_list(alloc, rest, b",\"gone_resources\":[")?);
    let (tasks, rest) = some_of!(take_list(alloc, rest, b",\"gone_tasks\":[")?);
    let gone = Gone {
        ops,
        resources,
        tasks,
    };
    Ok(Some((gone, rest)))
}

/// What is gone, where all three lists say it.
pub(crate) fn gone_with(
    ops: Listed<AsyncOpId>,
    resources: Listed<ResourceId>,
    tasks: Listed<TaskId>,
) -> Option<Gone>
    ensures { result ≡ spelled.gone_with (option_map (λ v. v.items) ops) (option_map (λ v. v.items) resources) (option_map (λ v. v.items) tasks) }
{
    Some(Gone {
        ops: ops?,
        resources: resources?,
        tasks: tasks?,
    })
}
