//! When two rows are the same.
ghost use Rattle.std.specs.Prelude.{◌≡◌};
ghost use Rattle.tk_stream.specs.Rows as rows;

use tk_core::{OpRow, ResourceRow, TaskRow};
use tk_ids::AttrValue;

pub(crate) fn same_row(a: &TaskRow, b: &TaskRow) -> bool
    ensures { result ≡ rows.same_row a.now b.now }
{
    a == b
}

fn same_values(a: &[AttrValue], b: &[AttrValue]) -> bool
    ensures { result ≡ rows.same_values a.now b.now }
{
    a == b
}

pub(crate) fn same_resource_row(a: &ResourceRow, b: &ResourceRow) -> bool
    ensures { result ≡ rows.same_resource_row a.now b.now }
{
    a.created == b.created
        && a.dropped == b.dropped
        && a.handles == b.handles
        && same_values(a.attrs.list().as_slice(), b.attrs.list().as_slice())
}

pub(crate) fn same_op_row(a: &OpRow, b: &OpRow) -> bool
    ensures { result ≡ rows.same_op_row a.now b.now }
{
    a.created == b.created
        && a.dropped == b.dropped
        && a.polls == b.polls
        && a.first_poll == b.first_poll
        && a.last_started == b.last_started
        && a.last_ended == b.last_ended
        && a.busy == b.busy
        && a.handles == b.handles
        && a.task == b.task
        && a.polling == b.polling
        && same_values(a.attrs.list().as_slice(), b.attrs.list().as_slice())
}
