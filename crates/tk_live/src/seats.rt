//! What a script names by numbers, from 1.
ghost use Rattle.std.specs.Prelude.{◌≡◌, ◌⊎◌, ◌+◌, ◌-◌, ◌<◌, ◌≤◌, length, IfSome, IfNone, Some, None, true, false, is_some};
ghost use Rattle.tk_live.specs.Named.{made_item, live_item, with_item};
ghost use Rattle.tk_live.specs.declared.items.OpItem.{OpItem as Op};
ghost use Rattle.tk_live.specs.declared.items.ResourceItem.{ResourceItem as Resource};
ghost use Rattle.tk_live.specs.declared.items.TaskItem.{TaskItem as Task};

use crate::items::{OpItem, ResourceItem, TaskItem, WakerItem};

/// Whether a number names an item that was made.
pub(crate) fn is_made<H: Drop>(items: &Vec<H>, number: u64) -> bool
    ensures made { result ≡ is_some (made_item number items.now.items) }
{
    1 <= number && number as usize <= items.len()
}

/// The place of the task of a number, if it was made and isn't closed.
pub(crate) fn open_task(tasks: &Vec<TaskItem>, number: u64) -> Option<usize>
    ensures some { IfSome result (λ place. (number ≡ place + 1) × (place < length tasks.now.items) × ((t : Task) × (made_item number tasks.now.items ≡ Some t) × (t.closed ≡ false))) }
    ensures none { IfNone result ((made_item number tasks.now.items ≡ None) ⊎ ((t : Task) × (made_item number tasks.now.items ≡ Some t) × (t.closed ≡ true))) }
{
    let place = number.checked_sub(1)? as usize;
    let task = tasks.get(place)?;
    if task.closed { None } else { Some(place) }
}

/// The place of the resource of a number, if it was made and isn't closed.
pub(crate) fn open_resource(resources: &Vec<ResourceItem>, number: u64) -> Option<usize>
    ensures some { IfSome result (λ place. (number ≡ place + 1) × (place < length resources.now.items) × ((r : Resource) × (made_item number resources.now.items ≡ Some r) × (r.closed ≡ false))) }
    ensures none { IfNone result ((made_item number resources.now.items ≡ None) ⊎ ((r : Resource) × (made_item number resources.now.items ≡ Some r) × (r.closed ≡ true))) }
{
    let place = number.checked_sub(1)? as usize;
    let resource = resources.get(place)?;
    if resource.closed { None } else { Some(place) }
}

/// The place of the operation of a number, if it was made and isn't closed.
pub(crate) fn open_op(ops: &Vec<OpItem>, number: u64) -> Option<usize>
    ensures some { IfSome result (λ place. (number ≡ place + 1) × (place < length ops.now.items) × ((o : Op) × (made_item number ops.now.items ≡ Some o) × (o.closed ≡ false))) }
    ensures none { IfNone result ((made_item number ops.now.items ≡ None) ⊎ ((o : Op) × (made_item number ops.now.items ≡ Some o) × (o.closed ≡ true))) }
{
    let place = number.checked_sub(1)? as usize;
    let op = ops.get(place)?;
    if op.closed { None } else { Some(place) }
}

/// The waker of a number, if it was made and isn't spent.
pub(crate) fn live_waker(wakers: &Vec<Option<WakerItem>>, number: u64) -> Option<WakerItem>
    ensures { result ≡ live_item number wakers.now.items }
{
    let place = number.checked_sub(1)? as usize;
    *wakers.get(place)?
}

/// The waker of a number is spent.
pub(crate) fn spend_waker(wakers: &mut Vec<Option<WakerItem>>, number: u64)
    ensures { wakers.new.items ≡ with_item number None wakers.old.items }
{
    if let Some(seat) = wakers.get_mut(number.saturating_sub(1) as usize) {
        *seat = None;
    }
}

/// Takes out what a number names, if it was made and isn't spent.
pub(crate) fn take_seat<H: Drop>(seats: &mut Vec<Option<H>>, number: u64) -> Option<H>
    ensures taken { result ≡ live_item number seats.old.items }
    ensures left { IfSome result (λ h. seats.new.items ≡ with_item number None seats.old.items) }
    ensures same { IfNone result (seats.new.items ≡ seats.old.items) }
{
    let index = number.checked_sub(1)? as usize;
    seats.get_mut(index)?.take()
}

/// Puts something at the place of a number.
pub(crate) fn put_seat<H: Drop>(seats: &mut Vec<Option<H>>, number: u64, handle: H)
    requires { (1 ≤ number) × (number - 1 < length seats.old.items) }
    ensures { seats.new.items ≡ with_item number (Some handle) seats.old.items }
{
    seats[number as usize - 1] = Some(handle);
}
