//! What is said of a step, besides what tasks are charged with.
ghost use Rattle.std.specs.Prelude.{◌≡◌, ◌≤◌, ◌^◌, length, map, filter, IfOk, ℕ};
ghost use Rattle.tk_odd.specs.Charging as charging;
ghost use Rattle.tk_odd.specs.Sharing as sharing;
ghost use Rattle.tk_odd.specs.Steps as spec;

use crate::free::Free;
use crate::gain::waits;
use crate::moved::Moved;
use crate::waiters::Waiters;
use std::alloc::{AllocError, Global};

/// How many polls started in a step.
pub(crate) fn all_polls(moved: &[Moved]) -> u128
    requires { length moved.now ≤ 2 ^ 31 }
    ensures polls { result ≡ spec.all_polls moved.now }
    ensures most { result ≤ 2 ^ 95 }
{
    let mut sum = 0u128;
    for one in moved {
        let polls = one.gain.polls;
        sum += u128::from(polls);
    }
    sum
}

fn is_free(long: u64, moved: &[Moved]) -> bool
    ensures { result ≡ spec.is_free long moved.now }
{
    for one in moved {
        if long <= one.gain.longest {
            return false;
        }
    }
    true
}

/// What free steps were like, after a step in which so many polls started.
pub(crate) fn free_after(long: u64, time: u64, moved: &[Moved], polls: u128, free: Free) -> Free
    requires { polls ≡ spec.all_polls moved.now }
    ensures { result ≡ spec.free_after long time moved.now free }
{
    if is_free(long, moved) {
        free.with(time, polls)
    } else {
        free
    }
}

/// Whether everything stood still while a task ran, in a step in which so many polls started. In 128 bits no product is too large.
pub(crate) fn stood_still(long: u64, free: Free, moved: &[Moved], polls: u128, one: &Moved) -> bool
    requires { polls ≡ spec.all_polls moved.now }
    ensures { result ≡ spec.stood_still long free moved.now one.now }
{
    let ran = u128::from(one.gain.ran);
    let lull = 2 * u128::from(free.longest) + 1;
    let time = u128::from(free.time);
    let expected = ran * u128::from(free.polls);
    long <= one.gain.longest
        && polls == u128::from(one.gain.polls)
        && lull <= ran
        && 1 <= time
        && 10 * time <= expected
}

/// Whether a task was polled that didn't wait at the begin of the step.
pub(crate) fn overtakes(first: &Waiters, moved: &[Moved]) -> bool
    ensures { result ≡ spec.overtakes first.now moved.now }
{
    for one in moved {
        if one.gain.polls >= 1 && !first.waited_for(0, one.task) {
            return true;
        }
    }
    false
}

// Whether a task was passed over in a step, in which one was polled that came later, or none was.
fn is_passed(wait: u64, first: &Waiters, moved: &[Moved], overtaken: bool, one: &Moved) -> bool
    requires { overtaken ≡ spec.overtakes first.now moved.now }
    ensures { result ≡ spec.is_passed wait first.now moved.now one.now }
{
    overtaken && one.gain.polls == 0 && waits(&one.row) && first.waited_for(wait, one.task)
}

/// Who was passed over in a step.
pub(crate) fn passed_over(
    alloc: Global,
    wait: u64,
    first: &Waiters,
    moved: &[Moved],
) -> Result<Vec<u64>, AllocError>
    ensures { IfOk result (λ list. list.items ≡ map (λ x. x.task) (filter (spec.is_passed wait first.now moved.now) moved.now)) }
{
    let overtaken = overtakes(first, moved);
    let mut list = Vec::new(alloc);
    for one in moved {
        if is_passed(wait, first, moved, overtaken, one) {
            list.push(one.task.value())?;
        }
    }
    Ok(list)
}

fn passed_time(wait: u64, first: &Waiters, moved: &[Moved]) -> u128
    requires { length moved.now ≤ 2 ^ 31 }
    ensures { result ≡ spec.passed_time wait first.now moved.now }
{
    let overtaken = overtakes(first, moved);
    let mut sum = 0u128;
    for one in moved {
        if is_passed(wait, first, moved, overtaken, one) {
            let waited = one.gain.waited;
            sum += u128::from(waited);
        }
    }
    sum
}

/// Whether tasks waited in the queue as long as a long poll for each poll, where so much was waited there and so many polls started.
pub(crate) fn is_overloaded(
    long: u64,
    wait: u64,
    first: &Waiters,
    moved: &[Moved],
    polls: u128,
    queued: u128,
) -> bool
    requires few { length moved.now ≤ 2 ^ 31 }
    requires polls { polls ≡ spec.all_polls moved.now }
    requires most { polls ≤ 2 ^ 95 }
    ensures { (time now : ℕ) → queued ≡ charging.queued long time now moved.now → result ≡ spec.is_overloaded long wait time now first.now moved.now }
{
    let spread = queued.saturating_sub(passed_time(wait, first, moved));
    let many = polls.max(1);
    u128::from(long) <= spread / many
}

/// Whether a task waited so much longer than all others ran, and wasn't passed over.
pub(crate) fn are_left_alone(
    long: u64,
    wait: u64,
    first: &Waiters,
    moved: &[Moved],
    ran: u128,
) -> bool
    requires { ran ≡ sharing.all_ran moved.now }
    ensures { result ≡ spec.are_left_alone long wait first.now moved.now }
{
    let overtaken = overtakes(first, moved);
    for one in moved {
        let others = ran.saturating_sub(u128::from(one.gain.ran));
        let least = others.saturating_add(u128::from(long));
        if least <= u128::from(one.gain.waited) && !is_passed(wait, first, moved, overtaken, one) {
            return true;
        }
    }
    false
}
