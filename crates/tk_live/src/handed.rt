//! The wakers that the threads of a block are handed.
ghost use Rattle.std.specs.Prelude.{◌≡◌, IfOk, IfErr};
ghost use Rattle.tk_live.specs.Handed.{Makes, IsLiveIn, PartsWaker, MayTakeBack, TakesWakerBack};
ghost use Rattle.tk_script.specs.declared.stop.Stop.TheVariants as stops;

use crate::items::{TaskItem, WakerItem};
use std::sync::Wait;
use tk_ledgers::{TaskReceipt, WakerHandle};
use tk_script::{Stop, WakerCall};

/// A waker that was handed out: live, or spent by its last call, with what it had seen then.
#[derive(Drop)]
pub(crate) enum Handed {
    Live(WakerHandle),
    Spent(TaskReceipt),
}

/// The wakers that a thread is handed, at their places from number 1.
pub(crate) type HandedWakers = Vec<Option<Handed>>;

/// A live waker makes a call. A spent one makes none.
pub(crate) fn make_call<R: Wait>(rt: &R, handed: Handed, call: WakerCall) -> Handed
    ensures { Makes call handed result }
{
    let waker = match handed {
        Handed::Live(waker) => waker,
        Handed::Spent(receipt) => return Handed::Spent(receipt),
    };
    let mut waker = waker;
    match call {
        WakerCall::WakeRef(moment) => {
            waker.wake_by_ref_from_outside(rt, moment);
            Handed::Live(waker)
        }
        WakerCall::Wake(moment) => {
            let (_found, receipt) = waker.wake_from_outside(rt, moment);
            Handed::Spent(receipt)
        }
        WakerCall::Release => Handed::Spent(waker.release(rt)),
    }
}

/// Hands a waker out of the hand of its task.
pub(crate) fn part_waker(tasks: &mut Vec<TaskItem>, waker: WakerItem) -> Result<Handed, Stop>
    requires { IsLiveIn tasks.old.items waker }
    ensures ok { IfOk result (PartsWaker waker tasks.old.items tasks.new.items) }
    ensures err { IfErr result (λ stop. stop ≡ stops.Memory) }
{
    match tasks[waker.task as usize - 1].callers.part(waker.number) {
        Ok(handle) => Ok(Handed::Live(handle)),
        Err(_) => Err(Stop::Memory),
    }
}

/// Takes a waker back into the hand of its task.
pub(crate) fn take_back_waker<R: Wait>(
    rt: &R,
    tasks: &mut Vec<TaskItem>,
    waker: WakerItem,
    handed: Handed,
)
    requires { MayTakeBack waker tasks.old.items handed }
    ensures { TakesWakerBack waker tasks.old.items tasks.new.items handed }
{
    let receipt = match handed {
        Handed::Live(handle) => handle.retire(),
        Handed::Spent(receipt) => receipt,
    };
    tasks[waker.task as usize - 1]
        .callers
        .take_back(rt, receipt);
}
