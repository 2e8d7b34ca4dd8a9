//! The calls on a task's row.
ghost use Rattle.std.specs.Prelude.{◌≡◌};
ghost use Rattle.tk_core.specs.declared.task.call.TaskCall.TheVariants.{PollStart, PollEnd, Close, CloneWaker, WakeVal, WakeRef, Release};
ghost use Rattle.tk_core.specs.TaskMeaning.{task_meaning};
ghost use Rattle.tk_core.specs.Task.{opening_row, counting_row};
ghost use Rattle.tk_core.specs.TaskWords.{words_of};
ghost use Rattle.tk_embed.specs.Border.{Makes};

use crate::reply::code;
use crate::step::make;
use tk_core::{TaskCall, TaskRow};

/// The words of a task that was just created.
#[unsafe(no_mangle)]
pub extern "C" fn taskscope_task_open(created: u64, words: &mut [u64; 16])
    ensures { words.new ≡ words_of (opening_row created) }
{
    *words = TaskRow::opening(created).to_words();
}

/// The words of a task that was just created, whose waits are counted. Lines that tell of it are of version 4.
#[unsafe(no_mangle)]
pub extern "C" fn taskscope_task_open_counting(created: u64, words: &mut [u64; 16])
    ensures { words.new ≡ words_of (counting_row created) }
{
    *words = TaskRow::counting(created).to_words();
}

/// A poll starts. Refused with `AlreadyPolling`, `Closed`.
#[unsafe(no_mangle)]
pub extern "C" fn taskscope_task_start(words: &mut [u64; 16], moment: u64) -> u32
    ensures { Makes task_meaning words.old (PollStart moment) words.new result }
{
    code(make::<TaskRow>(words, TaskCall::PollStart(moment)))
}

/// The open poll ends. Refused with `NotPolling`, `Closed`.
#[unsafe(no_mangle)]
pub extern "C" fn taskscope_task_end(words: &mut [u64; 16], moment: u64) -> u32
    ensures { Makes task_meaning words.old (PollEnd moment) words.new result }
{
    code(make::<TaskRow>(words, TaskCall::PollEnd(moment)))
}

/// The task is closed. Refused with `Closed`, `AlreadyPolling`.
#[unsafe(no_mangle)]
pub extern "C" fn taskscope_task_close(words: &mut [u64; 16], moment: u64) -> u32
    ensures { Makes task_meaning words.old (Close moment) words.new result }
{
    code(make::<TaskRow>(words, TaskCall::Close(moment)))
}

/// A waker is cloned. Refused with `HandlesSpent`.
#[unsafe(no_mangle)]
pub extern "C" fn taskscope_task_clone(words: &mut [u64; 16]) -> u32
    ensures { Makes task_meaning words.old CloneWaker words.new result }
{
    code(make::<TaskRow>(words, TaskCall::CloneWaker))
}

/// A wake that uses its waker up.
#[unsafe(no_mangle)]
pub extern "C" fn taskscope_task_wake(words: &mut [u64; 16], moment: u64, from_self: bool) -> u32
    ensures { Makes task_meaning words.old (WakeVal moment from_self) words.new result }
{
    code(make::<TaskRow>(words, TaskCall::WakeVal(moment, from_self)))
}

/// A wake that keeps its waker.
#[unsafe(no_mangle)]
pub extern "C" fn taskscope_task_wake_by_ref(
    words: &mut [u64; 16],
    moment: u64,
    from_self: bool,
) -> u32
    ensures { Makes task_meaning words.old (WakeRef moment from_self) words.new result }
{
    code(make::<TaskRow>(words, TaskCall::WakeRef(moment, from_self)))
}

/// A waker is dropped without a wake.
#[unsafe(no_mangle)]
pub extern "C" fn taskscope_task_release(words: &mut [u64; 16]) -> u32
    ensures { Makes task_meaning words.old Release words.new result }
{
    code(make::<TaskRow>(words, TaskCall::Release))
}
