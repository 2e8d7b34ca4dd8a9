//! How many tasks wait.
ghost use Rattle.std.specs.Prelude.{◌≡◌, OnOk, string_bytes};
ghost use Rattle.tk_screen.specs.Texts.{Puts};
ghost use Rattle.tk_frame.specs.Waiting as spec;

use crate::cells::put_text;
use std::alloc::AllocError;
use std::fmt::Write;
use tk_odd::Waiting;
use tk_screen::put_duration;

fn wait_words(count: u64) -> &'static str
    ensures { result.now ≡ spec.wait_words count }
{
    if count == 1 {
        " task waits"
    } else {
        " tasks wait"
    }
}

fn put_count(out: &mut String, count: u64) -> Result<(), AllocError>
    ensures { OnOk result (Puts (string_bytes out.old) (string_bytes out.new) (spec.count_text count)) }
{
    let words = wait_words(count);
    write!(out, "{count}{words}")
}

fn put_time(out: &mut String, time: u64) -> Result<(), AllocError>
    ensures { OnOk result (Puts (string_bytes out.old) (string_bytes out.new) (spec.time_text time)) }
{
    put_text(out, ", the longest for ")?;
    put_duration(out, time)?;
    Ok(())
}

fn put_longest(out: &mut String, waiting: Waiting) -> Result<(), AllocError>
    ensures { OnOk result (Puts (string_bytes out.old) (string_bytes out.new) (spec.longest_text waiting)) }
{
    if waiting.count == 0 {
        return Ok(());
    }
    put_time(out, waiting.longest)
}

/// Puts how many tasks wait, and for how long the longest of them does.
pub(crate) fn put_waiting(out: &mut String, waiting: Waiting) -> Result<(), AllocError>
    ensures { OnOk result (Puts (string_bytes out.old) (string_bytes out.new) (spec.waiting_text waiting)) }
{
    put_count(out, waiting.count)?;
    put_longest(out, waiting)?;
    Ok(())
}
