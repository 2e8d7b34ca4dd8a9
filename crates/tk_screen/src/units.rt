//! Numbers in units that people read.
ghost use Rattle.std.specs.Prelude.{OnOk, string_bytes};
ghost use Rattle.tk_screen.specs.Texts as spec;
ghost use Rattle.tk_screen.specs.Texts.{Puts};

use std::alloc::AllocError;
use std::fmt::Write;

// So many tenths of a unit.
fn put_tenths(out: &mut String, tenths: u64, unit: &str) -> Result<(), AllocError>
    ensures { OnOk result (Puts (string_bytes out.old) (string_bytes out.new) (spec.tenths_text tenths unit.now)) }
{
    let whole = tenths / 10;
    let part = tenths % 10;
    write!(out, "{whole}.{part}{unit}")
}

/// Puts a time of so many nanoseconds, in the greatest unit of which it has one or more: `ns`, `us`, `ms` or `s`. From
/// microseconds on it has one decimal, and is rounded down: `999 ns`, `1.2 ms`.
pub fn put_duration(out: &mut String, nanos: u64) -> Result<(), AllocError>
    ensures { OnOk result (Puts (string_bytes out.old) (string_bytes out.new) (spec.duration_text nanos)) }
{
    if nanos < 1_000 {
        write!(out, "{nanos} ns")
    } else if nanos < 1_000_000 {
        put_tenths(out, nanos / 100, " us")
    } else if nanos < 1_000_000_000 {
        put_tenths(out, nanos / 100_000, " ms")
    } else {
        put_tenths(out, nanos / 100_000_000, " s")
    }
}

/// Puts a part of a whole in percent, rounded down: `53%`; a hyphen where the whole is 0.
pub fn put_share(out: &mut String, part: u64, whole: u64) -> Result<(), AllocError>
    ensures { OnOk result (Puts (string_bytes out.old) (string_bytes out.new) (spec.share_text part whole)) }
{
    if whole == 0 {
        return out.push_str("-");
    }
    let percent = 100 * u128::from(part) / u128::from(whole);
    write!(out, "{percent}%")
}
