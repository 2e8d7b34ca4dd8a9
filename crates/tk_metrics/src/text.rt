//! The text of families, each piece put after what is written.
ghost use Rattle.std.specs.Prelude.{◌≡◌, ◌<◌, OnOk, decimal};
ghost use Rattle.tk_report.specs.Pieces.{Puts};
ghost use Rattle.tk_metrics.specs.Samples as spec;

use crate::family::{Family, FamilyKind};
use itoa::Buffer;
use std::alloc::AllocError;

pub(crate) fn put(out: &mut Vec<u8>, text: &str) -> Result<(), AllocError>
    ensures { OnOk result (Puts out.old.items out.new.items text.now) }
{
    out.extend_from_slice(text.as_bytes())
}

pub(crate) fn put_bytes(out: &mut Vec<u8>, bytes: &[u8]) -> Result<(), AllocError>
    ensures { OnOk result (Puts out.old.items out.new.items bytes.now) }
{
    out.extend_from_slice(bytes)
}

pub(crate) fn put_number(out: &mut Vec<u8>, number: u64) -> Result<(), AllocError>
    ensures { OnOk result (Puts out.old.items out.new.items (decimal number)) }
{
    let mut buffer = Buffer::new();
    put(out, buffer.format(number))
}

// ---- labels

fn put_escaped_byte(out: &mut Vec<u8>, byte: u8) -> Result<(), AllocError>
    ensures { OnOk result (Puts out.old.items out.new.items (spec.escaped_byte byte)) }
{
    match byte {
        b'\\' => put(out, "\\\\"),
        b'"' => put(out, "\\\""),
        b'\n' => put(out, "\\n"),
        _ => put_bytes(out, &[byte]),
    }
}

fn put_escaped(out: &mut Vec<u8>, text: &[u8]) -> Result<(), AllocError>
    ensures { OnOk result (Puts out.old.items out.new.items (spec.escaped text.now)) }
{
    for byte in text {
        put_escaped_byte(out, *byte)?;
    }
    Ok(())
}

pub(crate) fn put_label(out: &mut Vec<u8>, key: &str, value: &[u8]) -> Result<(), AllocError>
    ensures { OnOk result (Puts out.old.items out.new.items (spec.label key.now value.now)) }
{
    put(out, key)?;
    put(out, "=\"")?;
    put_escaped(out, value)?;
    put(out, "\"")
}

fn put_braced(out: &mut Vec<u8>, labels: &[u8]) -> Result<(), AllocError>
    ensures { OnOk result (Puts out.old.items out.new.items (spec.braced labels.now)) }
{
    if labels.is_empty() {
        return Ok(());
    }
    put(out, "{")?;
    put_bytes(out, labels)?;
    put(out, "}")
}

// ---- values

fn digit(number: u64, unit: u64) -> u8
    requires { 0 < unit }
    ensures { result ≡ spec.digit number unit }
{
    b'0' + (number / unit % 10) as u8
}

pub(crate) fn put_seconds(out: &mut Vec<u8>, nanos: u64) -> Result<(), AllocError>
    ensures { OnOk result (Puts out.old.items out.new.items (spec.seconds nanos)) }
{
    put_number(out, nanos / 1_000_000_000)?;
    let fraction = [
        b'.',
        digit(nanos, 100_000_000),
        digit(nanos, 10_000_000),
        digit(nanos, 1_000_000),
        digit(nanos, 100_000),
        digit(nanos, 10_000),
        digit(nanos, 1_000),
        digit(nanos, 100),
        digit(nanos, 10),
        digit(nanos, 1),
    ];
    put_bytes(out, &fraction)
}

// ---- families

fn kind_word(kind: FamilyKind) -> &'static str
    ensures { result.now ≡ spec.kind_word kind }
{
    match kind {
        FamilyKind::Counter => "counter",
        FamilyKind::Gauge => "gauge",
        FamilyKind::Histogram => "histogram",
    }
}

fn suffix(kind: FamilyKind) -> &'static str
    ensures { result.now ≡ spec.suffix kind }
{
    match kind {
        FamilyKind::Counter => "_total",
        FamilyKind::Gauge | FamilyKind::Histogram => "",
    }
}

fn put_name(out: &mut Vec<u8>, family: Family) -> Result<(), AllocError>
    ensures { OnOk result (Puts out.old.items out.new.items (spec.name_of family)) }
{
    put(out, family.base())?;
    put(out, suffix(family.kind()))
}

fn put_unit_line(out: &mut Vec<u8>, family: Family) -> Result<(), AllocError>
    ensures { OnOk result (Puts out.old.items out.new.items (spec.unit_line family)) }
{
    if !family.is_in_seconds() {
        return Ok(());
    }
    put(out, "# UNIT ")?;
    put(out, family.base())?;
    put(out, " seconds\n")
}

fn put_type_line(out: &mut Vec<u8>, family: Family) -> Result<(), AllocError>
    ensures { OnOk result (Puts out.old.items out.new.items (spec.type_line family)) }
{
    put(out, "# TYPE ")?;
    put_name(out, family)?;
    put(out, " ")?;
    put(out, kind_word(family.kind()))?;
    put(out, "\n")
}

fn put_help_line(out: &mut Vec<u8>, family: Family) -> Result<(), AllocError>
    ensures { OnOk result (Puts out.old.items out.new.items (spec.help_line family)) }
{
    put(out, "# HELP ")?;
    put_name(out, family)?;
    put(out, " ")?;
    put(out, family.help())?;
    put(out, "\n")
}

/// Puts what is said of a family before its samples.
pub(crate) fn put_head(out: &mut Vec<u8>, family: Family) -> Result<(), AllocError>
    ensures { OnOk result (Puts out.old.items out.new.items (spec.head_of family)) }
{
    put_type_line(out, family)?;
    put_unit_line(out, family)?;
    put_help_line(out, family)
}

fn put_value(out: &mut Vec<u8>, family: Family, value: u64) -> Result<(), AllocError>
    ensures { OnOk result (Puts out.old.items out.new.items (spec.value_of family value)) }
{
    if family.is_in_seconds() {
        put_seconds(out, value)
    } else {
        put_number(out, value)
    }
}

/// Puts a sample of a family.
pub(crate) fn put_sample(
    out: &mut Vec<u8>,
    family: Family,
    labels: &[u8],
    value: u64,
) -> Result<(), AllocError>
    ensures { OnOk result (Puts out.old.items out.new.items (spec.sample family (labels.now, value))) }
{
    put_name(out, family)?;
    put_braced(out, labels)?;
    put(out, " ")?;
    put_value(out, family, value)?;
    put(out, "\n")
}
