//! Which kinds of findings there are.
ghost use Rattle.std.specs.Prelude.{◌≡◌, IfOk, OnOk, flat_map, string_bytes};
ghost use Rattle.tk_odd.specs.Words.{kinds};
ghost use Rattle.tk_report.specs.Pieces.{Puts};
ghost use Rattle.tk_found.specs.Lines as spec;

use std::alloc::{AllocError, Global};
use std::fmt::Write;
use tk_odd::{OddKind, kinds};

fn put_kind(out: &mut String, kind: OddKind) -> Result<(), AllocError>
    ensures { OnOk result (Puts (string_bytes out.old) (string_bytes out.new) (spec.kind_line kind)) }
{
    let (name, advice) = (kind.name(), kind.advice());
    writeln!(out, "  {name}: {advice}")
}

fn put_kinds(out: &mut String) -> Result<(), AllocError>
    ensures { OnOk result (Puts (string_bytes out.old) (string_bytes out.new) (flat_map spec.kind_line kinds)) }
{
    for kind in &kinds() {
        put_kind(out, *kind)?;
    }
    Ok(())
}

/// A line for each kind of finding, after two spaces: its name, and what to do about it. `AllocError`: there was no memory.
pub fn kinds_text(alloc: Global) -> Result<String, AllocError>
    ensures { IfOk result (λ text. string_bytes text ≡ spec.kind_lines) }
{
    let mut text = String::new(alloc);
    put_kinds(&mut text)?;
    Ok(text)
}
