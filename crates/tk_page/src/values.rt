//! An attribute's value, and its unit.
ghost use Rattle.std.specs.Prelude.{◌≡◌, OnOk};
ghost use Rattle.tk_page.specs.Values as spec;
ghost use Rattle.tk_paper.specs.Pieces.{Writes};

use std::alloc::AllocError;
use tk_ids::{AttrValue, Name};
use tk_paper::Paper;
use tk_paper::Part::{Count, Text};

// An attribute's number below zero has a sign.
fn sign_of(number: i64) -> &'static str
    ensures { result.now ≡ spec.sign_of number }
{
    if number < 0 { "-" } else { "" }
}

/// Puts an attribute's value.
pub(crate) fn put_value(paper: &mut Paper, value: AttrValue) -> Result<(), AllocError>
    ensures { OnOk result (Writes paper.old paper.new (spec.value_of value)) }
{
    match value {
        AttrValue::U64(number) => paper.put(&[Count(number)]),
        AttrValue::Bool(true) => paper.put(&[Text("true")]),
        AttrValue::Bool(false) => paper.put(&[Text("false")]),
        AttrValue::I64(number) => paper.put(&[Text(sign_of(number)), Count(number.unsigned_abs())]),
    }
}

/// Puts its unit, if it has one.
pub(crate) fn put_unit(paper: &mut Paper, unit: &Option<Name>) -> Result<(), AllocError>
    ensures { OnOk result (Writes paper.old paper.new (spec.unit unit.now)) }
{
    match unit {
        Some(unit) => paper.put(&[Text(" "), Text(unit.as_str())]),
        None => paper.put(&[]),
    }
}
