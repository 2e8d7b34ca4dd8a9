//! What is read of JSON, and lists of it.
ghost use Rattle.std.specs.Prelude.{◌≡◌, Option, map};
ghost use Rattle.serde_json.specs.Data.{Data};
ghost use Rattle.serde_json.specs.View.{view};
ghost use Rattle.tk_json.specs.Small.{small};
ghost use Rattle.tk_stream.specs.Outcome.{Answers, shaped};
ghost use Rattle.tk_stream.specs.Reading.{each_of};

use crate::error::LineError;
use serde_json::Value;
use std::alloc::Global;

/// A type whose values are read from lines.
pub(crate) trait Shaped: Drop {
    /// What a JSON value is.
    ghost shape: { Data → Option Self };

    fn of_value(alloc: Global, value: &Value) -> Result<Self, LineError>
        ensures { Answers (λ x. x) result (shaped (shape (view value.now))) };

    /// What is kept of a value, three levels deep, is the same.
    ghost keeps: { (d : Data) → shape (small d 3) ≡ shape d };
}

/// What each value of a list is.
pub(crate) fn list_of<T: Shaped>(alloc: Global, values: &[Value]) -> Result<Vec<T>, LineError>
    ensures { Answers (λ v. v.items) result (shaped (each_of T.shape (map view values.now))) }
{
    let mut list = Vec::new(alloc);
    for value in values {
        list.push(T::of_value(alloc, value)?)?;
    }
    Ok(list)
}
