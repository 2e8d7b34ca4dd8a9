//! Histograms of poll times and of waits, read from JSON.
ghost use Rattle.std.specs.Prelude.{◌≡◌, map};
ghost use Rattle.serde_json.specs.View.{view};
ghost use Rattle.tk_stream.specs.Outcome.{Answers, shaped};
ghost use Rattle.tk_stream.specs.Reading as spec;

use crate::error::LineError;
use crate::tables::times::{PollTimes, WaitTimes, counts_of};
use crate::text::read_json::fields::{has_members, list_at, number_at, task_id_at};
use crate::text::read_json::shaped::{Shaped, list_of};
use crate::text::read_json::stats::values_of;
use serde_json::Value;
use std::alloc::Global;
use tk_ids::TaskId;

fn filled_in(values: &[Value]) -> Option<(u64, u64)>
    ensures { result ≡ spec.filled_in (map view values.now) }
{
    match values {
        [bucket, count] => Some((bucket.as_u64()?, count.as_u64()?)),
        _ => None,
    }
}

fn filled_of(value: &Value) -> Option<(u64, u64)>
    ensures { result ≡ spec.filled_of (view value.now) }
{
    filled_in(values_of(value)?)
}

/// A bucket that isn't empty, and its count.
impl Shaped for (u64, u64) {
    ghost use Rattle.tk_stream.specs.Reading.{filled_of as shape_of_filled};
    ghost use Rattle.tk_stream.specs.SmallShapes.{filled_small};

    ghost shape = { shape_of_filled };

    fn of_value(_alloc: Global, value: &Value) -> Result<(u64, u64), LineError> {
        match filled_of(value) {
            Some(filled) => Ok(filled),
            None => Err(LineError::BadShape),
        }
    }

    ghost keeps = { filled_small };
}

#[tactic(auto, unfolding(crate::specs::Reading::buckets_in))]
fn buckets_in(alloc: Global, values: &[Value]) -> Result<[u64; 14], LineError>
    ensures { Answers (λ counts. counts) result (shaped (spec.buckets_in (map view values.now))) }
{
    let filled: Vec<(u64, u64)> = list_of(alloc, values)?;
    match counts_of(filled.as_slice()) {
        Some(counts) => Ok(counts),
        None => Err(LineError::BadShape),
    }
}

fn buckets_at(alloc: Global, value: &Value, key: &str) -> Result<[u64; 14], LineError>
    ensures { Answers (λ counts. counts) result (shaped (spec.buckets_at key.now (view value.now))) }
{
    match list_at(value, key) {
        Some(list) => buckets_in(alloc, list),
        None => Err(LineError::BadShape),
    }
}

#[tactic(auto, unfolding(crate::specs::Reading::wait_times_of))]
fn wait_times_of(alloc: Global, value: &Value) -> Result<WaitTimes, LineError>
    ensures { Answers (λ waits. waits) result (shaped (spec.wait_times_of (view value.now))) }
{
    let Some(longest) = number_at(value, "longest_wait") else {
        return Err(LineError::BadShape);
    };
    let counts = buckets_at(alloc, value, "waits")?;
    Ok(WaitTimes { longest, counts })
}

#[tactic(auto, unfolding(crate::specs::Reading::waits_beside))]
fn waits_beside(alloc: Global, value: &Value) -> Result<Option<WaitTimes>, LineError>
    ensures { Answers (λ waits. waits) result (shaped (spec.waits_beside (view value.now))) }
{
    if has_members(value, 3) {
        Ok(None)
    } else if has_members(value, 5) {
        let waits = wait_times_of(alloc, value)?;
        Ok(Some(waits))
    } else {
        Err(LineError::BadShape)
    }
}

impl Shaped for (TaskId, PollTimes) {
    ghost use Rattle.tk_stream.specs.Reading.{times_of as shape_of_times};
    ghost use Rattle.tk_stream.specs.SmallShapes.{times_small};

    ghost shape = { shape_of_times };

    #[tactic(auto, unfolding(crate::specs::Reading::times_of))]
    fn of_value(alloc: Global, value: &Value) -> Result<(TaskId, PollTimes), LineError> {
        let waits = waits_beside(alloc, value)?;
        let counts = buckets_at(alloc, value, "counts")?;
        let Some(id) = task_id_at(value, "id") else {
            return Err(LineError::BadShape);
        };
        let Some(longest) = number_at(value, "longest") else {
            return Err(LineError::BadShape);
        };
        let times = PollTimes {
            longest,
            counts,
            waits,
        };
        Ok((id, times))
    }

    ghost keeps = { times_small };
}
