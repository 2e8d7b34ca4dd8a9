//! The numbers of a line, read from JSON.
ghost use Rattle.std.specs.Prelude.{◌≡◌, map, IfSome, true};
ghost use Rattle.serde_json.specs.View.{view};
ghost use Rattle.tk_stream.specs.Lines.{is_seq};
ghost use Rattle.tk_stream.specs.Reading as spec;
ghost use Rattle.tk_stream.specs.Spelled as spelled;

use crate::text::read_json::fields::{flag_at, has_members, list_at, number_at};
use serde_json::Value;
use tk_ids::Dropped;

fn dropped_in(values: &[Value]) -> Option<Dropped>
    ensures { result ≡ spec.dropped_in (map view values.now) }
{
    match values {
        [tasks, resources, ops] => Some(Dropped {
            tasks: tasks.as_u64()?,
            resources: resources.as_u64()?,
            ops: ops.as_u64()?,
        }),
        _ => None,
    }
}

fn seq_at(value: &Value, key: &str) -> Option<u64>
    ensures { result ≡ spec.seq_at key.now (view value.now) }
{
    let seq = number_at(value, key)?;
    if 1 <= seq && seq <= 1 << 63 {
        Some(seq)
    } else {
        None
    }
}

/// Which keys a line has. From `Two` on it says what is gone, and in `Three` it tells histograms of poll times.
#[derive(Clone, Copy)]
pub(crate) enum Version {
    One,
    Two,
    Three,
}

/// The numbers of a line, and its version.
#[derive(Drop)]
pub(crate) struct Numbers {
    pub(crate) dropped: Dropped,
    pub(crate) now: u64,
    pub(crate) seq: u64,
    pub(crate) snapshot: bool,
    pub(crate) version: Version,
}

// The version of the format that a number is, where the value has as many keys.
fn version_at(version: u64, value: &Value) -> Option<Version>
    ensures { result ≡ spelled.version_at version (view value.now) }
{
    if version == 1 && has_members(value, 12) {
        Some(Version::One)
    } else if version == 2 && has_members(value, 15) {
        Some(Version::Two)
    } else if version == 3 && has_members(value, 16) {
        Some(Version::Three)
    } else {
        None
    }
}

// Which of the other versions' keys a line has: one of version 4 has those of 1, 2 or 3, by how many they are.
fn keys_of(version: u64, value: &Value) -> u64
    ensures { result ≡ spec.keys_of version (view value.now) }
{
    if version != 4 {
        version
    } else if has_members(value, 12) {
        1
    } else if has_members(value, 15) {
        2
    } else {
        3
    }
}

/// The numbers of the line that a value is.
#[tactic(auto, unfolding(crate::specs::Spelled::numbers_of))]
pub(crate) fn numbers_of(value: &Value) -> Option<Numbers>
    ensures numbers { result ≡ spelled.numbers_of (view value.now) }
    ensures seq { IfSome result (λ n. is_seq n.seq ≡ true) }
{
    let number = number_at(value, "v")?;
    let version = version_at(keys_of(number, value), value)?;
    let dropped = dropped_in(list_at(value, "dropped")?)?;
    let now = number_at(value, "now")?;
    let seq = seq_at(value, "seq")?;
    let snapshot = flag_at(value, "snapshot")?;
    Some(Numbers {
        dropped,
        now,
        seq,
        snapshot,
        version,
    })
}
