//! What holds of the definitions by themselves.
ghost use Rattle.std.specs.Prelude.{ℕ};
ghost use Rattle.serde_json.specs.Data as spec;
ghost use Rattle.tk_json.specs.Small.{KeepsScalars, KeepsMembers, KeepsItems};

/// What a value says of which so many levels are kept: its number, its text and its flag; and where one level is kept at least, how
/// many members it has, what stands at each key, and its items, unless they are too many.
pub fn small_values_keep()
    ensures scalars { (d : spec.Data) (n : ℕ) → KeepsScalars d n }
    ensures members { (d : spec.Data) (n : ℕ) → KeepsMembers d n }
    ensures items { (d : spec.Data) (n : ℕ) → KeepsItems d n }
{}
