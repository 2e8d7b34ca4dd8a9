//! Laws of the definitions: each is the contract of a function that does nothing.
ghost use Rattle.std.specs.Prelude.{◌≡◌, ◌≤◌, ◌++◌, ℕ, List, min, sum_by, true};
ghost use Rattle.tk_series.specs.Limited.{Begins, all_shown, limited, names_of, rest_shown, sum_of, values_beside};
ghost use Rattle.tk_series.specs.Series.{is_seen, series_of};
ghost use Rattle.tk_series.specs.Totals.{AddsUp, AreWithin, shown_at, sum_at};

use crate::series::Added;

/// Series lose nothing and count nothing twice: what they show of some labels is the sum over all values that have these, up to the
/// most that there is.
pub fn series_add_up<V: Added>()
    ensures { (most : ℕ) (number : V → ℕ) (labels : List ℕ) (xs : List (List ℕ × V))
        → AddsUp most V.plus number → AreWithin most number xs
        → shown_at number labels (series_of V.plus xs) ≡ min (sum_at number labels xs) most }
{}

/// So do series of which the first so many stand by themselves. What one of these shows is the sum over all values with its labels. What the rest
/// shows is that over all values without a series of their own. Each goes up to the most that there is; below that, all that is shown is all that was added.
pub fn limited_add_up<V: Added>()
    ensures own { (room most : ℕ) (number : V → ℕ) (labels : List ℕ) (xs : List (List ℕ × V))
        → AddsUp most V.plus number → AreWithin most number xs → is_seen (names_of (limited room V.plus xs).first) labels ≡ true
        → shown_at number labels (limited room V.plus xs).first ≡ min (sum_at number labels xs) most }
    ensures rest { (room most : ℕ) (number : V → ℕ) (xs : List (List ℕ × V))
        → AddsUp most V.plus number → AreWithin most number xs
        → rest_shown number (limited room V.plus xs) ≡ min (sum_by number (values_beside (names_of (limited room V.plus xs).first) xs)) most }
    ensures all { (room most : ℕ) (number : V → ℕ) (xs : List (List ℕ × V))
        → AddsUp most V.plus number → sum_of number xs ≤ most
        → all_shown number (limited room V.plus xs) ≡ sum_of number xs }
{}

/// Labels that stand by themselves stay so, each at its place, whatever is added later. Those that were added and found no room never find any.
pub fn limited_stay<V: Added>()
    ensures own { (room : ℕ) (xs more : List (List ℕ × V))
        → Begins (names_of (limited room V.plus xs).first) (names_of (limited room V.plus (xs ++ more)).first) }
    ensures beside { (room : ℕ) (labels : List ℕ) (xs more : List (List ℕ × V)) → is_seen (names_of xs) labels ≡ true
        → is_seen (names_of (limited room V.plus (xs ++ more)).first) labels ≡ is_seen (names_of (limited room V.plus xs).first) labels }
{}
