//! Laws of the definitions: each is the contract of a function that does nothing.
ghost use Rattle.std.specs.Prelude.{◌≡◌, ◌≤◌, ◌-◌, ◌^◌, ◌++◌, ◌∷◌, [], ℕ, List, true};
ghost use Rattle.tk_metrics.specs.Families.{count_kind};
ghost use Rattle.tk_client.specs.Changes.{Timed, untimed};
ghost use Rattle.tk_reading.specs.Shown.{last_timed};
ghost use Rattle.tk_metrics.specs.Histograms.{all_times};
ghost use Rattle.tk_metrics.specs.Stays.{stays};
ghost use Rattle.tk_metrics.specs.Metrics.{count_of};
ghost use Rattle.tk_metrics.specs.Rising.{AreKnown, GoOn, NoneFalls, TimesGoOn, added, held_after, number_of, shares_after, shown_after, tables_after, times_after};
ghost use Rattle.tk_metrics.specs.Keys.{keys_after};
ghost use Rattle.tk_metrics.specs.declared.keys.Keys.{Keys};
ghost use Rattle.tk_metrics.specs.declared.apart.Apart.{Apart};
ghost use Rattle.tk_metrics.specs.declared.family.Count.{Count};
ghost use Rattle.tk_metrics.specs.declared.family.FamilyKind.TheVariants.{Counter};
ghost use Rattle.tk_metrics.specs.declared.family.Timing.{Timing};
ghost use Rattle.tk_odd.specs.declared.limits.Limits.{Limits};
ghost use Rattle.tk_series.specs.Totals.{AreWithin};
ghost use Rattle.tk_stream.specs.Tables.{AreDistinct, TablesView};

/// No counter of tasks falls by a line, by names or by places, while tasks that are still there go on, others come, and others leave: what has left
/// stays in the sums. Of each count it is taken that no task has more than 2^64 - 1.
pub fn no_count_falls()
    ensures { (by : Keys) (count : Count) (labels : List ℕ) (shown : List TablesView) (tables : TablesView) → stays by.by ≡ true → count_kind count ≡ Counter
        → AreDistinct (tables_after shown) → GoOn by.by (tables_after shown).tasks tables.tasks
        → AreWithin (2 ^ 64 - 1) (count_of count) (added by shown) → AreWithin (2 ^ 64 - 1) (count_of count) (added by (shown ++ tables ∷ []))
        → shown_after by count labels shown ≤ shown_after by count labels (shown ++ tables ∷ []) }
{}

/// Nor does one where labels have an end, whichever of them stand by themselves then: what a line adds to them takes nothing from those that stood.
pub fn no_count_falls_past_the_end()
    ensures { (apart : Apart) (count : Count) (labels : List ℕ) (shown : List TablesView) (tables : TablesView) → stays apart.by ≡ true → count_kind count ≡ Counter
        → AreDistinct (tables_after shown) → GoOn apart.by (tables_after shown).tasks tables.tasks → AreKnown apart.by shown
        → AreWithin (2 ^ 64 - 1) (count_of count) (added (keys_after apart (shown ++ tables ∷ [])) shown)
        → AreWithin (2 ^ 64 - 1) (count_of count) (added (keys_after apart (shown ++ tables ∷ [])) (shown ++ tables ∷ []))
        → shown_after (keys_after apart shown) count labels shown ≤ shown_after (keys_after apart (shown ++ tables ∷ [])) count labels (shown ++ tables ∷ []) }
{}

/// No sample of a histogram of tasks falls by a line, by names or by places, while the histograms of tasks that are still there go on, others come, and
/// others leave with their tasks: what has left stays in the sums. Of each sample it is taken that no task has more than 2^64 - 1.
pub fn no_histogram_falls()
    ensures { (timing : Timing) (by : Keys) (key : List ℕ) (timed : List Timed) (next : Timed) → stays by.by ≡ true
        → AreDistinct (last_timed untimed timed).0 → TimesGoOn timing by (last_timed untimed timed).1 next (last_timed untimed timed).0.tasks
        → AreWithin (2 ^ 64 - 1) number_of (all_times timing by timed) → AreWithin (2 ^ 64 - 1) number_of (all_times timing by (timed ++ next ∷ []))
        → times_after timing by key timed ≤ times_after timing by key (timed ++ next ∷ []) }
{}

/// What places are charged with never falls by a line, and neither does what was waited: for long polls, in the queue and for nobody.
pub fn no_blame_falls()
    ensures held { (limits : Limits) (place : List ℕ) (shown : List TablesView) (tables : TablesView)
        → held_after limits place shown ≤ held_after limits place (shown ++ tables ∷ []) }
    ensures waited { (limits : Limits) (shown : List TablesView) (tables : TablesView)
        → NoneFalls (shares_after limits shown) (shares_after limits (shown ++ tables ∷ [])) }
{}
