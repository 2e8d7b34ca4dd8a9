//! Laws of the definitions: each is the contract of a function that does nothing.
ghost use Rattle.std.specs.Prelude.{◌≡◌, ◌<◌, ◌≤◌, ◌+◌, ◌++◌, ℕ, List, length, sum_by};
ghost use Rattle.tk_core.specs.declared.task.row.TaskRow.{TaskRow};
ghost use Rattle.tk_stream.specs.Tables.{TablesView, empty_tables};
ghost use Rattle.tk_stream.specs.Times.{TaskTimes};
ghost use Rattle.tk_stream.specs.declared.tables.task.Task.{Task};
ghost use Rattle.tk_client.specs.Changes.{Timed};
ghost use Rattle.tk_client.specs.declared.any_warnings.AnyWarning.{AnyWarning};
ghost use Rattle.tk_reading.specs.Shown.{tables_of};
ghost use Rattle.tk_series.specs.Limited.{Begins, all_shown, names_of};
ghost use Rattle.tk_sites.specs.Laws.{AddsUpRows, AreSteady, most, over_all, sites_after, tasks_came, tasks_left};
ghost use Rattle.tk_sites.specs.Lines.{listed};
ghost use Rattle.tk_sites.specs.Sites.{sites_of, sites_until};
ghost use Rattle.tk_sites.specs.Span.{sums_since};
ghost use Rattle.tk_sites.specs.TimedLaws.{all_times, polls_in, site_polls, site_waits, waits_in};
ghost use Rattle.tk_sites.specs.TimedSites.{timed_sites};
ghost use Rattle.tk_sites.specs.declared.sums.Sums.{Sums};

/// Places lose nothing and count nothing twice: over all places a count or a time is the sum over the tasks that left, as they were last shown, and
/// those that are there. So are how many came, and how many left. That holds as long as no such sum passes 2^64 - 1.
pub fn places_add_up()
    ensures rows { (number : Sums → ℕ) (of_row : TaskRow → ℕ) (shown : List TablesView) (tables : TablesView) (warnings : List AnyWarning)
        → AddsUpRows number of_row
        → sum_by (λ (t : Task). of_row t.row) (tasks_left empty_tables shown) + sum_by (λ (t : Task). of_row t.row) tables.tasks ≤ most
        → over_all number (listed (sites_of shown tables warnings))
        ≡ sum_by (λ (t : Task). of_row t.row) (tasks_left empty_tables shown) + sum_by (λ (t : Task). of_row t.row) tables.tasks }
    ensures came { (shown : List TablesView) (tables : TablesView) (warnings : List AnyWarning)
        → length (tasks_came empty_tables shown) ≤ most
        → over_all (λ (s : Sums). s.tasks) (listed (sites_of shown tables warnings)) ≡ length (tasks_came empty_tables shown) }
    ensures left { (shown : List TablesView) (tables : TablesView) (warnings : List AnyWarning)
        → length (tasks_left empty_tables shown) ≤ most
        → over_all (λ (s : Sums). s.left) (listed (sites_of shown tables warnings)) ≡ length (tasks_left empty_tables shown) }
{}

/// The number of a place never changes as a stream goes on: the places after more lines begin with those that were there. The one more stands behind
/// the first 4,096.
pub fn numbers_stay()
    ensures { (shown more : List TablesView) (first later : List AnyWarning) → AreSteady empty_tables (shown ++ more)
        → Begins (names_of (sites_after shown first).first) (names_of (sites_after (shown ++ more) later).first) }
{}

/// The histograms of places lose nothing and count nothing twice: in each bucket all places have together what all tasks have, those that left, as they
/// were last shown, and those that are there. That holds as long as no such sum passes 2^64 - 1.
pub fn times_add_up()
    ensures polls { (bucket : ℕ) (seen : List Timed) (tables : TablesView) (times : List TaskTimes) → bucket < 14
        → sum_by (polls_in bucket) (all_times seen tables times) ≤ most
        → all_shown (site_polls bucket) (timed_sites seen tables times) ≡ sum_by (polls_in bucket) (all_times seen tables times) }
    ensures waits { (bucket : ℕ) (seen : List Timed) (tables : TablesView) (times : List TaskTimes) → bucket < 14
        → sum_by (waits_in bucket) (all_times seen tables times) ≤ most
        → all_shown (site_waits bucket) (timed_sites seen tables times) ≡ sum_by (waits_in bucket) (all_times seen tables times) }
{}

/// The histograms of a place stand where its sums do: both are of the same places, in the same order.
pub fn times_stand_with_sums()
    ensures { (seen : List Timed) (tables : TablesView) (times : List TaskTimes) (warnings : List AnyWarning)
        → names_of (timed_sites seen tables times).first ≡ names_of (sites_of (tables_of seen) tables warnings).first }
{}

/// Sums with what lasts are of the same places, in the same order: a place has one number, whichever of them are shown.
pub fn lasting_sums_stand_with_sums()
    ensures { (shown : List TablesView) (tables : TablesView) (warnings : List AnyWarning)
        → names_of (sites_until shown tables).first ≡ names_of (sites_of shown tables warnings).first }
{}

/// What a place had come to and what it came to since then is what it comes to at the end. That holds of its polls as long as these only grow.
pub fn spans_add_up()
    ensures { (old now : Sums) → old.polls ≤ now.polls → old.polls + (sums_since old now).polls ≡ now.polls }
{}
