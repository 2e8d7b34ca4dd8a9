//! Laws of the definitions: each is the contract of a function that does nothing.
ghost use Rattle.std.specs.Prelude.{◌≡◌, ◌+◌, ◌++◌, ℕ, List, [], None, Some, false, if◌then◌else◌, length, map, take};
ghost use Rattle.std.specs.List.{AllByRecursion};
ghost use Rattle.tk_stream.specs.declared.tables.task.Task.{Task};
ghost use Rattle.tk_stream.specs.Tables.{AreDistinct, TablesView, empty_tables, is_among, task_with};
ghost use Rattle.tk_client.specs.declared.fault.Fault.{Fault};
ghost use Rattle.tk_client.specs.declared.fault.FeedError.{FeedError};
ghost use Rattle.tk_client.specs.declared.warning.Warning.{Warning};
ghost use Rattle.tk_client.specs.Changes.{ChangeView, IsChange, Timed, left_id};
ghost use Rattle.tk_client.specs.Feeding.{ClientView, Took, Stopped};
ghost use Rattle.tk_client.specs.Meaning.{Start, empty_start, goes, stops, meaning, after};
ghost use Rattle.tk_client.specs.Streams.{AreShort, HasNoFault};
ghost use Rattle.tk_client.specs.Warnings.{LintsView, warnings_of};
ghost use Rattle.tk_stream.specs.Streams.{Sending, IsUninterrupted, lines_sent, bytes_sent, tables_sent, times_sent};

use tk_stream::laws::{lines_lead_on, lines_read_back};

/// Where bytes have no fault, the meaning of these and more is that of the others from where the first leave off: lines are
/// added up, and a fault's bytes are counted from the front of the first.
pub fn pieces_join()
    ensures { (max : ℕ) (s t : Start) (a b : List ℕ) (lines : ℕ) → meaning max s a ≡ goes t lines
        → meaning max s (a ++ b) ≡ after lines (length a) (meaning max t b) }
{}

/// What stands after a fault changes nothing.
pub fn faults_stay()
    ensures { (max : ℕ) (s : Start) (a b : List ℕ) (tables : TablesView) (lines used : ℕ) (fault : Fault)
        → meaning max s a ≡ stops tables lines fault used → meaning max s (a ++ b) ≡ stops tables lines fault used }
{}

/// An uninterrupted stream without a line that is too long has no fault, nor has a front of it, and the whole gives the tables
/// of its last line, or empty ones where it has no line, and the histograms that its lines lead to, with all of its lines applied and no
/// part of a line left.
pub fn streams_are_taken()
    ensures whole { (max : ℕ) (sent : List Sending) → IsUninterrupted sent → AreShort max (lines_sent empty_tables sent)
        → (s : Start) × (meaning max empty_start (bytes_sent (lines_sent empty_tables sent)) ≡ goes s (length sent))
        × (s.tables ≡ tables_sent empty_tables sent) × (s.part ≡ []) × (s.times ≡ times_sent [] empty_tables sent) }
    ensures fronts { (max : ℕ) (sent : List Sending) (n : ℕ) → IsUninterrupted sent → AreShort max (lines_sent empty_tables sent)
        → HasNoFault (meaning max empty_start (take n (bytes_sent (lines_sent empty_tables sent)))) }
{
    lines_lead_on();
    lines_read_back();
}

/// Feeding one piece after the other comes to what feeding both as one piece comes to, with the lines added up.
pub fn feeds_add_up()
    ensures { (old mid new : ClientView) (a b : List ℕ) (m n : ℕ) → Took old a m mid → mid.max_line ≡ old.max_line
        → Took mid b n new → Took old (a ++ b) (m + n) new }
{}

/// A client that takes an uninterrupted stream without a line that is too long, from empty tables on: once it has taken all
/// bytes it has applied all lines and holds the tables of the last one, and the histograms that they lead to, and until then feeding it the next piece stops for
/// want of memory alone.
pub fn streams_are_fed()
    ensures tables { (old new : ClientView) (sent : List Sending) (lines : ℕ) → old.start ≡ empty_start → IsUninterrupted sent
        → AreShort old.max_line (lines_sent empty_tables sent)
        → Took old (bytes_sent (lines_sent empty_tables sent)) lines new
        → (lines ≡ length sent) × (new.start.tables ≡ tables_sent empty_tables sent) × (new.start.times ≡ times_sent [] empty_tables sent) }
    ensures memory { (first old new : ClientView) (sent : List Sending) (front piece rest : List ℕ) (lines : ℕ) (e : FeedError)
        → first.start ≡ empty_start → IsUninterrupted sent → AreShort first.max_line (lines_sent empty_tables sent)
        → bytes_sent (lines_sent empty_tables sent) ≡ front ++ (piece ++ rest) → Took first front lines old
        → old.max_line ≡ first.max_line → Stopped old piece e new → e.fault ≡ Fault.Memory }
{
    lines_lead_on();
    lines_read_back();
}

/// What a line changed says all: a task that it doesn't tell of is in the tables after the line as in those before it, unless it has left.
pub fn changes_say_all()
    ensures { (before after : Timed) (change : ChangeView) (id : ℕ) → IsChange before after change → is_among change.told id ≡ false
        → task_with id after.0.tasks ≡ if is_among (map left_id change.left) id then None else task_with id before.0.tasks }
{}

/// In tables in which no task stands twice, each warning finds by its id the task that it is about.
pub fn warnings_find_their_tasks()
    ensures { (lints : LintsView) (tables : TablesView) → AreDistinct tables
        → AllByRecursion (λ (t : Task). AllByRecursion (λ (w : Warning). task_with w.task tables.tasks ≡ Some t) (warnings_of lints tables.now t)) tables.tasks }
{}
