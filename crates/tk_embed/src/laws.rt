//! Laws of the definitions: each is the contract of a function that does nothing.
ghost use Rattle.std.specs.Prelude.{◌≡◌, ℕ, ◌+◌, ◌^◌, ◌<◌, List, [], ◌∷◌, ◌++◌, Some, None, length, if◌then◌else◌};
ghost use Rattle.tk_core.specs.declared.task.call.TaskCall.{TaskCall};
ghost use Rattle.tk_core.specs.declared.task.row.TaskRow.{TaskRow};
ghost use Rattle.tk_core.specs.declared.task.wait.Waits.{Waits};
ghost use Rattle.tk_core.specs.Task.{start_at, end_at};
ghost use Rattle.tk_core.specs.Lists.{capped, total};
ghost use Rattle.tk_core.specs.TaskMeaning.{task_meaning};
ghost use Rattle.tk_core.specs.Times.{opening_row};
ghost use Rattle.tk_core.specs.TimesMeaning.{times_meaning};
ghost use Rattle.tk_client.specs.Feeding.{ClientView, Took};
ghost use Rattle.tk_client.specs.Meaning.{empty_start};
ghost use Rattle.tk_client.specs.Streams.{AreShort};
ghost use Rattle.tk_stream.specs.Lines.{line_between};
ghost use Rattle.tk_stream.specs.Retention.{line_pruned, prune};
ghost use Rattle.tk_stream.specs.Streams.{IsStreamTo, IsUninterrupted, lines_sent, tables_sent, times_sent, last_sent};
ghost use Rattle.tk_stream.specs.Tables.{TablesView, AreDistinct, empty_tables};
ghost use Rattle.tk_embed.specs.LeftOut.{LeftOut, leaving_out, AreUnchanged, AreStaying};
ghost use Rattle.tk_embed.specs.Timed.{accepted_of, runs_of, AreTimesOf};
ghost use Rattle.tk_embed.specs.Waits.{waits_of, AreWaitsOf};
ghost use Rattle.tk_embed.specs.Publishing.{Publishing, ArePublished, TimesGoOn, bytes_published, sendings, times_published};

use tk_client::laws::streams_are_fed;

/// A task's histogram that was opened with it is that of all its polls that ended, whatever calls are made on the task, where each end
/// goes to both rows: it has none at first, and calls that end no poll leave it.
pub fn histograms_are_of_all_polls()
    ensures opened { (opening : TaskRow) → AreTimesOf opening [] (times_meaning.words opening_row) }
    ensures others { (opening : TaskRow) (calls : List TaskCall) (call : TaskCall) (times : List ℕ) → end_at call ≡ None
        → AreTimesOf opening calls times → AreTimesOf opening (calls ++ call ∷ []) times }
{}

/// How long the polls ran that a task's histogram has adds up to the busy time of its row, at most 2^64 - 1. How long the waits took adds
/// up to how long the row says that the task waited, if that is less than 2^56: with what is counted of the wait that lasts, while the task
/// isn't polled.
pub fn histograms_add_up()
    ensures busy { (opening : TaskRow) (calls : List TaskCall)
        → (task_meaning.row_after opening calls).busy ≡ capped (total (λ n. n) (runs_of (accepted_of opening calls))) }
    ensures waits { (opening : TaskRow) (calls : List TaskCall) (waits : Waits)
        → (task_meaning.row_after opening calls).waits ≡ Some waits → waits.total < 2 ^ 56
        → total (λ n. n) (waits_of opening (accepted_of opening calls))
        + (if (task_meaning.row_after opening calls).polling then 0 else waits.so_far) ≡ waits.total }
{}

/// And a histogram of waits that was opened with the task is that of all its waits that ended, where each start goes to both rows: it has
/// none at first, and calls that start no poll leave it.
pub fn histograms_are_of_all_waits()
    ensures opened { (opening : TaskRow) → AreWaitsOf opening [] (times_meaning.words opening_row) }
    ensures others { (opening : TaskRow) (calls : List TaskCall) (call : TaskCall) (waits : List ℕ) → start_at call ≡ None
        → AreWaitsOf opening calls waits → AreWaitsOf opening (calls ++ call ∷ []) waits }
{}

/// Entries may leave out what didn't change: the line is the same. The line of what leaves is the same where they leave out what
/// stays.
pub fn entries_may_be_left_out()
    ensures changes { (left : LeftOut) (old new : TablesView) (seq : ℕ) → AreUnchanged left old new
        → line_between (leaving_out left old) (leaving_out left new) seq ≡ line_between old new seq }
    ensures leaving { (left : LeftOut) (told : TablesView) (now retention seq : ℕ) → AreDistinct told → AreStaying left told now retention
        → line_pruned (leaving_out left told) (prune (record (leaving_out left told) { now = now }) (leaving_out left told) now retention) seq
        ≡ line_pruned told (prune (record told { now = now }) told now retention) seq }
{}

/// The lines that a program asks for, one after the other, where the entries leave out at most what a line would not tell of, are an
/// uninterrupted stream of the tables of all items, if these may be sent.
pub fn publishings_are_a_stream()
    ensures { (ps : List Publishing) → ArePublished empty_tables [] ps → IsUninterrupted (sendings [] ps)
        → IsStreamTo (bytes_published ps) (tables_sent empty_tables (sendings [] ps)) (last_sent 0 (sendings [] ps)) }
{}

/// The histograms to which the lines lead are those of all tasks, as the last line was asked for, if those of each line are of distinct
/// tasks, and those of a line of what changed begin with the ones before it.
pub fn histograms_are_of_all_tasks()
    ensures { (ps : List Publishing) → ArePublished empty_tables [] ps → TimesGoOn [] ps
        → times_sent [] empty_tables (sendings [] ps) ≡ times_published [] ps }
{}

/// So a client that takes all of its bytes holds the tables of all items, as the last line was asked for, and the histograms to which
/// the lines lead that tell such.
pub fn clients_hold_all_items()
    ensures { (old new : ClientView) (ps : List Publishing) (lines : ℕ) → old.start ≡ empty_start → ArePublished empty_tables [] ps
        → IsUninterrupted (sendings [] ps) → AreShort old.max_line (lines_sent empty_tables (sendings [] ps))
        → Took old (bytes_published ps) lines new
        → (lines ≡ length (sendings [] ps)) × (new.start.tables ≡ tables_sent empty_tables (sendings [] ps))
        × (new.start.times ≡ times_sent [] empty_tables (sendings [] ps)) }
{
    publishings_are_a_stream();
    streams_are_fed();
}
