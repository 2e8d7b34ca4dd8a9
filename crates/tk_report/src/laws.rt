//! Laws of the definitions: each is the contract of a function that does nothing.
ghost use Rattle.std.specs.Prelude.{◌≡◌, ◌≤◌, ◌++◌, ◌∷◌, ℕ, List, Option, Some, Result, flat_map};
ghost use Rattle.tk_core.specs.Lasting.{runs_for};
ghost use Rattle.tk_core.specs.declared.task.row.TaskRow.{TaskRow};
ghost use Rattle.tk_stream.specs.Streams.{Sending, GoesOn, lines_sent, bytes_sent, tables_sent};
ghost use Rattle.tk_client.specs.Meaning.{greatest_line};
ghost use Rattle.tk_client.specs.Streams.{AreShort};
ghost use Rattle.tk_fault.specs.declared.fault.AppFault.{AppFault};
ghost use Rattle.tk_report.specs.declared.view.View.{View};
ghost use Rattle.tk_report.specs.Uninterrupted.{ShowsTables};
ghost use Rattle.tk_report.specs.Views.{Views};
ghost use Rattle.tk_stream.specs.declared.tables.task.Task.{Task};
ghost use Rattle.tk_stream.specs.Tables.{AreDistinct, TablesView, empty_tables, task_with};
ghost use Rattle.tk_client.specs.Warnings.{LintsView, warnings_of};
ghost use Rattle.tk_report.specs.Known.{StaysIn, longest_known};
ghost use Rattle.tk_report.specs.Report.{lint_of, warn_line_of};
ghost use Rattle.tk_report.specs.Runs.{EndedSince, ended_run, longest_of};
ghost use Rattle.tk_report.specs.declared.runs.Ended.{Ended};

use tk_client::laws::{streams_are_taken, warnings_find_their_tasks};

/// In tables in which no task stands twice, the warning lines are those of each task's own row, in table order.
pub fn warnings_tell_of_their_tasks()
    ensures { (lints : LintsView) (tables : TablesView) → AreDistinct tables
        → lint_of lints tables ≡ flat_map (λ (t : Task). flat_map (warn_line_of tables.now t.row) (warnings_of lints tables.now t)) tables.tasks }
{
    warnings_find_their_tasks();
}

/// The view of lines that go on from empty tables and number 0, none of which is too long: it writes the text of the tables of the
/// last line, and there is no fault of the stream. So what the run of a script writes, the view reads.
pub fn what_goes_on_is_viewed()
    ensures { (sent : List Sending) (view : View) (lints : LintsView) (left old new : Option (List ℕ)) (result : Result ℕ AppFault)
        → GoesOn empty_tables 0 sent → AreShort greatest_line (lines_sent empty_tables sent)
        → Views view lints (Some (bytes_sent (lines_sent empty_tables sent))) left result old new
        → ShowsTables view lints (tables_sent empty_tables sent) result old new }
{
    streams_are_taken();
}

/// Of the polls that ended between two rows of a task, one ran at least as long as the rows say.
pub fn one_ran_as_long()
    ensures { (old : Ended) (x : TaskRow) (runs : List ℕ) → EndedSince old x runs → ended_run old x ≤ longest_of runs }
{}

/// A task's longest poll is known to have run at least as long as one that stood open at any line, while the tables have the task.
pub fn open_polls_are_known()
    ensures { (id : ℕ) (before after : List TablesView) (tables : TablesView) (t : Task) → task_with id tables.tasks ≡ Some t → StaysIn id after
        → runs_for t.row tables.now ≤ longest_known (before ++ tables ∷ after) id }
{}
