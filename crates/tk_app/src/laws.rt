//! Laws that join the run of a script and the view of a stream: each is the contract of a function that does nothing.
ghost use Rattle.std.specs.Prelude.{◌≡◌, ◌≤◌, ℕ, List, length, Option, Some, Result, Ok, ⊤};
ghost use Rattle.tk_stream.specs.Streams.{Sending, tables_sent};
ghost use Rattle.tk_stream.specs.Tables.{empty_tables};
ghost use Rattle.tk_client.specs.Meaning.{greatest_line};
ghost use Rattle.tk_client.specs.Warnings.{LintsView};
ghost use Rattle.tk_fault.specs.declared.fault.AppFault.{AppFault};
ghost use Rattle.tk_script.specs.Commands.{lines_of, settings_of};
ghost use Rattle.tk_live.specs.Ran.{RunsThrough, written_by};
ghost use Rattle.tk_live.specs.Script.{ScriptResult, StopsAt};
ghost use Rattle.tk_report.specs.declared.view.View.{View};
ghost use Rattle.tk_report.specs.Uninterrupted.{ShowsTables};
ghost use Rattle.tk_report.specs.Views.{Views};
ghost use Rattle.tk_app.specs.Viewed.{WriterFailed};

use tk_client::laws::streams_are_taken;
use tk_live::Gate;
use tk_report::laws::what_goes_on_is_viewed;

/// What the run of any script of at most 1,048,576 bytes writes, as many as are read, the view reads without a fault of the stream, and
/// shows as the tables of its last line: no script gives a line that is longer than the view takes.
///
/// So it is with what was written before a script stopped. Where the writer failed, what it took of a line is no part of the tables, and
/// the view reads that too, unless it alone is longer.
pub fn what_a_script_writes_is_viewed<G: Gate>()
    ensures ran { (gate : G) (script written : List ℕ) (done : ⊤) (view : View) (lints : LintsView) (left old new : Option (List ℕ)) (viewed : Result ℕ AppFault)
        → length script ≤ 1048576 → ScriptResult (G.answers gate) script (Ok done) written → Views view lints (Some written) left viewed old new
        → (sent : List Sending) × RunsThrough (settings_of (lines_of script)) (lines_of script) sent × (written ≡ written_by sent)
        × ShowsTables view lints (tables_sent empty_tables sent) viewed old new }
    ensures stopped { (gate : G) (script written : List ℕ) (run : Result ⊤ AppFault) (view : View) (lints : LintsView) (left old new : Option (List ℕ)) (viewed : Result ℕ AppFault)
        → length script ≤ 1048576 → ScriptResult (G.answers gate) script run written → (WriterFailed run → ⊥) → Views view lints (Some written) left viewed old new
        → (sent : List Sending) × (written ≡ written_by sent) × ShowsTables view lints (tables_sent empty_tables sent) viewed old new }
    ensures cut_off { (gate : G) (script written name : List ℕ) (number : ℕ) (view : View) (lints : LintsView) (left old new : Option (List ℕ)) (viewed : Result ℕ AppFault)
        → length script ≤ 1048576 → (at : StopsAt (G.answers gate) (lines_of script) number name written) → length at.front ≤ greatest_line
        → Views view lints (Some written) left viewed old new → ShowsTables view lints (tables_sent empty_tables at.sent) viewed old new }
{
    what_goes_on_is_viewed();
    streams_are_taken();
}
