//! Views of a stream: what its tables show, once it was read to its end.
ghost use Rattle.std.specs.Prelude.{◌≡◌, map, List, None, IsSome, IfOk, IfErr};
ghost use Rattle.tk_reading.specs.Taken.{first};
ghost use Rattle.tk_report.specs.Timed.{timed_text_of, warned_of};
ghost use Rattle.tk_report.specs.TimedViews.{ViewsTimed};
ghost use Rattle.tk_report.specs.Watched.{Follows, Warns};
ghost use Rattle.tk_report.specs.Views as shown;
ghost use Rattle.tk_client.specs.Warnings.{LintsView, warnings_in};
ghost use Rattle.tk_stream.specs.Tables.{TablesView};

use crate::known::{Polls, are_untimed};
use crate::options::TimesOptions;
use crate::timed::{lines_of_any_warnings, timed_report_with};
use std::alloc::{AllocError, Global};
use std::io::{Read, Write};
use tk_client::{AnyWarning, Client, Lints, Warning, all_warnings_in};
use tk_fault::AppFault;
use tk_ids::TaskId;
use tk_reading::{MAX_LINE, Unwatched, read_stream};
use tk_stream::{PollTimes, Table, Tables, send};

/// What is written of a stream's tables.
#[derive(Clone, Copy, Debug, PartialEq, Eq)]
pub enum View {
    /// The whole report.
    Report,
    /// Its warning lines alone.
    Lint,
}

/// What a view of a stream has shown.
#[derive(Clone, Copy, Debug, PartialEq, Eq)]
pub struct Viewed {
    /// How many warnings there are.
    pub warnings: u64,
    /// Whether a task of kind spawn has no histogram of its polls though one has ended, so that of these no more is known than the lines show.
    pub untimed: bool,
}

// What is written of tables and histograms with these warnings.
fn text_of(
    alloc: Global,
    view: View,
    tables: &Tables,
    times: &Table<(TaskId, PollTimes)>,
    options: &TimesOptions,
    warnings: &[AnyWarning],
) -> Result<Vec<u8>, AllocError>
    ensures { (lints : LintsView) (shown : List TablesView) → warnings.now ≡ warned_of lints options.now shown tables.now times.now
        → IfOk result (λ text. text.items ≡ timed_text_of view lints options.now shown tables.now times.now) }
{
    match view {
        View::Report => timed_report_with(alloc, tables, times, options.times, warnings),
        View::Lint => lines_of_any_warnings(alloc, tables, warnings),
    }
}

// Each of these warnings, as one of any.
fn usual(alloc: Global, warnings: &[Warning]) -> Result<Vec<AnyWarning>, AllocError>
    ensures { IfOk result (λ list. list.items ≡ map AnyWarning.Usual warnings.now) }
{
    let mut list = Vec::new(alloc);
    for warning in warnings {
        list.push(AnyWarning::Usual(*warning))?;
    }
    Ok(list)
}

// The warnings of a client's tables where neither long polls nor long waits are asked for. A client finds them without a walk through all tasks.
fn usual_by(alloc: Global, client: &Client, lints: &Lints) -> Result<Vec<AnyWarning>, AllocError>
    ensures { IfOk result (λ list. list.items ≡ map AnyWarning.Usual (warnings_in lints.now client.now.start.tables)) }
{
    match client.warnings(lints) {
        Ok(warnings) => usual(alloc, warnings.as_slice()),
        Err(_) => Err(AllocError),
    }
}

// The warnings of a client's tables where no long polls are asked for, long waits among them if these are.
fn warned_by(
    alloc: Global,
    client: &Client,
    lints: &Lints,
    options: &TimesOptions,
) -> Result<Vec<AnyWarning>, AllocError>
    requires { options.now.limits.poll_ms ≡ None }
    ensures { (shown : List TablesView) → IfOk result (λ list. list.items
        ≡ warned_of lints.now options.now shown client.now.start.tables client.now.start.times) }
{
    match options.limits.wait_ms {
        None => usual_by(alloc, client, lints),
        Some(_) => all_warnings_in(
            alloc,
            client.tables(),
            client.times(),
            lints,
            &options.limits,
        ),
    }
}

// The warnings of a client's tables, long polls among them. These have watched its lines.
fn warned_with(
    alloc: Global,
    client: &Client,
    polls: &Polls,
    lints: &Lints,
    options: &TimesOptions,
) -> Result<Vec<AnyWarning>, AllocError>
    requires { IsSome options.now.limits.poll_ms }
    ensures { (shown : List TablesView) → Follows shown polls.now.tasks.entries
        → IfOk result (λ list. list.items ≡ warned_of lints.now options.now shown client.now.start.tables client.now.start.times) }
{
    let times = polls.completed(client.tables(), client.times())?;
    all_warnings_in(alloc, client.tables(), &times, lints, &options.limits)
}

// Reads a stream by a new client, and finds its warnings, where no long polls are asked for.
fn warn_of<R: Read>(
    client: &mut Client,
    alloc: Global,
    reader: &mut R,
    lints: &Lints,
    options: &TimesOptions,
) -> Result<Vec<AnyWarning>, AppFault>
    requires client { client.old ≡ first }
    requires polls { options.now.limits.poll_ms ≡ None }
    ensures { Warns lints.now options.now (R.remaining reader.old) (R.remaining reader.new) result client.new }
{
    read_stream(client, &mut Unwatched, reader)?;
    match warned_by(alloc, client, lints, options) {
        Ok(list) => Ok(list),
        Err(_) => Err(AppFault::Memory),
    }
}

// Reads a stream by a new client, and finds its warnings, long polls among them.
fn warn_of_polls<R: Read>(
    client: &mut Client,
    alloc: Global,
    reader: &mut R,
    lints: &Lints,
    options: &TimesOptions,
) -> Result<Vec<AnyWarning>, AppFault>
    requires client { client.old ≡ first }
    requires polls { IsSome options.now.limits.poll_ms }
    ensures { Warns lints.now options.now (R.remaining reader.old) (R.remaining reader.new) result client.new }
{
    let mut polls = Polls::new(alloc);
    read_stream(client, &mut polls, reader)?;
    match warned_with(alloc, client, &polls, lints, options) {
        Ok(list) => Ok(list),
        Err(_) => Err(AppFault::Memory),
    }
}

// Reads a stream by a new client, and finds its warnings. Its lines are watched only where that is needed.
fn warn<R: Read>(
    client: &mut Client,
    alloc: Global,
    reader: &mut R,
    lints: &Lints,
    options: &TimesOptions,
) -> Result<Vec<AnyWarning>, AppFault>
    requires { client.old ≡ first }
    ensures { Warns lints.now options.now (R.remaining reader.old) (R.remaining reader.new) result client.new }
{
    match options.limits.poll_ms {
        None => warn_of(client, alloc, reader, lints, options),
        Some(_) => warn_of_polls(client, alloc, reader, lints, options),
    }
}

// What `view_stream_with` does by a new client.
fn view_by<R: Read, W: Write>(
    client: &mut Client,
    alloc: Global,
    reader: &mut R,
    writer: &mut W,
    view: View,
    lints: &Lints,
    options: &TimesOptions,
) -> Result<Viewed, AppFault>
    requires { client.old ≡ first }
    ensures views { ViewsTimed view lints.now options.now (R.remaining reader.old) (R.remaining reader.new) result
        (W.contents writer.old) (W.contents writer.new) }
    ensures unwritten { IfErr result (λ fault. (shown.IsOfWriter fault → ⊥) → writer.new ≡ writer.old) }
{
    let list = warn(client, alloc, reader, lints, options)?;
    let warnings = list.as_slice();
    let Ok(text) = text_of(
        alloc,
        view,
        client.tables(),
        client.times(),
        options,
        warnings,
    ) else {
        return Err(AppFault::Memory);
    };
    let viewed = Viewed {
        warnings: warnings.len() as u64,
        untimed: are_untimed(client.tables(), client.times()),
    };
    match send(writer, text.as_slice()) {
        Ok(()) => Ok(viewed),
        Err(_) => Err(AppFault::Write),
    }
}

/// Reads a stream to its end, writes what its tables and histograms then show, and answers how many warnings they have, long polls
/// among them if the options ask for these, and whether a task has no histogram.
///
/// The longest poll of a task is that of its histogram, or the one that is open. Of a task without a histogram it is the longest that
/// lines show, and may have run longer: a poll that was open at a line, or one that ended between two lines.
///
/// A last line without its line end is ignored. The text is made whole before its first byte is written.
///
/// - `Memory`: there was no memory for the tables or the text. Nothing was written.
/// - `Read`: the reader failed, or gave no end within 2^32 reads. Nothing was written.
/// - `Stream`: a line has a fault, or more than 268,435,456 bytes. Nothing was written.
/// - `Write`: the writer failed. A proper front of the text went out.
pub fn view_stream_with<R: Read, W: Write>(
    alloc: Global,
    reader: &mut R,
    writer: &mut W,
    view: View,
    lints: &Lints,
    options: &TimesOptions,
) -> Result<Viewed, AppFault>
    ensures views { ViewsTimed view lints.now options.now (R.remaining reader.old) (R.remaining reader.new) result
        (W.contents writer.old) (W.contents writer.new) }
    // Only a writer's fault comes once something was written.
    ensures unwritten { IfErr result (λ fault. (shown.IsOfWriter fault → ⊥) → writer.new ≡ writer.old) }
{
    match Client::new(alloc, MAX_LINE) {
        Ok(mut client) => view_by(&mut client, alloc, reader, writer, view, lints, options),
        Err(_) => Err(AppFault::Memory),
    }
}

/// As [`view_stream_with`], where nothing of poll times is shown: reads a stream to its end, writes what its tables then show, and
/// answers how many warnings they have. Its errors are the same.
pub fn view_stream<R: Read, W: Write>(
    alloc: Global,
    reader: &mut R,
    writer: &mut W,
    view: View,
    lints: &Lints,
) -> Result<u64, AppFault>
    ensures views { shown.Views view lints.now (R.remaining reader.old) (R.remaining reader.new) result
        (W.contents writer.old) (W.contents writer.new) }
    // Only a writer's fault comes once something was written.
    ensures unwritten { IfErr result (λ fault. (shown.IsOfWriter fault → ⊥) → writer.new ≡ writer.old) }
{
    match view_stream_with(alloc, reader, writer, view, lints, &TimesOptions::none()) {
        Ok(viewed) => Ok(viewed.warnings),
        Err(fault) => Err(fault),
    }
}
