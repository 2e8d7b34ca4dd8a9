//! A stream that is watched.
ghost use Rattle.std.specs.Prelude.{◌≡◌, ◌≤◌, ◌<◌, ◌+◌, ◌^◌, ◌++◌, ℕ, List, [], Bool, Option, length, IfOk, true, false};
ghost use Rattle.std.specs.Io.KnownBytes.{Consumes, IsAtEnd};
ghost use Rattle.tk_client.specs.Warnings.{LintsView};
ghost use Rattle.tk_reading.specs.Taken.{HasTaken};
ghost use Rattle.tk_watch.specs.Course.{IsNew, Sees};
ghost use Rattle.tk_watch.specs.Drawing.{DrawsAt};
ghost use Rattle.tk_watch.specs.Odd.{seen_in};
ghost use Rattle.tk_watch.specs.Watches.{Watches};
ghost use Rattle.tk_watch.specs.Watching as spec;

use crate::drawing::{Screen, draw};
use crate::seen::Course;
use std::alloc::Global;
use std::io::{Read, Write};
use tk_fault::AppFault;
use tk_reading::{PIECE, Pace, feed_lines};

// How many lines are applied, and how many were when the last screen was drawn, if one was.
#[derive(Clone, Copy)]
struct Progress {
    lines: u64,
    drawn: Option<u64>,
}

// Feeds a client that has applied so many lines, and answers how many it has then applied.
pub(crate) fn feed_more(course: &mut Course, lines: u64, piece: &[u8]) -> Result<u64, AppFault>
    requires few { lines + 65536 ≤ 2 ^ 62 }
    requires short { length piece.now ≤ 65536 }
    ensures takes { (lints : LintsView) (front : List ℕ) → HasTaken front lines course.old.client → Sees lints (seen_in front) course.old.seen
        → spec.TakesTo lints (front ++ piece.now) result course.new }
    ensures few { IfOk result (λ sum. sum ≤ lines + 65536) }
{
    feed_lines(&mut course.client, &mut course.seen, lines, piece)
}

// Draws what stands at a fault of the stream, and answers that fault, or the one by which it could not be drawn.
fn draw_at<W: Write>(
    course: &Course,
    alloc: Global,
    writer: &mut W,
    screen: &Screen<'_>,
    fault: AppFault,
) -> AppFault
    ensures { DrawsAt screen.now course.now fault result (W.contents writer.old) (W.contents writer.new) }
{
    match fault {
        AppFault::Stream { .. } => match draw(course, alloc, writer, screen) {
            Ok(()) => fault,
            Err(stop) => stop,
        },
        _ => fault,
    }
}

// Takes a piece. At a fault of the stream the screen of what stands is drawn.
fn take_piece<W: Write>(
    course: &mut Course,
    alloc: Global,
    writer: &mut W,
    screen: &Screen<'_>,
    lines: u64,
    piece: &[u8],
) -> Result<u64, AppFault>
    requires few { lines + 65536 ≤ 2 ^ 62 }
    requires short { length piece.now ≤ 65536 }
    ensures goes { (given left new old : Option (List ℕ)) (drawn : Option ℕ) (said told : Option (List Bool)) → Consumes left new piece.now
        → spec.Watching screen.now given left lines drawn [] course.old old (W.contents writer.old) said told
        → spec.Goes screen.now given new result drawn piece.now course.new old (W.contents writer.new) said told }
    ensures few { IfOk result (λ sum. sum ≤ lines + 65536) }
{
    match feed_more(course, lines, piece) {
        Ok(sum) => Ok(sum),
        Err(fault) => Err(draw_at(course, alloc, writer, screen, fault)),
    }
}

// Whether lines came since the last screen, which had so many.
fn is_new(lines: u64, drawn: Option<u64>) -> bool
    ensures new { result ≡ true → (most : ℕ) → drawn ≡ Option.Some most → most < lines }
    ensures old { result ≡ false → spec.Covers drawn lines }
{
    match drawn {
        Some(drawn) => drawn < lines,
        None => true,
    }
}

// Draws a screen where the reader has no more and lines came since the last one, which had so many, and answers how many the last one then has.
fn draw_new<W: Write>(
    course: &Course,
    alloc: Global,
    writer: &mut W,
    screen: &Screen<'_>,
    lines: u64,
    drawn: Option<u64>,
) -> Result<Option<u64>, AppFault>
    ensures drew { (given left old : Option (List ℕ)) (said told : Option (List Bool))
        → spec.Watching screen.now given left lines drawn [] course.now old (W.contents writer.old) said told
        → spec.Drew screen.now given left lines result course.now old (W.contents writer.new) said told }
    ensures covers { IfOk result (λ last. spec.Covers last lines) }
{
    if !is_new(lines, drawn) {
        return Ok(drawn);
    }
    draw(course, alloc, writer, screen)?;
    Ok(Some(lines))
}

// Whether a reader gave all that it has, and no line is half read.
fn is_at_rest(piece: &[u8]) -> bool {
    piece.len() < PIECE && piece.last() == Some(&b'\n')
}

// Whether a screen may be drawn after a piece. Where none is due yet, but the reader has no more, it waits: else what came last would not be drawn
// before more comes.
fn may_draw<P: Pace>(pace: &mut P, piece: &[u8]) -> bool
    ensures { spec.Asks (P.said pace.old) (P.said pace.new) result }
{
    if pace.is_due() {
        return true;
    }
    if is_at_rest(piece) {
        pace.wait();
        return true;
    }
    false
}

// Draws a screen after a piece, where one may be drawn and lines came since the last one.
fn draw_after<W: Write, P: Pace>(
    course: &Course,
    alloc: Global,
    writer: &mut W,
    screen: &Screen<'_>,
    pace: &mut P,
    lines: u64,
    drawn: Option<u64>,
    piece: &[u8],
) -> Result<Option<u64>, AppFault>
    ensures drew { (given left old : Option (List ℕ)) (said : Option (List Bool))
        → spec.Watching screen.now given left lines drawn piece.now course.now old (W.contents writer.old) said (P.said pace.old)
        → spec.Drew screen.now given left lines result course.now old (W.contents writer.new) said (P.said pace.new) }
{
    if !is_new(lines, drawn) {
        return Ok(drawn);
    }
    if !may_draw(pace, piece) {
        return Ok(drawn);
    }
    draw(course, alloc, writer, screen)?;
    pace.mark();
    Ok(Some(lines))
}

// Takes a piece that was read, and draws a screen where one may be drawn.
fn after_piece<W: Write, P: Pace>(
    course: &mut Course,
    alloc: Global,
    writer: &mut W,
    screen: &Screen<'_>,
    pace: &mut P,
    progress: Progress,
    piece: &[u8],
) -> Result<Option<Progress>, AppFault>
    requires few { progress.lines + 65536 ≤ 2 ^ 62 }
    requires short { length piece.now ≤ 65536 }
    ensures steps { (given left new old : Option (List ℕ)) (said : Option (List Bool)) → Consumes left new piece.now
        → spec.Watching screen.now given left progress.lines progress.drawn [] course.old old (W.contents writer.old) said (P.said pace.old)
        → spec.Steps screen.now given new result course.new old (W.contents writer.new) said (P.said pace.new) }
    ensures few { spec.IsFew progress.lines result }
{
    let lines = take_piece(course, alloc, writer, screen, progress.lines, piece)?;
    let drawn = draw_after(
        course,
        alloc,
        writer,
        screen,
        pace,
        lines,
        progress.drawn,
        piece,
    )?;
    Ok(Some(Progress { lines, drawn }))
}

// Draws what isn't drawn yet at the end of what the reader gave, and asks whether more may come.
fn at_end<W: Write, P: Pace>(
    course: &Course,
    alloc: Global,
    writer: &mut W,
    screen: &Screen<'_>,
    pace: &mut P,
    progress: Progress,
) -> Result<Option<Progress>, AppFault>
    ensures steps { (given left old : Option (List ℕ)) (said : Option (List Bool)) → IsAtEnd left
        → spec.Watching screen.now given left progress.lines progress.drawn [] course.now old (W.contents writer.old) said (P.said pace.old)
        → spec.Steps screen.now given left result course.now old (W.contents writer.new) said (P.said pace.new) }
    ensures few { spec.IsFew progress.lines result }
{
    let lines = progress.lines;
    let drawn = draw_new(course, alloc, writer, screen, lines, progress.drawn)?;
    if pace.goes_on() {
        Ok(Some(Progress { lines, drawn }))
    } else {
        Ok(None)
    }
}

// Reads once, and does what is to be done then. It answers how far it has come, unless this is the end.
fn step<R: Read, W: Write, P: Pace>(
    course: &mut Course,
    alloc: Global,
    reader: &mut R,
    writer: &mut W,
    screen: &Screen<'_>,
    pace: &mut P,
    progress: Progress,
    piece: &mut [u8],
) -> Result<Option<Progress>, AppFault>
    requires few { progress.lines + 65536 ≤ 2 ^ 62 }
    requires room { length piece.old ≡ 65536 }
    ensures steps { (given old : Option (List ℕ)) (said : Option (List Bool))
        → spec.Watching screen.now given (R.remaining reader.old) progress.lines progress.drawn [] course.old old (W.contents writer.old) said (P.said pace.old)
        → spec.Steps screen.now given (R.remaining reader.new) result course.new old (W.contents writer.new) said (P.said pace.new) }
    ensures few { spec.IsFew progress.lines result }
{
    match reader.read(piece) {
        Ok(0) => at_end(course, alloc, writer, screen, pace, progress),
        Ok(n) => after_piece(course, alloc, writer, screen, pace, progress, &piece[..n]),
        Err(_) => Err(AppFault::Read),
    }
}

// What `watch_stream` does by a new client. It gives up after 2^32 reads.
fn watch_by<R: Read, W: Write, P: Pace>(
    course: &mut Course,
    alloc: Global,
    reader: &mut R,
    writer: &mut W,
    screen: &Screen<'_>,
    pace: &mut P,
) -> Result<(), AppFault>
    requires { IsNew screen.now.lints course.old }
    ensures { Watches screen.now (R.remaining reader.old) (R.remaining reader.new) result (W.contents writer.old) (W.contents writer.new)
        (P.said pace.old) (P.said pace.new) }
{
    let mut piece = [0u8; PIECE];
    let mut progress = Progress {
        lines: 0,
        drawn: None,
    };
    for _ in 0u64..4_294_967_296 {
        match step(
            course, alloc, reader, writer, screen, pace, progress, &mut piece,
        )? {
            Some(next) => progress = next,
            None => return Ok(()),
        }
    }
    Err(AppFault::Read)
}

/// Reads a stream to its end, and draws a screen of what it has come to, anew once lines came and the pace allows it, and at the
/// end where it isn't drawn yet.
///
/// Each screen is made whole before its first byte is written. A last line without its line end is ignored.
///
/// - `Memory`: there was no memory for the tables, for what is odd about them, or for a screen, of which then nothing was written.
/// - `Read`: the reader failed, or gave no end within 2^32 reads.
/// - `Stream`: a line has a fault, or more than 268,435,456 bytes. The screen of what stood before it was drawn.
/// - `Write`: the writer failed. A proper front of the last screen went out.
///
/// The screens before stay at each of them.
pub fn watch_stream<R: Read, W: Write, P: Pace>(
    alloc: Global,
    reader: &mut R,
    writer: &mut W,
    screen: &Screen<'_>,
    pace: &mut P,
) -> Result<(), AppFault>
    ensures { Watches screen.now (R.remaining reader.old) (R.remaining reader.new) result (W.contents writer.old) (W.contents writer.new)
        (P.said pace.old) (P.said pace.new) }
{
    match Course::new(alloc, screen.lints) {
        Ok(mut course) => watch_by(&mut course, alloc, reader, writer, screen, pace),
        Err(_) => Err(AppFault::Memory),
    }
}
