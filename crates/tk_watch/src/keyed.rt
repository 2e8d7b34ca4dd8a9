//! A stream that is watched by a person at keys.
ghost use Rattle.std.specs.Prelude.{◌≡◌, ◌≤◌, ◌+◌, ◌^◌, ◌∷◌, [], ℕ, List, Option, length};
ghost use Rattle.tk_watch.specs.Keyed.{Coming, IsWithin, Loses, Standing, WatchesKeys, asked_after, coming, piece, key, due};
ghost use Rattle.tk_watch.specs.Keying as spec;

use crate::drawing::Screen;
use crate::seen::Course;
use crate::session::{Session, draw, press_on, turn};
use crate::source::{Event, Source};
use crate::watching::feed_more;
use std::alloc::Global;
use std::io::Write;
use tk_fault::AppFault;
use tk_frame::Asked;
use tk_reading::PIECE;

// Draws what stands at a fault of the stream, and answers that fault, or the one by which it could not be drawn.
fn draw_at<W: Write>(
    session: &Session,
    alloc: Global,
    writer: &mut W,
    screen: &Screen<'_>,
    fault: AppFault,
) -> AppFault
    ensures { spec.SendsAt screen.now session.now fault result (W.contents writer.old) (W.contents writer.new) }
{
    match fault {
        AppFault::Stream { .. } => match draw(session, alloc, writer, screen) {
            Ok(()) => fault,
            Err(stop) => stop,
        },
        _ => fault,
    }
}

// Takes a piece. At a fault of the stream the screen of what stands is drawn.
fn take_piece<W: Write>(
    session: &mut Session,
    alloc: Global,
    writer: &mut W,
    screen: &Screen<'_>,
    bytes: &[u8],
) -> Result<bool, AppFault>
    requires few { session.old.lines + 65536 ≤ 2 ^ 62 }
    requires short { length bytes.now ≤ 65536 }
    ensures goes { (given left new : Option (List Coming)) (old : Option (List ℕ)) → Loses left new (piece bytes.now ∷ [])
        → spec.Keying screen.now given left session.old old (W.contents writer.old)
        → spec.Goes screen.now given new result session.new old (W.contents writer.new) }
    ensures few { session.new.lines ≤ session.old.lines + 65536 }
{
    match feed_more(&mut session.course, session.lines, bytes) {
        Ok(lines) => {
            session.lines = lines;
            Ok(true)
        }
        Err(fault) => Err(draw_at(session, alloc, writer, screen, fault)),
    }
}

// Takes what a key has asked for. It answers whether the watch goes on.
fn turn_to(
    session: &mut Session,
    alloc: Global,
    screen: &Screen<'_>,
    asked: Asked,
) -> Result<bool, AppFault>
    ensures goes { (given left new : Option (List Coming)) (old wrote : Option (List ℕ)) (byte : ℕ)
        → ((st : Standing) → spec.Shows screen.now.lints st session.old → asked ≡ asked_after screen.now st byte)
        → Loses left new (key byte ∷ [])
        → spec.Keying screen.now given left session.old old wrote
        → spec.Goes screen.now given new result session.new old wrote }
    ensures few { session.new.lines ≡ session.old.lines }
{
    let paused = asked.paused;
    let quits = asked.quits;
    match turn(session, alloc, paused) {
        Ok(()) => {
            session.asked = asked;
            Ok(!quits)
        }
        Err(_) => Err(AppFault::Memory),
    }
}

// Does what a key asks for. It answers whether the watch goes on.
fn take_key(
    session: &mut Session,
    alloc: Global,
    screen: &Screen<'_>,
    byte: u8,
) -> Result<bool, AppFault>
    ensures goes { (given left new : Option (List Coming)) (old wrote : Option (List ℕ)) → Loses left new (key byte ∷ [])
        → spec.Keying screen.now given left session.old old wrote
        → spec.Goes screen.now given new result session.new old wrote }
    ensures few { session.new.lines ≡ session.old.lines }
{
    match press_on(session, alloc, screen, byte) {
        Ok(asked) => turn_to(session, alloc, screen, asked),
        Err(_) => Err(AppFault::Memory),
    }
}

// Draws the screen that is due.
fn take_due<W: Write>(
    session: &Session,
    alloc: Global,
    writer: &mut W,
    screen: &Screen<'_>,
) -> Result<bool, AppFault>
    ensures { (given left new : Option (List Coming)) (old : Option (List ℕ)) → Loses left new (due ∷ [])
        → spec.Keying screen.now given left session.now old (W.contents writer.old)
        → spec.Goes screen.now given new result session.now old (W.contents writer.new) }
{
    match draw(session, alloc, writer, screen) {
        Ok(()) => Ok(true),
        Err(stop) => Err(stop),
    }
}

// Takes what came, and answers whether the watch goes on.
fn take_event<W: Write>(
    session: &mut Session,
    alloc: Global,
    writer: &mut W,
    screen: &Screen<'_>,
    event: Event,
    room: &[u8],
) -> Result<bool, AppFault>
    requires few { session.old.lines + 65536 ≤ 2 ^ 62 }
    requires room { length room.now ≡ 65536 }
    requires within { IsWithin (Option.Some event) (length room.now) }
    ensures goes { (given left new : Option (List Coming)) (old : Option (List ℕ)) → Loses left new (coming event room.now ∷ [])
        → spec.Keying screen.now given left session.old old (W.contents writer.old)
        → spec.Goes screen.now given new result session.new old (W.contents writer.new) }
    ensures few { session.new.lines ≤ session.old.lines + 65536 }
{
    match event {
        Event::Piece(n) => take_piece(session, alloc, writer, screen, &room[..n]),
        Event::Key(byte) => take_key(session, alloc, screen, byte),
        Event::Due => take_due(session, alloc, writer, screen),
        Event::Broken => Err(AppFault::Read),
    }
}

// Takes what comes next, and answers whether the watch goes on.
fn step<S: Source, W: Write>(
    session: &mut Session,
    alloc: Global,
    source: &mut S,
    writer: &mut W,
    screen: &Screen<'_>,
    room: &mut [u8],
) -> Result<bool, AppFault>
    requires few { session.old.lines + 65536 ≤ 2 ^ 62 }
    requires room { length room.old ≡ 65536 }
    ensures goes { (given : Option (List Coming)) (old : Option (List ℕ))
        → spec.Keying screen.now given (S.to_come source.old) session.old old (W.contents writer.old)
        → spec.Goes screen.now given (S.to_come source.new) result session.new old (W.contents writer.new) }
    ensures few { session.new.lines ≤ session.old.lines + 65536 }
{
    match source.next(room) {
        Some(event) => take_event(session, alloc, writer, screen, event, room),
        None => Ok(false),
    }
}

// What `watch_keys` does by a new session. It gives up after 2^46 events.
fn watch_by<S: Source, W: Write>(
    session: &mut Session,
    alloc: Global,
    source: &mut S,
    writer: &mut W,
    screen: &Screen<'_>,
) -> Result<(), AppFault>
    requires { spec.IsFirst screen.now session.old }
    ensures { WatchesKeys screen.now (S.to_come source.old) (S.to_come source.new) result (W.contents writer.old) (W.contents writer.new) }
{
    let mut room = [0u8; PIECE];
    for _ in 0u64..70_368_744_177_664 {
        let goes_on = step(session, alloc, source, writer, screen, &mut room)?;
        if !goes_on {
            return Ok(());
        }
    }
    Err(AppFault::Read)
}

/// Watches a stream at keys: takes what comes, and draws the screen that keys have asked for whenever one is due, until a key asks to
/// quit, or nothing more comes. While it is paused, the tables and findings are shown that were when the pause began, and how far they lie behind.
///
/// Each screen is made whole before its first byte is written.
///
/// - `Memory`: there was no memory for the tables, for what is odd about them, for a copy of both at a pause, or for a screen, of which then nothing was written.
/// - `Read`: the stream can't be read, or more than 2^46 events came.
/// - `Stream`: a line has a fault, or more than 268,435,456 bytes. The screen of what stood before it was drawn.
/// - `Write`: the writer failed. A proper front of the last screen went out.
///
/// The screens before stay at each of them.
pub fn watch_keys<S: Source, W: Write>(
    alloc: Global,
    source: &mut S,
    writer: &mut W,
    screen: &Screen<'_>,
) -> Result<(), AppFault>
    ensures { WatchesKeys screen.now (S.to_come source.old) (S.to_come source.new) result (W.contents writer.old) (W.contents writer.new) }
{
    let Ok(course) = Course::new(alloc, screen.lints) else {
        return Err(AppFault::Memory);
    };
    let mut session = Session {
        course,
        lines: 0,
        asked: Asked::first(&screen.query),
        held: None,
    };
    watch_by(&mut session, alloc, source, writer, screen)
}
