//! A watch at keys: what it has taken of a stream, and what keys have asked for.
ghost use Rattle.std.specs.Prelude.{◌≡◌, IfOk, List, OnOk};
ghost use Rattle.tk_client.specs.Warnings.{LintsView};
ghost use Rattle.tk_frame.specs.Keys.{pressed};
ghost use Rattle.tk_frame.specs.Shown.{asked_screen};
ghost use Rattle.tk_stream.specs.Tables.{TablesView};
ghost use Rattle.tk_watch.specs.Course.{Sees};
ghost use Rattle.tk_watch.specs.Drawing.{Sends};
ghost use Rattle.tk_watch.specs.Keyed.{Standing, asked_after, text_of as screen_of};
ghost use Rattle.tk_watch.specs.Keying as spec;

use crate::drawing::Screen;
use crate::seen::Course;
use std::alloc::{AllocError, Global};
use std::io::Write;
use tk_client::Times;
use tk_fault::AppFault;
use tk_frame::{Asked, Odd, asked_frame, press};
use tk_screen::put_screen;
use tk_stream::{Tables, send};

/// Tables, the histograms beside them, and what is odd about them.
#[derive(Drop)]
pub(crate) struct Held {
    pub tables: Tables,
    pub times: Times,
    pub odd: Odd,
}

/// A client that has applied so many lines, what keys have asked for, and in a pause what is shown.
#[derive(Drop)]
pub(crate) struct Session {
    pub course: Course,
    pub lines: u64,
    pub asked: Asked,
    pub held: Option<Held>,
}

// The screen of tables that lie so many nanoseconds behind what came.
fn text_by(
    alloc: Global,
    tables: &Tables,
    times: &Times,
    odd: &Odd,
    screen: &Screen<'_>,
    asked: &Asked,
    behind: u64,
) -> Result<Vec<u8>, AllocError>
    ensures { IfOk result (λ text. text.items ≡ asked_screen screen.now.canvas screen.now.query odd.now asked.now behind tables.now times.now) }
{
    let canvas = asked.canvas(screen.canvas);
    let query = &screen.query;
    let lines = asked_frame(alloc, canvas, tables, times, odd, query, asked, behind)?;
    let mut text = Vec::new(alloc);
    put_screen(&mut text, canvas, lines.as_slice())?;
    Ok(text)
}

// The screen of what a client has come to.
fn text_of_course(
    course: &Course,
    alloc: Global,
    screen: &Screen<'_>,
    asked: &Asked,
) -> Result<Vec<u8>, AllocError>
    ensures { (shown : List TablesView) → Sees screen.now.lints shown course.now.seen
        → IfOk result (λ text. text.items ≡ spec.screen_after screen.now shown asked.now course.now.client.start.tables course.now.client.start.times) }
{
    let times = course.times();
    match course.odd(alloc) {
        Ok(odd) => text_by(alloc, course.tables(), times, &odd, screen, asked, 0),
        Err(error) => Err(error),
    }
}

// The screen of what is held.
fn text_of_held(
    session: &Session,
    held: &Held,
    alloc: Global,
    screen: &Screen<'_>,
) -> Result<Vec<u8>, AllocError>
    ensures { IfOk result (λ text. text.items ≡ spec.screen_held screen.now held.now session.now) }
{
    let now = session.course.tables().now();
    let behind = now.saturating_sub(held.tables.now());
    text_by(
        alloc,
        &held.tables,
        &held.times,
        &held.odd,
        screen,
        &session.asked,
        behind,
    )
}

fn text_of(session: &Session, alloc: Global, screen: &Screen<'_>) -> Result<Vec<u8>, AllocError>
    ensures { (st : Standing) → spec.Shows screen.now.lints st session.now
        → IfOk result (λ text. text.items ≡ screen_of screen.now st) }
{
    match &session.held {
        Some(held) => text_of_held(session, held, alloc, screen),
        None => text_of_course(&session.course, alloc, screen, &session.asked),
    }
}

/// Writes the screen of a session. It is made whole before its first byte is written.
pub(crate) fn draw<W: Write>(
    session: &Session,
    alloc: Global,
    writer: &mut W,
    screen: &Screen<'_>,
) -> Result<(), AppFault>
    ensures { (st : Standing) → spec.Shows screen.now.lints st session.now
        → Sends (screen_of screen.now st) result (W.contents writer.old) (W.contents writer.new) }
{
    let Ok(text) = text_of(session, alloc, screen) else {
        return Err(AppFault::Memory);
    };
    match send(writer, text.as_slice()) {
        Ok(()) => Ok(()),
        Err(_) => Err(AppFault::Write),
    }
}

// What keys ask for once a key was pressed, while these tables and findings are shown.
fn press_by(
    alloc: Global,
    tables: &Tables,
    odd: &Odd,
    screen: &Screen<'_>,
    asked: &Asked,
    key: u8,
) -> Result<Asked, AllocError>
    ensures { IfOk result (λ next. next ≡ pressed screen.now.canvas screen.now.query odd.now tables.now asked.now key) }
{
    press(alloc, screen.canvas, tables, odd, &screen.query, asked, key)
}

// The same, while it is shown what a client has come to.
fn press_at_course(
    course: &Course,
    alloc: Global,
    screen: &Screen<'_>,
    asked: &Asked,
    key: u8,
) -> Result<Asked, AllocError>
    ensures { (shown : List TablesView) → Sees screen.now.lints shown course.now.seen
        → IfOk result (λ next. next ≡ spec.pressed_after screen.now shown asked.now course.now.client.start.tables key) }
{
    match course.odd(alloc) {
        Ok(odd) => press_by(alloc, course.tables(), &odd, screen, asked, key),
        Err(error) => Err(error),
    }
}

/// What keys ask for once a key was pressed, while a session is shown.
pub(crate) fn press_on(
    session: &Session,
    alloc: Global,
    screen: &Screen<'_>,
    key: u8,
) -> Result<Asked, AllocError>
    ensures { (st : Standing) → spec.Shows screen.now.lints st session.now
        → IfOk result (λ next. next ≡ asked_after screen.now st key) }
{
    match &session.held {
        Some(held) => press_by(alloc, &held.tables, &held.odd, screen, &session.asked, key),
        None => press_at_course(&session.course, alloc, screen, &session.asked, key),
    }
}

// The tables of a client and its histograms, to be held with what is odd about them.
fn hold(course: &Course, alloc: Global) -> Result<Held, AllocError>
    ensures { (lints : LintsView) (shown : List TablesView) → Sees lints shown course.now.seen
        → IfOk result (λ held. held ≡ spec.holding lints shown course.now.client.start.tables course.now.client.start.times) }
{
    let odd = course.odd(alloc)?;
    let tables = course.tables().copy()?;
    let times = course.times().copy()?;
    Ok(Held { tables, times, odd })
}

/// Holds what is shown from a pause on, and till it ends.
pub(crate) fn turn(session: &mut Session, alloc: Global, paused: bool) -> Result<(), AllocError>
    ensures held { (lints : LintsView) (shown : List TablesView) → Sees lints shown session.old.course.seen
        → OnOk result (session.new.held ≡ spec.held_then paused session.old.held (spec.holding lints shown session.old.course.client.start.tables session.old.course.client.start.times)) }
    ensures course { session.new.course ≡ session.old.course }
    ensures lines { session.new.lines ≡ session.old.lines }
{
    if !paused {
        session.held = None;
        return Ok(());
    }
    if session.held.is_some() {
        return Ok(());
    }
    let held = hold(&session.course, alloc)?;
    session.held = Some(held);
    Ok(())
}
