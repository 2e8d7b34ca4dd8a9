//! A screen of what a client has come to.
ghost use Rattle.std.specs.Prelude.{◌≡◌, IfOk, List};
ghost use Rattle.tk_frame.specs.Frames.{frame_text};
ghost use Rattle.tk_stream.specs.Tables.{TablesView};
ghost use Rattle.tk_watch.specs.Course.{Sees};
ghost use Rattle.tk_watch.specs.Drawing as spec;

use crate::seen::Course;
use std::alloc::{AllocError, Global};
use std::io::Write;
use tk_client::Lints;
use tk_fault::AppFault;
use tk_frame::{Odd, Query, frame};
use tk_screen::{Canvas, put_screen};
use tk_stream::{Tables, send};

/// What is shown of a stream, and on what it is drawn.
#[derive(Clone, Copy)]
pub struct Screen<'a> {
    /// What of its tables is shown.
    pub query: Query<'a>,
    /// What findings go by that are about a task in itself.
    pub lints: Lints,
    pub canvas: Canvas,
}

// The screen of tables of which this is odd.
fn text_by(
    alloc: Global,
    tables: &Tables,
    odd: &Odd,
    screen: &Screen<'_>,
) -> Result<Vec<u8>, AllocError>
    ensures { IfOk result (λ text. text.items ≡ frame_text screen.now.canvas screen.now.query odd.now tables.now) }
{
    let lines = frame(alloc, screen.canvas, tables, odd, &screen.query)?;
    let mut text = Vec::new(alloc);
    put_screen(&mut text, screen.canvas, lines.as_slice())?;
    Ok(text)
}

fn text_of(course: &Course, alloc: Global, screen: &Screen<'_>) -> Result<Vec<u8>, AllocError>
    ensures { (shown : List TablesView) → Sees screen.now.lints shown course.now.seen
        → IfOk result (λ text. text.items ≡ spec.text_of screen.now shown course.now.client.start.tables) }
{
    match course.odd(alloc) {
        Ok(odd) => text_by(alloc, course.tables(), &odd, screen),
        Err(error) => Err(error),
    }
}

/// Writes the screen of what a client has come to. It is made whole before its first byte is written.
pub(crate) fn draw<W: Write>(
    course: &Course,
    alloc: Global,
    writer: &mut W,
    screen: &Screen<'_>,
) -> Result<(), AppFault>
    ensures { (shown : List TablesView) → Sees screen.now.lints shown course.now.seen
        → spec.Sends (spec.text_of screen.now shown course.now.client.start.tables) result (W.contents writer.old) (W.contents writer.new) }
{
    let Ok(text) = text_of(course, alloc, screen) else {
        return Err(AppFault::Memory);
    };
    match send(writer, text.as_slice()) {
        Ok(()) => Ok(()),
        Err(_) => Err(AppFault::Write),
    }
}
