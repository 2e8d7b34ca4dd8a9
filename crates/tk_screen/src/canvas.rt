//! Lines, and what they are drawn on.
ghost use Rattle.std.specs.Prelude.{◌≡◌, ◌-◌, OnOk, map};
ghost use Rattle.tk_screen.specs.Screens as spec;
ghost use Rattle.tk_screen.specs.Texts.{Puts};

use std::alloc::AllocError;
use std::marker::Model;

/// How a line stands out.
#[derive(Clone, Copy, Debug, PartialEq, Eq)]
pub enum Style {
    /// It doesn't.
    Plain,
    /// The heading of a table: reversed.
    Heading,
    /// A warning: red.
    Warning,
}

/// A line of a screen: its text, without a line end, and how it stands out.
#[derive(Drop)]
pub struct Line {
    style: Style,
    text: String,
}

impl Model for Line {
    ghost use Rattle.std.specs.Prelude.{string_bytes};
    ghost use Rattle.tk_screen.specs.Screens.{LineView};

    ghost Value = { LineView };

    ghost view = { λ line. record { style = line.style; text = string_bytes line.text } };
}

impl Line {
    ghost use Rattle.std.specs.Prelude.{string_bytes};

    /// A line of this text.
    pub fn new(style: Style, text: String) -> Line
        ensures { result ≡ record { style = style; text = string_bytes text } }
    {
        Line { style, text }
    }

    /// How it stands out.
    pub fn style(&self) -> Style
        ensures { result ≡ self.now.style }
    {
        self.style
    }

    /// Its text.
    pub fn text(&self) -> &str
        ensures { result.now ≡ self.now.text }
    {
        self.text.as_str()
    }
}

/// How many columns and lines a terminal has.
#[derive(Clone, Copy, Debug, PartialEq, Eq)]
pub struct Size {
    pub columns: usize,
    pub lines: usize,
}

/// What a screen is drawn on.
#[derive(Clone, Copy, Debug, PartialEq, Eq)]
pub enum Canvas {
    /// Text: each line whole, and an empty line after the last, so that screens stand one after the other.
    Plain,
    /// A terminal, over the screen before. Lines are cut to its columns, and its last line stays free for the cursor. Neither
    /// its alternate screen nor any mode is used, so a program that is stopped leaves it as it was.
    Terminal { size: Size, colors: bool },
}

// A byte as it is drawn. No other text but printable ASCII reaches a terminal.
fn drawn(byte: u8) -> u8
    ensures { result ≡ spec.drawn byte }
{
    if 0x20 <= byte && byte <= 0x7E {
        byte
    } else {
        b'?'
    }
}

fn put_drawn(out: &mut Vec<u8>, text: &[u8]) -> Result<(), AllocError>
    ensures { OnOk result (Puts (out.old.items) (out.new.items) (map spec.drawn text.now)) }
{
    for byte in text {
        out.push(drawn(*byte))?;
    }
    Ok(())
}

// The front of a text that has room in a line.
fn fitting(canvas: Canvas, text: &[u8]) -> &[u8]
    ensures { result.now ≡ spec.fitting canvas text.now }
{
    match canvas {
        Canvas::Plain => text,
        Canvas::Terminal { size, colors: _ } => match text.get(..size.columns) {
            Some(front) => front,
            None => text,
        },
    }
}

// The first lines, which have room on a screen.
fn fitting_lines(canvas: Canvas, lines: &[Line]) -> &[Line]
    ensures { result.now ≡ spec.fitting_lines canvas lines.now }
{
    match canvas {
        Canvas::Plain => lines,
        Canvas::Terminal { size, colors: _ } => match lines.get(..size.lines.saturating_sub(1)) {
            Some(front) => front,
            None => lines,
        },
    }
}

fn line_start(canvas: Canvas, style: Style) -> &'static str
    ensures { result.now ≡ spec.line_start canvas style }
{
    match canvas {
        Canvas::Plain => "",
        Canvas::Terminal { size: _, colors } => match style {
            Style::Heading if colors => "\x1b[K\x1b[7m",
            Style::Warning if colors => "\x1b[K\x1b[31m",
            _ => "\x1b[K",
        },
    }
}

fn line_end(canvas: Canvas, style: Style) -> &'static str
    ensures { result.now ≡ spec.line_end canvas style }
{
    match canvas {
        Canvas::Plain => "\n",
        Canvas::Terminal { size: _, colors } => match style {
            Style::Heading if colors => "\x1b[0m\n",
            Style::Warning if colors => "\x1b[0m\n",
            _ => "\n",
        },
    }
}

fn put_line(out: &mut Vec<u8>, canvas: Canvas, line: &Line) -> Result<(), AllocError>
    ensures { OnOk result (Puts (out.old.items) (out.new.items) (spec.line_text canvas line.now)) }
{
    out.extend_from_slice(line_start(canvas, line.style).as_bytes())?;
    put_drawn(out, fitting(canvas, line.text.as_bytes()))?;
    out.extend_from_slice(line_end(canvas, line.style).as_bytes())
}

fn put_lines(out: &mut Vec<u8>, canvas: Canvas, lines: &[Line]) -> Result<(), AllocError>
    ensures { OnOk result (Puts (out.old.items) (out.new.items) (spec.lines_text canvas lines.now)) }
{
    for line in lines {
        put_line(out, canvas, line)?;
    }
    Ok(())
}

fn screen_start(canvas: Canvas) -> &'static str
    ensures { result.now ≡ spec.screen_start canvas }
{
    match canvas {
        Canvas::Plain => "",
        Canvas::Terminal { .. } => "\x1b[H",
    }
}

fn screen_end(canvas: Canvas) -> &'static str
    ensures { result.now ≡ spec.screen_end canvas }
{
    match canvas {
        Canvas::Plain => "\n",
        Canvas::Terminal { .. } => "\x1b[J",
    }
}

/// Puts a screen of lines: on a terminal the first of them, as many as have room.
///
/// It fails where there is no memory, and then a front of the screen may have been put.
pub fn put_screen(out: &mut Vec<u8>, canvas: Canvas, lines: &[Line]) -> Result<(), AllocError>
    ensures { OnOk result (Puts (out.old.items) (out.new.items) (spec.screen_text canvas lines.now)) }
{
    out.extend_from_slice(screen_start(canvas).as_bytes())?;
    put_lines(out, canvas, fitting_lines(canvas, lines))?;
    out.extend_from_slice(screen_end(canvas).as_bytes())
}
