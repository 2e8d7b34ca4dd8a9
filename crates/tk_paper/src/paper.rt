//! The text of a page, which is woven of the page's own markup and of escaped texts alone.
ghost use Rattle.std.specs.Prelude.{◌≡◌, ◌++◌, Some, OnOk, OnErr, map};
ghost use Rattle.tk_paper.specs.Escaping as spec;
ghost use Rattle.tk_paper.specs.Parts as places;

use crate::marks::{Attr, Mark, Place, Tag, mark_text, place_after};
use itoa::Buffer;
use std::alloc::{AllocError, Global};
use std::marker::Model;

// A narrow no-break space.
const GAP: &str = "\u{202f}";

/// A part of a page. A text may be anyone's: it stands escaped.
#[derive(Clone, Copy)]
pub enum Part<'a> {
    /// A text.
    Text(&'a str),
    /// A number's digits, as in an id or in a drawing.
    Number(u64),
    /// A number that people read: from five digits on in groups of three.
    Count(u64),
    /// A share in thousandths, shown in percent.
    Share(u64),
    /// A time in nanoseconds, shown in its unit, rounded down.
    Span(u64),
    /// A number of thousandths, shown with one digit after the point.
    Mean(u64),
    /// The beginning of an element's first tag.
    Open(Tag),
    /// The end of a first tag.
    End,
    /// An element's last tag.
    Close(Tag),
    /// A first tag without attributes.
    Start(Tag),
    /// A first tag with a class.
    Class(Tag, &'a str),
    /// An attribute.
    With(Attr, &'a str),
    /// An attribute whose value is a number.
    WithNumber(Attr, u64),
    /// An attribute, up to the quote before its value.
    Value(Attr),
    /// The quote after a value.
    Quote,
}

/// The text of a page so far. A contract sees it, and where it goes on: nowhere once a part was put that had no place.
#[derive(Drop)]
pub struct Paper {
    bytes: Vec<u8>,
    place: Option<Place>,
}

impl Model for Paper {
    ghost use Rattle.std.specs.Prelude.{IfSome};
    ghost use Rattle.tk_paper.specs.Escaping.{PaperView, Woven};

    ghost Value = { PaperView };

    ghost view = { λ p. record { text = p.bytes.items; place = p.place } };

    ghost invariant = { λ p. IfSome p.place (λ place. ∥ Woven p.bytes.items place ∥₁) };
}

// Puts a byte of a text after others.
fn push_escaped(bytes: &mut Vec<u8>, byte: u8) -> Result<(), AllocError>
    ensures ok { OnOk result (bytes.new.items ≡ bytes.old.items ++ spec.escaped_byte byte) }
    ensures err { OnErr result (bytes.new.items ≡ bytes.old.items) }
{
    match byte {
        b'<' => bytes.extend_from_slice(b"&lt;"),
        b'>' => bytes.extend_from_slice(b"&gt;"),
        b'&' => bytes.extend_from_slice(b"&amp;"),
        b'"' => bytes.extend_from_slice(b"&quot;"),
        b'\'' => bytes.extend_from_slice(b"&#39;"),
        _ => bytes.extend_from_slice(&[byte]),
    }
}

// Where a text goes on after a byte of any text, where that may stand there.
fn after_byte(place: Place) -> Option<Place>
    ensures { result ≡ spec.after_byte place }
{
    match place {
        Place::Text => Some(Place::Text),
        Place::Value => Some(Place::Value),
        Place::Tag => None,
    }
}

// Where a page's text goes on after a piece of markup.
fn after_mark(mark: Mark, place: Option<Place>) -> Option<Place>
    ensures { result ≡ places.after_mark mark place }
{
    place_after(place?, mark)
}

// Where it goes on after a text, which has no place within a tag.
fn after_text(place: Option<Place>) -> Option<Place>
    ensures { result ≡ places.after_text place }
{
    after_byte(place?)
}

// What stands before a digit, of which and those behind it there are so many.
fn gap_before(left: usize) -> &'static str
    ensures { result.now ≡ places.gap_before left }
{
    if left % 3 == 0 { GAP } else { "" }
}

impl Paper {
    ghost use Rattle.tk_paper.specs.Pieces.{Puts, Writes};
    ghost use Rattle.tk_paper.specs.Escaping.{Woven, escaped, escaped_byte, no_paper};
    ghost use Rattle.tk_paper.specs.Marks.{mark_text};
    ghost use Rattle.tk_paper.specs.Parts.{attr_of, after_attr, after_bit, after_class, after_mark, after_start, after_text, bit_of, bit_text, class_of, count_of, grouped, mean_text, number_attr_of, number_of, share_text, span_text, start_of, tenths_of, with_gaps};

    /// No text.
    pub fn new(alloc: Global) -> Paper
        ensures { result ≡ no_paper }
    {
        Paper {
            bytes: Vec::new(alloc),
            place: Some(Place::Text),
        }
    }

    fn mark(&mut self, mark: Mark) -> Result<(), AllocError>
        ensures { OnOk result (Puts self.old self.new (mark_text mark) (after_mark mark)) }
    {
        self.bytes.extend_from_slice(mark_text(mark).as_bytes())?;
        self.place = after_mark(mark, self.place);
        Ok(())
    }

    fn byte(&mut self, byte: u8) -> Result<(), AllocError>
        ensures { OnOk result (Puts self.old self.new (escaped_byte byte) after_text) }
    {
        push_escaped(&mut self.bytes, byte)?;
        self.place = after_text(self.place);
        Ok(())
    }

    fn text(&mut self, text: &str) -> Result<(), AllocError>
        ensures { OnOk result (Puts self.old self.new (escaped text.now) after_text) }
    {
        self.place = after_text(self.place);
        let bytes = text.as_bytes();
        for byte in bytes {
            self.byte(*byte)?;
        }
        Ok(())
    }

    fn number(&mut self, number: u64) -> Result<(), AllocError>
        ensures { OnOk result (Puts self.old self.new (number_of number) after_text) }
    {
        let mut buffer = Buffer::new();
        self.text(buffer.format(number))?;
        Ok(())
    }

    // Puts digits, with a gap before each that begins a group. A number has at most twenty.
    fn with_gaps(&mut self, digits: &[u8]) -> Result<(), AllocError>
        ensures { OnOk result (Puts self.old self.new (escaped (with_gaps digits.now)) after_text) }
    {
        let [digit, rest @ ..] = digits else {
            return self.text("");
        };
        self.text(gap_before(digits.len()))?;
        self.byte(*digit)?;
        self.with_gaps(rest)?;
        Ok(())
    }

    // Puts digits in groups of three.
    fn grouped(&mut self, digits: &[u8]) -> Result<(), AllocError>
        ensures { OnOk result (Puts self.old self.new (escaped (grouped digits.now)) after_text) }
    {
        let [digit, rest @ ..] = digits else {
            return self.text("");
        };
        self.byte(*digit)?;
        self.with_gaps(rest)?;
        Ok(())
    }

    fn count(&mut self, number: u64) -> Result<(), AllocError>
        ensures { OnOk result (Puts self.old self.new (count_of number) after_text) }
    {
        let mut buffer = Buffer::new();
        let digits = buffer.format(number);
        if number < 10_000 {
            self.text(digits)
        } else {
            self.grouped(digits.as_bytes())
        }
    }

    fn attr(&mut self, attr: Attr, value: &str) -> Result<(), AllocError>
        ensures { OnOk result (Puts self.old self.new (attr_of attr value.now) (after_attr attr)) }
    {
        self.mark(Mark::Attr(attr))?;
        self.text(value)?;
        self.mark(Mark::Quote)?;
        Ok(())
    }

    fn number_attr(&mut self, attr: Attr, value: u64) -> Result<(), AllocError>
        ensures { OnOk result (Puts self.old self.new (number_attr_of attr value) (after_attr attr)) }
    {
        self.mark(Mark::Attr(attr))?;
        self.number(value)?;
        self.mark(Mark::Quote)?;
        Ok(())
    }

    fn start(&mut self, tag: Tag) -> Result<(), AllocError>
        ensures { OnOk result (Puts self.old self.new (start_of tag) (after_start tag)) }
    {
        self.mark(Mark::Open(tag))?;
        self.mark(Mark::End)?;
        Ok(())
    }

    fn class(&mut self, tag: Tag, class: &str) -> Result<(), AllocError>
        ensures { OnOk result (Puts self.old self.new (class_of tag class.now) (after_class tag)) }
    {
        self.mark(Mark::Open(tag))?;
        self.attr(Attr::Class, class)?;
        self.mark(Mark::End)?;
        Ok(())
    }

    // Puts tenths of a unit, with their digit after the point where they are few.
    fn tenths(&mut self, few: u64, tenths: u64, unit: &str) -> Result<(), AllocError>
        ensures { OnOk result (Puts self.old self.new (tenths_of few tenths unit.now) after_text) }
    {
        self.count(tenths / 10)?;
        if tenths < few {
            self.text(".")?;
            self.number(tenths % 10)?;
        }
        self.text(unit)?;
        Ok(())
    }

    fn share(&mut self, share: u64) -> Result<(), AllocError>
        ensures { OnOk result (Puts self.old self.new (share_text share) after_text) }
    {
        self.tenths(100, share, "\u{a0}%")
    }

    fn span(&mut self, ns: u64) -> Result<(), AllocError>
        ensures { OnOk result (Puts self.old self.new (span_text ns) after_text) }
    {
        if ns >= 1_000_000_000 {
            self.tenths(1000, ns / 100_000_000, "\u{a0}s")
        } else if ns >= 1_000_000 {
            self.tenths(1000, ns / 100_000, "\u{a0}ms")
        } else if ns >= 1_000 {
            self.tenths(1000, ns / 100, "\u{a0}µs")
        } else {
            self.number(ns)?;
            self.text("\u{a0}ns")?;
            Ok(())
        }
    }

    fn mean(&mut self, mean: u64) -> Result<(), AllocError>
        ensures { OnOk result (Puts self.old self.new (mean_text mean) after_text) }
    {
        self.count(mean / 1000)?;
        self.text(".")?;
        self.number(mean % 1000 / 100)?;
        Ok(())
    }

    fn part(&mut self, part: &Part) -> Result<(), AllocError>
        ensures { OnOk result (Puts self.old self.new (bit_text (bit_of part.now)) (after_bit (bit_of part.now))) }
    {
        match *part {
            Part::Text(text) => self.text(text),
            Part::Number(number) => self.number(number),
            Part::Count(number) => self.count(number),
            Part::Share(share) => self.share(share),
            Part::Span(ns) => self.span(ns),
            Part::Mean(mean) => self.mean(mean),
            Part::Open(tag) => self.mark(Mark::Open(tag)),
            Part::End => self.mark(Mark::End),
            Part::Close(tag) => self.mark(Mark::Close(tag)),
            Part::Start(tag) => self.start(tag),
            Part::Class(tag, class) => self.class(tag, class),
            Part::With(attr, value) => self.attr(attr, value),
            Part::WithNumber(attr, value) => self.number_attr(attr, value),
            Part::Value(attr) => self.mark(Mark::Attr(attr)),
            Part::Quote => self.mark(Mark::Quote),
        }
    }

    /// Puts parts after the text, one after the other. After an error a front of them stands there.
    pub fn put(&mut self, parts: &[Part]) -> Result<(), AllocError>
        ensures { OnOk result (Writes self.old self.new (map bit_of parts.now)) }
    {
        for part in parts {
            self.part(part)?;
        }
        Ok(())
    }

    /// The text, which goes on between tags.
    pub fn into_bytes(self) -> Vec<u8>
        requires { self.place ≡ Some Place.Text }
        ensures text { result.items ≡ self.text }
        ensures woven { ∥ Woven result.items Place.Text ∥₁ }
    {
        let Paper { bytes, place: _ } = self;
        bytes
    }
}
