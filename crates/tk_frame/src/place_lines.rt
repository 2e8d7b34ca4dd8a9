//! The lines of places.
ghost use Rattle.std.specs.Prelude.{◌≡◌, ◌∷◌, [], take, IfOk, OnOk, string_bytes};
ghost use Rattle.tk_screen.specs.Texts.{Puts, right};
ghost use Rattle.tk_frame.specs.Lines as texts;
ghost use Rattle.tk_frame.specs.Pages.{places_text};
ghost use Rattle.tk_frame.specs.PlaceLines as spec;
ghost use Rattle.tk_frame.specs.Queries.{places_by};

use crate::cells::{end_of, put_bytes, put_cell, put_text, put_time, put_value};
use crate::lines::{push_heading, ranks_on};
use crate::odd::Odd;
use crate::pages::{Page, put_places};
use crate::place_ranks::top_places;
use crate::places::Figures;
use crate::query::Query;
use crate::site_parts::{location_in, name_in};
use std::alloc::{AllocError, Global};
use tk_screen::{Line, Ranked, Style, put_duration, put_right};
use tk_sites::Sums;

// ---- a place

/// The columns of places.
pub(crate) fn place_heading() -> &'static str
    ensures { result.now ≡ spec.place_heading }
{
    " PLACE           NAME       OPEN WAIT      RAN  LONGEST  POLLS   WAITED  HELD UP"
}

fn open_tasks(sums: &Sums) -> u64
    ensures { result ≡ spec.open_tasks sums.now }
{
    sums.idle
        .saturating_add(sums.scheduled)
        .saturating_add(sums.polling)
}

// The begin of a text, of at most so many bytes.
fn front_of(width: usize, text: &[u8]) -> &[u8]
    ensures { result.now ≡ take width text.now }
{
    match text.get(..width) {
        Some(front) => front,
        None => text,
    }
}

fn put_where(out: &mut String, site: &[u8]) -> Result<(), AllocError>
    ensures { OnOk result (Puts (string_bytes out.old) (string_bytes out.new) (spec.where_text site.now)) }
{
    put_bytes(out, end_of(15, location_in(site)), 15)?;
    put_bytes(out, front_of(10, name_in(site)), 10)?;
    Ok(())
}

/// Puts a time, where one is known.
pub(crate) fn put_known(out: &mut String, nanos: u64) -> Result<(), AllocError>
    ensures { OnOk result (Puts (string_bytes out.old) (string_bytes out.new) (spec.known_text nanos)) }
{
    if nanos == 0 {
        put_text(out, "-")
    } else {
        put_duration(out, nanos)
    }
}

// Puts a time in a column, where one is known.
fn put_known_cell(out: &mut String, room: &mut String, nanos: u64) -> Result<(), AllocError>
    ensures { OnOk result (Puts (string_bytes out.old) (string_bytes out.new) (texts.cell 8 (spec.known_text nanos))) }
{
    room.clear();
    put_known(room, nanos)?;
    put_cell(out, room.as_str(), 8)
}

// The same in the last column.
fn put_known_last(out: &mut String, room: &mut String, nanos: u64) -> Result<(), AllocError>
    ensures { OnOk result (Puts (string_bytes out.old) (string_bytes out.new) (right 8 (spec.known_text nanos))) }
{
    room.clear();
    put_known(room, nanos)?;
    put_right(out, room.as_str(), 8)
}

fn put_figures(out: &mut String, room: &mut String, figures: &Figures) -> Result<(), AllocError>
    ensures { OnOk result (Puts (string_bytes out.old) (string_bytes out.new) (spec.figures_text figures.now)) }
{
    let sums = figures.sums;
    let open = open_tasks(&sums);
    put_value(out, room, &open, 4)?;
    put_value(out, room, &sums.scheduled, 4)?;
    put_time(out, room, sums.busy, 8)?;
    put_known_cell(out, room, figures.longest)?;
    put_value(out, room, &sums.polls, 6)?;
    put_time(out, room, sums.waited, 8)?;
    put_known_last(out, room, figures.held_up)?;
    Ok(())
}

fn mark_of(chosen: bool) -> &'static str
    ensures { result.now ≡ spec.mark_of chosen }
{
    if chosen { ">" } else { " " }
}

fn style_of(chosen: bool) -> Style
    ensures { result ≡ spec.style_of chosen }
{
    if chosen { Style::Heading } else { Style::Plain }
}

fn put_place(
    out: &mut String,
    room: &mut String,
    chosen: bool,
    site: &[u8],
    figures: &Figures,
) -> Result<(), AllocError>
    ensures { OnOk result (Puts (string_bytes out.old) (string_bytes out.new) (spec.place_text chosen (site.now, figures.now))) }
{
    put_text(out, mark_of(chosen))?;
    put_where(out, site)?;
    put_figures(out, room, figures)?;
    Ok(())
}

/// The line of a place, which is chosen or not.
pub(crate) fn place_line(
    alloc: Global,
    chosen: bool,
    site: &[u8],
    figures: &Figures,
) -> Result<Line, AllocError>
    ensures { IfOk result (λ line. line ≡ spec.place_line chosen (site.now, figures.now)) }
{
    let mut text = String::new(alloc);
    let mut room = String::new(alloc);
    put_place(&mut text, &mut room, chosen, site, figures)?;
    Ok(Line::new(style_of(chosen), text))
}

// ---- a page of places

fn is_chosen(chosen: Option<usize>, row: usize) -> bool
    ensures { result ≡ spec.is_chosen chosen row }
{
    match chosen {
        Some(chosen) => chosen == row,
        None => false,
    }
}

fn push_place(
    lines: &mut Vec<Line>,
    alloc: Global,
    odd: &Odd,
    recent: bool,
    chosen: Option<usize>,
    row: usize,
    ranked: &Ranked,
) -> Result<(), AllocError>
    ensures { OnOk result (Puts lines.old.items lines.new.items (spec.place_row (places_by recent odd.now) chosen row ranked.now)) }
{
    if let Some((site, figures)) = odd.place_at(recent, ranked.place) {
        lines.push(place_line(alloc, is_chosen(chosen, row), site, &figures)?)?;
    }
    Ok(())
}

fn push_rows(
    lines: &mut Vec<Line>,
    alloc: Global,
    odd: &Odd,
    recent: bool,
    chosen: Option<usize>,
    top: &[Ranked],
) -> Result<(), AllocError>
    ensures { OnOk result (Puts lines.old.items lines.new.items (spec.place_rows (places_by recent odd.now) chosen top.now)) }
{
    for (i, ranked) in top.iter().enumerate() {
        push_place(lines, alloc, odd, recent, chosen, i, ranked)?;
    }
    Ok(())
}

fn push_count(lines: &mut Vec<Line>, alloc: Global, page: Page) -> Result<(), AllocError>
    ensures { OnOk result (Puts lines.old.items lines.new.items (texts.plain (places_text page) ∷ [])) }
{
    let mut text = String::new(alloc);
    put_places(&mut text, page)?;
    lines.push(Line::new(Style::Plain, text))?;
    Ok(())
}

/// Pushes the places on a page, of which one row may be chosen, and how many there are.
pub(crate) fn push_places(
    lines: &mut Vec<Line>,
    alloc: Global,
    odd: &Odd,
    query: &Query<'_>,
    page: Page,
    chosen: Option<usize>,
) -> Result<(), AllocError>
    ensures { OnOk result (Puts lines.old.items lines.new.items (spec.places_part chosen query.now odd.now page)) }
{
    let top = top_places(alloc, odd, query, page.to)?;
    push_heading(lines, alloc, place_heading())?;
    let recent = query.recent;
    push_rows(
        lines,
        alloc,
        odd,
        recent,
        chosen,
        ranks_on(top.items(), page),
    )?;
    push_count(lines, alloc, page)?;
    Ok(())
}
